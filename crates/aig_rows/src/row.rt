//! Rows: lines of numbers, and what they mean.
ghost use Rattle.std.specs.Prelude.{◌≡◌, ◌+◌, ◌*◌, ◌^◌, ◌<◌, ◌≤◌, ℕ, List, [], ◌∷◌};
ghost use Rattle.std.specs.Prelude.{Ok, IfOk, IfSome, OnErr, length};
ghost use Rattle.std.specs.Prelude.{slice_index, IsTrue, None};
ghost use Rattle.aig_circuit.specs.Wellformed.{largest_index};
ghost use Rattle.aig_lines.specs.Lines.{ahead, line as line_of, lines_of};
ghost use Rattle.aig_rows.specs.Rows.{Form, input_form, latch_form, literal_form, size_form};
ghost use Rattle.aig_rows.specs.Rows.{gate_form, next_form, input_of, latch_of, literal_in};
ghost use Rattle.aig_rows.specs.Rows.{size_of, gate_of, next_of, reset_of};
ghost use Rattle.aig_rows.specs.Outcomes.{AreBounded, GivesOrFails, row_meant};
ghost use Rattle.aig_rows.specs.Reading.{misdefines, exceeds, misresets, oversizes};
ghost use Rattle.aig_rows.specs.Reading.{own_literal, carried_on};
ghost use Rattle.aig_rows.specs.Reading.{any_number, fault_in_row, row_of, row_at};
ghost use Rattle.aig_rows.specs.Parts.Right.{is_right};

use crate::number::{front_number, numbers, plain_numbers, short_number_before};
use aig_circuit::{Gate, Latch, Lit, Reset, Var};
use aig_fault::{Kind, Stopped, refused_at};
use aig_lines::{Cursor, Line, split_line};
use std::marker::Model;

/// What a number of a row is.
#[derive(Clone, Copy)]
pub enum Role {
    /// The literal of a variable that is defined here: even, and no constant.
    Definition,
    /// A literal.
    Literal,
    /// What a latch starts at: 0, 1, or the literal of the latch.
    Reset,
    /// How many literals a justice property has. It is judged with the sum of those before it.
    Size,
}

/// What a line of numbers has to hold: one of the first role, and then `least` or more of the
/// others. A number that is left out is 0.
#[derive(Clone, Copy)]
pub struct RowForm<const N: usize> {
    /// What the first number is.
    pub first: Role,
    /// What each of the others is.
    pub others: [Role; N],
    /// How many of the others are never left out.
    pub least: usize,
}

impl<const N: usize> Model for RowForm<N> {
    ghost use Rattle.aig_rows.specs.Rows.{Form};

    ghost Value = { Form };

    ghost use Rattle.std.specs.Prelude.{◌≡◌, ◌≤◌, length};

    ghost view = { λ form.
        record { first = form.first; others = form.others; least = form.least } };

    ghost inverse = { λ form.
        record { first = form.first; others = form.others; least = form.least } };

    ghost invariant = { λ form. (form.least ≤ N) × (length form.others ≡ N) };
}

/// The line of an input: its literal.
const INPUT: RowForm<0> = RowForm {
    first: Role::Definition,
    others: [],
    least: 0,
};

/// The line of a latch: its literal, what it becomes and what it starts at.
const LATCH: RowForm<2> = RowForm {
    first: Role::Definition,
    others: [Role::Literal, Role::Reset],
    least: 1,
};

/// The line of a latch in a binary file: what it becomes and what it starts at.
const NEXT: RowForm<1> = RowForm {
    first: Role::Literal,
    others: [Role::Reset],
    least: 0,
};

/// The line of a literal that is listed by itself.
const LITERAL: RowForm<0> = RowForm {
    first: Role::Literal,
    others: [],
    least: 0,
};

/// The line of a size.
const SIZE: RowForm<0> = RowForm {
    first: Role::Size,
    others: [],
    least: 0,
};

/// The line of a gate: its literal and its operands.
const GATE: RowForm<2> = RowForm {
    first: Role::Definition,
    others: [Role::Literal, Role::Literal],
    least: 2,
};

/// What a latch becomes and what it starts at, as its line in a binary file tells.
#[derive(Clone, Copy)]
pub struct NextState {
    /// The literal of the next state.
    pub next: Lit,
    /// What the state is in the first step.
    pub reset: Reset,
}

/// What one line of numbers means: an entry of a section. It is judged beside the largest index, or
/// what sizes may add up to (`bound`), and beside `carried`, the value from the line before: of
/// sizes the sum so far, and elsewhere the literal of the line's variable in a binary file.
pub trait FromRow: Copy {
    /// What the line has to hold.
    ghost form: { Form };

    /// The entry that the line's numbers mean.
    ghost meant_by: { List ℕ → Self };

    /// Reads the next line, if it is right and has short numbers in plain spelling, as most rows
    /// do; also what follows it.
    fn read_short(bytes: &[u8], bound: u32, carried: u64) -> Option<(Self, &[u8])>
        requires { bound ≤ largest_index }
        ensures row { (number : ℕ) → IfSome result (λ x.
            row_meant meant_by (row_at form bound carried (ahead number (lines_of bytes.now)))
            ≡ Ok (x.0, ahead (number + 1) (lines_of x.1.now))) }
        ensures shorter { IfSome result (λ x. length x.1.now < length bytes.now) };

    /// Reads the next line, and moves past it, unless it is not right.
    fn read_row(at: &mut Cursor, bound: u32, carried: u64) -> Result<Self, Stopped>
        requires bound { bound ≤ largest_index }
        requires carried { carried ≤ 2 ^ 35 }
        ensures { GivesOrFails (λ row. (row, at.new)) result
            (row_meant meant_by (row_at form bound carried at.old)) };

    /// What is carried to the next line.
    fn carry(self, carried: u64) -> u64
        requires { carried ≤ 2 ^ 35 }
        ensures { (ns : List ℕ) → meant_by ns ≡ self
            → result ≡ carried_on form.first carried (slice_index ns 0) };
}

/// Whether a number cannot be the definition that it stands for.
#[inline(always)]
fn misdefines(role: Role, number: u64) -> bool
    ensures { result ≡ misdefines role number }
{
    match role {
        Role::Definition => number % 2 == 1 || number < 2,
        Role::Literal | Role::Reset | Role::Size => false,
    }
}

/// Whether a number is a literal above what may stand there.
#[inline(always)]
fn exceeds(bound: u32, role: Role, number: u64) -> bool
    ensures { result ≡ exceeds bound role number }
{
    match role {
        Role::Definition | Role::Literal => number > 2 * u64::from(bound) + 1,
        Role::Reset | Role::Size => false,
    }
}

/// Whether a number is a reset that is neither a constant nor the latch's own literal.
#[inline(always)]
fn misresets(own: u64, role: Role, number: u64) -> bool
    ensures { result ≡ misresets own role number }
{
    match role {
        Role::Reset => number >= 2 && number != own,
        Role::Definition | Role::Literal | Role::Size => false,
    }
}

/// Whether a number is a size that makes the sum of those before it too large.
#[inline(always)]
fn oversizes(limit: u32, before: u64, role: Role, number: u64) -> bool
    ensures { result ≡ oversizes limit before role number }
{
    let limit = u64::from(limit);
    match role {
        Role::Size => before > limit || number > limit - before,
        Role::Definition | Role::Literal | Role::Reset => false,
    }
}

/// The literal of the variable that a row is for, where this is its first number.
#[inline(always)]
fn own_literal(role: Role, carried: u64, number: u64) -> u64
    ensures { result ≡ own_literal role carried number }
{
    match role {
        Role::Definition => number,
        Role::Literal | Role::Reset | Role::Size => carried,
    }
}

/// Whether one of the numbers cannot be the definition that it stands for.
fn any_misdefines(roles: &[Role], numbers: &[u64]) -> bool
    ensures { result ≡ any_number misdefines roles.now numbers.now }
{
    roles
        .iter()
        .zip(numbers)
        .any(|(role, number)| misdefines(*role, *number))
}

/// Whether one of the numbers is a literal above what may stand there.
fn any_exceeds(bound: u32, roles: &[Role], numbers: &[u64]) -> bool
    ensures { result ≡ any_number (exceeds bound) roles.now numbers.now }
{
    roles
        .iter()
        .zip(numbers)
        .any(|(role, number)| exceeds(bound, *role, *number))
}

/// Whether one of the numbers is a reset that is neither a constant nor the latch's own literal.
fn any_misresets(own: u64, roles: &[Role], numbers: &[u64]) -> bool
    ensures { result ≡ any_number (misresets own) roles.now numbers.now }
{
    roles
        .iter()
        .zip(numbers)
        .any(|(role, number)| misresets(own, *role, *number))
}

/// Whether one of the numbers is a size that makes the sum of those before it too large.
fn any_oversizes(limit: u32, before: u64, roles: &[Role], numbers: &[u64]) -> bool
    ensures { result ≡ any_number (oversizes limit before) roles.now numbers.now }
{
    roles
        .iter()
        .zip(numbers)
        .any(|(role, number)| oversizes(limit, before, *role, *number))
}

/// What is wrong with the numbers of a row, the first apart from the others.
fn row_fault(
    bound: u32,
    carried: u64,
    role: Role,
    others: &[Role],
    first: u64,
    more: &[u64],
) -> Option<Kind>
    ensures { result ≡ fault_in_row (record { first = role; others = others.now; least = 0 })
        bound carried (first ∷ more.now) }
{
    if misdefines(role, first) || any_misdefines(others, more) {
        return Some(Kind::NotVariable);
    }
    if exceeds(bound, role, first) || any_exceeds(bound, others, more) {
        return Some(Kind::LiteralRange);
    }
    let own = own_literal(role, carried, first);
    if misresets(own, role, first) || any_misresets(own, others, more) {
        return Some(Kind::BadReset);
    }
    if oversizes(bound, carried, role, first) || any_oversizes(bound, carried, others, more) {
        return Some(Kind::TooLarge);
    }
    None
}

/// What a latch starts at by the number that says it.
#[inline(always)]
fn reset_of(number: u64) -> Reset
    ensures { result ≡ reset_of number }
{
    match number {
        0 => Reset::Zero,
        1 => Reset::One,
        _ => Reset::Uninit,
    }
}

/// The numbers of the row that a line holds, the first apart from the others.
fn row_numbers<const N: usize>(
    form: RowForm<N>,
    line: Line,
    bound: u32,
    carried: u64,
) -> Result<(u64, [u64; N]), Kind>
    requires bound { bound ≤ largest_index }
    requires carried { carried ≤ 2 ^ 35 }
    ensures row { GivesOrFails (λ x. x.0 ∷ x.1) result
        (row_of form.entry bound carried (line_of line.entry.text.now line.entry.ended)) }
    ensures bounded { IfOk result (λ x. AreBounded form.entry bound x.0 x.1) }
{
    let Some(found) = numbers::<N>(line, form.least) else {
        return Err(Kind::BadLine);
    };
    let first = found.0;
    let more = found.1;
    match row_fault(bound, carried, form.first, &form.others, first, &more) {
        Some(kind) => Err(kind),
        None => Ok((first, more)),
    }
}

/// The numbers of the row that the next line holds, however it is spelled, or its fault.
#[cold]
#[inline(never)]
fn lenient_row<const N: usize>(
    form: RowForm<N>,
    at: &mut Cursor,
    bound: u32,
    carried: u64,
) -> Result<(u64, [u64; N]), Stopped>
    requires bound { bound ≤ largest_index }
    requires carried { carried ≤ 2 ^ 35 }
    ensures row { GivesOrFails (λ x. (x.0 ∷ x.1, at.new)) result
        (row_at form.entry bound carried at.old) }
    ensures bounded { IfOk result (λ x. AreBounded form.entry bound x.0 x.1) }
    ensures err { OnErr result (at.new ≡ at.old) }
{
    let Some((line, rest)) = split_line(at.rest) else {
        return Err(refused_at(Kind::Truncated, at.number));
    };
    match row_numbers::<N>(form, line, bound, carried) {
        Ok(found) => {
            let number = at.number + 1;
            *at = Cursor { rest, number };
            Ok(found)
        }
        Err(kind) => Err(refused_at(kind, at.number)),
    }
}

/// Whether a number is right in its role, in the row of this literal's variable, with this carried.
#[inline(always)]
fn is_right(bound: u32, own: u64, carried: u64, role: Role, number: u64) -> bool
    ensures { result ≡ is_right bound own carried role number }
{
    !misdefines(role, number)
        && !exceeds(bound, role, number)
        && !misresets(own, role, number)
        && !oversizes(bound, carried, role, number)
}

/// Whether a row's numbers are right, all in one pass; `row_fault` finds what is wrong with others.
#[inline(always)]
fn is_right_row<const N: usize>(
    form: RowForm<N>,
    bound: u32,
    carried: u64,
    first: u64,
    more: &[u64; N],
) -> bool
    ensures { IsTrue result → fault_in_row form.entry bound carried (first ∷ more.now) ≡ None }
{
    let own = own_literal(form.first, carried, first);
    if !is_right(bound, own, carried, form.first, first) {
        return false;
    }
    for at in 0..N {
        if !is_right(bound, own, carried, form.others[at], more[at]) {
            return false;
        }
    }
    true
}

/// The numbers of a good row, plainly spelled, and what follows it; or only where all are short.
#[inline(always)]
fn plain_row<const N: usize>(
    form: RowForm<N>,
    bytes: &[u8],
    bound: u32,
    carried: u64,
    short: bool,
) -> Option<((u64, [u64; N]), &[u8])>
    requires { bound ≤ largest_index }
    ensures row { (number : ℕ) → IfSome result (λ x.
        row_at form.entry bound carried (ahead number (lines_of bytes.now))
        ≡ Ok (x.0.0 ∷ x.0.1, ahead (number + 1) (lines_of x.1.now))) }
    ensures shorter { IfSome result (λ x. length x.1.now < length bytes.now) }
    ensures bounded { IfSome result (λ x. AreBounded form.entry bound x.0.0 x.0.1) }
{
    let (first, behind, rest) = front_number(bytes, short)?;
    let Some(found) = plain_numbers::<N>(behind, rest, form.least, short) else {
        return None;
    };
    let more = found.0;
    let rest = found.1;
    if !is_right_row::<N>(form, bound, carried, first, &more) {
        return None;
    }
    Some(((first, more), rest))
}

/// The numbers of the row that the next line holds. Most of them are in plain spelling.
#[inline(always)]
pub(crate) fn next_row<const N: usize>(
    form: RowForm<N>,
    at: &mut Cursor,
    bound: u32,
    carried: u64,
) -> Result<(u64, [u64; N]), Stopped>
    requires bound { bound ≤ largest_index }
    requires carried { carried ≤ 2 ^ 35 }
    ensures row { GivesOrFails (λ x. (x.0 ∷ x.1, at.new)) result
        (row_at form.entry bound carried at.old) }
    ensures bounded { IfOk result (λ x. AreBounded form.entry bound x.0 x.1) }
    ensures err { OnErr result (at.new ≡ at.old) }
{
    match plain_row::<N>(form, at.rest, bound, carried, false) {
        Some((found, rest)) => {
            let number = at.number + 1;
            *at = Cursor { rest, number };
            Ok(found)
        }
        None => lenient_row::<N>(form, at, bound, carried),
    }
}

impl FromRow for Var {
    ghost form = { input_form };

    ghost meant_by = { input_of };

    #[inline(always)]
    fn read_short(bytes: &[u8], bound: u32, carried: u64) -> Option<(Var, &[u8])> {
        let (found, rest) = plain_row::<0>(INPUT, bytes, bound, carried, true)?;
        Some((Var((found.0 / 2) as u32), rest))
    }

    #[inline(never)]
    fn read_row(at: &mut Cursor, bound: u32, carried: u64) -> Result<Var, Stopped> {
        // For a `?` here, and in the rows below, the kit's borrow checker makes no proof.
        match next_row::<0>(INPUT, at, bound, carried) {
            Ok(found) => Ok(Var((found.0 / 2) as u32)),
            Err(fault) => Err(fault),
        }
    }

    #[inline(always)]
    fn carry(self, carried: u64) -> u64 {
        carried
    }
}

/// The latch of these numbers, where they are right.
#[inline(always)]
fn right_latch(bound: u32, carried: u64, first: u64, next: u64, reset: u64) -> Option<Latch>
    requires { bound ≤ largest_index }
    ensures right { IfSome result (λ _.
        fault_in_row latch_form bound carried (first ∷ next ∷ reset ∷ []) ≡ None) }
    ensures latch { IfSome result (λ latch. latch ≡ latch_of (first ∷ next ∷ reset ∷ [])) }
{
    if !is_right_row::<2>(LATCH, bound, carried, first, &[next, reset]) {
        return None;
    }
    Some(Latch {
        var: Var((first / 2) as u32),
        next: Lit(next as u32),
        reset: reset_of(reset),
    })
}

impl FromRow for Latch {
    ghost form = { latch_form };

    ghost meant_by = { latch_of };

    #[inline(always)]
    fn read_short(bytes: &[u8], bound: u32, carried: u64) -> Option<(Latch, &[u8])> {
        let (first, behind) = short_number_before(bytes, b' ')?;
        // most files have no resets, and this path none of their tests
        if let Some((next, rest)) = short_number_before(behind, b'\n') {
            let latch = right_latch(bound, carried, first, next, 0)?;
            return Some((latch, rest));
        }
        let (next, behind) = short_number_before(behind, b' ')?;
        let (reset, rest) = short_number_before(behind, b'\n')?;
        let latch = right_latch(bound, carried, first, next, reset)?;
        Some((latch, rest))
    }

    #[inline(never)]
    fn read_row(at: &mut Cursor, bound: u32, carried: u64) -> Result<Latch, Stopped> {
        match next_row::<2>(LATCH, at, bound, carried) {
            Ok(found) => {
                let [next, reset] = found.1;
                Ok(Latch {
                    var: Var((found.0 / 2) as u32),
                    next: Lit(next as u32),
                    reset: reset_of(reset),
                })
            }
            Err(fault) => Err(fault),
        }
    }

    #[inline(always)]
    fn carry(self, carried: u64) -> u64 {
        carried
    }
}

/// What a latch becomes and starts at by these numbers, where they are right.
#[inline(always)]
fn right_state(bound: u32, carried: u64, next: u64, reset: u64) -> Option<NextState>
    requires { bound ≤ largest_index }
    ensures right { IfSome result (λ _.
        fault_in_row next_form bound carried (next ∷ reset ∷ []) ≡ None) }
    ensures state { IfSome result (λ state. state ≡ next_of (next ∷ reset ∷ [])) }
{
    if !is_right_row::<1>(NEXT, bound, carried, next, &[reset]) {
        return None;
    }
    Some(NextState {
        next: Lit(next as u32),
        reset: reset_of(reset),
    })
}

impl FromRow for NextState {
    ghost form = { next_form };

    ghost meant_by = { next_of };

    #[inline(always)]
    fn read_short(bytes: &[u8], bound: u32, carried: u64) -> Option<(NextState, &[u8])> {
        // most files have no resets, and this path none of their tests
        if let Some((next, rest)) = short_number_before(bytes, b'\n') {
            let state = right_state(bound, carried, next, 0)?;
            return Some((state, rest));
        }
        let (next, behind) = short_number_before(bytes, b' ')?;
        let (reset, rest) = short_number_before(behind, b'\n')?;
        let state = right_state(bound, carried, next, reset)?;
        Some((state, rest))
    }

    #[inline(never)]
    fn read_row(at: &mut Cursor, bound: u32, carried: u64) -> Result<NextState, Stopped> {
        match next_row::<1>(NEXT, at, bound, carried) {
            Ok(found) => {
                let [reset] = found.1;
                Ok(NextState {
                    next: Lit(found.0 as u32),
                    reset: reset_of(reset),
                })
            }
            Err(fault) => Err(fault),
        }
    }

    #[inline(always)]
    fn carry(self, carried: u64) -> u64 {
        carried + 2
    }
}

impl FromRow for Lit {
    ghost form = { literal_form };

    ghost meant_by = { literal_in };

    #[inline(always)]
    fn read_short(bytes: &[u8], bound: u32, carried: u64) -> Option<(Lit, &[u8])> {
        let (found, rest) = plain_row::<0>(LITERAL, bytes, bound, carried, true)?;
        Some((Lit(found.0 as u32), rest))
    }

    #[inline(never)]
    fn read_row(at: &mut Cursor, bound: u32, carried: u64) -> Result<Lit, Stopped> {
        match next_row::<0>(LITERAL, at, bound, carried) {
            Ok(found) => Ok(Lit(found.0 as u32)),
            Err(fault) => Err(fault),
        }
    }

    #[inline(always)]
    fn carry(self, carried: u64) -> u64 {
        carried + 2
    }
}

/// A size.
impl FromRow for u32 {
    ghost form = { size_form };

    ghost meant_by = { size_of };

    #[inline(always)]
    fn read_short(bytes: &[u8], bound: u32, carried: u64) -> Option<(u32, &[u8])> {
        let (found, rest) = plain_row::<0>(SIZE, bytes, bound, carried, true)?;
        Some((found.0 as u32, rest))
    }

    #[inline(never)]
    fn read_row(at: &mut Cursor, bound: u32, carried: u64) -> Result<u32, Stopped> {
        match next_row::<0>(SIZE, at, bound, carried) {
            Ok(found) => Ok(found.0 as u32),
            Err(fault) => Err(fault),
        }
    }

    #[inline(always)]
    fn carry(self, carried: u64) -> u64 {
        carried + u64::from(self)
    }
}

impl FromRow for Gate {
    ghost form = { gate_form };

    ghost meant_by = { gate_of };

    #[inline(always)]
    fn read_short(bytes: &[u8], bound: u32, carried: u64) -> Option<(Gate, &[u8])> {
        let (found, rest) = plain_row::<2>(GATE, bytes, bound, carried, true)?;
        let [left, right] = found.1;
        let gate = Gate {
            var: Var((found.0 / 2) as u32),
            left: Lit(left as u32),
            right: Lit(right as u32),
        };
        Some((gate, rest))
    }

    #[inline(never)]
    fn read_row(at: &mut Cursor, bound: u32, carried: u64) -> Result<Gate, Stopped> {
        match next_row::<2>(GATE, at, bound, carried) {
            Ok(found) => {
                let [left, right] = found.1;
                Ok(Gate {
                    var: Var((found.0 / 2) as u32),
                    left: Lit(left as u32),
                    right: Lit(right as u32),
                })
            }
            Err(fault) => Err(fault),
        }
    }

    #[inline(always)]
    fn carry(self, carried: u64) -> u64 {
        carried
    }
}
