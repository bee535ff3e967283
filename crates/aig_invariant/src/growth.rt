//! A circuit that grows by the cubes of an invariant.
ghost use Rattle.std.specs.Prelude.{◌≡◌, ◌+◌, ◌<◌, ◌≤◌, ◌∷◌, ◌++◌, [], length, map};
ghost use Rattle.std.specs.Prelude.{IfErr, IfOk, OnOk};
ghost use Rattle.std.specs.List.{All};
ghost use Rattle.aig_circuit.specs.declared.circuit.Latch.{Latch as LatchRecord};
ghost use Rattle.aig_circuit.specs.declared.circuit.TheConstants.{LARGEST};
ghost use Rattle.aig_circuit.specs.Literal.{literal_of};
ghost use Rattle.aig_circuit.specs.Wellformed.{IsWellFormed};
ghost use Rattle.aig_lines.specs.Lines.{lines_of};
ghost use Rattle.aig_unroll.specs.Unrolled.{gate_of};
ghost use Rattle.aig_invariant.specs.Invariant.{asked_literals, conjunction, freed};
ghost use Rattle.aig_invariant.specs.Invariant.{with_conjunction, with_cube, with_cubes};
ghost use Rattle.aig_invariant.specs.Outcome.{IsOverfull};
ghost use Rattle.aig_invariant.specs.Parts.Growing.{AreTheLatches, IsRefused, with_line};
ghost use Rattle.aig_invariant.specs.Parts.Rows.{cubes_at, value_or_x};

use crate::row::{is_passed, row_of};
use aig_core::{Circuit, Gate, LARGEST, Latch, Listing, Lit, Reset, Var};
use aig_fault::{Kind, Stopped, refused_whole};
use aig_lines::split_line;
use std::alloc::{AllocError, Global};

/// What stands for the latches of a circuit: their own literals, and their next ones.
#[derive(Drop)]
pub(crate) struct Latches {
    state: Vec<Lit>,
    next: Vec<Lit>,
}

impl Latches {
    pub(crate) fn new(alloc: Global, latches: &[Latch]) -> Result<Latches, AllocError>
        requires { All (λ (l : LatchRecord). l.var ≤ LARGEST) latches.now }
        ensures state { IfOk result (λ all. all.state.items
            ≡ map (λ (l : LatchRecord). literal_of l.var) latches.now) }
        ensures next { IfOk result (λ all. all.next.items
            ≡ map (λ (l : LatchRecord). l.next) latches.now) }
    {
        let mut state = Vec::with_capacity(alloc, latches.len())?;
        let mut next = Vec::with_capacity(alloc, latches.len())?;
        for latch in latches {
            state.push(Lit(2 * latch.var.0))?;
            next.push(latch.next)?;
        }
        Ok(Latches { state, next })
    }
}

/// Adds the literal that is 1 where this one has the value of a character, if that asks for one.
#[inline(always)]
fn put_value(character: u8, literal: Lit, asked: &mut Vec<Lit>) -> Result<(), AllocError>
    ensures { OnOk result (asked.new.items
        ≡ asked.old.items ++ asked_literals (value_or_x character ∷ []) (literal ∷ [])) }
{
    match character {
        b'0' => asked.push(literal.negated())?,
        b'1' => asked.push(literal)?,
        _ => {}
    }
    Ok(())
}

/// The literals that are 1 where what stands for the latches has the values that a row asks for.
fn put_asked(row: &[u8], literals: &[Lit], asked: &mut Vec<Lit>) -> Result<(), AllocError>
    ensures { OnOk result
        (asked.new.items ≡ asked_literals (map value_or_x row.now) literals.now) }
{
    asked.clear();
    for i in 0..row.len().min(literals.len()) {
        put_value(row[i], literals[i], asked)?;
    }
    Ok(())
}

#[inline(always)]
fn make_gate(variable: u32, one: Lit, other: Lit) -> Gate
    ensures { result ≡ gate_of variable one other }
{
    Gate {
        var: Var(variable),
        left: Lit(one.0.max(other.0)),
        right: Lit(one.0.min(other.0)),
    }
}

/// Adds gates that chain these literals, and answers the literal that is 1 where all of them are.
fn chain(circuit: &mut Circuit, literals: &[Lit]) -> Result<Lit, AllocError>
    requires { circuit.old.max_var + length literals.now ≤ LARGEST }
    ensures grown { OnOk result (circuit.new ≡ with_conjunction literals.now circuit.old) }
    ensures chain { IfOk result (λ chain. chain ≡ conjunction literals.now circuit.old) }
{
    let mut chain = Lit(1);
    for literal in literals {
        circuit.max_var += 1;
        circuit
            .gates
            .push(make_gate(circuit.max_var, chain, *literal))?;
        chain = Lit(2 * circuit.max_var);
    }
    Ok(chain)
}

/// The same, unless there are too many.
fn conjoin(circuit: &mut Circuit, literals: &[Lit]) -> Result<Lit, Stopped>
    ensures grown { OnOk result (circuit.new ≡ with_conjunction literals.now circuit.old) }
    ensures chain { IfOk result (λ chain. chain ≡ conjunction literals.now circuit.old) }
    ensures room { OnOk result (circuit.old.max_var + length literals.now ≤ LARGEST) }
    ensures err { IfErr result
        (IsRefused (LARGEST < circuit.old.max_var + length literals.now)) }
{
    if circuit.max_var as usize + literals.len() > LARGEST as usize {
        return Err(refused_whole(Kind::TooLargeInvariant));
    }
    Ok(chain(circuit, literals)?)
}

/// Adds a literal to a list, unless it has too many.
fn list(literals: &mut Listing<Lit>, literal: Lit) -> Result<(), Stopped>
    ensures listed { OnOk result (literals.new ≡ literals.old ++ literal ∷ []) }
    ensures room { OnOk result (length literals.old < LARGEST) }
    ensures err { IfErr result (IsRefused (LARGEST ≤ length literals.old)) }
{
    if literals.len() >= LARGEST as usize {
        return Err(refused_whole(Kind::TooLargeInvariant));
    }
    literals.push(literal)?;
    Ok(())
}

/// Adds what the cube of a row asks for: the constraint that the state does not meet it, and the
/// bad state that the next one does.
fn add_cube(
    circuit: &mut Circuit,
    latches: &Latches,
    row: &[u8],
    asked: &mut Vec<Lit>,
) -> Result<(), Stopped>
    requires formed { IsWellFormed circuit.old }
    requires latches { AreTheLatches latches.now circuit.old }
    ensures formed { OnOk result (IsWellFormed circuit.new) }
    ensures grown { OnOk result (circuit.new ≡ with_cube (map value_or_x row.now) circuit.old) }
    ensures err { IfErr result
        (IsRefused (IsOverfull (with_cube (map value_or_x row.now) circuit.old))) }
{
    put_asked(row, latches.state.as_slice(), asked)?;
    let met = conjoin(circuit, asked.as_slice())?;
    list(&mut circuit.constraints, met.negated())?;
    put_asked(row, latches.next.as_slice(), asked)?;
    let met_next = conjoin(circuit, asked.as_slice())?;
    list(&mut circuit.bad, met_next)?;
    Ok(())
}

/// Adds what the cube of a line asks for, if the line has one.
fn add_line(
    circuit: &mut Circuit,
    latches: &Latches,
    text: &[u8],
    asked: &mut Vec<Lit>,
) -> Result<(), Stopped>
    requires formed { IsWellFormed circuit.old }
    requires latches { AreTheLatches latches.now circuit.old }
    ensures formed { OnOk result (IsWellFormed circuit.new) }
    ensures grown { OnOk result (circuit.new ≡ with_line text.now circuit.old) }
    ensures err { IfErr result (IsRefused (IsOverfull (with_line text.now circuit.old))) }
{
    if is_passed(text) {
        return Ok(());
    }
    add_cube(circuit, latches, row_of(text), asked)
}

/// Adds what the cubes of an invariant's lines ask for.
fn add_cubes(
    alloc: Global,
    circuit: &mut Circuit,
    latches: &Latches,
    bytes: &[u8],
) -> Result<(), Stopped>
    requires formed { IsWellFormed circuit.old }
    requires latches { AreTheLatches latches.now circuit.old }
    ensures formed { OnOk result (IsWellFormed circuit.new) }
    ensures grown { OnOk result
        (circuit.new ≡ with_cubes (cubes_at (lines_of bytes.now)) circuit.old) }
    ensures err { IfErr result
        (IsRefused (IsOverfull (with_cubes (cubes_at (lines_of bytes.now)) circuit.old))) }
{
    let mut asked = Vec::new(alloc);
    let mut rest = bytes;
    while let Some((line, more)) = split_line(rest) {
        add_line(circuit, latches, line.text, &mut asked)?;
        rest = more;
    }
    Ok(())
}

/// Lets latches start at 0 or at 1.
fn free(latches: &mut [Latch])
    ensures { latches.new ≡ map freed latches.old }
{
    for i in 0..latches.len() {
        latches[i].reset = Reset::Uninit;
    }
}

/// Lets all latches of a circuit start at 0 or at 1.
pub(crate) fn free_latches(circuit: Circuit) -> Circuit
    ensures { result ≡ record circuit { latches = map freed circuit.latches } }
{
    let mut latches = circuit.latches.into_vec();
    free(latches.as_mut_slice());
    Circuit {
        latches: Listing::from_vec(latches),
        ..circuit
    }
}

/// Adds what the cubes of an invariant's lines ask of a circuit.
pub(crate) fn grow(alloc: Global, circuit: &mut Circuit, bytes: &[u8]) -> Result<(), Stopped>
    requires { IsWellFormed circuit.old }
    ensures formed { OnOk result (IsWellFormed circuit.new) }
    ensures grown { OnOk result
        (circuit.new ≡ with_cubes (cubes_at (lines_of bytes.now)) circuit.old) }
    ensures err { IfErr result
        (IsRefused (IsOverfull (with_cubes (cubes_at (lines_of bytes.now)) circuit.old))) }
{
    let latches = Latches::new(alloc, circuit.latches.as_slice())?;
    add_cubes(alloc, circuit, &latches, bytes)
}
