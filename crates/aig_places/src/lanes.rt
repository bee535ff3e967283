//! Tables of values for runs side by side: each literal has a plane, with a bit for each run.
ghost use Rattle.std.specs.Prelude.{◌≡◌, ◌+◌, ◌-◌, ◌*◌, ◌/◌, ◌<◌, ◌≤◌, ℕ, List};
ghost use Rattle.std.specs.Prelude.{length, map, slice_set, if◌then◌else◌};
ghost use Rattle.std.specs.List.{All};
ghost use Rattle.aig_circuit.specs.declared.value.Val.{Val as Value};
ghost use Rattle.aig_circuit.specs.declared.value.Val.TheVariants.{Zero};
ghost use Rattle.aig_circuit.specs.Values.{value_and, value_not};
ghost use Rattle.aig_meaning.specs.Meaning.{literal_value};
ghost use Rattle.aig_places.specs.Tables.{Assigned};
ghost use Rattle.aig_places.specs.Lanes.{IsLane, IsPair, may_be_one};
ghost use Rattle.aig_places.specs.Places.{ArePlaces, IsGateBelow, StandFor};
ghost use Rattle.aig_places.specs.Places.{evaluated_in_turn};
ghost use Rattle.aig_step.specs.Parts.Tables.{IsLiteralBelow, IsPairBelow};
ghost use Rattle.aig_step.specs.Parts.Tables.{evaluated, placed, read_from};

use crate::places::Places;
use crate::planes::{Plane, plane_of};
use aig_circuit::{Gate, Lit, Val, Var};
use aig_step::{Machine, Pair};

#[inline(always)]
fn bits_of(value: Val) -> (bool, bool)
    ensures one { (if result.0 then 1 else 0) ≡ may_be_one value }
    ensures zero { (if result.1 then 1 else 0) ≡ may_be_one (value_not value) }
{
    match value {
        Val::Zero => (false, true),
        Val::One => (true, false),
        Val::X => (true, true),
    }
}

#[inline(always)]
pub fn planes_of(planes: &[Plane], literal: Lit) -> (Plane, Plane)
    requires { IsLiteralBelow (length planes.now / 2) literal }
    ensures { (l : ℕ) (values : List Value) → IsLane l planes.now values
        → IsPair l result.0 result.1 (literal_value (read_from values) literal) }
{
    (
        planes[literal.0 as usize],
        planes[literal.negated().0 as usize],
    )
}

#[inline(always)]
pub fn put_pair(planes: &mut [Plane], variable: usize, one: Plane, zero: Plane)
    requires { 2 * variable + 1 < length planes.old }
    ensures { (l : ℕ) (values : List Value) (x : Value) → IsLane l planes.old values
        → IsPair l one zero x → IsLane l planes.new (slice_set values variable x) }
{
    planes[2 * variable] = one;
    planes[2 * variable + 1] = zero;
}

pub fn put_in_all_lanes(planes: &mut [Plane], variable: usize, value: Val)
    requires { 2 * variable + 1 < length planes.old }
    ensures { (l : ℕ) (values : List Value) → l < 256 → IsLane l planes.old values
        → IsLane l planes.new (slice_set values variable value) }
{
    let (one, zero) = bits_of(value);
    put_pair(planes, variable, plane_of(one), plane_of(zero));
}

/// Puts the values that stand in another table, in each lane, from this variable on.
pub(crate) fn place_lanes(planes: &mut [Plane], first: usize, given: &[Plane])
    requires { 2 * first + length given.now ≤ length planes.old }
    ensures { (l : ℕ) (values before : List Value) → IsLane l planes.old values
        → IsLane l given.now before
        → IsLane l planes.new (placed first before values) }
{
    for i in 0..given.len() / 2 {
        put_pair(planes, first + i, given[2 * i], given[2 * i + 1]);
    }
}

pub fn put_literal_planes(literals: &[Lit], planes: &[Plane], state: &mut [Plane])
    requires room { length state.old ≡ 2 * length literals.now }
    requires below { All (IsLiteralBelow (length planes.now / 2)) literals.now }
    ensures { (l : ℕ) (values before : List Value) → IsLane l planes.now values
        → IsLane l state.old before
        → IsLane l state.new (map (literal_value (read_from values)) literals.now) }
{
    for i in 0..literals.len() {
        let (one, zero) = planes_of(planes, literals[i]);
        put_pair(state, i, one, zero);
    }
}

#[inline(always)]
fn planes_of_gate(planes: &[Plane], pair: Pair) -> (Plane, Plane)
    requires { IsPairBelow (length planes.now / 2) pair }
    ensures { (l : ℕ) (values : List Value) → IsLane l planes.now values
        → IsPair l result.0 result.1 (value_and (literal_value (read_from values) pair.left)
        (literal_value (read_from values) pair.right)) }
{
    let (left, not_left) = planes_of(planes, pair.left);
    let (right, not_right) = planes_of(planes, pair.right);
    (left & right, not_left | not_right)
}

/// The variables of the gates are the last ones of the table.
pub(crate) fn evaluate_lanes(pairs: &[Pair], planes: &mut [Plane])
    requires room { 2 * length pairs.now ≤ length planes.old }
    requires below { All (IsPairBelow (length planes.old / 2)) pairs.now }
    ensures { (l : ℕ) (values : List Value) → IsLane l planes.old values
        → IsLane l planes.new (evaluated
        (length planes.old / 2 - length pairs.now) pairs.now values) }
{
    let mut variable = planes.len() / 2 - pairs.len();
    for pair in pairs {
        let (one, zero) = planes_of_gate(planes, *pair);
        put_pair(planes, variable, one, zero);
        variable += 1;
    }
}

#[inline(always)]
fn place_of(variable: Var) -> usize
    ensures { result ≡ variable }
{
    variable.0 as usize
}

/// The variables of the gates are places of the table.
pub(crate) fn evaluate_gates(gates: &[Gate], planes: &mut [Plane])
    requires { All (IsGateBelow (length planes.old / 2)) gates.now }
    ensures { (l : ℕ) (values : List Value) → IsLane l planes.old values
        → IsLane l planes.new (evaluated_in_turn gates.now values) }
{
    for gate in gates {
        let pair = Pair {
            left: gate.left,
            right: gate.right,
        };
        let (one, zero) = planes_of_gate(planes, pair);
        put_pair(planes, place_of(gate.var), one, zero);
    }
}

/// Fills a table with the values of a step in each lane, where it has those of the constant and of
/// the inputs.
pub fn assign_lanes(machine: &Machine, places: &Places, state: &[Plane], table: &mut [Plane])
    requires places { ArePlaces machine.now places.now }
    requires each_latch { length state.now ≡ 2 * length machine.now.latches }
    requires room { length table.old ≡ 2 * places.now.count }
    ensures { (l : ℕ) (given values before : List Value) (literals seen : List ℕ)
        → StandFor machine.now places.now literals seen
        → length given ≡ length machine.now.inputs
        → IsLane l table.old (placed 1 given (slice_set values 0 Zero)) → IsLane l state.now before
        → Assigned machine.now l places.now.count before given literals seen table.new }
{
    let parts = machine.parts();
    let _pairs = machine.pairs(); // for the proof
    place_lanes(table, 1 + parts.inputs.len(), state);
    places.evaluate(machine, table);
}
