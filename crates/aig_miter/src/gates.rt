//! The gates that a miter has beside those of its circuits.
ghost use Rattle.std.specs.Prelude.{◌≡◌, ◌+◌, ◌*◌, ◌++◌, ◌≤◌, ◌∷◌, [], length, map, min, OnOk};
ghost use Rattle.std.specs.List.{All};
ghost use Rattle.aig_circuit.specs.declared.circuit.TheConstants.{LARGEST};
ghost use Rattle.aig_unroll.specs.Unrolled.{gate_of};
ghost use Rattle.aig_circuit.specs.Literal.{negation_of};
ghost use Rattle.aig_miter.specs.Miter.{differences, differing, tied};
ghost use Rattle.aig_miter.specs.Starts.{gates_with, negations};

use aig_circuit::{Gate, Listing, Lit, Var};
use std::alloc::AllocError;

#[inline(always)]
fn make_gate(variable: u32, one: Lit, other: Lit) -> Gate
    ensures { result ≡ gate_of variable one other }
{
    Gate {
        var: Var(variable),
        left: Lit(one.0.max(other.0)),
        right: Lit(one.0.min(other.0)),
    }
}

/// Adds gates that give variables the values of inputs, place by place.
pub(crate) fn put_ties(
    inputs: &[Var],
    variables: &[Var],
    gates: &mut Listing<Gate>,
) -> Result<(), AllocError>
    requires many { length inputs.now ≡ length variables.now }
    requires small { All (λ v. v ≤ LARGEST) inputs.now }
    ensures { OnOk result
        (gates.new ≡ gates.old ++ tied inputs.now variables.now) }
{
    for i in 0..inputs.len() {
        let input = inputs[i];
        gates.push(Gate {
            var: variables[i],
            left: Lit(2 * input.0),
            right: Lit(1),
        })?;
    }
    Ok(())
}

/// Adds the three gates of a pair of literals, their variables from this one on.
fn put_difference(
    variable: u32,
    one: Lit,
    other: Lit,
    gates: &mut Listing<Gate>,
) -> Result<(), AllocError>
    requires { variable + 2 ≤ LARGEST }
    ensures { OnOk result (gates.new
        ≡ gates.old ++ differing variable (one ∷ []) (other ∷ [])) }
{
    let ones = Lit(2 * variable);
    let zeros = Lit(2 * variable + 2);
    gates.push(make_gate(variable, one, other))?;
    gates.push(make_gate(variable + 1, one.negated(), other.negated()))?;
    gates.push(make_gate(variable + 2, ones.negated(), zeros.negated()))?;
    Ok(())
}

/// Adds the gates of pairs of literals, place by place, their variables from this one on, and for
/// each pair the literal that is 1 where the two differ.
pub(crate) fn put_differences(
    first: u32,
    ones: &[Lit],
    others: &[Lit],
    gates: &mut Listing<Gate>,
    differ: &mut Listing<Lit>,
) -> Result<(), AllocError>
    requires room { first + 3 * min (length ones.now) (length others.now) ≤ LARGEST + 1 }
    ensures gates { OnOk result (gates.new
        ≡ gates.old ++ differing first ones.now others.now) }
    ensures differ { OnOk result (differ.new
        ≡ differ.old ++ differences first ones.now others.now) }
{
    let mut variable = first;
    for i in 0..ones.len().min(others.len()) {
        put_difference(variable, ones[i], others[i], gates)?;
        differ.push(Lit(2 * (variable + 2)))?;
        variable += 3;
    }
    Ok(())
}

/// Adds a gate for each literal, of this one and of it, their variables from this one on, and for
/// each gate the constraint that it is not 1.
pub(crate) fn put_gates_with(
    first: u32,
    literal: Lit,
    others: &[Lit],
    gates: &mut Listing<Gate>,
    constraints: &mut Listing<Lit>,
) -> Result<(), AllocError>
    requires room { first + length others.now ≤ LARGEST + 1 }
    ensures gates { OnOk result (gates.new
        ≡ gates.old ++ gates_with first literal others.now) }
    ensures constraints { OnOk result (constraints.new
        ≡ constraints.old ++ negations first others.now) }
{
    let mut variable = first;
    for i in 0..others.len() {
        gates.push(make_gate(variable, literal, others[i]))?;
        constraints.push(Lit(2 * variable).negated())?;
        variable += 1;
    }
    Ok(())
}

/// Adds the negations of literals.
pub(crate) fn put_negations(literals: &[Lit], out: &mut Listing<Lit>) -> Result<(), AllocError>
    ensures { OnOk result (out.new ≡ out.old ++ map negation_of literals.now) }
{
    for literal in literals {
        out.push(literal.negated())?;
    }
    Ok(())
}
