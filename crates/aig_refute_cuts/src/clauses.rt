//! The clauses by a plan, one gate after the other.
ghost use Rattle.std.specs.Prelude.{◌≡◌, [], ◌∷◌, OnOk};
ghost use Rattle.std.specs.List.{zip};
ghost use Rattle.aig_cuts.specs.Cuts.{choice_clauses, clauses_as, planned_clauses};
ghost use Rattle.aig_refute.specs.Refuted.{Gains, GainsAll};

use aig_circuit::{Gate, LARGEST, Lit, Var};
use aig_cuts::{Cut, Multiplexer};
use aig_refute::Checker;
use std::alloc::AllocError;

/// Adds a clause of three literals.
fn add_three(checker: &mut Checker, first: Lit, second: Lit, third: Lit) -> Result<(), AllocError>
    ensures { OnOk result (Gains (first ∷ second ∷ third ∷ []) checker.old checker.new) }
{
    checker.add_given(&[first.0, second.0, third.0])
}

/// Adds that a variable is the negation of what a multiplexer chooses. There is no room for that
/// where the variable has no literals of 32 bits.
fn add_choice(
    checker: &mut Checker,
    variable: Var,
    multiplexer: Multiplexer,
) -> Result<(), AllocError>
    ensures { OnOk result (GainsAll (choice_clauses variable multiplexer)
        checker.old checker.new) }
{
    if variable.0 > LARGEST {
        return Err(AllocError);
    }
    let own = Lit(2 * variable.0);
    let Multiplexer {
        selector,
        if_one,
        if_zero,
    } = multiplexer;
    add_three(checker, selector.negated(), if_one.negated(), own.negated())?;
    add_three(checker, selector.negated(), if_one, own)?;
    add_three(checker, selector, if_zero.negated(), own.negated())?;
    add_three(checker, selector, if_zero, own)?;
    Ok(())
}

/// Adds the clauses of a gate that is written so.
fn add_as(checker: &mut Checker, gate: Gate, cut: Cut) -> Result<(), AllocError>
    ensures { OnOk result (GainsAll (clauses_as gate cut) checker.old checker.new) }
{
    match cut {
        Cut::Plain => checker.add_gate(gate),
        Cut::Inner => Ok(()),
        Cut::Choice(multiplexer) => add_choice(checker, gate.var, multiplexer),
    }
}

/// Adds the clauses of gates that are written as planned.
pub(crate) fn add_planned(
    checker: &mut Checker,
    gates: &[Gate],
    plan: &[Cut],
) -> Result<(), AllocError>
    ensures { OnOk result (GainsAll (planned_clauses (zip gates.now plan.now))
        checker.old checker.new) }
{
    for k in 0..gates.len().min(plan.len()) {
        add_as(checker, gates[k], plan[k])?;
    }
    Ok(())
}
