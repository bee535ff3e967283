//! The clauses of a circuit, as a plan has them, on their way to a sink.
ghost use Rattle.std.specs.Prelude.{◌≡◌, ◌*◌, ◌≤◌, OnErr, OnOk, length, sum_by};
ghost use Rattle.std.specs.List.{All, flat_map, zip};
ghost use Rattle.aig_circuit.specs.declared.circuit.Gate.{Gate as GateRecord};
ghost use Rattle.aig_circuit.specs.declared.circuit.TheConstants.{LARGEST};
ghost use Rattle.aig_circuit.specs.Wellformed.{IsWellFormed};
ghost use Rattle.aig_cnf.specs.ClauseText.{clause_text};
ghost use Rattle.aig_io.specs.Devices.{took, TookBeginning};
ghost use Rattle.aig_io.specs.Output.{Appended};
ghost use Rattle.aig_cuts.specs.CutText.{cut_text};
ghost use Rattle.aig_cuts.specs.Cuts.{choice_clauses, clauses_as};
ghost use Rattle.aig_cuts.specs.Parts.Counted.{clause_count, planned_text};

use crate::cut::{Cut, Multiplexer};
use aig_checked::Ordered;
use aig_circuit::{Circuit, Gate, Lit, Var};
use aig_cnf::{put_clause, put_clauses_header, put_gates_clauses};
use aig_io::{DeviceFault, Output, Sink};

/// How many clauses a gate has that is written so.
#[inline(always)]
fn clause_count(cut: &Cut) -> u64
    ensures count { result ≡ clause_count cut.now }
    ensures few { result ≤ 4 }
{
    match cut {
        Cut::Plain => 3,
        Cut::Inner => 0,
        Cut::Choice(_) => 4,
    }
}

/// How many clauses all gates have.
fn count_clauses(plan: &[Cut]) -> u64
    requires { length plan.now ≤ LARGEST }
    ensures count { result ≡ sum_by clause_count plan.now }
    ensures few { result ≤ 4 * length plan.now }
{
    let mut count = 0;
    for cut in plan {
        count += clause_count(cut);
    }
    count
}

/// Puts the clauses of a variable that is 1 exactly where what is chosen is 0.
fn put_choice<W: Sink>(output: &mut Output<W>, variable: Var, multiplexer: &Multiplexer)
    requires { variable ≤ LARGEST }
    ensures { Appended output.old output.new
        (flat_map clause_text (choice_clauses variable multiplexer.now)) }
{
    let own = Lit(2 * variable.0);
    let not_own = own.negated();
    let not_selector = multiplexer.selector.negated();
    let not_one = multiplexer.if_one.negated();
    let not_zero = multiplexer.if_zero.negated();
    put_clause(output, &[not_selector, not_one, not_own]);
    put_clause(output, &[not_selector, multiplexer.if_one, own]);
    put_clause(output, &[multiplexer.selector, not_zero, not_own]);
    put_clause(output, &[multiplexer.selector, multiplexer.if_zero, own]);
}

/// Puts the clauses of a gate that is written so.
#[inline(always)]
fn put_planned<W: Sink>(output: &mut Output<W>, gate: &Gate, cut: &Cut)
    requires { gate.now.var ≤ LARGEST }
    ensures { Appended output.old output.new
        (flat_map clause_text (clauses_as gate.now cut.now)) }
{
    match cut {
        Cut::Plain => put_gates_clauses(output, &[*gate]),
        Cut::Inner => {}
        Cut::Choice(multiplexer) => put_choice(output, gate.var, multiplexer),
    }
}

fn put_plan<W: Sink>(output: &mut Output<W>, gates: &[Gate], plan: &[Cut])
    requires fit { All (λ (g : GateRecord). g.var ≤ LARGEST) gates.now }
    requires few { length plan.now ≤ length gates.now }
    ensures { Appended output.old output.new (flat_map planned_text (zip gates.now plan.now)) }
{
    for at in 0..plan.len() {
        put_planned(output, &gates[at], &plan[at]);
    }
}

/// Puts the clauses by a plan that is no longer than the circuit has gates.
fn put_used_clauses<W: Sink>(output: &mut Output<W>, circuit: &Circuit, plan: &[Cut])
    requires formed { IsWellFormed circuit.now }
    requires few { length plan.now ≤ length circuit.now.gates }
    ensures { Appended output.old output.new (cut_text plan.now circuit.now) }
{
    let variables = u64::from(circuit.max_var) + 1;
    let clauses = count_clauses(plan) + 2;
    put_clauses_header(output, variables, clauses);
    put_clause(output, &[Lit(1)]);
    put_plan(output, circuit.gates.as_slice(), plan);
    put_clause(output, circuit.bad.as_slice());
}

fn put_cut_clauses<W: Sink>(output: &mut Output<W>, circuit: &Circuit, plan: &[Cut])
    requires { IsWellFormed circuit.now }
    ensures { Appended output.old output.new (cut_text plan.now circuit.now) }
{
    let used = plan.len().min(circuit.gates.len());
    put_used_clauses(output, circuit, &plan[..used]);
}

/// Writes the clauses by which a bad state of a circuit without latches is 1, as a plan has them,
/// as DIMACS text, in slices of at most 8,192 bytes. Gates behind the last of the plan have none. It
/// takes no memory and fails only where the sink fails; the sink then took a beginning of the text,
/// and is not called again.
pub fn write_cut_clauses<W: Sink>(
    circuit: &Ordered,
    plan: &[Cut],
    sink: &mut W,
) -> Result<(), DeviceFault>
    ensures ok { OnOk result (W.history sink.new
        ≡ took (cut_text plan.now circuit.now) (W.history sink.old)) }
    ensures err { OnErr result (TookBeginning (cut_text plan.now circuit.now)
        (W.history sink.old) (W.history sink.new)) }
{
    let mut output = Output::new(sink);
    put_cut_clauses(&mut output, circuit.as_checked().circuit(), plan);
    let (sent, _sink) = output.finish();
    sent?;
    Ok(())
}
