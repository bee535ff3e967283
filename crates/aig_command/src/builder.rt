//! The command line as `clap` takes it, with its help texts.
ghost use Rattle.std.specs.Prelude.{IfOk, codes};
ghost use Rattle.clap.specs.Words.{App, Rule, new_app, new_rule, with_rule, with_subcommand};
ghost use Rattle.aig_command.specs.Aiger.{HasApp, HasRule, above, aiger, aigmiter, aigsim};
ghost use Rattle.aig_command.specs.Aiger.{aigunroll, flag, frames, max_var, property_option};
ghost use Rattle.aig_command.specs.Aiger.{required_file, solver_file, to_aig};

use crate::tool_builders::{aiginfo, aigselect, aigtodot};
use clap::{Arg, ArgAction, Command, value_parser};
use std::alloc::{AllocError, Global};

/// The program's version, the one place in the sources that has it. By its contract the library's
/// number is the same.
pub const VERSION: &str = "1.7.0";

const ABOUT: &str = "Tools for circuits in the AIGER format";

const AFTER: &str = "\
What each command does, and examples: aiger help COMMAND, and man aiger";

const TO_AIG_ABOUT: &str = "Convert an AIGER file to binary or to ASCII";

const TO_AIG_AFTER: &str = "\
The output is ASCII where --ascii is given or the name of the destination ends
in .aag, and else binary. Nothing is written before the whole conversion has
succeeded, so the destination may be the source; it is lost if writing fails.

With --outputs-as-bad each output is written as a bad state, by its name, and
there are no outputs. It is for files before AIGER 1.9, and for those of ABC:
their properties are outputs, and no witness speaks of outputs. A circuit that
has bad states already is refused.

With --justice-as-bad N the circuit gets an input and latches more, and one bad
state in the place of its properties: it is reached exactly where the model has
a run without end that meets each literal of justice property N and each
fairness constraint again and again, with all constraints kept. So what proves
that it is never reached, as --invariant of aigunroll does, proves liveness.

With --simplify gates go that are not needed: constants and equal operands go
through, gates with the same operands become one, and a gate on which nothing
depends that the circuit shows is left out. The circuit has the same traces,
also with x. All but gates stays in its place, by its name, so stimuli,
witnesses, answers and invariants are good for both.

Exit status:
  0  done, also for --help
  1  the input was refused, a file or stream failed, or memory ran out
  2  the command line was refused

Examples:
  aiger aigtoaig model.aag model.aig              to binary
  aiger aigtoaig model.aig model.aag              to ASCII
  aiger aigtoaig --keep-map model.aag image.aig   to binary, with a map
  aiger aigtoaig --undo-map image.aig again.aag   undone by that map
  aiger aigtoaig --outputs-as-bad model.aag bad.aag   outputs as bad states
  aiger aigtoaig --justice-as-bad 0 model.aag live.aig   its property 0
  aiger aigtoaig --simplify model.aag small.aig   with fewer gates";

const SIM_ABOUT: &str = "Simulate a circuit, step by step";

const SIM_AFTER: &str = "\
Each line of the stimulus is a step, with one character for each input: 0, 1,
or x for a value that is not known. A line of one dot ends a run. The line
after it begins the next run, with each latch at its reset again.

The trace goes to the standard output, one line for each step: the values of
the latches, of the inputs, of the outputs, and of the latches in the next
step, with a space between. With --properties those of the bad states and of
the constraints follow. A latch without initial value starts at x. A line of
one dot stands at the end of each run.

Without --batch a line of the trace is written as soon as its step is known. If
a later line of the stimulus is refused, what was written stands.

With --batch the trace is the same, but the whole stimulus is read before
anything is written. If a line of it is refused, nothing is written. Many runs
go side by side, which is faster for a large circuit. This takes memory for the
stimulus and the trace of 256 runs.

With --witness a witness stands in the place of the stimulus: a run that is to
reach a bad state, or to come round for a justice property. Its lines are 1,
then b and the number of the bad state, or j and that of the justice property,
counted from 0, then the first values of the latches, one character for each,
then the steps, and at last a line of one dot. In place of a trace the answer
is written, once the whole witness was read and found to have this form:
'confirmed N' if step N, counted from 0, is the first in which the bad state is
1 and all constraints are and have been 1; of a justice property, if it is the
first that begins in the state in which the run ends, all constraints always
are 1, and from step N on each literal of the property and each fairness
constraint once is; 'not confirmed' if there is none.

With --vcd a Value Change Dump (IEEE 1364) goes to the standard output in the
place of the trace, for a wave viewer. It has all that --properties shows, by
the names of the symbols, and each line of the trace takes 1 ns. At the end of
a run the latches show the state that was reached, and all else is z. The
variable run, of code r, is the number of the run, counted from 0. With
--witness it is the run of the witness from its first state, after a comment
with the answer, and all of it is held in memory. For a justice property that
is confirmed at step N, the signal loop is 1 from that step on.

Exit status:
  0  done, also for --help; with --witness, confirmed
  1  the model, the stimulus or the witness was refused, a file or stream
     failed, or memory ran out; or the witness is not confirmed
  2  the command line was refused

Examples, of a model with two inputs, a bad state and no latches:
  printf '10\\n1x\\n' | aiger aigsim model.aag       one run of two steps
  printf '10\\n.\\n1x\\n' > steps.txt                 two runs of one step
  aiger aigsim --properties model.aag steps.txt    with properties
  aiger aigsim --batch model.aag steps.txt         all of the trace, or nothing
  aiger aigsim --vcd model.aag steps.txt > a.vcd   as waves
  printf '1\\nb0\\n\\n11\\n.\\n' > witness.txt          a witness of one step
  aiger aigsim --witness model.aag witness.txt     whether it is right
  aiger aigsim --witness --vcd model.aag witness.txt > w.vcd   its run as waves
  aiger aigsim - steps.txt < model.aag             the model from a stream";

const UNROLL_ABOUT: &str = "Unroll a circuit, write clauses, check refutations and invariants";

const UNROLL_USAGE: &str = "\
aiger aigunroll --frames <K> [OPTIONS] [source] [destination]
       aiger aigunroll --invariant <FILE> [OPTIONS] [source] [destination]";

const UNROLL_AFTER: &str = "\
The inputs written are one for the first value of each latch without an initial
value, and then those of each frame. The outputs follow frame by frame, and so
do the bad states, each of which holds only where all constraints held in its
frame and in those before. There are no symbols and no comment.

The output is ASCII where --ascii is given or the name of the destination ends
in .aag, and else binary. A circuit with justice properties or fairness
constraints is refused, but with --justice. Nothing is written before the whole
circuit was read and only the destination can still fail, so the destination may
be the source; it is lost if writing fails.

With --cnf clauses in DIMACS are written, for a SAT solver: they can be
satisfied exactly if a run of at most K steps reaches a bad state with all
constraints kept. Variable N of the unrolled circuit is number N + 1 there.
--bad N takes the bad state N alone, counted from 0. A circuit without bad
states is refused.

With --answer the solver's output on those clauses is read, by the same K and
--bad, and the run that it gives is followed. Up to the first bad state it is
written as a witness, which aigsim --witness confirms whatever the solver said.

With --refutation a solver's proof that those clauses cannot be satisfied is
checked, by the same K and --bad: DRAT, in text or binary, with RAT lines on new
variables alone. If it is right, 'none within K' is written: no run of at
most K steps reaches a bad state with all constraints kept. With --lrat it is
LRAT in text: its hints are not believed, but save most of the search.

With --invariant the clauses are those in which an invariant is to be shown, for
runs of any length: a PLA with a column for each latch, as ABC writes one by
'pdr -d -e -I FILE'. With --refutation a solver's proof that they cannot be
satisfied is checked. If it is right, 'never' is written: no run reaches a bad
state with all constraints kept. The invariant itself is not believed.

With --justice N all this is done for justice property N, counted from 0, in the
place of bad states: for a run that comes back to a state in which it was, and
on the way meets each literal of the property and each fairness constraint. The
clauses are those of the circuit that aigtoaig --justice-as-bad N makes, and the
witness has jN in the place of bN. 'none within K' then says that no such run
without x has fewer than K steps, and 'never' that no run without end meets them
all again and again.

With --simplify resets and constants go through all frames, and gates that are
not needed go. Clauses are made of what is left of the bad states alone; the
inputs keep their numbers. A refutation of them is checked with --simplify, and
an answer on them is read with or without. All frames are held in memory. It
helps where much folds; a solver may also take longer than without.

Exit status:
  0  done, also for --help
  1  the input was refused, a file or stream failed, or memory ran out; or the
     answer is not 'satisfiable', or its run reaches no bad state; or the
     refutation is not right
  2  the command line was refused

Examples:
  aiger aigunroll --frames 20 model.aig long.aig     to binary
  aiger aigunroll --frames 2 model.aag two.aag       to ASCII
  aiger aigunroll --frames 20 - < model.aig > out    from stream to stream
  aiger aigunroll --frames 20 --cnf model.aig model.cnf    clauses
  aiger aigunroll --frames 20 --cnf model.aig | cadical -q > answer.txt
  aiger aigunroll --frames 20 --answer answer.txt model.aig witness.txt
  cadical -q model.cnf model.drat
  aiger aigunroll --frames 20 --refutation model.drat model.aig
  berkeley-abc -c 'read model.aig; pdr -d -e -I model.pla'
  aiger aigunroll --invariant model.pla --cnf model.aig never.cnf
  cadical -q never.cnf never.drat
  aiger aigunroll --invariant model.pla --refutation never.drat model.aig
  aiger aigunroll --frames 20 --justice 0 --cnf model.aig live.cnf   liveness
  aiger aigunroll --frames 20 --simplify --cnf model.aig small.cnf";

const MITER_ABOUT: &str = "Make one circuit of two, to show that they are equal";

const MITER_AFTER: &str = "\
The circuit that is written, the miter, has the inputs of the first, the latches
and gates of both, and the constraints of the first. Its bad states say where
the two differ: of their outputs, then their bad states, the one of number N is
1 in a step where those of number N differ. Then one follows for each constraint
of the second, which is 1 where that does not hold while all of the first do. It
has no symbols and no comment. Outputs and bad states count together: one may
have as outputs what the other has as bad states.

With --by-name inputs, outputs and bad states are paired by their symbols, and
not by their places. Each must have one; bad states keep the order of the first.

Latches without initial value start alike: the first of one circuit as the first
of the other, and so on, as far as both have some; the rest start freely. The
miter has one latch and some constraints more for this, if there is a pair.

What then is known of the miter is known of both:
  aigunroll --refutation says 'none within K': equal for K steps. For circuits
    without latches K = 1 is enough.
  aigunroll --invariant says 'never': equal at each step.
  aigunroll --answer writes a run in which they differ; bN names the place.

The miter is ASCII where --ascii is given or the name of the destination ends in
.aag, and else binary. Nothing is written before both circuits were read, so the
destination may be one of them; it is lost if writing fails. Justice properties
and fairness constraints cannot be compared.

With --simplify the miter is simplified, as aigtoaig --simplify does: what is
built alike in both circuits is there once. A solver is still needed, but may
take far less time.

Exit status:
  0  done, also for --help
  1  a circuit was refused, a file or stream failed, or memory ran out
  2  the command line was refused

Examples:
  aiger aigmiter old.aig new.aig miter.aig      to binary
  aiger aigmiter --by-name old.aag new.aig miter.aag   by symbols, to ASCII
  aiger aigmiter old.aig - < new.aig > miter.aig       the second from a stream
  aiger aigunroll --frames 1 --cnf miter.aig miter.cnf
  cadical -q miter.cnf miter.drat
  aiger aigunroll --frames 1 --refutation miter.drat miter.aig";

const BY_NAME_HELP: &str = "\
Pair inputs, outputs and bad states by their symbols, and
not by their places";

const FIRST_HELP: &str = "The first circuit's file; - is the standard input";

const SECOND_HELP: &str = "The second circuit's file; - is the standard input";

const FRAMES_HELP: &str = "\
The number of time frames: 1 to 1000000; needed where
there is no --invariant";

const CNF_HELP: &str = "\
Write clauses for a SAT solver (DIMACS); not with
--ascii";

const ANSWER_HELP: &str = "\
Take the witness from a solver's answer, FILE; - is
the standard input. Not with --cnf or --ascii";

const REFUTATION_HELP: &str = "\
Check a SAT solver's refutation of these clauses, and
say that no bad state is reached; - is the standard
input. Not with --cnf, --ascii or --answer";

const LRAT_HELP: &str = "\
The refutation is LRAT in text, with hints, which is
checked faster; with --refutation";

const INVARIANT_HELP: &str = "\
In place of frames: take the clauses in which the
invariant in FILE, a PLA, is to be shown; - is the
standard input. With --cnf or --refutation";

const BAD_HELP: &str = "\
Of the bad states take that of number N alone,
counted from 0; with --cnf, --answer or --refutation";

const JUSTICE_HELP: &str = "\
In the place of bad states take justice property N,
counted from 0; with --cnf, --answer or
--refutation. Not with --bad";

const BATCH_HELP: &str = "\
Read the whole stimulus first, and write nothing if a line
of it is refused";

const PROPERTIES_HELP: &str = "\
Show bad states and constraints too, after the rest of
each line";

const WITNESS_HELP: &str = "\
Judge a witness in the place of the stimulus: does its run
reach a bad state, or come round for a justice property?
Not with --batch or --properties";

const VCD_HELP: &str = "\
Write a waveform, a Value Change Dump, in the place of the
trace or of the answer. Not with --properties";

const KEEP_MAP_HELP: &str = "\
Keep a map of the renumbering in the comment, so
that --undo-map can give the source back; binary
output only";

const STRIP_HELP: &str = "Leave out the symbols and the comment";

const UNDO_MAP_HELP: &str = "Give back the source of a conversion with --keep-map";

const OUTPUTS_AS_BAD_HELP: &str = "\
Write the outputs as bad states; not with
--keep-map or --undo-map";

const JUSTICE_AS_BAD_HELP: &str = "\
Write a circuit that reaches its one bad state
where justice property N, counted from 0, has a fair
run; not with --outputs-as-bad, --keep-map or
--undo-map";

const SIMPLIFY_HELP: &str = "\
Write a circuit with fewer gates that has the same
traces; not with --keep-map";

const SIMPLIFY_UNROLLED_HELP: &str = "\
Simplify the unrolled circuit first; with --cnf or
--refutation keep only what bad states need";

const SIMPLIFY_MITER_HELP: &str = "\
Simplify the miter, so that what is built alike in both
circuits is there once";

pub(crate) const SYNC_HELP: &str = "\
End only once the disk has the destination; not for
the standard output";

pub(crate) const FORCE_HELP: &str = "Write binary even to a terminal";

pub(crate) const ASCII_HELP: &str = "Write ASCII, whatever the destination is named";

pub(crate) const SOURCE_HELP: &str = "The file to read; - or none is the standard input";

pub(crate) const DESTINATION_HELP: &str = "The file to write; - or none is the standard output";

const MODEL_HELP: &str = "The circuit's file; - is the standard input";

const STIMULUS_HELP: &str = "\
The file of the steps, or of the witness; - or none is the
standard input";

const MAX_VAR_HELP: &str = "\
Refuse a circuit with an index or a count above N:
0 to 2147483647, which is also the default";

pub(crate) fn command<'a>(
    alloc: Global,
    name: &'a str,
    about: &'a str,
    after: &'a str,
) -> Command<'a>
    ensures { HasApp (new_app name.now) result }
{
    Command::new(alloc, name).about(about).after_help(after)
}

fn command_with_usage<'a>(
    alloc: Global,
    name: &'a str,
    usage: &'a str,
    about: &'a str,
    after: &'a str,
) -> Command<'a>
    ensures { HasApp (new_app name.now) result }
{
    command(alloc, name, about, after).override_usage(usage)
}

pub(crate) fn flag<'a>(alloc: Global, name: &'a str, help: &'a str) -> Arg<'a>
    ensures { HasRule (flag name.now) result }
{
    Arg::new(alloc, name)
        .long(name)
        .action(ArgAction::SetTrue)
        .help(help)
}

pub(crate) fn max_var<'a>(alloc: Global) -> Arg<'a>
    ensures { HasRule max_var result }
{
    Arg::new(alloc, "max-var")
        .long("max-var")
        .value_name("N")
        .action(ArgAction::Set)
        .value_parser(value_parser!(u32).range(0..=2_147_483_647))
        .help(MAX_VAR_HELP)
}

fn frames<'a>(alloc: Global) -> Arg<'a>
    ensures { HasRule frames result }
{
    Arg::new(alloc, "frames")
        .long("frames")
        .value_name("K")
        .action(ArgAction::Set)
        .value_parser(value_parser!(u32).range(1..=1_000_000))
        .help(FRAMES_HELP)
}

pub(crate) fn property_option<'a>(alloc: Global, name: &'a str, help: &'a str) -> Arg<'a>
    ensures { HasRule (property_option name.now) result }
{
    Arg::new(alloc, name)
        .long(name)
        .value_name("N")
        .action(ArgAction::Set)
        .value_parser(value_parser!(u32).range(0..=2_147_483_647))
        .help(help)
}

fn solver_file<'a>(alloc: Global, name: &'a str, help: &'a str) -> Arg<'a>
    ensures { HasRule (solver_file name.now) result }
{
    Arg::new(alloc, name)
        .long(name)
        .value_name("FILE")
        .action(ArgAction::Set)
        .help(help)
}

pub(crate) fn file<'a>(alloc: Global, name: &'a str, help: &'a str) -> Arg<'a>
    ensures { HasRule (new_rule name.now) result }
{
    Arg::new(alloc, name).help(help)
}

fn required_file<'a>(alloc: Global, name: &'a str, help: &'a str) -> Arg<'a>
    ensures { HasRule (required_file name.now) result }
{
    Arg::new(alloc, name).required(true).help(help)
}

/// It takes what the calls before it gave, so that a command is made with no `?` between its
/// arguments: each `?` is a way out, on which the proof follows all that is dropped.
pub(crate) fn with_argument<'a>(
    command: Result<Command<'a>, AllocError>,
    argument: Arg<'a>,
) -> Result<Command<'a>, AllocError>
    ensures { (app : App) (rule : Rule) → IfOk command.entry (HasApp app)
        → HasRule rule argument.entry
        → IfOk result (HasApp (with_rule app rule)) }
{
    command?.arg(argument)
}

fn with_subcommand<'a>(
    program: Result<Command<'a>, AllocError>,
    subcommand: Result<Command<'a>, AllocError>,
) -> Result<Command<'a>, AllocError>
    ensures { (app sub : App) → IfOk program.entry (HasApp app) → IfOk subcommand.entry (HasApp sub)
        → IfOk result (HasApp (with_subcommand app sub.top)) }
{
    program?.subcommand(subcommand?)
}

fn to_aig<'a>(alloc: Global) -> Result<Command<'a>, AllocError>
    ensures { IfOk result (HasApp to_aig) }
{
    let command = Ok(command(alloc, "aigtoaig", TO_AIG_ABOUT, TO_AIG_AFTER));
    let command = with_argument(command, flag(alloc, "ascii", ASCII_HELP));
    let command = with_argument(command, flag(alloc, "strip", STRIP_HELP));
    let command = with_argument(command, flag(alloc, "keep-map", KEEP_MAP_HELP));
    let command = with_argument(command, flag(alloc, "undo-map", UNDO_MAP_HELP));
    let command = with_argument(command, flag(alloc, "outputs-as-bad", OUTPUTS_AS_BAD_HELP));
    let command = with_argument(
        command,
        property_option(alloc, "justice-as-bad", JUSTICE_AS_BAD_HELP),
    );
    let command = with_argument(command, flag(alloc, "simplify", SIMPLIFY_HELP));
    let command = with_argument(command, flag(alloc, "sync", SYNC_HELP));
    let command = with_argument(command, flag(alloc, "force", FORCE_HELP));
    let command = with_argument(command, max_var(alloc));
    let command = with_argument(command, file(alloc, "source", SOURCE_HELP));
    with_argument(command, file(alloc, "destination", DESTINATION_HELP))
}

fn aigsim<'a>(alloc: Global) -> Result<Command<'a>, AllocError>
    ensures { IfOk result (HasApp aigsim) }
{
    let command = Ok(command(alloc, "aigsim", SIM_ABOUT, SIM_AFTER));
    let command = with_argument(command, flag(alloc, "batch", BATCH_HELP));
    let command = with_argument(command, flag(alloc, "properties", PROPERTIES_HELP));
    let command = with_argument(command, flag(alloc, "witness", WITNESS_HELP));
    let command = with_argument(command, flag(alloc, "vcd", VCD_HELP));
    let command = with_argument(command, max_var(alloc));
    let command = with_argument(command, required_file(alloc, "model", MODEL_HELP));
    with_argument(command, file(alloc, "stimulus", STIMULUS_HELP))
}

fn aigunroll<'a>(alloc: Global) -> Result<Command<'a>, AllocError>
    ensures { IfOk result (HasApp aigunroll) }
{
    let command = Ok(command_with_usage(
        alloc,
        "aigunroll",
        UNROLL_USAGE,
        UNROLL_ABOUT,
        UNROLL_AFTER,
    ));
    let command = with_argument(command, frames(alloc));
    let command = with_argument(command, flag(alloc, "ascii", ASCII_HELP));
    let command = with_argument(command, flag(alloc, "cnf", CNF_HELP));
    let command = with_argument(command, solver_file(alloc, "answer", ANSWER_HELP));
    let command = with_argument(command, solver_file(alloc, "refutation", REFUTATION_HELP));
    let command = with_argument(command, flag(alloc, "lrat", LRAT_HELP));
    let command = with_argument(command, solver_file(alloc, "invariant", INVARIANT_HELP));
    let command = with_argument(command, property_option(alloc, "bad", BAD_HELP));
    let command = with_argument(command, property_option(alloc, "justice", JUSTICE_HELP));
    let command = with_argument(command, flag(alloc, "simplify", SIMPLIFY_UNROLLED_HELP));
    let command = with_argument(command, flag(alloc, "sync", SYNC_HELP));
    let command = with_argument(command, flag(alloc, "force", FORCE_HELP));
    let command = with_argument(command, max_var(alloc));
    let command = with_argument(command, file(alloc, "source", SOURCE_HELP));
    with_argument(command, file(alloc, "destination", DESTINATION_HELP))
}

fn aigmiter<'a>(alloc: Global) -> Result<Command<'a>, AllocError>
    ensures { IfOk result (HasApp aigmiter) }
{
    let command = Ok(command(alloc, "aigmiter", MITER_ABOUT, MITER_AFTER));
    let command = with_argument(command, flag(alloc, "by-name", BY_NAME_HELP));
    let command = with_argument(command, flag(alloc, "ascii", ASCII_HELP));
    let command = with_argument(command, flag(alloc, "simplify", SIMPLIFY_MITER_HELP));
    let command = with_argument(command, flag(alloc, "sync", SYNC_HELP));
    let command = with_argument(command, flag(alloc, "force", FORCE_HELP));
    let command = with_argument(command, max_var(alloc));
    let command = with_argument(command, required_file(alloc, "first", FIRST_HELP));
    let command = with_argument(command, required_file(alloc, "second", SECOND_HELP));
    with_argument(command, file(alloc, "destination", DESTINATION_HELP))
}

/// The program, before its subcommands.
fn program<'a>(alloc: Global) -> Result<Command<'a>, AllocError>
    ensures { IfOk result (HasApp (above (new_app (codes "aiger")))) }
{
    let command = command(alloc, "aiger", ABOUT, AFTER)
        .version(VERSION)
        .propagate_version(true)
        .subcommand_required(true)
        .arg_required_else_help(true);
    command.bin_name("aiger")
}

pub(crate) fn aiger<'a>(alloc: Global) -> Result<Command<'a>, AllocError>
    ensures { IfOk result (HasApp aiger) }
{
    let program = with_subcommand(program(alloc), to_aig(alloc));
    let program = with_subcommand(program, aigsim(alloc));
    let program = with_subcommand(program, aigunroll(alloc));
    let program = with_subcommand(program, aigmiter(alloc));
    let program = with_subcommand(program, aiginfo(alloc));
    let program = with_subcommand(program, aigselect(alloc));
    with_subcommand(program, aigtodot(alloc))
}
