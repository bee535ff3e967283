//! The command lines of `aiginfo`, `aigselect` and `aigtodot` as `clap` takes them, with their help
//! texts.
ghost use Rattle.std.specs.Prelude.{IfOk};
ghost use Rattle.std.specs.Prelude.{codes};
ghost use Rattle.aig_command.specs.Aiger.{HasApp, HasRule, aiginfo, aigselect, aigtodot};
ghost use Rattle.aig_command.specs.Aiger.{choice_option, solver_file};

use crate::builder::{
    ASCII_HELP, DESTINATION_HELP, FORCE_HELP, SOURCE_HELP, SYNC_HELP, command, file, flag, max_var,
    property_option, with_argument,
};
use clap::{Arg, ArgAction, Command};
use std::alloc::{AllocError, Global};

const INFO_ABOUT: &str = "Count what a circuit has: sizes, levels, what is used";

const INFO_AFTER: &str = "\
Each line is a name and a number: those of the header (max_var, inputs, latches,
outputs, gates, bad, constraints, justice, fairness); latches_at_one and
uninitialised_latches, the latches that do not start at 0; symbols and
comment_bytes; levels, the number of gates on the longest path; and how many
inputs, latches and gates are used and unused. Used is that on which an output,
a bad state, a constraint or a justice or fairness property depends, in some
step.

With --json it is one JSON object with a field for each.

Exit status:
  0  done, also for --help
  1  the input was refused, a file or stream failed, or memory ran out
  2  the command line was refused

Examples:
  aiger aiginfo model.aig
  aiger aiginfo --json model.aig model.json
  aiger aigtoaig --simplify model.aig | aiger aiginfo    once it is simplified";

const JSON_HELP: &str = "Write a JSON object";

const SELECT_ABOUT: &str = "Select outputs, bad states or justice properties, with their cone";

const SELECT_AFTER: &str = "\
The circuit that is written has the outputs, bad states and justice properties
that are chosen by their positions, counted from 0, in the order of the source,
and no others. All constraints stay, and with a justice property the fairness
constraints. Of inputs, latches and gates those stay on which any of that
depends, in some step. All that stays keeps its name, and its value in each
step. There is no comment.

The output is ASCII where --ascii is given or the name of the destination ends
in .aag, and else binary. In ASCII variables keep their numbers. Nothing is
written before the whole source was read, so the destination may be the source;
it is lost if writing fails.

Exit status:
  0  done, also for --help
  1  the input was refused, or has nothing at a position; a file or stream
     failed, or memory ran out
  2  the command line was refused

Examples:
  aiger aigselect --bad 3 model.aig part.aig
  aiger aigselect --bad 0 --bad 3 --output 1 model.aig part.aag
  aiger aigselect --justice 0 model.aig | aiger aiginfo    how large its cone is";

const OUTPUT_CHOICE_HELP: &str = "Select output N, counted from 0; may be repeated";

const BAD_CHOICE_HELP: &str = "Select bad state N, counted from 0; may be repeated";

const JUSTICE_CHOICE_HELP: &str = "\
Select justice property N, counted from 0; may be
repeated";

const DOT_ABOUT: &str = "Draw a circuit, or a cone of it, for Graphviz";

const DOT_AFTER: &str = "\
The text is a graph in the language of Graphviz: dot -Tsvg makes a picture of
it. An arrow leads from what is used to what uses it; one that ends in a dot
negates, and a dotted one leads from the next state of a latch to the latch.
Names are those of the symbols, and a gate has its literal.

With --cone b0 it has bad state 0 and all on which that depends in a step: the
gates up to inputs and latches. The letters are those of symbols: o is an
output, b a bad state, c a constraint, j a justice property, f a fairness
constraint; positions count from 0. With --all-steps it has that on which it
depends in any step, through the next states of latches.

More than 1000 gates are refused, or more than --gates says: Graphviz takes long
for them, and nobody sees much in the picture.

Exit status:
  0  done, also for --help
  1  the input was refused, has nothing at that place, or has too many gates; a
     file or stream failed, or memory ran out
  2  the command line was refused

Examples:
  aiger aigtodot model.aig | dot -Tsvg > model.svg
  aiger aigtodot --cone b0 model.aig cone.dot
  aiger aigtodot --cone o3 --all-steps --gates 5000 model.aig cone.dot";

const CONE_HELP: &str = "\
Draw what this place depends on in a step, as b0, the
first bad state";

const ALL_STEPS_HELP: &str = "Draw what it depends on in any step; with --cone";

const GATES_HELP: &str = "\
Refuse to draw more than N gates: 0 to 2147483647;
1000 unless it is given";

/// An option that may be given many times.
fn choice_option<'a>(alloc: Global, name: &'a str, help: &'a str) -> Arg<'a>
    ensures { HasRule (choice_option name.now) result }
{
    property_option(alloc, name, help).action(ArgAction::Append)
}

pub(crate) fn aiginfo<'a>(alloc: Global) -> Result<Command<'a>, AllocError>
    ensures { IfOk result (HasApp aiginfo) }
{
    let command = Ok(command(alloc, "aiginfo", INFO_ABOUT, INFO_AFTER));
    let command = with_argument(command, flag(alloc, "json", JSON_HELP));
    let command = with_argument(command, flag(alloc, "sync", SYNC_HELP));
    let command = with_argument(command, max_var(alloc));
    let command = with_argument(command, file(alloc, "source", SOURCE_HELP));
    with_argument(command, file(alloc, "destination", DESTINATION_HELP))
}

pub(crate) fn aigselect<'a>(alloc: Global) -> Result<Command<'a>, AllocError>
    ensures { IfOk result (HasApp aigselect) }
{
    let command = Ok(command(alloc, "aigselect", SELECT_ABOUT, SELECT_AFTER));
    let command = with_argument(command, choice_option(alloc, "output", OUTPUT_CHOICE_HELP));
    let command = with_argument(command, choice_option(alloc, "bad", BAD_CHOICE_HELP));
    let command = with_argument(
        command,
        choice_option(alloc, "justice", JUSTICE_CHOICE_HELP),
    );
    let command = with_argument(command, flag(alloc, "ascii", ASCII_HELP));
    let command = with_argument(command, flag(alloc, "sync", SYNC_HELP));
    let command = with_argument(command, flag(alloc, "force", FORCE_HELP));
    let command = with_argument(command, max_var(alloc));
    let command = with_argument(command, file(alloc, "source", SOURCE_HELP));
    with_argument(command, file(alloc, "destination", DESTINATION_HELP))
}

fn cone_option<'a>(alloc: Global) -> Arg<'a>
    ensures { HasRule (solver_file (codes "cone")) result }
{
    Arg::new(alloc, "cone")
        .long("cone")
        .value_name("PLACE")
        .action(ArgAction::Set)
        .help(CONE_HELP)
}

pub(crate) fn aigtodot<'a>(alloc: Global) -> Result<Command<'a>, AllocError>
    ensures { IfOk result (HasApp aigtodot) }
{
    let command = Ok(command(alloc, "aigtodot", DOT_ABOUT, DOT_AFTER));
    let command = with_argument(command, cone_option(alloc));
    let command = with_argument(command, flag(alloc, "all-steps", ALL_STEPS_HELP));
    let command = with_argument(command, property_option(alloc, "gates", GATES_HELP));
    let command = with_argument(command, flag(alloc, "sync", SYNC_HELP));
    let command = with_argument(command, max_var(alloc));
    let command = with_argument(command, file(alloc, "source", SOURCE_HELP));
    with_argument(command, file(alloc, "destination", DESTINATION_HELP))
}
