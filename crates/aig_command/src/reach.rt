//! What the arguments of `aigunroll` ask for with a solver's file, `--answer` or `--refutation`.
ghost use Rattle.std.specs.Prelude.{◌≡◌, IfErr, IfOk, None, OnOk, Some};
ghost use Rattle.clap.specs.Words.{found_of, rows_of};
ghost use Rattle.aig_command.specs.Answer.{CanDo, files_of, HasOneStandardInput, IsAnswer};
ghost use Rattle.aig_command.specs.Answer.{IsReason};
ghost use Rattle.aig_command.specs.Asked.{asked_reaching, AsksWithinLimits, option_of};
ghost use Rattle.aig_command.specs.Asked.{reaching, reaching_refusal, stream_refusal};

use crate::destination::check_destination;
use crate::options::{
    chosen_property, frame_count, has_one_stream_for_two, is_set, limit, named_file, names_with,
};
use crate::request::{Command, Names, Reach, SolverFile};
use crate::usage::Usage;
use clap::ArgMatches;
use std::alloc::Global;

fn option_of(wrote: SolverFile) -> &'static str
    ensures { result.now ≡ option_of wrote }
{
    match wrote {
        SolverFile::Answer => "answer",
        SolverFile::Refutation => "refutation",
    }
}

fn reaching(matches: &ArgMatches<'_>, wrote: SolverFile) -> Reach
    ensures { result ≡ reaching wrote (rows_of (found_of matches.now)) }
{
    Reach {
        frames: frame_count(matches),
        property: chosen_property(matches),
        max_var: limit(matches),
        wrote,
        lrat: is_set(matches, "lrat"),
        simplify: is_set(matches, "simplify"),
    }
}

fn stream_refusal(wrote: SolverFile) -> Usage
    ensures is { result ≡ stream_refusal wrote }
    ensures reason { IsReason result }
{
    match wrote {
        SolverFile::Answer => Usage::BothAreStandardInput,
        SolverFile::Refutation => Usage::RefutationIsModel,
    }
}

fn check_files(names: &Names, wrote: SolverFile) -> Result<(), Usage>
    ensures ok { OnOk result (reaching_refusal wrote (files_of names.now) ≡ None) }
    ensures err { IfErr result (λ reason. IsReason reason
        × (reaching_refusal wrote (files_of names.now) ≡ Some reason)) }
    ensures one { OnOk result (HasOneStandardInput names.now) }
{
    if has_one_stream_for_two(names) {
        return Err(stream_refusal(wrote));
    }
    check_destination(&names.destination)
}

pub(crate) fn asked_reaching(
    alloc: Global,
    matches: &ArgMatches<'_>,
    wrote: SolverFile,
) -> Result<(Names, Command), Usage>
    requires within { AsksWithinLimits (asked_reaching wrote (rows_of (found_of matches.now))) }
    ensures answer { IsAnswer (asked_reaching wrote (rows_of (found_of matches.now))) result }
    ensures can_do { IfOk result (λ answer. CanDo answer.0 answer.1) }
{
    let file = named_file(alloc, matches, option_of(wrote))?;
    let names = names_with(alloc, matches, file, None)?;
    check_files(&names, wrote)?;
    Ok((names, Command::Reach(reaching(matches, wrote))))
}
