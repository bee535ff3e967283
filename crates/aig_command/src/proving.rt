//! What the arguments of `aigunroll` ask for with an invariant, `--invariant`.
ghost use Rattle.std.specs.Prelude.{◌≡◌, IfErr, IfOk, None, OnOk, Some};
ghost use Rattle.clap.specs.Words.{found_of, rows_of};
ghost use Rattle.aig_command.specs.Answer.{CanDo, files_of, HasOneStandardInput, IsAnswer};
ghost use Rattle.aig_command.specs.Answer.{IsReason, IsRefutationApart};
ghost use Rattle.aig_command.specs.Asked.{asked_proving, proving, proving_refusal};

use crate::destination::check_destination;
use crate::options::{
    chosen_property, has_one_stream_for_two, is_given, is_set, limit, named_file, names_with,
};
use crate::request::{Command, Invariant, Names};
use crate::usage::Usage;
use clap::ArgMatches;
use std::alloc::Global;

fn proving(matches: &ArgMatches<'_>) -> Invariant
    ensures { result ≡ proving (rows_of (found_of matches.now)) }
{
    Invariant {
        property: chosen_property(matches),
        max_var: limit(matches),
        refuted: is_given(matches, "refutation"),
        lrat: is_set(matches, "lrat"),
        simplify: is_set(matches, "simplify"),
    }
}

fn check_request(names: &Names, request: Invariant) -> Result<(), Usage>
    ensures ok { OnOk result (proving_refusal (files_of names.now) request ≡ None) }
    ensures err { IfErr result (λ reason. IsReason reason
        × (proving_refusal (files_of names.now) request ≡ Some reason)) }
    ensures one { OnOk result (HasOneStandardInput names.now) }
    ensures refutation { OnOk result (IsRefutationApart names.now request) }
{
    if has_one_stream_for_two(names) {
        return Err(Usage::InvariantIsModel);
    }
    let no_model = names.model.is_none();
    let no_file = names.file.is_none();
    let no_refutation = names.refutation.is_none();
    if request.refuted && no_refutation && no_model {
        return Err(Usage::RefutationIsModel);
    }
    if request.refuted && no_refutation && no_file {
        return Err(Usage::RefutationIsInvariant);
    }
    check_destination(&names.destination)
}

pub(crate) fn asked_proving(
    alloc: Global,
    matches: &ArgMatches<'_>,
) -> Result<(Names, Command), Usage>
    ensures answer { IsAnswer (asked_proving (rows_of (found_of matches.now))) result }
    ensures can_do { IfOk result (λ answer. CanDo answer.0 answer.1) }
{
    let file = named_file(alloc, matches, "invariant")?;
    let refutation = named_file(alloc, matches, "refutation")?;
    let names = names_with(alloc, matches, file, refutation)?;
    let request = proving(matches);
    check_request(&names, request)?;
    Ok((names, Command::Invariant(request)))
}
