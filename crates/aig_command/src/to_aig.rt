//! What the arguments of `aigtoaig` ask for.
ghost use Rattle.std.specs.Prelude.{◌≡◌, IfErr, IfOk, None, OnOk, Some};
ghost use Rattle.clap.specs.Words.{found_of, rows_of};
ghost use Rattle.aig_command.specs.Answer.{CanDo, IsAnswer, IsKeptAlone, IsReason};
ghost use Rattle.aig_command.specs.Answer.{IsWithoutMap, name_of};
ghost use Rattle.aig_command.specs.Asked.{are_of_justice, are_outputs, asks_for_both, bad_states};
ghost use Rattle.aig_command.specs.Asked.{conversion, refusal, to_aig};

use crate::destination::{check_destination, check_sync, wants_ascii};
use crate::options::{chosen, is_given, is_set, limit, names_with};
use crate::request::{BadStates, Command, Names, ToAig};
use crate::usage::Usage;
use clap::ArgMatches;
use std::alloc::Global;

impl BadStates {
    fn are_outputs(self) -> bool
        ensures { result ≡ are_outputs self }
    {
        matches!(self, BadStates::Outputs)
    }

    fn are_of_justice(self) -> bool
        ensures { result ≡ are_of_justice self }
    {
        matches!(self, BadStates::Justice(_))
    }
}

fn bad_states(matches: &ArgMatches<'_>) -> BadStates
    ensures { result ≡ bad_states (rows_of (found_of matches.now)) }
{
    if is_set(matches, "outputs-as-bad") {
        return BadStates::Outputs;
    }
    match chosen(matches, "justice-as-bad") {
        Some(property) => BadStates::Justice(property),
        None => BadStates::Kept,
    }
}

fn conversion(matches: &ArgMatches<'_>, destination: &Option<String>) -> ToAig
    ensures { result ≡ conversion (rows_of (found_of matches.now)) (name_of destination.now) }
{
    ToAig {
        ascii: wants_ascii(matches, destination),
        strip: is_set(matches, "strip"),
        keep_map: is_set(matches, "keep-map"),
        undo_map: is_set(matches, "undo-map"),
        bad_states: bad_states(matches),
        simplify: is_set(matches, "simplify"),
        max_var: limit(matches),
    }
}

/// Whether both outputs and a justice property are to become bad states.
fn asks_for_both(matches: &ArgMatches<'_>) -> bool
    ensures { result ≡ asks_for_both (rows_of (found_of matches.now)) }
{
    is_set(matches, "outputs-as-bad") && is_given(matches, "justice-as-bad")
}

fn check_request(
    matches: &ArgMatches<'_>,
    request: ToAig,
    destination: &Option<String>,
) -> Result<(), Usage>
    ensures ok { OnOk result (refusal (rows_of (found_of matches.now)) (name_of destination.now)
        request ≡ None) }
    ensures err { IfErr result (λ reason. IsReason reason
        × (refusal (rows_of (found_of matches.now)) (name_of destination.now) request
        ≡ Some reason)) }
    ensures alone { OnOk result (IsKeptAlone request) }
    ensures without_map { OnOk result (IsWithoutMap request) }
{
    if request.keep_map && request.ascii {
        return Err(Usage::KeepMapNeedsBinary);
    }
    if request.keep_map && request.strip {
        return Err(Usage::KeepMapExcludesStrip);
    }
    if request.keep_map && request.undo_map {
        return Err(Usage::KeepMapExcludesUndoMap);
    }
    if request.keep_map && request.simplify {
        return Err(Usage::KeepMapExcludesSimplify);
    }
    if request.bad_states.are_outputs() && request.keep_map {
        return Err(Usage::OutputsAsBadExcludesKeepMap);
    }
    if request.bad_states.are_outputs() && request.undo_map {
        return Err(Usage::OutputsAsBadExcludesUndoMap);
    }
    if asks_for_both(matches) {
        return Err(Usage::JusticeAsBadAlone);
    }
    if request.bad_states.are_of_justice() && (request.keep_map || request.undo_map) {
        return Err(Usage::JusticeAsBadAlone);
    }
    check_destination(destination)
}

pub(crate) fn to_aig(alloc: Global, matches: &ArgMatches<'_>) -> Result<(Names, Command), Usage>
    ensures answer { IsAnswer (to_aig (rows_of (found_of matches.now))) result }
    ensures can_do { IfOk result (λ answer. CanDo answer.0 answer.1) }
{
    let names = names_with(alloc, matches, None, None)?;
    let request = conversion(matches, &names.destination);
    check_request(matches, request, &names.destination)?;
    check_sync(matches)?;
    Ok((names, Command::ToAig(request)))
}
