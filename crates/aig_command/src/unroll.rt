//! What the arguments of `aigunroll` ask for.
ghost use Rattle.std.specs.Prelude.{◌≡◌, IfErr, IfOk, None, OnOk, Some};
ghost use Rattle.clap.specs.Words.{found_of, rows_of};
ghost use Rattle.aig_command.specs.Answer.{CanDo, IsAnswer, IsReason, name_of};
ghost use Rattle.aig_command.specs.Asked.{aigunroll, asked_unrolling, AsksWithinLimits};
ghost use Rattle.aig_command.specs.Asked.{options_refusal, property_refusal, unrolled_form};
ghost use Rattle.aig_command.specs.Asked.{unrolling};

use crate::destination::{check_destination, check_sync, wants_ascii};
use crate::options::{chosen_property, frame_count, is_given, is_set, limit, names_with};
use crate::proving::asked_proving;
use crate::reach::asked_reaching;
use crate::request::{Command, Names, SolverFile, Unroll, UnrolledForm};
use crate::usage::Usage;
use clap::ArgMatches;
use std::alloc::Global;

fn unrolled_form(matches: &ArgMatches<'_>, destination: &Option<String>) -> UnrolledForm
    ensures { result ≡ unrolled_form (rows_of (found_of matches.now)) (name_of destination.now) }
{
    if is_set(matches, "cnf") {
        return UnrolledForm::Clauses {
            property: chosen_property(matches),
        };
    }
    if wants_ascii(matches, destination) {
        UnrolledForm::Ascii
    } else {
        UnrolledForm::Binary
    }
}

fn unrolling(matches: &ArgMatches<'_>, destination: &Option<String>) -> Unroll
    ensures { result ≡ unrolling (rows_of (found_of matches.now)) (name_of destination.now) }
{
    Unroll {
        frames: frame_count(matches),
        form: unrolled_form(matches, destination),
        simplify: is_set(matches, "simplify"),
        max_var: limit(matches),
    }
}

/// Whether the options of clauses stand together.
fn check_property(matches: &ArgMatches<'_>) -> Result<(), Usage>
    ensures ok { OnOk result (property_refusal (rows_of (found_of matches.now)) ≡ None) }
    ensures err { IfErr result (λ reason. IsReason reason
        × (property_refusal (rows_of (found_of matches.now)) ≡ Some reason)) }
{
    let bad = is_given(matches, "bad");
    let justice = is_given(matches, "justice");
    let clauses = is_set(matches, "cnf");
    let answer = is_given(matches, "answer");
    let refutation = is_given(matches, "refutation");
    if bad && justice {
        return Err(Usage::BadExcludesJustice);
    }
    if bad && !(clauses || answer || refutation) {
        return Err(Usage::BadNeedsClauses);
    }
    if justice && !(clauses || answer || refutation) {
        return Err(Usage::JusticeNeedsClauses);
    }
    if is_set(matches, "lrat") && !refutation {
        return Err(Usage::LratNeedsRefutation);
    }
    Ok(())
}

fn check_options(matches: &ArgMatches<'_>) -> Result<(), Usage>
    ensures ok { OnOk result (options_refusal (rows_of (found_of matches.now)) ≡ None) }
    ensures err { IfErr result (λ reason. IsReason reason
        × (options_refusal (rows_of (found_of matches.now)) ≡ Some reason)) }
{
    let framed = is_given(matches, "frames");
    let invariant = is_given(matches, "invariant");
    let clauses = is_set(matches, "cnf");
    let ascii = is_set(matches, "ascii");
    let answer = is_given(matches, "answer");
    let refutation = is_given(matches, "refutation");
    if !(framed || invariant) {
        return Err(Usage::FramesNeeded);
    }
    if clauses && ascii {
        return Err(Usage::CnfExcludesAscii);
    }
    if answer && (clauses || ascii) {
        return Err(Usage::AnswerAlone);
    }
    if refutation && (clauses || ascii || answer) {
        return Err(Usage::RefutationAlone);
    }
    if invariant && (framed || ascii || answer) {
        return Err(Usage::InvariantAlone);
    }
    if invariant && !(clauses || refutation) {
        return Err(Usage::InvariantNeedsClauses);
    }
    check_property(matches)
}

fn asked_unrolling(alloc: Global, matches: &ArgMatches<'_>) -> Result<(Names, Command), Usage>
    requires within { AsksWithinLimits (asked_unrolling (rows_of (found_of matches.now))) }
    ensures answer { IsAnswer (asked_unrolling (rows_of (found_of matches.now))) result }
    ensures can_do { IfOk result (λ answer. CanDo answer.0 answer.1) }
{
    let names = names_with(alloc, matches, None, None)?;
    let request = unrolling(matches, &names.destination);
    check_destination(&names.destination)?;
    Ok((names, Command::Unroll(request)))
}

pub(crate) fn aigunroll(alloc: Global, matches: &ArgMatches<'_>) -> Result<(Names, Command), Usage>
    requires within { AsksWithinLimits (aigunroll (rows_of (found_of matches.now))) }
    ensures answer { IsAnswer (aigunroll (rows_of (found_of matches.now))) result }
    ensures can_do { IfOk result (λ answer. CanDo answer.0 answer.1) }
{
    check_options(matches)?;
    check_sync(matches)?;
    if is_given(matches, "invariant") {
        return asked_proving(alloc, matches);
    }
    if is_given(matches, "answer") {
        return asked_reaching(alloc, matches, SolverFile::Answer);
    }
    if is_given(matches, "refutation") {
        return asked_reaching(alloc, matches, SolverFile::Refutation);
    }
    asked_unrolling(alloc, matches)
}
