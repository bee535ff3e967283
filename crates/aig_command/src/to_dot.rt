//! What the arguments of `aigtodot` ask for.
ghost use Rattle.std.specs.Prelude.{◌≡◌, ◌<◌, codes, IfErr, IfOk, None, OnOk, option_and_then};
ghost use Rattle.std.specs.Prelude.{Some};
ghost use Rattle.clap.specs.Words.{first_of, found_of, rows_of};
ghost use Rattle.aig_command.specs.Answer.{CanDo, IsAnswer, IsOfCone, IsReason, name_of};
ghost use Rattle.aig_command.specs.Asked.{aigtodot, drawing, drawing_refusal, number_after};
ghost use Rattle.aig_command.specs.Asked.{place_in};

use crate::destination::{check_destination, check_sync};
use crate::options::{is_given, is_set, limit, names_with, option_number};
use crate::request::{Command, Names, Place, ToDot};
use crate::usage::Usage;
use aig_circuit::Kind;
use clap::ArgMatches;
use std::alloc::Global;

/// The most gates that are drawn where no number is set.
const MOST_DRAWN: u32 = 1000;

/// The number after this letter, where the text is that.
fn number_after(text: &str, letter: char) -> Option<u32>
    requires { letter < 128 }
    ensures { result ≡ number_after letter text.now }
{
    text.strip_prefix(letter)?.parse().ok()
}

/// The place that a text names as a symbol line does, of what a circuit shows.
fn place_in(text: &str) -> Option<Place>
    ensures { result ≡ place_in text.now }
{
    let (kind, position) = if let Some(position) = number_after(text, 'o') {
        (Kind::Output, position)
    } else if let Some(position) = number_after(text, 'b') {
        (Kind::Bad, position)
    } else if let Some(position) = number_after(text, 'c') {
        (Kind::Constraint, position)
    } else if let Some(position) = number_after(text, 'j') {
        (Kind::Justice, position)
    } else {
        (Kind::Fairness, number_after(text, 'f')?)
    };
    Some(Place { kind, position })
}

/// The place that `--cone` names.
fn cone(matches: &ArgMatches<'_>) -> Option<Place>
    ensures { result ≡ option_and_then place_in
        (first_of (codes "cone") (rows_of (found_of matches.now))) }
{
    place_in(matches.get_str("cone")?)
}

fn drawing(matches: &ArgMatches<'_>) -> ToDot
    ensures { result ≡ drawing (rows_of (found_of matches.now)) }
{
    ToDot {
        cone: cone(matches),
        all_steps: is_set(matches, "all-steps"),
        gates: option_number(matches, "gates", MOST_DRAWN),
        max_var: limit(matches),
    }
}

fn check_request(
    matches: &ArgMatches<'_>,
    request: ToDot,
    destination: &Option<String>,
) -> Result<(), Usage>
    ensures ok { OnOk result (drawing_refusal (rows_of (found_of matches.now))
        (name_of destination.now) request ≡ None) }
    ensures err { IfErr result (λ reason. IsReason reason
        × (drawing_refusal (rows_of (found_of matches.now)) (name_of destination.now) request
        ≡ Some reason)) }
    ensures of_cone { OnOk result (IsOfCone request) }
{
    if is_given(matches, "cone") && request.cone.is_none() {
        return Err(Usage::ConeNeedsPlace);
    }
    if request.all_steps && request.cone.is_none() {
        return Err(Usage::AllStepsNeedsCone);
    }
    check_destination(destination)
}

pub(crate) fn aigtodot(alloc: Global, matches: &ArgMatches<'_>) -> Result<(Names, Command), Usage>
    ensures answer { IsAnswer (aigtodot (rows_of (found_of matches.now))) result }
    ensures can_do { IfOk result (λ answer. CanDo answer.0 answer.1) }
{
    let names = names_with(alloc, matches, None, None)?;
    let request = drawing(matches);
    check_request(matches, request, &names.destination)?;
    check_sync(matches)?;
    Ok((names, Command::ToDot(request)))
}
