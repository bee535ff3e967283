//! What the arguments of `aigselect` ask for.
ghost use Rattle.std.specs.Prelude.{◌≡◌, IfErr, IfOk, None, OnOk, Some};
ghost use Rattle.clap.specs.Words.{found_of, rows_of};
ghost use Rattle.aig_command.specs.Answer.{CanDo, IsAnswer, IsReason, IsSomeChosen, name_of};
ghost use Rattle.aig_command.specs.Asked.{aigselect, is_empty, selection, selection_refusal};

use crate::destination::{check_destination, check_sync, wants_ascii};
use crate::options::{all_chosen, limit, names_with};
use crate::request::{Command, Names, Select};
use crate::usage::Usage;
use clap::ArgMatches;
use std::alloc::{AllocError, Global};

impl Select {
    /// Whether nothing is chosen.
    fn is_empty(&self) -> bool
        ensures { result ≡ is_empty self.now }
    {
        self.outputs.is_empty() && self.bad.is_empty() && self.justice.is_empty()
    }
}

fn selection(
    alloc: Global,
    matches: &ArgMatches<'_>,
    destination: &Option<String>,
) -> Result<Select, AllocError>
    ensures { IfOk result (λ request. request
        ≡ selection (rows_of (found_of matches.now)) (name_of destination.now)) }
{
    Ok(Select {
        outputs: all_chosen(alloc, matches, "output")?,
        bad: all_chosen(alloc, matches, "bad")?,
        justice: all_chosen(alloc, matches, "justice")?,
        ascii: wants_ascii(matches, destination),
        max_var: limit(matches),
    })
}

fn check_request(request: &Select, destination: &Option<String>) -> Result<(), Usage>
    ensures ok { OnOk result (selection_refusal (name_of destination.now) request.now ≡ None) }
    ensures err { IfErr result (λ reason. IsReason reason
        × (selection_refusal (name_of destination.now) request.now ≡ Some reason)) }
    ensures some { OnOk result (IsSomeChosen request.now) }
{
    if request.is_empty() {
        return Err(Usage::SelectNeedsChoice);
    }
    check_destination(destination)
}

pub(crate) fn aigselect(alloc: Global, matches: &ArgMatches<'_>) -> Result<(Names, Command), Usage>
    ensures answer { IsAnswer (aigselect (rows_of (found_of matches.now))) result }
    ensures can_do { IfOk result (λ answer. CanDo answer.0 answer.1) }
{
    let names = names_with(alloc, matches, None, None)?;
    let request = selection(alloc, matches, &names.destination)?;
    check_request(&request, &names.destination)?;
    check_sync(matches)?;
    Ok((names, Command::Select(request)))
}
