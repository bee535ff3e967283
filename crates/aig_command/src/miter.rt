//! What the arguments of `aigmiter` ask for.
ghost use Rattle.std.specs.Prelude.{◌≡◌, IfErr, IfOk, None, OnOk, Some};
ghost use Rattle.clap.specs.Words.{found_of, rows_of};
ghost use Rattle.aig_command.specs.Answer.{CanDo, files_of, HasOneStandardInput, IsAnswer};
ghost use Rattle.aig_command.specs.Answer.{IsReason, name_of};
ghost use Rattle.aig_command.specs.Asked.{aigmiter, comparison, miter_files, miter_refusal};

use crate::destination::{check_destination, check_sync, wants_ascii};
use crate::options::{has_one_stream_for_two, is_set, limit, named_file};
use crate::request::{Command, Miter, Names};
use crate::usage::Usage;
use clap::ArgMatches;
use std::alloc::{AllocError, Global};

fn miter_names(alloc: Global, matches: &ArgMatches<'_>) -> Result<Names, AllocError>
    ensures { IfOk result (λ names. files_of names ≡ miter_files (rows_of (found_of matches.now))) }
{
    let model = named_file(alloc, matches, "first")?;
    let file = named_file(alloc, matches, "second")?;
    let destination = named_file(alloc, matches, "destination")?;
    Ok(Names {
        model,
        file,
        refutation: None,
        destination,
    })
}

fn comparison(matches: &ArgMatches<'_>, destination: &Option<String>) -> Miter
    ensures { result ≡ comparison (rows_of (found_of matches.now)) (name_of destination.now) }
{
    Miter {
        ascii: wants_ascii(matches, destination),
        by_name: is_set(matches, "by-name"),
        simplify: is_set(matches, "simplify"),
        max_var: limit(matches),
    }
}

fn check_request(names: &Names) -> Result<(), Usage>
    ensures ok { OnOk result (miter_refusal (files_of names.now) ≡ None) }
    ensures err { IfErr result (λ reason. IsReason reason
        × (miter_refusal (files_of names.now) ≡ Some reason)) }
    ensures one { OnOk result (HasOneStandardInput names.now) }
{
    if has_one_stream_for_two(names) {
        return Err(Usage::CircuitsAreStandardInput);
    }
    check_destination(&names.destination)
}

pub(crate) fn aigmiter(alloc: Global, matches: &ArgMatches<'_>) -> Result<(Names, Command), Usage>
    ensures answer { IsAnswer (aigmiter (rows_of (found_of matches.now))) result }
    ensures can_do { IfOk result (λ answer. CanDo answer.0 answer.1) }
{
    let names = miter_names(alloc, matches)?;
    let request = comparison(matches, &names.destination);
    check_request(&names)?;
    check_sync(matches)?;
    Ok((names, Command::Miter(request)))
}
