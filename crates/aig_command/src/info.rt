//! What the arguments of `aiginfo` ask for.
ghost use Rattle.std.specs.Prelude.{◌≡◌, IfOk};
ghost use Rattle.clap.specs.Words.{found_of, rows_of};
ghost use Rattle.aig_command.specs.Answer.{CanDo, IsAnswer};
ghost use Rattle.aig_command.specs.Asked.{aiginfo, counting};

use crate::destination::{check_destination, check_sync};
use crate::options::{is_set, limit, names_with};
use crate::request::{Command, Info, Names};
use crate::usage::Usage;
use clap::ArgMatches;
use std::alloc::Global;

fn counting(matches: &ArgMatches<'_>) -> Info
    ensures { result ≡ counting (rows_of (found_of matches.now)) }
{
    Info {
        json: is_set(matches, "json"),
        max_var: limit(matches),
    }
}

pub(crate) fn aiginfo(alloc: Global, matches: &ArgMatches<'_>) -> Result<(Names, Command), Usage>
    ensures answer { IsAnswer (aiginfo (rows_of (found_of matches.now))) result }
    ensures can_do { IfOk result (λ answer. CanDo answer.0 answer.1) }
{
    let names = names_with(alloc, matches, None, None)?;
    check_destination(&names.destination)?;
    check_sync(matches)?;
    Ok((names, Command::Info(counting(matches))))
}
