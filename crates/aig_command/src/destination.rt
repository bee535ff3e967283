//! What a destination's name says of what is written there, and whether the disk is to have it.
ghost use Rattle.std.specs.Prelude.{◌≡◌, IfErr, None, nat_eq, OnOk, Some};
ghost use Rattle.std.specs.List.{ends_with};
ghost use Rattle.clap.specs.Words.{found_of, rows_of};
ghost use Rattle.aig_command.specs.Answer.{IsReason, name_of};
ghost use Rattle.aig_command.specs.Asked.{destination_refusal, ends_in, sync_refusal, wants_ascii};

use crate::options::{is_named, is_set};
use crate::packed::packer_of;
use crate::usage::Usage;
use clap::ArgMatches;

fn has_ending(name: &str, ending: &str) -> bool
    ensures { result ≡ ends_with nat_eq name.now ending.now }
{
    name.ends_with(ending)
}

pub(crate) fn ends_in(named: &Option<String>, ending: &str) -> bool
    ensures { result ≡ ends_in ending.now (name_of named.now) }
{
    match named {
        Some(name) => has_ending(name.as_str(), ending),
        None => false,
    }
}

pub(crate) fn wants_ascii(matches: &ArgMatches<'_>, destination: &Option<String>) -> bool
    ensures { result ≡ wants_ascii (rows_of (found_of matches.now)) (name_of destination.now) }
{
    is_set(matches, "ascii") || ends_in(destination, ".aag")
}

pub(crate) fn check_destination(destination: &Option<String>) -> Result<(), Usage>
    ensures ok { OnOk result (destination_refusal (name_of destination.now) ≡ None) }
    ensures err { IfErr result (λ reason. IsReason reason
        × (destination_refusal (name_of destination.now) ≡ Some reason)) }
{
    match packer_of(destination) {
        Some(packer) => Err(Usage::CompressedOutput(packer)),
        None => Ok(()),
    }
}

pub(crate) fn check_sync(matches: &ArgMatches<'_>) -> Result<(), Usage>
    ensures ok { OnOk result (sync_refusal (rows_of (found_of matches.now)) ≡ None) }
    ensures err { IfErr result (λ reason. IsReason reason
        × (sync_refusal (rows_of (found_of matches.now)) ≡ Some reason)) }
{
    if is_set(matches, "sync") && !is_named(matches, "destination") {
        return Err(Usage::SyncNeedsDestination);
    }
    Ok(())
}
