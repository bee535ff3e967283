//! Options and names of files that several requests have.
ghost use Rattle.std.specs.Prelude.{◌≡◌, IfOk, is_some};
ghost use Rattle.clap.specs.Words.{found_of, rows_of};
ghost use Rattle.aig_command.specs.Answer.{files_of, name_of};
ghost use Rattle.aig_command.specs.Asked.{all_chosen, chosen, chosen_property, file, files_with};
ghost use Rattle.aig_command.specs.Asked.{frames, has_one_stream_for_two, is_given, is_set, limit};
ghost use Rattle.aig_command.specs.Asked.{number};

use crate::request::{Names, Property};
use aig_circuit::Listing;
use clap::ArgMatches;
use std::alloc::{AllocError, Global};

/// The largest index that the format has, and so the limit where none is set.
const LARGEST: u32 = 2_147_483_647;

pub(crate) fn is_set(matches: &ArgMatches<'_>, name: &str) -> bool
    ensures { result ≡ is_set name.now (rows_of (found_of matches.now)) }
{
    // The contract of `get_flag` is silent on a text that is neither `true` nor `false`.
    matches.get_one::<bool>(name).unwrap_or(false)
}

pub(crate) fn option_number(matches: &ArgMatches<'_>, name: &str, otherwise: u32) -> u32
    ensures { result ≡ number name.now otherwise (rows_of (found_of matches.now)) }
{
    matches.get_one::<u32>(name).unwrap_or(otherwise)
}

pub(crate) fn limit(matches: &ArgMatches<'_>) -> u32
    ensures { result ≡ limit (rows_of (found_of matches.now)) }
{
    option_number(matches, "max-var", LARGEST)
}

pub(crate) fn frame_count(matches: &ArgMatches<'_>) -> u32
    ensures { result ≡ frames (rows_of (found_of matches.now)) }
{
    option_number(matches, "frames", 1)
}

/// The number of the property that the option chooses.
pub(crate) fn chosen(matches: &ArgMatches<'_>, name: &str) -> Option<u32>
    ensures { result ≡ chosen name.now (rows_of (found_of matches.now)) }
{
    matches.get_one::<u32>(name)
}

/// The numbers that the uses of the option choose, in their order.
pub(crate) fn all_chosen(
    alloc: Global,
    matches: &ArgMatches<'_>,
    name: &str,
) -> Result<Listing<u32>, AllocError>
    ensures { IfOk result (λ chosen. chosen
        ≡ all_chosen name.now (rows_of (found_of matches.now))) }
{
    let mut chosen = Listing::new(alloc);
    let Some(values) = matches.get_many::<u32>(name) else {
        return Ok(chosen);
    };
    for value in values {
        if let Ok(number) = value {
            chosen.push(number)?;
        }
    }
    Ok(chosen)
}

/// The property that `--bad` or `--justice` chooses.
pub(crate) fn chosen_property(matches: &ArgMatches<'_>) -> Property
    ensures { result ≡ chosen_property (rows_of (found_of matches.now)) }
{
    if let Some(number) = chosen(matches, "bad") {
        return Property::Bad(number);
    }
    match chosen(matches, "justice") {
        Some(number) => Property::Justice(number),
        None => Property::AnyBad,
    }
}

/// Whether there is a value at this place, or for this option.
pub(crate) fn is_given(matches: &ArgMatches<'_>, name: &str) -> bool
    ensures { result ≡ is_given name.now (rows_of (found_of matches.now)) }
{
    matches.get_str(name).is_some()
}

/// Whether a file is named at this place.
pub(crate) fn is_named(matches: &ArgMatches<'_>, place: &str) -> bool
    ensures { result ≡ is_some (file place.now (rows_of (found_of matches.now))) }
{
    match matches.get_str(place) {
        Some(name) => name != "-",
        None => false,
    }
}

/// The file that is named at this place; no name, or `-`, is the standard stream.
pub(crate) fn named_file(
    alloc: Global,
    matches: &ArgMatches<'_>,
    place: &str,
) -> Result<Option<String>, AllocError>
    ensures { IfOk result (λ named. name_of named
        ≡ file place.now (rows_of (found_of matches.now))) }
{
    let Some(name) = matches.get_str(place) else {
        return Ok(None);
    };
    if name == "-" {
        return Ok(None);
    }
    Ok(Some(String::from_str(alloc, name)?))
}

/// The names of a command with a source and a destination, and with these two beside the source.
pub(crate) fn names_with(
    alloc: Global,
    matches: &ArgMatches<'_>,
    file: Option<String>,
    refutation: Option<String>,
) -> Result<Names, AllocError>
    ensures { IfOk result (λ names. files_of names
        ≡ files_with (name_of file) (name_of refutation) (rows_of (found_of matches.now))) }
{
    let model = named_file(alloc, matches, "source")?;
    let destination = named_file(alloc, matches, "destination")?;
    Ok(Names {
        model,
        file,
        refutation,
        destination,
    })
}

/// Whether both the model and the file after it are the standard input, which is one stream.
pub(crate) fn has_one_stream_for_two(names: &Names) -> bool
    ensures { result ≡ has_one_stream_for_two (files_of names.now) }
{
    names.model.is_none() && names.file.is_none()
}
