//! Command lines of `aiginfo`, `aigselect` and `aigtodot`, and how what they ask for is shown.
use crate::rows::show_file;
use aig_circuit::Kind;
use aig_command::{Info, Names, Place, Select, ToDot};
use std::alloc::{AllocError, Global};

/// Arguments after the program's name, and what they ask for: the form of the numbers, the limit, the
/// source and the destination.
pub(crate) const INFOS: &str = "\
aiginfo => 2147483647 - -;\
aiginfo a => 2147483647 a -;\
aiginfo --json a b.aag => json 2147483647 a b.aag;\
aiginfo a --sync b --max-var 7 => sync 7 a b;\
aiginfo -- --json help => 2147483647 --json help";

/// The outputs, the bad states and the justice properties that are chosen, the form, the limit and
/// the files.
pub(crate) const SELECTIONS: &str = "\
aigselect --bad 0 => [] [0] [] 2147483647 - -;\
aigselect --output 3 a b.aag => [3] [] [] ascii 2147483647 a b.aag;\
aigselect --justice=2147483647 --max-var 7 a b => [] [] [2147483647] 7 a b;\
aigselect --bad 3 --output 1 --bad 0 --bad 3 => [1] [3, 0, 3] [] 2147483647 - -;\
aigselect --output +007 a --output 2 b --justice 1 => [7, 2] [] [1] 2147483647 a b;\
aigselect --force --bad 2 => force [] [2] [] 2147483647 - -;\
aigselect --bad=-0 --sync - x => sync [] [0] [] 2147483647 - x;\
aigselect --ascii --bad 1 -- --bad help => [] [1] [] ascii 2147483647 --bad help";

/// The cone that is drawn, the most gates, the limit and the files.
pub(crate) const PICTURES: &str = "\
aigtodot => whole 1000 2147483647 - -;\
aigtodot --gates 0 a b.aag => whole 0 2147483647 a b.aag;\
aigtodot --cone b0 --max-var 7 a => b0 1000 7 a -;\
aigtodot --all-steps --cone o12 --gates=2147483647 => o12 all 2147483647 2147483647 - -;\
aigtodot --cone c1 --sync a b => sync c1 1000 2147483647 a b;\
aigtodot --cone=j2 => j2 1000 2147483647 - -;\
aigtodot --cone f4294967295 => f4294967295 1000 2147483647 - -;\
aigtodot -- --cone => whole 1000 2147483647 --cone -";

pub(crate) fn shown_info(
    alloc: Global,
    names: &Names,
    request: Info,
) -> Result<String, AllocError> {
    let json = if request.json { "json " } else { "" };
    let source = show_file(&names.model);
    let destination = show_file(&names.destination);
    let limit = request.max_var;
    format!(in alloc; "{json}{limit} {source} {destination}")
}

pub(crate) fn shown_selection(
    alloc: Global,
    names: &Names,
    request: &Select,
) -> Result<String, AllocError> {
    let outputs = request.outputs.as_slice();
    let bad = request.bad.as_slice();
    let justice = request.justice.as_slice();
    let ascii = if request.ascii { "ascii " } else { "" };
    let source = show_file(&names.model);
    let destination = show_file(&names.destination);
    let limit = request.max_var;
    let chosen = format!(in alloc; "{outputs:?} {bad:?} {justice:?}")?;
    format!(in alloc; "{chosen} {ascii}{limit} {source} {destination}")
}

fn letter_of(kind: Kind) -> &'static str {
    match kind {
        Kind::Input => "i",
        Kind::Latch => "l",
        Kind::Output => "o",
        Kind::Bad => "b",
        Kind::Constraint => "c",
        Kind::Justice => "j",
        Kind::Fairness => "f",
    }
}

fn shown_cone(alloc: Global, cone: Option<Place>) -> Result<String, AllocError> {
    match cone {
        Some(place) => {
            let letter = letter_of(place.kind);
            let position = place.position;
            format!(in alloc; "{letter}{position}")
        }
        None => String::from_str(alloc, "whole"),
    }
}

pub(crate) fn shown_picture(
    alloc: Global,
    names: &Names,
    request: ToDot,
) -> Result<String, AllocError> {
    let cone = shown_cone(alloc, request.cone)?;
    let all = if request.all_steps { " all" } else { "" };
    let gates = request.gates;
    let source = show_file(&names.model);
    let destination = show_file(&names.destination);
    let limit = request.max_var;
    format!(in alloc; "{cone}{all} {gates} {limit} {source} {destination}")
}
