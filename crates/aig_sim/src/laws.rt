//! Laws: facts about the definitions alone, each the contract of a function with an empty body.

pub use aig_step::laws::stimuli_are_read;
pub use aig_trace_laws::laws::{known_characters_stay, one_trace_text, same_meaning_same_text};
pub use aig_witness::laws::{
    claims_have_files, first_wrong_lines_are_found, one_verdict, witness_files_are_read,
};
