//! Laws: facts about the definitions alone, each the contract of a function with an empty body.
ghost use Rattle.aig_tools.specs.SimulationOutcome.{SimulationsWriteTheirTexts};

pub use aig_commands::laws::{
    binary_files_convert_there_and_back, confirmed_witnesses_set_unrolled_circuits,
    conversions_are_unambiguous, files_are_read_exactly, files_are_unambiguous,
    files_convert_there_and_back, headline, mapped_texts_have_no_fault, right_runs_are_confirmed,
    simulation_texts_exist, simulations_are_unambiguous, unrolled_texts_are_files,
    unrolled_texts_exist, unrollings_are_unambiguous, verdicts_are_kept,
    witness_answers_are_unambiguous, witness_answers_exist,
};

/// Where a simulation is done, what was taken is the text of the model and the stimulus.
pub fn simulations_write_their_texts()
    ensures { SimulationsWriteTheirTexts }
{}
