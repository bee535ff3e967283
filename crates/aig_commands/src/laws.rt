//! Laws: facts about the definitions alone, each the contract of a function with an empty body.
ghost use Rattle.aig_commands.specs.Laws.{FilesAreReadExactly, FilesAreUnambiguous};
ghost use Rattle.aig_commands.specs.Laws.{ConversionsAreUnambiguous, Headline};
ghost use Rattle.aig_commands.specs.Laws.{FilesConvertThereAndBack, BinaryFilesConvertThereAndBack};
ghost use Rattle.aig_commands.specs.Laws.{MappedTextsHaveNoFault, OutputsAreShownAsBad};
ghost use Rattle.aig_commands.specs.Laws.{SimulationsAreUnambiguous, SimulationTextsExist};
ghost use Rattle.aig_commands.specs.Laws.{UnrolledTextsAreFiles, UnrolledTextsExist};
ghost use Rattle.aig_commands.specs.Laws.{UnrollingsAreUnambiguous};
ghost use Rattle.aig_commands.specs.Laws.{ConfirmedWitnessesSetUnrolledCircuits};
ghost use Rattle.aig_commands.specs.Laws.{RightRunsAreConfirmed, VerdictsAreKept};
ghost use Rattle.aig_commands.specs.Laws.{ReachTextsAreUnambiguous, RightAnswersHaveWitnesses};
ghost use Rattle.aig_commands.specs.Laws.{RefutationsMeanNone, SolverAnswersAreConfirmed};
ghost use Rattle.aig_commands.specs.Laws.{InvariantTextsAreUnambiguous, NeverIsNever};
ghost use Rattle.aig_commands.specs.Laws.{WitnessAnswersAreUnambiguous, WitnessAnswersExist};
ghost use Rattle.aig_commands.specs.Laws.{AnswersGoBack, InvariantsGoBack, RefutationsGoBack};
ghost use Rattle.aig_commands.specs.Laws.{JusticeVerdictsAreKept};
ghost use Rattle.aig_commands.specs.Laws.{SimplifiedTextsAreFiles, SimplifiedUnrollingsMeanTheSame};
ghost use Rattle.aig_commands.specs.LiveLaws.{AnswersAreLassos, ConfirmedClaimsAreLassos};
ghost use Rattle.aig_commands.specs.LiveLaws.{NeverExactlyWithoutFairRun, NeverMeansNoneIsFair};
ghost use Rattle.aig_commands.specs.LiveLaws.{RefutationsMeanNoLasso};

/// What is read of a text is a circuit exactly where the text is a file of that circuit, ASCII or
/// binary.
pub fn files_are_read_exactly()
    ensures { FilesAreReadExactly }
{}

/// A text is the file of one circuit at most.
pub fn files_are_unambiguous()
    ensures { FilesAreUnambiguous }
{}

/// Bytes have one conversion text at most.
pub fn conversions_are_unambiguous()
    ensures { ConversionsAreUnambiguous }
{}

/// A model and a stimulus have one simulation text at most.
pub fn simulations_are_unambiguous()
    ensures { SimulationsAreUnambiguous }
{}

/// Bytes have one unrolling text at most.
pub fn unrollings_are_unambiguous()
    ensures { UnrollingsAreUnambiguous }
{}

/// An unrolling text that `run_unroll` writes, if it is not of clauses, is the file of exactly the
/// unrolled circuit.
pub fn unrolled_texts_are_files()
    ensures { UnrolledTextsAreFiles }
{}

/// Where the unrolled circuit is simplified, it is the file of one that means the same.
pub fn simplified_unrollings_mean_the_same()
    ensures { SimplifiedUnrollingsMeanTheSame }
{}

/// What is written with fewer gates is the file of exactly the simplified circuit.
pub fn simplified_texts_are_files()
    ensures { SimplifiedTextsAreFiles }
{}

/// A file and its conversion get the same verdict on a witness file of a justice property.
pub fn justice_verdicts_are_kept()
    ensures { JusticeVerdictsAreKept }
{}

/// What a solver's answer shows of a file's conversion is a witness of the file.
pub fn answers_go_back()
    ensures { AnswersGoBack }
{}

/// What a refutation shows of a file's conversion is so of the file.
pub fn refutations_go_back()
    ensures { RefutationsGoBack }
{}

/// What an invariant shows of a file's conversion is so of the file.
pub fn invariants_go_back()
    ensures { InvariantsGoBack }
{}

/// Every file of a circuit that can be unrolled has an unrolling text, and a text of clauses where
/// they can be made.
pub fn unrolled_texts_exist()
    ensures { UnrolledTextsExist }
{}

/// The headline, over the conversion texts that `run_toaig` writes and the simulation texts that
/// `run_sim` writes: an ASCII file comes back through binary with the map, as the canonical text of
/// its circuit; a canonical binary file comes back through ASCII byte for byte; and a file and its
/// conversion, or what is undone from it, have the same simulation text of every stimulus.
pub fn headline()
    ensures { Headline }
{}

/// Where outputs became bad states, these show at each step of each trace what the outputs showed.
pub fn outputs_are_shown_as_bad()
    ensures { OutputsAreShownAsBad }
{}

/// Where a justice property became a bad state, that is never reached exactly where no run without
/// end is fair to the property.
pub fn never_exactly_without_fair_run()
    ensures { NeverExactlyWithoutFairRun }
{}

/// A confirmed claim of that is, turned back, a lasso of the circuit that was read.
pub fn confirmed_claims_are_lassos()
    ensures { ConfirmedClaimsAreLassos }
{}

/// Where it is written for a model and a refutation that there is none for a justice property, no
/// lasso of the model without x is so short.
pub fn refutations_mean_no_lasso()
    ensures { RefutationsMeanNoLasso }
{}

/// Where it is written that there never is one, no run of the model is fair to the property.
pub fn never_means_none_is_fair()
    ensures { NeverMeansNoneIsFair }
{}

/// What is written for an answer on a justice property is a lasso of the model.
pub fn answers_are_lassos()
    ensures { AnswersAreLassos }
{}

/// The conversion texts that the headline speaks of exist: every file of a circuit has one to
/// binary with the map, and that has one to ASCII with the map undone.
pub fn files_convert_there_and_back()
    ensures { FilesConvertThereAndBack }
{}

/// Every canonical binary file has a conversion text to ASCII, and that has one to binary.
#[tactic(auto, using(crate::proofs::TripsExist::binary_there_and_back))]
pub fn binary_files_convert_there_and_back()
    ensures { BinaryFilesConvertThereAndBack }
{}

/// The simulation texts that the headline speaks of exist: every file of a circuit has one of each
/// stimulus that has no bad line.
pub fn simulation_texts_exist()
    ensures { SimulationTextsExist }
{}

/// A text that was converted with the map has no first fault, and what is read of it has no map
/// fault. So reading and undoing it fails only where an allocation fails.
pub fn mapped_texts_have_no_fault()
    ensures { MappedTextsHaveNoFault }
{}

/// A model and a witness file have one verdict at most.
pub fn witness_answers_are_unambiguous()
    ensures { WitnessAnswersAreUnambiguous }
{}

/// Every file of a circuit gets a verdict on each witness file of which no line is wrong or
/// missing.
pub fn witness_answers_exist()
    ensures { WitnessAnswersExist }
{}

/// Each run of a circuit that reaches a bad state, with all constraints kept, has a witness file
/// that is confirmed.
pub fn right_runs_are_confirmed()
    ensures { RightRunsAreConfirmed }
{}

/// A file and its conversion, or what is undone from it, get the same verdict on every witness
/// file.
pub fn verdicts_are_kept()
    ensures { VerdictsAreKept }
{}

/// A witness that is confirmed at a step gives the unrolled circuit of the steps up to it inputs
/// for which the bad state that stands for the claimed one in the last frame is 1.
#[tactic(auto, using(crate::proofs::WitnessesUnrolled::confirmed_witnesses_set_unrolled_circuits))]
pub fn confirmed_witnesses_set_unrolled_circuits()
    ensures { ConfirmedWitnessesSetUnrolledCircuits }
{}

/// A model and a solver's answer have one witness at most.
pub fn reach_texts_are_unambiguous()
    ensures { ReachTextsAreUnambiguous }
{}

/// Where values satisfy the clauses that are written of a model, an answer that has them has a
/// witness.
pub fn right_answers_have_witnesses()
    ensures { RightAnswersHaveWitnesses }
{}

/// What is written for a model and a solver's answer is a witness file that is confirmed, of the
/// selected bad state.
pub fn solver_answers_are_confirmed()
    ensures { SolverAnswersAreConfirmed }
{}

/// Where it is written for a model and a solver's refutation that there is none, no witness file is
/// confirmed of the model at one of the frames.
pub fn refutations_mean_none()
    ensures { RefutationsMeanNone }
{}

/// A model and an invariant have one text of clauses at most.
pub fn invariant_texts_are_unambiguous()
    ensures { InvariantTextsAreUnambiguous }
{}

/// Where it is written for a model, an invariant and a solver's refutation that no bad state is
/// ever reached, no witness file is confirmed of the model, at whatever step.
pub fn invariants_mean_never()
    ensures { NeverIsNever }
{}
