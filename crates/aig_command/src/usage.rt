//! Why a command line is refused.
ghost use Rattle.std.specs.Prelude.{◌≡◌, Some};
ghost use Rattle.aig_command.specs.declared.usage.Usage.TheVariants as usage;
ghost use Rattle.aig_command.specs.Words.{usage_words};

use crate::packed::Packer;
use std::alloc::AllocError;
use std::error::Error;
use std::fmt;

/// Why a command line is refused.
#[derive(Debug, Drop)]
pub enum Usage {
    /// It has not the form of a command. The text tells what is wrong, and what the form is.
    Words(String),
    /// A map is kept in the comment of a binary file, and ASCII is asked for.
    KeepMapNeedsBinary,
    /// A map is kept in the comment, and no comment is to be written.
    KeepMapExcludesStrip,
    /// A map is undone, and none is kept by that.
    KeepMapExcludesUndoMap,
    /// A map is kept, which does not tell of gates that are gone.
    KeepMapExcludesSimplify,
    /// Outputs become bad states, and a map, which does not tell that, is kept.
    OutputsAsBadExcludesKeepMap,
    /// Outputs become bad states, and what was converted is to come back as it was.
    OutputsAsBadExcludesUndoMap,
    /// A justice property becomes a bad state, and so do outputs, or a map is kept or undone.
    JusticeAsBadAlone,
    /// A simulation reads both its model and its stimulus from the standard input.
    BothStandardInput,
    /// The destination's name is that of a compressed file.
    CompressedOutput(Packer),
    /// The name of a file that is read is that of a compressed file.
    CompressedInput(Packer),
    /// A witness is judged, and a batch or properties in a trace are asked for too.
    WitnessAlone,
    /// A dump is asked for, which always has the properties, and with it properties.
    VcdExcludesProperties,
    /// Clauses are asked for, and with them the circuit in ASCII.
    CnfExcludesAscii,
    /// An answer is read, and clauses or the circuit in ASCII are asked for too.
    AnswerAlone,
    /// A refutation is read, and clauses, the circuit in ASCII or an answer are asked for too.
    RefutationAlone,
    /// A bad state is chosen, and there are no clauses that need it.
    BadNeedsClauses,
    /// A bad state is chosen, and a justice property too.
    BadExcludesJustice,
    /// A justice property is chosen, and there are no clauses that need it.
    JusticeNeedsClauses,
    /// A refutation is said to be LRAT, and none is read.
    LratNeedsRefutation,
    /// Both a model and an answer on it are read from the standard input.
    BothAreStandardInput,
    /// Both a model and a refutation of it are read from the standard input.
    RefutationIsModel,
    /// A circuit is to be unrolled, and there is no number of frames and no invariant.
    FramesNeeded,
    /// An invariant is read, and frames, the circuit in ASCII or an answer are asked for too.
    InvariantAlone,
    /// An invariant is read, and neither clauses nor a refutation of them are asked for.
    InvariantNeedsClauses,
    /// Both a model and an invariant of it are read from the standard input.
    InvariantIsModel,
    /// Both an invariant and a refutation for it are read from the standard input.
    RefutationIsInvariant,
    /// Both circuits are read from the standard input.
    CircuitsAreStandardInput,
    /// The disk is to have a destination that is the standard output.
    SyncNeedsDestination,
    /// A selection is asked for, and nothing is chosen.
    SelectNeedsChoice,
    /// A cone is asked for, and the text names none.
    ConeNeedsPlace,
    /// More than a step is to be drawn, and no cone is asked for.
    AllStepsNeedsCone,
    /// Binary is to go to the standard output, which is a terminal.
    BinaryToTerminal,
    /// An allocation failed; nothing is known of the command line.
    OutOfMemory,
}

impl Usage {
    /// What is wrong, in words: of `Words` whole lines, and else a text without a line feed.
    pub fn words(&self) -> &str
        ensures { result.now ≡ usage_words self.now }
    {
        match self {
            Usage::Words(text) => text.as_str(),
            Usage::KeepMapNeedsBinary => "--keep-map needs binary output",
            Usage::KeepMapExcludesStrip => "--keep-map excludes --strip",
            Usage::KeepMapExcludesUndoMap => "--keep-map excludes --undo-map",
            Usage::KeepMapExcludesSimplify => "--keep-map excludes --simplify",
            Usage::OutputsAsBadExcludesKeepMap => "--outputs-as-bad excludes --keep-map",
            Usage::OutputsAsBadExcludesUndoMap => "--outputs-as-bad excludes --undo-map",
            Usage::JusticeAsBadAlone => {
                "--justice-as-bad excludes --outputs-as-bad, --keep-map and --undo-map"
            }
            Usage::BothStandardInput => "model and stimulus are both standard input",
            Usage::CompressedOutput(packer) => packer.packed_words(),
            Usage::CompressedInput(packer) => packer.unpacked_words(),
            Usage::WitnessAlone => "--witness stands alone",
            Usage::VcdExcludesProperties => "--vcd excludes --properties",
            Usage::CnfExcludesAscii => "--cnf excludes --ascii",
            Usage::AnswerAlone => "--answer excludes --cnf and --ascii",
            Usage::RefutationAlone => "--refutation excludes --cnf, --ascii and --answer",
            Usage::BadNeedsClauses => "--bad needs --cnf, --answer or --refutation",
            Usage::BadExcludesJustice => "--bad excludes --justice",
            Usage::JusticeNeedsClauses => "--justice needs --cnf, --answer or --refutation",
            Usage::LratNeedsRefutation => "--lrat needs --refutation",
            Usage::BothAreStandardInput => "model and answer are both standard input",
            Usage::RefutationIsModel => "model and refutation are both standard input",
            Usage::FramesNeeded => "--frames or --invariant is needed",
            Usage::InvariantAlone => "--invariant excludes --frames, --ascii and --answer",
            Usage::InvariantNeedsClauses => "--invariant needs --cnf or --refutation",
            Usage::InvariantIsModel => "model and invariant are both standard input",
            Usage::RefutationIsInvariant => "invariant and refutation are both standard input",
            Usage::CircuitsAreStandardInput => "both circuits are standard input",
            Usage::SyncNeedsDestination => "--sync needs the name of a destination",
            Usage::SelectNeedsChoice => "--output, --bad or --justice is needed",
            Usage::ConeNeedsPlace => {
                "--cone needs o, b, c, j or f and a position: o0 is the first output, b0 the first bad state"
            }
            Usage::AllStepsNeedsCone => "--all-steps needs --cone",
            Usage::BinaryToTerminal => {
                "binary output to a terminal is refused: name a file, or use --ascii or --force"
            }
            Usage::OutOfMemory => "out of memory",
        }
    }
}

impl fmt::Display for Usage {
    ghost output = { λ refusal. Some (usage_words refusal) };

    fn fmt<W: fmt::Write>(&self, f: &mut fmt::Formatter<W>) -> fmt::Result {
        write!(f, "{}", self.words())
    }
}

impl Error for Usage {}

impl From<AllocError> for Usage {
    ghost from_gives = { λ _ refusal. refusal ≡ usage.OutOfMemory };

    fn from(_refused: AllocError) -> Usage {
        Usage::OutOfMemory
    }
}
