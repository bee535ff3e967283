//! What a user asks for.
ghost use Rattle.std.specs.Prelude.{◌≡◌};
ghost use Rattle.aig_command.specs.Answer.{is_binary_stream};
ghost use Rattle.aig_command.specs.Asked.{is_binary, writes_binary};

use aig_circuit::{Kind, Listing};

/// Which bad states a conversion writes.
#[derive(Clone, Copy)]
pub enum BadStates {
    /// Those of the source.
    Kept,
    /// The outputs of the source, which are then no outputs. This stands without a map.
    Outputs,
    /// One, which closes a loop that is fair to the justice property of this number, counted from
    /// 0. This stands without a map.
    Justice(u32),
}

/// A conversion between AIGER files.
#[derive(Clone, Copy)]
pub struct ToAig {
    /// Whether ASCII is written, whether an option or the destination's name decided it.
    pub ascii: bool,
    /// Whether symbols and comment are left out.
    pub strip: bool,
    /// Whether the comment begins with a map block, by which the conversion can be undone. This
    /// stands without `ascii`, `strip` and `undo_map`.
    pub keep_map: bool,
    /// Whether a conversion is undone by the map block of its image.
    pub undo_map: bool,
    /// Which bad states are written.
    pub bad_states: BadStates,
    /// Whether a circuit with fewer gates is written that means the same. This stands without
    /// `keep_map`.
    pub simplify: bool,
    /// The limit on the largest variable index and the counts of the source.
    pub max_var: u32,
}

/// A simulation of a circuit, or the judging of a witness file against it.
#[derive(Clone, Copy)]
pub struct Sim {
    /// Whether the whole stimulus is read, and each line found good, before anything is written.
    pub batch: bool,
    /// Whether a line of the trace shows bad states and constraints too.
    pub properties: bool,
    /// Whether a witness file is judged, which stands in the stimulus's place. This stands without
    /// `batch` and `properties`.
    pub witness: bool,
    /// Whether the trace, or the run of a witness, is written as a Value Change Dump, which always
    /// shows bad states and constraints too. This stands without `properties`.
    pub vcd: bool,
    /// The limit on the largest variable index and the counts of the model.
    pub max_var: u32,
}

/// What is asked of a model: whether a bad state can be reached, or a justice property be met.
#[derive(Clone, Copy)]
pub enum Property {
    /// Any of its bad states.
    AnyBad,
    /// The bad state of this number, counted from 0.
    Bad(u32),
    /// The justice property of this number, counted from 0: a run that comes back to a state in
    /// which it was, and meets the property in between.
    Justice(u32),
}

/// What is written of an unrolled circuit.
#[derive(Clone, Copy)]
pub enum UnrolledForm {
    /// The circuit itself, in binary.
    Binary,
    /// The circuit itself, in ASCII, whether an option or the destination's name decided it.
    Ascii,
    /// The clauses, in DIMACS, that can be satisfied where the property can be had.
    Clauses {
        /// That property.
        property: Property,
    },
}

/// An unrolling of a circuit over time frames.
#[derive(Clone, Copy)]
pub struct Unroll {
    /// The number of frames, from 1 to 1000000.
    pub frames: u32,
    /// What is written of the unrolled circuit.
    pub form: UnrolledForm,
    /// Whether it is simplified first.
    pub simplify: bool,
    /// The limit on the largest variable index and the counts of the source.
    pub max_var: u32,
}

/// What a solver wrote on clauses.
#[derive(Clone, Copy)]
pub enum SolverFile {
    /// Its answer, in which there is a run that has the property.
    Answer,
    /// Its refutation (a DRAT or LRAT proof), by which no run has it.
    Refutation,
}

/// What a solver wrote on the clauses of an unrolled circuit: the witness in its answer, or that
/// its refutation is right.
#[derive(Clone, Copy)]
pub struct Reach {
    /// The number of frames, from 1 to 1000000.
    pub frames: u32,
    /// The property that the clauses are for.
    pub property: Property,
    /// The limit on the largest variable index and the counts of the model.
    pub max_var: u32,
    /// What is read beside the model.
    pub wrote: SolverFile,
    /// Whether a refutation is LRAT, with hints; else it is DRAT.
    pub lrat: bool,
    /// Whether the clauses are those of the simplified circuit.
    pub simplify: bool,
}

/// An invariant of a model: the clauses in which it is to be shown, or that a solver's refutation
/// of them is right.
#[derive(Clone, Copy)]
pub struct Invariant {
    /// The property that no run is to have.
    pub property: Property,
    /// The limit on the largest variable index and the counts of the model.
    pub max_var: u32,
    /// Whether a refutation is checked; else the clauses are written.
    pub refuted: bool,
    /// Whether that is LRAT, with hints; else it is DRAT.
    pub lrat: bool,
    /// Whether the clauses are those of the simplified circuit.
    pub simplify: bool,
}

/// A miter of two circuits, which says where they differ.
#[derive(Clone, Copy)]
pub struct Miter {
    /// Whether ASCII is written, whether an option or the destination's name decided it.
    pub ascii: bool,
    /// Whether inputs, outputs and bad states are paired by their symbols, and not by their places.
    pub by_name: bool,
    /// Whether the miter is simplified first.
    pub simplify: bool,
    /// The limit on the largest variable index and the counts of each circuit.
    pub max_var: u32,
}

/// The numbers of a circuit.
#[derive(Clone, Copy)]
pub struct Info {
    /// Whether they are written as a JSON object; else as lines.
    pub json: bool,
    /// The limit on the largest variable index and the counts of the source.
    pub max_var: u32,
}

/// A selection of what a circuit shows, by positions that are counted from 0, with all on which that
/// depends. At least one is chosen.
#[derive(Drop)]
pub struct Select {
    /// The outputs.
    pub outputs: Listing<u32>,
    /// The bad states.
    pub bad: Listing<u32>,
    /// The justice properties.
    pub justice: Listing<u32>,
    /// Whether ASCII is written, whether an option or the destination's name decided it.
    pub ascii: bool,
    /// The limit on the largest variable index and the counts of the source.
    pub max_var: u32,
}

/// What a circuit shows at a position, counted from 0: an output, a bad state, a constraint, a justice
/// property or a fairness constraint.
#[derive(Clone, Copy)]
pub struct Place {
    /// Which of these it is.
    pub kind: Kind,
    /// Its position among those of its kind.
    pub position: u32,
}

/// A picture of a circuit.
#[derive(Clone, Copy)]
pub struct ToDot {
    /// What is drawn with all on which it depends in a step; `None` is the whole circuit.
    pub cone: Option<Place>,
    /// Whether that on which it depends in any step is drawn too. This stands only with a `cone`.
    pub all_steps: bool,
    /// The most gates that are drawn.
    pub gates: u32,
    /// The limit on the largest variable index and the counts of the source.
    pub max_var: u32,
}

/// What a command line asks for.
#[derive(Drop)]
pub enum Command {
    /// `aigtoaig`.
    ToAig(ToAig),
    /// `aigsim`.
    Sim(Sim),
    /// `aigunroll`, without `--answer`, `--refutation` and `--invariant`.
    Unroll(Unroll),
    /// `aigunroll --answer` or `aigunroll --refutation`, without `--invariant`.
    Reach(Reach),
    /// `aigunroll --invariant`.
    Invariant(Invariant),
    /// `aigmiter`.
    Miter(Miter),
    /// `aiginfo`.
    Info(Info),
    /// `aigselect`.
    Select(Select),
    /// `aigtodot`.
    ToDot(ToDot),
    /// Help; this is its text.
    Help(String),
    /// The program's version; this is its text.
    Version(String),
}

/// The files that a command names; `None` is a standard stream, or a file that the command does not
/// have.
#[derive(Drop)]
pub struct Names {
    /// The model, the source of a conversion, or the first of two circuits.
    pub model: Option<String>,
    /// What is read after the model: a stimulus, a witness file, what a solver wrote, an invariant,
    /// or the second circuit. Where one is read, this or the model is a file with a name.
    pub file: Option<String>,
    /// The refutation of the clauses in which an invariant is to be shown. Where one is checked, at
    /// least two of the three that are read have names.
    pub refutation: Option<String>,
    /// Where the answer is written.
    pub destination: Option<String>,
}

/// What a command line asks for, of which files, and how its destination is left.
#[derive(Drop)]
pub struct CommandLine {
    /// What is done.
    pub command: Command,
    /// The files that it names: none for help and for the version.
    pub names: Names,
    /// Whether the disk is to have the destination before the program ends. This stands only where
    /// the destination has a name.
    pub sync: bool,
    /// Whether binary may go to a terminal.
    pub force: bool,
}

impl UnrolledForm {
    fn is_binary(self) -> bool
        ensures { result ≡ is_binary self }
    {
        matches!(self, UnrolledForm::Binary)
    }
}

impl Command {
    fn writes_binary(&self) -> bool
        ensures { result ≡ writes_binary self.now }
    {
        match self {
            Command::ToAig(request) => !request.ascii,
            Command::Unroll(request) => request.form.is_binary(),
            Command::Miter(request) => !request.ascii,
            Command::Select(request) => !request.ascii,
            _ => false,
        }
    }
}

impl CommandLine {
    /// Whether binary is written to the standard output, which is not forced: to a terminal it
    /// would only garble that.
    pub fn is_binary_stream(&self) -> bool
        ensures { result ≡ is_binary_stream self.now }
    {
        self.command.writes_binary() && self.names.destination.is_none() && !self.force
    }
}
