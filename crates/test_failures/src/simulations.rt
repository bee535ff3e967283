//! Simulations over devices that fail, and devices that move few bytes in a call.
use crate::memory_files::{Calls, MemoryFiles, Readable};
use crate::run::{Behaviour, Outcome, run};
use crate::streams::NEVER;
use std::alloc::{AllocError, Global};
use std::test::Fail;

const MODEL: &[u8] = b"aag 3 2 0 1 1\n2\n4\n6\n6 2 4\n";

/// Each line has three bytes, and the line of its step seven.
const STIMULUS: &[u8] = b"0x\n1x\n11\n";

const TRACE: &[u8] = b" 0x 0 \n 1x x \n 11 1 \n.\n";

/// The dump of that trace.
const DUMP: &[u8] = b"$version aiger $end
$timescale 1 ns $end
$scope module aiger $end
$var integer 64 r run $end
$scope module inputs $end
$var wire 1 i0 i0 $end
$var wire 1 i1 i1 $end
$upscope $end
$scope module outputs $end
$var wire 1 o0 o0 $end
$upscope $end
$upscope $end
$enddefinitions $end
#0
b0 r
0i0
xi1
0o0
#1
1i0
xo0
#2
1i1
1o0
#3
zi0
zi1
zo0
#4
";

/// The words of each row, with a `#` between them: which of model and stimulus is a file, and which
/// the standard input. The last two are of batches.
const WORDS: &str = "aiger aigsim model stimulus#aiger aigsim model#aiger aigsim - stimulus#\
    aiger aigsim --batch model stimulus#aiger aigsim --batch model";

/// The same, of dumps.
const WORDS_OF_DUMPS: &str = "aiger aigsim --vcd model stimulus#aiger aigsim --vcd --batch model";

/// What is read, how many bytes move in a call, and which call of each fails, counted from 0.
#[derive(Clone, Copy)]
pub(crate) struct Devices<'a> {
    pub model: &'a [u8],
    pub stimulus: &'a [u8],
    pub piece: usize,
    pub failing_model: u64,
    pub failing_stimulus: u64,
    pub failing_trace: u64,
}

/// No call fails.
pub(crate) const SOUND: Devices<'static> = Devices {
    model: MODEL,
    stimulus: STIMULUS,
    piece: 2,
    failing_model: NEVER,
    failing_stimulus: NEVER,
    failing_trace: NEVER,
};

impl<'a> Devices<'a> {
    fn run(&self, alloc: Global, words: &str, calls: &Calls) -> Result<Outcome, AllocError> {
        let (text, failing_read) = if words.ends_with(" - stimulus") {
            (self.model, self.failing_model)
        } else {
            (self.stimulus, self.failing_stimulus)
        };
        let behaviour = Behaviour {
            piece: self.piece,
            failing_read,
            failing_write: self.failing_trace,
        };
        let files = MemoryFiles {
            readable: [
                Readable {
                    name: "model",
                    text: self.model,
                    failing: self.failing_model,
                },
                Readable {
                    name: "stimulus",
                    text: self.stimulus,
                    failing: self.failing_stimulus,
                },
            ],
            wanted: None,
            piece: self.piece,
            failing_write: NEVER,
            metadata: None,
            calls,
        };
        run(&files, alloc, words, text, behaviour)
    }

    /// Whether a run with these words has this status, tells this, and writes this.
    pub(crate) fn comes_to(
        &self,
        alloc: Global,
        words: &str,
        status: u8,
        told: &str,
        written: &[u8],
    ) -> bool {
        match self.run(alloc, words, &Calls::none()) {
            Ok(outcome) => {
                outcome.has_told(status, told) && outcome.output.taken.as_slice() == written
            }
            Err(_) => false,
        }
    }

    /// Whether a run with these words fails, tells this, and makes no write.
    pub(crate) fn fails_unwritten(&self, alloc: Global, words: &str, told: &str) -> bool {
        match self.run(alloc, words, &Calls::none()) {
            Ok(outcome) => outcome.has_told(1, told) && outcome.output.calls == 0,
            Err(_) => false,
        }
    }

    /// Whether a run with these words, of which a write fails, tells so, wrote a beginning of this
    /// text, and makes no write after it.
    pub(crate) fn stops_at_write(&self, alloc: Global, words: &str, text: &[u8]) -> bool {
        match self.run(alloc, words, &Calls::none()) {
            Ok(outcome) => {
                outcome.has_told(1, "aiger: -: cannot write\n")
                    && text.starts_with(outcome.output.taken.as_slice())
                    && outcome.output.calls == self.failing_trace.saturating_add(1)
            }
            Err(_) => false,
        }
    }

    fn writes(&self, alloc: Global, words: &str) -> Result<u64, AllocError> {
        Ok(self.run(alloc, words, &Calls::none())?.output.calls)
    }
}

pub(crate) fn unread_model(words: &str) -> &'static str {
    if words.ends_with(" - stimulus") {
        "aiger: -: cannot read\n"
    } else {
        "aiger: model: cannot read: Interrupted system call\n"
    }
}

pub(crate) fn unread_stimulus(words: &str) -> &'static str {
    if words.ends_with(" stimulus") {
        "aiger: stimulus: cannot read: Interrupted system call\n"
    } else {
        "aiger: -: cannot read\n"
    }
}

/// What is due of this text where the simulation fails: of a batch nothing.
fn due<'a>(words: &str, text: &'a [u8]) -> &'a [u8] {
    if words.starts_with("aiger aigsim --batch") {
        b""
    } else {
        text
    }
}

/// Each read of the model fails in turn: nothing was written, and nothing was read of a stimulus,
/// which would fail too.
#[test]
fn failed_models(rt: HostRuntime) {
    for words in WORDS.split('#') {
        let mut devices = SOUND;
        devices.failing_stimulus = 0;
        for call in 0..=MODEL.len() as u64 / 2 {
            devices.failing_model = call;
            let fails = devices.fails_unwritten(rt.alloc(), words, unread_model(words));
            assert!(rt; fails, "read {call}");
        }
    }
}

/// Each read of the stimulus fails in turn: the lines of all steps that came are written, and no
/// more; of a batch nothing.
#[test]
fn failed_stimuli(rt: HostRuntime) {
    for words in WORDS.split('#') {
        let mut devices = SOUND;
        for call in 0..=STIMULUS.len() / 2 {
            devices.failing_stimulus = call as u64;
            let written = due(words, &TRACE[..2 * call / 3 * 7]);
            let line = unread_stimulus(words);
            let comes = devices.comes_to(rt.alloc(), words, 1, line, written);
            assert!(rt; comes, "read {call}");
        }
    }
}

/// Each write of the trace fails in turn: a beginning was written, and no write came after it.
#[test]
fn failed_traces(rt: HostRuntime) -> Result<(), Fail> {
    for words in WORDS.split('#') {
        let mut devices = SOUND;
        for call in 0..SOUND.writes(rt.alloc(), words)? {
            devices.failing_trace = call;
            let stops = devices.stops_at_write(rt.alloc(), words, TRACE);
            assert!(rt; stops, "write {call}");
        }
    }
    Ok(())
}

/// Each write of a dump fails in turn, as for the trace; where none fails, all of it is written.
#[test]
fn failed_dumps(rt: HostRuntime) -> Result<(), Fail> {
    for words in WORDS_OF_DUMPS.split('#') {
        let mut devices = SOUND;
        assert!(rt; devices.comes_to(rt.alloc(), words, 0, "", DUMP));
        for call in 0..SOUND.writes(rt.alloc(), words)? {
            devices.failing_trace = call;
            let stops = devices.stops_at_write(rt.alloc(), words, DUMP);
            assert!(rt; stops, "write {call}");
        }
    }
    Ok(())
}

/// Each file is opened once, and none is made.
#[test]
fn opened_files(rt: HostRuntime) -> Result<(), Fail> {
    for words in WORDS.split('#') {
        let calls = Calls::none();
        SOUND.run(rt.alloc(), words, &calls)?;
        let opened = words.ends_with(" model stimulus") as u32;
        assert!(rt; calls.are(1 + opened, 0, 0));
    }
    Ok(())
}

/// Few bytes in a call change nothing.
#[test]
fn traces_in_pieces(rt: HostRuntime) {
    for words in WORDS.split('#') {
        let mut devices = SOUND;
        for piece in [1, 7, 30_000] {
            devices.piece = piece;
            let comes = devices.comes_to(rt.alloc(), words, 0, "", TRACE);
            assert!(rt; comes, "in pieces of {piece}");
        }
    }
}

/// At a bad line, what was written before it stands, and nothing is read after the bytes that it
/// came with. Of a batch nothing was written.
#[test]
fn bad_lines(rt: HostRuntime) {
    for words in WORDS.split('#') {
        let mut devices = SOUND;
        devices.stimulus = b"0x\n1\n11\n";
        devices.failing_stimulus = 3;
        let line = bad_line(words.ends_with(" stimulus"));
        let written = due(words, &TRACE[..7]);
        assert!(rt; devices.comes_to(rt.alloc(), words, 1, line, written));
    }
}

/// A line is not judged before its end came, even if too long: the failed read is reported.
#[test]
fn unread_ends(rt: HostRuntime) {
    let mut devices = SOUND;
    devices.stimulus = b"0x\n111111";
    for call in 2..5 {
        devices.failing_stimulus = call;
        let words = "aiger aigsim model stimulus";
        let line = "aiger: stimulus: cannot read: Interrupted system call\n";
        let comes = devices.comes_to(rt.alloc(), words, 1, line, &TRACE[..7]);
        assert!(rt; comes, "read {call}");
    }
}

/// The line about a bad line of a stimulus, by its name or from a stream.
fn bad_line(named: bool) -> &'static str {
    if named {
        "aiger: stimulus: line 2: bad stimulus line\n"
    } else {
        "aiger: -: line 2: bad stimulus line\n"
    }
}
