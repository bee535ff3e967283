//! Witnesses over devices that fail, and devices that move few bytes in a call.
use crate::simulations::{Devices, SOUND, unread_model, unread_stimulus};

/// The latch takes the input, and is the bad state.
const MODEL: &[u8] = b"aag 2 1 1 0 0 1\n2\n4 2\n4\n";

const WITNESS: &[u8] = b"1\nb0\n0\n1\n0\n.";

const ANSWER: &[u8] = b"confirmed 1\n";

const UNCONFIRMED: &[u8] = b"not confirmed\n";

/// The words of each row, with a `#` between them: which of model and witness is a file, and which
/// the standard input.
const WORDS: &str = "aiger aigsim --witness model stimulus#aiger aigsim --witness model#\
    aiger aigsim --witness - stimulus";

/// The witness over its model; no call fails.
const JUDGED: Devices<'static> = Devices {
    model: MODEL,
    stimulus: WITNESS,
    ..SOUND
};

/// Each read of the model fails in turn: nothing was written, and nothing was read of a witness,
/// which would fail too.
#[test]
fn failed_models(rt: HostRuntime) {
    for words in WORDS.split('#') {
        let mut devices = JUDGED;
        devices.failing_stimulus = 0;
        for call in 0..=MODEL.len() as u64 / 2 {
            devices.failing_model = call;
            let fails = devices.fails_unwritten(rt.alloc(), words, unread_model(words));
            assert!(rt; fails, "read {call}");
        }
    }
}

/// Each read of the witness fails in turn, also the one at its end: nothing was written.
#[test]
fn failed_witnesses(rt: HostRuntime) {
    for words in WORDS.split('#') {
        let mut devices = JUDGED;
        for call in 0..=WITNESS.len() as u64 / 2 {
            devices.failing_stimulus = call;
            let fails = devices.fails_unwritten(rt.alloc(), words, unread_stimulus(words));
            assert!(rt; fails, "read {call}");
        }
    }
}

/// Each write of the answer fails in turn: a beginning was written, and no write came after it.
#[test]
fn failed_answers(rt: HostRuntime) {
    for words in WORDS.split('#') {
        let mut devices = JUDGED;
        for call in 0..ANSWER.len() as u64 / 2 {
            devices.failing_trace = call;
            let stops = devices.stops_at_write(rt.alloc(), words, ANSWER);
            assert!(rt; stops, "write {call}");
        }
    }
}

/// Few bytes in a call change nothing.
#[test]
fn answers_in_pieces(rt: HostRuntime) {
    for words in WORDS.split('#') {
        let mut devices = JUDGED;
        for piece in [1, 7, 30_000] {
            devices.piece = piece;
            let comes = devices.comes_to(rt.alloc(), words, 0, "", ANSWER);
            assert!(rt; comes, "in pieces of {piece}");
        }
    }
}

/// A witness that is not confirmed has the status of an error, and nothing is told.
#[test]
fn unconfirmed(rt: HostRuntime) {
    for words in WORDS.split('#') {
        let mut devices = JUDGED;
        devices.stimulus = b"1\nb0\n0\n1\n.\n";
        assert!(rt; devices.comes_to(rt.alloc(), words, 1, "", UNCONFIRMED));
    }
}

/// At a wrong line nothing is written, and nothing is read after the bytes that its end came with.
#[test]
fn wrong_lines(rt: HostRuntime) {
    let mut devices = JUDGED;
    devices.stimulus = b"1\nb0\n0\n1\n2\n.\n";
    devices.failing_stimulus = 6;
    let words = "aiger aigsim --witness model stimulus";
    let line = "aiger: stimulus: line 5: bad witness line\n";
    assert!(rt; devices.fails_unwritten(rt.alloc(), words, line));
}
