//! Devices that fail, and devices that move few bytes in a call.
use crate::run::{Behaviour, run};
use std::alloc::{AllocError, Global};
use std::rt::Files;
use std::test::Fail;

/// Texts, with a `#` between them. What is written is the text itself, or stands after `=`. The
/// words are those of the conversion to ASCII, or stand before `$`.
const TEXTS: &str = "\
aiger aigtoaig --keep-map$aag 5 2 0 1 3
2
4
6
6 10 2
8 2 4
10 4 2
=aig 5 2 0 1 3
10
\u{2}\u{2}\u{4}\u{2}\u{2}\u{6}c
aigmap 1 5 2 0 3 0
1
2
3 2 0
4 0 1
5 1 0
aigmap end
#\
aiger aigtoaig --undo-map --ascii$aig 2 1 0 1 1
4
\u{2}\0c
aigmap 1 2 1 0 1 0
1
2 0 0
aigmap end
=aag 2 1 0 1 1
2
4
4 2 2
#\
aiger aigunroll --frames 2 --ascii$aag 3 1 1 1 1
2
4 6 4
6
6 4 2
=aag 5 3 0 2 2
2
4
6
8
10
8 4 2
10 8 6
#\
aiger aigunroll --frames 2$aag 1 1 0 0 0 1
2
3
=aig 4 2 0 0 2 2
6
8
\u{3}\u{2}\u{3}\u{4}#\
aiger aigtoaig --keep-map$aag 9 1 2 1 1 2 1 2 1
18
4 19 1
14 4 14
6
14
15
7
2
1
19
4
6
5
6 19 14
b1 a
c0 b
j0 c
f0 d
=aig 4 1 2 1 1 2 1 2 1
3 1
4 6
8
6
7
9
2
1
3
4
8
5
\u{2}\u{3}b1 a
c0 b
j0 c
f0 d
c
aigmap 1 9 1 2 1 0
9
2
7
3 0 1
aigmap end
#\
aig 4 1 1 1 2
9
8
\u{2}\u{1}\u{6}\0o0 q
c
=aag 4 1 1 1 2
2
4 9
8
6 4 3
8 2 2
o0 q
c
#\
aag 3 1 1 2 0
6
2 7
2
0
#aag 0 0 0 0 0
#aag 2147483647 1 0 1 0
4294967294
4294967295
#aag 5 2 0 1 3
2
4
11
10 8 7
8 6 2
6 4 2
i1 b
o0 nand
c
gates that name later gates
#aag 2 1 1 1 0
2
4 3
5
o0 out
i0 a name
l0 \r
c
\r
without a line feed at its end";

/// A canonical text of 20,001 bytes, which are more than two blocks.
fn long_text(alloc: Global) -> Result<String, AllocError> {
    let mut text = String::from_str(alloc, "aag 0 0 0 9992 0\n")?;
    for _ in 0..9992 {
        text.push_str("0\n")?;
    }
    Ok(text)
}

fn texts(alloc: Global) -> Result<String, AllocError> {
    let mut texts = long_text(alloc)?;
    texts.push_str("#")?;
    texts.push_str(TEXTS)?;
    Ok(texts)
}

/// The words of a row, what is read, and what is written.
pub(crate) fn row_parts(row: &str) -> (&str, &[u8], &[u8]) {
    let (words, texts) = row
        .split_once('$')
        .unwrap_or(("aiger aigtoaig --ascii", row));
    let (read, written) = texts.split_once('=').unwrap_or((texts, texts));
    (words, read.as_bytes(), written.as_bytes())
}

/// The behaviour of devices that move a row's text in a dozen calls; no call fails.
fn in_a_dozen(text: &[u8]) -> Behaviour {
    Behaviour::pieces_of(text.len() / 12 + 1)
}

fn calls_of<R: Files + AllocGlobal>(rt: &R, row: &str) -> Result<(u64, u64), AllocError> {
    let (words, text, _) = row_parts(row);
    let outcome = run(rt, rt.alloc(), words, text, in_a_dozen(text))?;
    Ok((outcome.reads, outcome.output.calls))
}

/// Whether a row's run whose read of this number fails tells so, wrote no byte, and reads no more.
fn stops_at_read<R: Files + AllocGlobal>(rt: &R, row: &str, call: u64) -> bool {
    let (words, text, _) = row_parts(row);
    let mut behaviour = in_a_dozen(text);
    behaviour.failing_read = call;
    match run(rt, rt.alloc(), words, text, behaviour) {
        Ok(outcome) => {
            outcome.has_told(1, "aiger: -: cannot read\n")
                && outcome.reads == call.saturating_add(1)
                && outcome.output.calls == 0
        }
        Err(_) => false,
    }
}

/// The first read of these rows that does not stop its run so, if there is one.
fn first_wrong_read<R: Files + AllocGlobal>(rt: &R, rows: &str) -> Result<Option<u64>, AllocError> {
    for row in rows.split('#') {
        let (reads, _) = calls_of(rt, row)?;
        for call in 0..reads {
            if !stops_at_read(rt, row, call) {
                return Ok(Some(call));
            }
        }
    }
    Ok(None)
}

/// Each read fails in turn: no byte was written, and no read came after it.
#[test]
fn failed_reads(rt: HostRuntime) -> Result<(), Fail> {
    let texts = texts(rt.alloc())?;
    let wrong = first_wrong_read(&rt, texts.as_str());
    drop(texts); // for the proof
    let wrong = wrong?;
    assert!(rt; wrong.is_none(), "read {wrong:?}");
    Ok(())
}

/// Whether a run whose write of this number fails tells so, wrote a beginning, and writes no more.
fn stops_at_write<R: Files + AllocGlobal>(rt: &R, row: &str, call: u64) -> bool {
    let (words, text, written) = row_parts(row);
    let mut behaviour = in_a_dozen(text);
    behaviour.failing_write = call;
    match run(rt, rt.alloc(), words, text, behaviour) {
        Ok(outcome) => {
            outcome.has_told(1, "aiger: -: cannot write\n")
                && written.starts_with(outcome.output.taken.as_slice())
                && outcome.output.calls == call.saturating_add(1)
        }
        Err(_) => false,
    }
}

fn first_wrong_write<R: Files + AllocGlobal>(
    rt: &R,
    rows: &str,
) -> Result<Option<u64>, AllocError> {
    for row in rows.split('#') {
        let (_, writes) = calls_of(rt, row)?;
        for call in 0..writes {
            if !stops_at_write(rt, row, call) {
                return Ok(Some(call));
            }
        }
    }
    Ok(None)
}

/// Each write fails in turn: a beginning was written, and no write came after it.
#[test]
fn failed_writes(rt: HostRuntime) -> Result<(), Fail> {
    let texts = texts(rt.alloc())?;
    let wrong = first_wrong_write(&rt, texts.as_str());
    drop(texts); // for the proof
    let wrong = wrong?;
    assert!(rt; wrong.is_none(), "write {wrong:?}");
    Ok(())
}

/// Whether a run over devices of so many bytes writes what it should, in slices up to a block.
fn is_written_in<R: Files + AllocGlobal>(rt: &R, row: &str, piece: usize) -> bool {
    let (words, text, written) = row_parts(row);
    match run(rt, rt.alloc(), words, text, Behaviour::pieces_of(piece)) {
        Ok(outcome) => {
            outcome.has_told(0, "")
                && outcome.output.taken.as_slice() == written
                && outcome.output.longest <= 8192
        }
        Err(_) => false,
    }
}

fn first_wrong_piece<R: Files + AllocGlobal>(rt: &R, rows: &str) -> Option<usize> {
    for row in rows.split('#') {
        for piece in [1, 7, 30_000] {
            if !is_written_in(rt, row, piece) {
                return Some(piece);
            }
        }
    }
    None
}

/// Few bytes in a call change nothing, and no slice is longer than a block.
#[test]
fn pieces(rt: HostRuntime) -> Result<(), Fail> {
    let texts = texts(rt.alloc())?;
    let wrong = first_wrong_piece(&rt, texts.as_str());
    drop(texts); // for the proof
    assert!(rt; wrong.is_none(), "in pieces of {wrong:?}");
    Ok(())
}
