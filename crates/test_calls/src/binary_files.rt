//! Canonical binary files that are read and written again.
use aig_binary::{Ordered, read_binary, write_binary};
use aig_core::MemorySink;
use aig_text::Limits;
use std::alloc::Global;
use std::test::Fail;

/// Canonical texts, with a `#` between them. All bytes of their gates are below 128.
const TEXTS: &str = "\
aig 0 0 0 0 0
#aig 1 0 1 2 0
3
2
3
#aig 5 2 0 2 3
10
6
\u{2}\u{2}\u{3}\u{2}\u{1}\u{2}i0 x
i1 y
o0 s
o1 c
c
half adder
#aig 4 1 2 1 1 2 1 2 1
3 1
4 6
8
6
7
9
2
1
3
4
8
5
\u{2}\u{3}b1 a
f0 b
c
#aig 6 5 0 1 1
12
\n\0c
#aig 3 1 2 1 0 1 1 2 1
3 1
0 6
2
5
4
2
0
6
7
1
b0 x
c0 y
j1 z
f0 f
";

fn ordered_of(alloc: Global, text: &str) -> Result<Ordered, Fail> {
    let checked = read_binary(alloc, text.as_bytes(), Limits::default())?;
    Ok(
        Ordered::try_from_checked(checked)
            .ok()
            .ok_or("the circuit is in binary order")?,
    )
}

/// Whether what is written of the circuit, in pieces of several sizes, is this text.
fn comes_back(alloc: Global, ordered: &Ordered, text: &str) -> Result<bool, Fail> {
    for piece in [1, 7, 8192] {
        let mut sink = MemorySink::new(alloc, 200, piece, 0)?;
        write_binary(ordered, &mut sink)?;
        if sink.bytes() != text.as_bytes() {
            return Ok(false);
        }
    }
    Ok(true)
}

#[test]
fn binary_texts_come_back(rt: HostRuntime) -> Result<(), Fail> {
    for text in TEXTS.split('#') {
        let ordered = ordered_of(rt.alloc(), text)?;
        let comes = comes_back(rt.alloc(), &ordered, text);
        drop(ordered); // for the proof
        assert!(rt; comes?, "{text}");
    }
    Ok(())
}

/// Whether writing fails at the call of the sink after so many of three bytes, which took a
/// beginning of the text.
fn fails_behind(alloc: Global, ordered: &Ordered, text: &str, calls: u8) -> Result<bool, Fail> {
    let mut sink = MemorySink::new(alloc, 200, 3, u64::from(calls) + 1)?;
    let failed = write_binary(ordered, &mut sink).is_err();
    let taken = sink.bytes();
    Ok(failed && text.as_bytes().starts_with(taken) && taken.len() == 3 * usize::from(calls))
}

fn fails_at_each(alloc: Global, ordered: &Ordered, text: &str) -> Result<bool, Fail> {
    for calls in 0..5 {
        if !fails_behind(alloc, ordered, text, calls)? {
            return Ok(false);
        }
    }
    Ok(true)
}

#[test]
fn failed_sends_of_binary_texts(rt: HostRuntime) -> Result<(), Fail> {
    for text in TEXTS.split('#') {
        let ordered = ordered_of(rt.alloc(), text)?;
        let fails = fails_at_each(rt.alloc(), &ordered, text);
        drop(ordered); // for the proof
        assert!(rt; fails?, "{text}");
    }
    Ok(())
}
