//! Circuits that are copied, compared, and made by hand.
use crate::calls::circuit_of;
use crate::forms::symbols_of;
use aig_core::{Checked, Circuit, Keep, Listing, MemorySink, Steps, check, same};
use aig_text::{Limits, read_ascii, write_ascii};
use std::alloc::Global;
use std::test::Fail;

/// A half adder, then others that differ from it in the comment alone, in the order of two symbols,
/// in a name, in the order of a gate's operands, in the order of two gates, and in having no
/// comment; with a `#` between them. Then a latch with properties, and others that differ from it
/// in the reset, in a bad state, in a constraint, in the sizes of the justice properties, in the
/// order of their literals, and in a fairness constraint.
const CIRCUITS: &str = "\
aag 7 2 0 2 3\n2\n4\n6\n12\n6 13 15\n12 2 4\n14 3 5\ni0 x\ni1 y\no0 s\no1 c\nc\nhalf adder\n#\
aag 7 2 0 2 3\n2\n4\n6\n12\n6 13 15\n12 2 4\n14 3 5\ni0 x\ni1 y\no0 s\no1 c\nc\nhalf adder#\
aag 7 2 0 2 3\n2\n4\n6\n12\n6 13 15\n12 2 4\n14 3 5\ni0 x\ni1 y\no1 c\no0 s\nc\nhalf adder\n#\
aag 7 2 0 2 3\n2\n4\n6\n12\n6 13 15\n12 2 4\n14 3 5\ni0 x\ni1 y\no0 s\no1 d\nc\nhalf adder\n#\
aag 7 2 0 2 3\n2\n4\n6\n12\n6 13 15\n12 4 2\n14 3 5\ni0 x\ni1 y\no0 s\no1 c\nc\nhalf adder\n#\
aag 7 2 0 2 3\n2\n4\n6\n12\n6 13 15\n14 3 5\n12 2 4\ni0 x\ni1 y\no0 s\no1 c\nc\nhalf adder\n#\
aag 7 2 0 2 3\n2\n4\n6\n12\n6 13 15\n12 2 4\n14 3 5\ni0 x\ni1 y\no0 s\no1 c\n#\
aag 1 0 1 0 0 1 1 2 1\n2 3\n2\n3\n1\n1\n2\n3\n0\n#\
aag 1 0 1 0 0 1 1 2 1\n2 3 1\n2\n3\n1\n1\n2\n3\n0\n#\
aag 1 0 1 0 0 1 1 2 1\n2 3 2\n2\n3\n1\n1\n2\n3\n0\n#\
aag 1 0 1 0 0 1 1 2 1\n2 3\n3\n3\n1\n1\n2\n3\n0\n#\
aag 1 0 1 0 0 1 1 2 1\n2 3\n2\n2\n1\n1\n2\n3\n0\n#\
aag 1 0 1 0 0 1 1 2 1\n2 3\n2\n3\n0\n2\n2\n3\n0\n#\
aag 1 0 1 0 0 1 1 2 1\n2 3\n2\n3\n1\n1\n3\n2\n0\n#\
aag 1 0 1 0 0 1 1 2 1\n2 3\n2\n3\n1\n1\n2\n3\n1\n";

/// The text of a circuit whose symbols and comment were put in by hand.
const BY_HAND: &str = "aag 7 1 1 2 0\n2\n4 3\n5\n0\no1 a b\r\nl0 \ni0 c\nc\nmade by hand\n\n";

/// Whether a copy of the second circuit is the same as the first.
pub(crate) fn same_as_copy(alloc: Global, first: &Checked, second: &Checked) -> Result<bool, Fail> {
    let copy = second.copy(alloc)?;
    Ok(same(first, &copy))
}

fn same_as_copy_of(alloc: Global, first: &Checked, text: &str) -> Result<bool, Fail> {
    let second = read_ascii(alloc, text.as_bytes(), Limits::default(), Keep::Circuit)?;
    same_as_copy(alloc, first, &second)
}

fn is_circuit_of(alloc: Global, circuit: &Circuit, text: &str) -> Result<bool, Fail> {
    let read = circuit_of(alloc, text)?;
    Ok(read == *circuit)
}

fn same_as_own_copy(circuit: &Circuit) -> Result<bool, Fail> {
    let copy = circuit.clone()?;
    Ok(copy == *circuit)
}

/// The place of a text whose circuit is told wrongly as the same as this text's, or as another.
fn told_wrongly(alloc: Global, first: &Checked, text: &str) -> Result<Option<usize>, Fail> {
    for (place, other) in CIRCUITS.split('#').enumerate() {
        if same_as_copy_of(alloc, first, other)? != (text == other) {
            return Ok(Some(place));
        }
    }
    Ok(None)
}

fn name_by_hand(alloc: Global, circuit: &mut Circuit) -> Result<(), Fail> {
    circuit.symbols = symbols_of(alloc, "o1 a b\r,l0 ,i0 c")?;
    circuit.comment = Some(Listing::from_vec(Vec::from_slice(alloc, b"made by hand\n\n")?));
    Ok(())
}

pub(crate) fn checked_of(alloc: Global, circuit: Circuit) -> Result<Checked, Fail> {
    if !circuit.in_form() {
        drop(circuit); // for the proof
        return Err("it is in form")?;
    }
    Ok(
        check(alloc, circuit, Keep::Circuit, &mut Steps::new())
            .ok()
            .ok_or("it is well formed")?,
    )
}

fn made_by_hand(alloc: Global) -> Result<Checked, Fail> {
    let mut circuit = circuit_of(alloc, "aag 7 1 1 2 0\n2\n4 3\n5\n0\n")?;
    name_by_hand(alloc, &mut circuit)?;
    checked_of(alloc, circuit)
}

fn is_written_as(alloc: Global, checked: &Checked, text: &str) -> Result<bool, Fail> {
    let mut sink = MemorySink::new(alloc, 100, 7, 0)?;
    write_ascii(checked, &mut sink)?;
    Ok(sink.bytes() == text.as_bytes())
}

#[test]
fn circuits_are_copied(rt: HostRuntime) -> Result<(), Fail> {
    let circuit = circuit_of(
        rt.alloc(),
        "aag 2 1 1 1 0 1 1 1 1\n2\n4 3 4\n5\n2\n3\n1\n4\n5\no0 b\ni0 a\nc\nx",
    )?;
    let same = same_as_own_copy(&circuit);
    drop(circuit); // for the proof
    assert!(rt; same?);
    Ok(())
}

/// A copy is the same as what it was made of, and as no other.
#[test]
fn copies_and_others(rt: HostRuntime) -> Result<(), Fail> {
    for text in CIRCUITS.split('#') {
        let limits = Limits::default();
        let first = read_ascii(rt.alloc(), text.as_bytes(), limits, Keep::Circuit)?;
        let wrong = told_wrongly(rt.alloc(), &first, text);
        drop(first); // for the proof
        let wrong = wrong?;
        assert!(rt; wrong.is_none(), "{text}{wrong:?}");
    }
    Ok(())
}

#[test]
fn symbols_and_comments_are_written(rt: HostRuntime) -> Result<(), Fail> {
    let checked = made_by_hand(rt.alloc())?;
    let is_written = is_written_as(rt.alloc(), &checked, BY_HAND);
    drop(checked); // for the proof
    assert!(rt; is_written?);
    Ok(())
}

#[test]
fn symbols_and_comments_come_back(rt: HostRuntime) -> Result<(), Fail> {
    let checked = made_by_hand(rt.alloc())?;
    let comes_back = is_circuit_of(rt.alloc(), checked.circuit(), BY_HAND);
    drop(checked); // for the proof
    assert!(rt; comes_back?);
    Ok(())
}
