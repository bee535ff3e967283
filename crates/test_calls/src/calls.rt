//! Calls that are given what they need.
use crate::forms::{numbers_of, symbols_of};
use aig_core::{
    Circuit, Keep, Listing, Lit, MemorySink, MemorySource, NamedCounts, Names, Output, Symbols,
    Var, read_all,
};
use aig_text::{Limits, read_ascii};
use std::alloc::Global;
use std::test::Fail;

/// A literal, its variable, its negation, and whether it is negated.
const LITERALS: &str = "\
0 0 1 no
1 0 0 yes
2 1 3 no
5 2 4 yes
4294967295 2147483647 4294967294 yes
";

/// Texts, and whether they keep to the limit 4.
const LIMITED: &str = "\
aag 4 0 0 0 0\n:yes;\
aag 4 0 0 4 0\n0\n0\n0\n0\n:yes;\
aag 4 1 0 0 0\n2\ni0 5\nc\n5\n:yes;\
aag 0 0 0 0 0 0 4\n0\n0\n0\n0\n:yes;\
aag 0 0 0 0 0 0 0 2\n1\n3\n0\n0\n0\n0\n:yes;\
aag 0 0 0 0 0 0 0 2\n2\n3\n0\n0\n0\n0\n0\n:no;\
aag 0 0 0 0 0 5\n0\n0\n0\n0\n0\n:no;\
aag 5 0 0 0 0\n:no;\
aag 4 0 0 5 0\n0\n0\n0\n0\n0\n:no";

/// What is named in turn, and whether it had no name before.
const NAMED: &str = "\
i0 new,l0 new,o0 new,b0 new,c0 new,j0 new,f0 new,\
i0 old,l0 old,o0 old,b0 old,c0 old,j0 old,f0 old,i9 new,i9 old";

const ONE_OF_EACH: NamedCounts = NamedCounts {
    inputs: 1,
    latches: 1,
    outputs: 1,
    bad: 1,
    constraints: 1,
    justice: 1,
    fairness: 1,
};

pub(crate) fn circuit_of(alloc: Global, text: &str) -> Result<Circuit, Fail> {
    Ok(read_ascii(alloc, text.as_bytes(), Limits::default(), Keep::Circuit)?.into_circuit())
}

/// Whether a literal has the variable and the negation of a row, and is negated or not.
fn is_literal(numbers: &[u32], negated: bool) -> bool {
    let [literal, variable, negation] = *numbers else {
        return false;
    };
    Lit(literal).var() == Var(variable)
        && Lit(literal).negated() == Lit(negation)
        && Lit(literal).is_negated() == negated
}

#[test]
fn literals(rt: HostRuntime) -> Result<(), Fail> {
    for row in LITERALS.lines() {
        let (numbers, answer) = row.rsplit_once(' ').unwrap_or((row, ""));
        let numbers = numbers_of(rt.alloc(), numbers)?;
        let is_literal = is_literal(numbers.as_slice(), answer == "yes");
        drop(numbers); // for the proof
        assert!(rt; is_literal, "{row}");
    }
    Ok(())
}

/// Whether a text is read within the limit 4.
fn is_read(alloc: Global, text: &str) -> bool {
    read_ascii(alloc, text.as_bytes(), Limits { max_var: 4 }, Keep::Circuit).is_ok()
}

#[test]
fn limits(rt: HostRuntime) -> Result<(), Fail> {
    for row in LIMITED.split(';') {
        let (text, answer) = row.split_once(':').ok_or("a row has an answer")?;
        assert!(rt; is_read(rt.alloc(), text) == (answer == "yes"), "{row}");
    }
    Ok(())
}

#[test]
fn listings_are_copied(rt: HostRuntime) -> Result<(), Fail> {
    let mut listing = Listing::new(rt.alloc());
    listing.push(Var(7))?;
    assert!(rt; listing.copy(rt.alloc())?.as_slice() == [Var(7)].as_slice());
    assert!(rt; listing.clone()?.into_vec().as_slice() == [Var(7)].as_slice());
    Ok(())
}

#[test]
fn symbols_are_copied(rt: HostRuntime) -> Result<(), Fail> {
    let symbols = symbols_of(rt.alloc(), NAMED)?;
    let copy = symbols.copy(rt.alloc())?;
    assert!(rt; copy == symbols && copy.len() == NAMED.split(',').count());
    Ok(())
}

fn tells_what_is_new(names: &mut Names, symbols: &Symbols) -> Result<bool, Fail> {
    for symbol in symbols.iter() {
        let is_new = names.insert(symbol.kind, symbol.position)?;
        if is_new != (symbol.name == b"new".as_slice()) {
            return Ok(false);
        }
    }
    Ok(true)
}

/// The same, of names that begin with none.
fn names_tell_what_is_new(alloc: Global, symbols: &Symbols) -> Result<bool, Fail> {
    let mut names = Names::new(alloc, ONE_OF_EACH)?;
    let tells = tells_what_is_new(&mut names, symbols);
    drop(names); // for the proof
    tells
}

#[test]
fn names(rt: HostRuntime) -> Result<(), Fail> {
    let symbols = symbols_of(rt.alloc(), NAMED)?;
    let tell = names_tell_what_is_new(rt.alloc(), &symbols);
    drop(symbols); // for the proof
    assert!(rt; tell?);
    Ok(())
}

/// The devices in memory fail at the chosen call alone.
#[test]
fn devices_in_memory(rt: HostRuntime) -> Result<(), Fail> {
    let mut source = MemorySource::new(Vec::from_slice(rt.alloc(), b"abcdefghij")?, 4, 2);
    let failed = read_all(rt.alloc(), &mut source).is_err();
    let rest = read_all(rt.alloc(), &mut source);
    drop(source); // for the proof
    assert!(rt; failed && rest.is_ok_and(|rest| rest.as_slice() == b"efghij".as_slice()));
    let mut sink = MemorySink::new(rt.alloc(), 100, 4, 2)?;
    let mut output = Output::new(&mut sink);
    output.put(b"efghij");
    let (sent, _sink) = output.finish();
    let took = sink.bytes() == b"efgh".as_slice() && sink.longest() == 6;
    drop(sink); // for the proof
    assert!(rt; sent.is_err() && took);
    Ok(())
}
