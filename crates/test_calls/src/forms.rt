//! Which circuits are in form.
use crate::calls::circuit_of;
use aig_core::{BorrowedSymbol, Circuit, Gate, Kind, Latch, Listing, Lit, Reset, Symbols, Var};
use aig_text::empty_circuit;
use std::alloc::{AllocError, Global};
use std::test::Fail;

/// The largest index, the variables of an input, a latch and a gate, then the literals of the
/// latch, an output and the gate's operands, and whether a circuit of these is in form.
const SECTIONS: &str = "\
4 1 2 3 0 1 2 7 yes
4 1 4 4 9 9 9 9 yes
1 1 1 1 3 3 3 3 yes
2147483647 1 2 2147483647 4294967295 0 0 0 yes
2147483648 1 2 3 0 0 0 0 no
4 0 2 3 0 0 0 0 no
4 1 0 3 0 0 0 0 no
4 1 2 0 0 0 0 0 no
4 5 2 3 0 0 0 0 no
4 1 5 3 0 0 0 0 no
4 1 2 5 0 0 0 0 no
4 1 2 3 10 0 0 0 no
4 1 2 3 0 10 0 0 no
4 1 2 3 0 0 10 0 no
4 1 2 3 0 0 0 10 no
";

/// Bad states, constraints, sizes of justice properties, their literals and fairness constraints of
/// a circuit with the largest index 4, and whether it is in form with them.
const PROPERTIES: &str = "\
b 9 0,c 9,s 1 0 2,j 3 9 0,f 9:yes;\
b 0 10:no;\
c 10:no;\
f 10:no;\
s 1,j 10:no;\
s 0 0:yes;\
s 1:no;\
j 1:no;\
s 2,j 1:no;\
s 1 1,j 1 1 1:no;\
s 4294967295 1:no;\
s 4294967295 2,j 1:no";

/// Symbols of a circuit of two inputs and one of each other kind, and whether it is in form with
/// them. One of the names has a line feed.
const SYMBOLS: &str = "\
i0 a,i1 a,l0 a,o0 a,b0 a,c0 a,j0 a,f0 a:yes;\
f0 a,j0 a,c0 a,b0 a,o0 a,l0 a,i0 a:yes;\
b1 a:no;\
c1 a:no;\
j1 a:no;\
f1 a:no;\
b0 a,b0 b:no;\
f0 a,c0 a,j0 a,f0 b:no;\
j0 a,i0 a,j0 b:no;\
o0 a,l0 b,i1 c,i0 d:yes;\
i1 a,o0 :yes;\
i2 a:no;\
l1 a:no;\
o1 a:no;\
i0 a,i0 b:no;\
i0 a,i1 a,l0 a,l0 b,o0 a:no;\
o0 a,i0 a,i0 b:no;\
i0 a,l0 a,i0 b:no;\
o0 a,i1 a,l0 a,i1 b:no;\
l0 a,i0 a,o0 a,i1 a,l0 b:no;\
o0 a\nb:no;\
i0 a,l0 a,o0 \n:no";

pub(crate) fn numbers_of(alloc: Global, row: &str) -> Result<Vec<u32>, Fail> {
    let mut numbers = Vec::new(alloc);
    for word in row.split(' ') {
        numbers.push(word.parse::<u32>()?)?;
    }
    Ok(numbers)
}

fn literals_of(alloc: Global, numbers: &[u32]) -> Result<Listing<Lit>, Fail> {
    let mut literals = Listing::new(alloc);
    for number in numbers {
        literals.push(Lit(*number))?;
    }
    Ok(literals)
}

fn with_sections(circuit: &mut Circuit, numbers: &[u32]) -> Result<bool, AllocError> {
    let [max_var, input, latch, gate, next, output, left, right] = *numbers else {
        return Ok(false);
    };
    circuit.max_var = max_var;
    circuit.inputs.push(Var(input))?;
    circuit.latches.push(Latch {
        var: Var(latch),
        next: Lit(next),
        reset: Reset::Uninit,
    })?;
    circuit.outputs.push(Lit(output))?;
    circuit.gates.push(Gate {
        var: Var(gate),
        left: Lit(left),
        right: Lit(right),
    })?;
    Ok(true)
}

fn in_form_with_sections(alloc: Global, circuit: &mut Circuit, row: &str) -> Result<bool, Fail> {
    let numbers = numbers_of(alloc, row)?;
    let given = with_sections(circuit, numbers.as_slice());
    drop(numbers); // for the proof
    if !given? {
        return Err("a row has eight numbers")?;
    }
    Ok(circuit.in_form())
}

/// Gives a circuit what a part of a row lists, as `b 9 0`.
fn with_part(alloc: Global, circuit: &mut Circuit, part: &str) -> Result<(), Fail> {
    let (letter, numbers) = part.split_once(' ').ok_or("a part has numbers")?;
    let numbers = numbers_of(alloc, numbers)?;
    let literals = literals_of(alloc, numbers.as_slice())?;
    match letter {
        "b" => circuit.bad = literals,
        "c" => circuit.constraints = literals,
        "j" => circuit.justice.literals = literals,
        "f" => circuit.fairness = literals,
        _ => circuit.justice.sizes = Listing::from_vec(numbers),
    }
    Ok(())
}

fn in_form_with_parts(alloc: Global, circuit: &mut Circuit, parts: &str) -> Result<bool, Fail> {
    for part in parts.split(',') {
        with_part(alloc, circuit, part)?;
    }
    Ok(circuit.in_form())
}

fn kind_by_letter(letter: u8) -> Kind {
    match letter {
        b'i' => Kind::Input,
        b'l' => Kind::Latch,
        b'b' => Kind::Bad,
        b'c' => Kind::Constraint,
        b'j' => Kind::Justice,
        b'f' => Kind::Fairness,
        _ => Kind::Output,
    }
}

/// The symbol of a text as `i0 name`.
fn symbol_of(text: &[u8]) -> Option<BorrowedSymbol> {
    let [letter, digit, _, name @ ..] = text else {
        return None;
    };
    Some(BorrowedSymbol {
        kind: kind_by_letter(*letter),
        position: u32::from(*digit).saturating_sub(48),
        name,
    })
}

/// The symbols of a text, with commas between them.
pub(crate) fn symbols_of(alloc: Global, text: &str) -> Result<Symbols, Fail> {
    let mut symbols = Symbols::new(alloc);
    for line in text.split(',') {
        let symbol = symbol_of(line.as_bytes()).ok_or("a symbol has a letter, a digit and a name")?;
        symbols.push(&symbol)?;
    }
    Ok(symbols)
}

fn in_form_with_symbols(alloc: Global, circuit: &mut Circuit, text: &str) -> Result<bool, Fail> {
    circuit.symbols = symbols_of(alloc, text)?;
    Ok(circuit.in_form())
}

fn form_word(in_form: bool) -> &'static str {
    if in_form { "yes" } else { "no" }
}

#[test]
fn variables_and_literals(rt: HostRuntime) -> Result<(), Fail> {
    for row in SECTIONS.lines() {
        let (numbers, answer) = row.rsplit_once(' ').unwrap_or((row, ""));
        let mut circuit = empty_circuit(rt.alloc(), 0);
        let in_form = in_form_with_sections(rt.alloc(), &mut circuit, numbers);
        drop(circuit); // for the proof
        assert!(rt; form_word(in_form?) == answer, "{row}");
    }
    Ok(())
}

#[test]
fn properties(rt: HostRuntime) -> Result<(), Fail> {
    for row in PROPERTIES.split(';') {
        let (parts, answer) = row.split_once(':').unwrap_or((row, ""));
        let mut circuit = empty_circuit(rt.alloc(), 4);
        let in_form = in_form_with_parts(rt.alloc(), &mut circuit, parts);
        drop(circuit); // for the proof
        assert!(rt; form_word(in_form?) == answer, "{row}");
    }
    Ok(())
}

/// A circuit with something of each kind that may have a symbol.
const NAMELESS: &str = "aag 3 2 1 1 0 1 1 1 1\n2\n4\n6 6\n6\n2\n2\n0\n2\n";

#[test]
fn symbols(rt: HostRuntime) -> Result<(), Fail> {
    for row in SYMBOLS.split(';') {
        let (symbols, answer) = row.split_once(':').unwrap_or((row, ""));
        let mut circuit = circuit_of(rt.alloc(), NAMELESS)?;
        let in_form = in_form_with_symbols(rt.alloc(), &mut circuit, symbols);
        drop(circuit); // for the proof
        assert!(rt; form_word(in_form?) == answer, "{row}");
    }
    Ok(())
}
