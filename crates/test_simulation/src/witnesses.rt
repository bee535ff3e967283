//! Witness files, and what they come to.
ghost use Rattle.std.specs.Prelude.{◌≡◌, IfSome};

use aig_core::{Checked, Keep, MemorySource};
use aig_sim::{Stopped, Verdict, confirm};
use aig_text::{Limits, read_ascii};
use std::alloc::{AllocError, Global};
use std::test::Fail;

/// Circuits, and witness files for each with what comes of them, a line each. A `/` is a line feed,
/// and a `,` is a carriage return.
const WITNESSES: &str = "\
aag 1 0 1 0 0 1
2 3
2
=1/b0/0///./=confirmed 1
1/b0/0///.=confirmed 1
1,/b0,/0,/,/,/.,/=confirmed 1
1/b0/0//./=not confirmed
1/b0/0/./=not confirmed
=line 1: bad witness line
1/=line 2: bad witness line
1/b0=line 3: bad witness line
1/b0/0=line 4: bad witness line
1/b0/0//=line 5: bad witness line
1/b0/0///.,=line 6: bad witness line
1/b0/0///./z/=line 7: bad witness line
1/b0/0///.//=line 7: bad witness line
01/b0/0///./=line 1: bad witness line
1/b/0///./=line 2: bad witness line
1/b1/0///./=line 2: bad witness line
1/b00/0///./=line 2: bad witness line
1/b10000000000000000000000000000/0///./=line 2: bad witness line
1/b0/1//./=line 3: bad witness line
1/b0/x//./=line 3: bad witness line
1/b0/00//./=line 3: bad witness line
1/b0/0/0/./=line 4: bad witness line
1/b0/0/./0/=line 5: bad witness line
#aag 1 0 1 0 0 1
2 3 2
2
=1/b0/1//./=confirmed 0
1/b0/x//./=not confirmed
1/b0/0///./=confirmed 1
#aag 2 1 1 0 0 1 1
2
4 2
4
3
=1/b0/0/1/0/./=not confirmed
1/b0/0/0/0/./=not confirmed
1/b0/0/x/0/./=not confirmed
#aag 0 0 0 0 0
=1/b0//./=line 2: bad witness line
2/=line 1: bad witness line";

/// The bytes of a witness file, by the characters that stand for them.
fn witness_bytes(alloc: Global, text: &str) -> Result<Vec<u8>, AllocError> {
    let mut bytes = Vec::new(alloc);
    for byte in text.as_bytes() {
        bytes.push(match *byte {
            b'/' => b'\n',
            b',' => b'\r',
            other => other,
        })?;
    }
    Ok(bytes)
}

fn outcome_words(alloc: Global, outcome: &Result<Verdict, Stopped>) -> Result<String, AllocError> {
    match outcome {
        Ok(Verdict::Confirmed(at)) => format!(in alloc; "confirmed {at}"),
        Ok(Verdict::NotConfirmed) => format!(in alloc; "not confirmed"),
        Err(fault) => format!(in alloc; "{fault}"),
    }
}

/// A source that gives a witness file in pieces of three bytes, and fails at this call.
fn source_of(alloc: Global, witness: &str, fails_at: u64) -> Option<MemorySource>
    ensures { IfSome result (λ source. source.history.failures ≡ 0) }
{
    let bytes = witness_bytes(alloc, witness).ok()?;
    if bytes.len() > 1000 {
        return None;
    }
    Some(MemorySource::new(bytes, 3, fails_at))
}

fn outcome_of(alloc: Global, circuit: &Checked, witness: &str) -> Option<String> {
    let mut source = source_of(alloc, witness, 0)?;
    outcome_words(alloc, &confirm(alloc, circuit, &mut source)).ok()
}

fn comes_to(alloc: Global, circuit: &Checked, witness: &str, wanted: &str) -> bool {
    match outcome_of(alloc, circuit, witness) {
        Some(outcome) => outcome.as_str() == wanted,
        None => false,
    }
}

fn fault_of(alloc: Global, circuit: &Checked, witness: &str, fails_at: u64) -> Option<Stopped> {
    let mut source = source_of(alloc, witness, fails_at)?;
    confirm(alloc, circuit, &mut source).err()
}

fn first_wrong_row<'t>(alloc: Global, circuit: &Checked, rows: &'t str) -> Option<&'t str> {
    for row in rows.lines() {
        let (witness, wanted) = row.split_once('=').unwrap_or((row, ""));
        if !comes_to(alloc, circuit, witness, wanted) {
            return Some(row);
        }
    }
    None
}

#[test]
fn witnesses(rt: HostRuntime) -> Result<(), Fail> {
    for table in WITNESSES.split('#') {
        let (text, rows) = table.split_once('=').unwrap_or((table, "no rows"));
        let limits = Limits::default();
        let circuit = read_ascii(rt.alloc(), text.as_bytes(), limits, Keep::Circuit)?;
        let wrong = first_wrong_row(rt.alloc(), &circuit, rows);
        drop(circuit); // for the proof
        assert!(rt; wrong.is_none(), "{text}: {}", wrong.unwrap_or(""));
    }
    Ok(())
}

#[test]
fn a_source_that_fails(rt: HostRuntime) -> Result<(), Fail> {
    let text = b"aag 1 0 1 0 0 1\n2 3\n2\n";
    let circuit = read_ascii(rt.alloc(), text, Limits::default(), Keep::Circuit)?;
    let fault = fault_of(rt.alloc(), &circuit, "1/b0/0///./", 3);
    drop(circuit); // for the proof
    assert!(rt; fault == Some(Stopped::ReadFailed));
    Ok(())
}
