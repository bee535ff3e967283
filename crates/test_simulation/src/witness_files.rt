//! Witness files of bad states and of justice properties, and the verdicts on them.
use aig_core::Keep;
use aig_fault::{Fault, Kind, Place, Stopped};
use aig_io::SliceSource;
use aig_lasso::LassoVerdict;
use aig_text::{Limits, read_ascii};
use aig_verdicts::{WitnessVerdict, judge_witness};
use aig_witness::Verdict;
use std::alloc::Global;
use std::test::Fail;

/// A latch that is 1 from the second step on, and an input: the bad state is the latch, and the
/// justice property that both are 1.
const CIRCUIT: &[u8] = b"aag 2 1 1 0 0 1 0 1\n2\n4 1\n4\n2\n2\n4\n";

/// The verdict on a witness file.
fn verdict(alloc: Global, file: &[u8]) -> Option<Result<WitnessVerdict, Stopped>> {
    let circuit = read_ascii(alloc, CIRCUIT, Limits::default(), Keep::Circuit).ok()?;
    let mut source = SliceSource::new(file).ok()?;
    Some(judge_witness(alloc, &circuit, &mut source))
}

/// The line that is wrong or missing.
fn bad_line(alloc: Global, file: &[u8]) -> Option<u64> {
    match verdict(alloc, file)? {
        Err(
            Stopped::Refused(
                Fault {
                    kind: Kind::BadWitness,
                    place: Place::Line(line),
                    ..
                },
            ),
        ) => Some(line),
        _ => None,
    }
}

#[test]
fn files_of_lassos_are_judged(rt: HostRuntime) {
    let alloc = rt.alloc();
    let confirmed = matches!(
        verdict(alloc, b"1\nj0\n0\n0\n1\n.\n"),
        Some(Ok(WitnessVerdict::Justice(LassoVerdict::Confirmed(1))))
    );
    let open = matches!(
        verdict(alloc, b"1\r\nj0\r\n0\r\n0\r\n0\r\n."),
        Some(Ok(WitnessVerdict::Justice(LassoVerdict::NotConfirmed)))
    );
    assert!(rt; confirmed);
    assert!(rt; open);
}

#[test]
fn files_of_bad_states_are_judged(rt: HostRuntime) {
    let reached = matches!(
        verdict(rt.alloc(), b"1\nb0\n0\n0\n1\n.\n"),
        Some(Ok(WitnessVerdict::BadState(Verdict::Confirmed(1))))
    );
    assert!(rt; reached);
}

#[test]
fn wrong_lines_are_told(rt: HostRuntime) {
    let alloc = rt.alloc();
    assert!(rt; bad_line(alloc, b"1\nj1\n0\n.\n") == Some(2));
    assert!(rt; bad_line(alloc, b"1\nj0\n1\n.\n") == Some(3));
    assert!(rt; bad_line(alloc, b"1\nj0\n0\n00\n.\n") == Some(4));
    assert!(rt; bad_line(alloc, b"1\nj0\n0\n1\n") == Some(5));
}

#[test]
fn comments_are_passed_over(rt: HostRuntime) {
    let alloc = rt.alloc();
    let reached = matches!(
        verdict(alloc, b"c a\n1\nc\nb0\n0\nc 1\n0\n1\nc.\n.\nc"),
        Some(Ok(WitnessVerdict::BadState(Verdict::Confirmed(1))))
    );
    let lasso = matches!(
        verdict(alloc, b"1\nc b0\r\nj0\nc\n0\n0\n1\nc\n.\nc z\n"),
        Some(Ok(WitnessVerdict::Justice(LassoVerdict::Confirmed(1))))
    );
    assert!(rt; reached);
    assert!(rt; lasso);
}

#[test]
fn comments_are_counted(rt: HostRuntime) {
    let alloc = rt.alloc();
    assert!(rt; bad_line(alloc, b"c\n1\nc\nb1\n0\n.\n") == Some(4));
    assert!(rt; bad_line(alloc, b"1\nb0\n0\nc\n.\nc\n1\n") == Some(7));
    assert!(rt; bad_line(alloc, b"1\nb0\nc\n0\nc\n") == Some(6));
}
