//! Circuits that are unrolled. What comes is in the contract; that memory suffices is not.
use aig_core::Keep;
use aig_text::{Limits, read_ascii};
use aig_unroll::unroll;
use std::test::Fail;

/// Circuits, with a `#` between them.
const TEXTS: &str = "\
aag 1 0 1 2 0
2 3
2
3
#aag 3 1 1 1 1
2
4 6
6
6 2 5
#aag 2 1 1 0 0 1 1
2
4 2 4
4
3
";

#[test]
fn circuits_are_unrolled(rt: HostRuntime) -> Result<(), Fail> {
    for text in TEXTS.split('#') {
        let limits = Limits::default();
        let checked = read_ascii(rt.alloc(), text.as_bytes(), limits, Keep::Circuit)?;
        let is_unrolled = unroll(rt.alloc(), &checked, 2).is_ok();
        drop(checked); // for the proof
        assert!(rt; is_unrolled, "{text}");
    }
    Ok(())
}
