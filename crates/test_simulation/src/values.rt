//! The three values, and their characters in these tests.
use aig_core::Val;

/// Two values, their `and`, and the negation of the first.
const VALUES: &str = "\
0001
0101
0x01
1000
1110
1xx0
x00x
x1xx
xxxx";

pub(crate) fn value_of(byte: u8) -> Val {
    match byte {
        b'0' => Val::Zero,
        b'1' => Val::One,
        _ => Val::X,
    }
}

fn are_right(row: &[u8]) -> bool {
    let [left, right, both, other] = *row else {
        return false;
    };
    value_of(left).and(value_of(right)) == value_of(both) && value_of(left).not() == value_of(other)
}

#[test]
fn values(rt: HostRuntime) {
    for row in VALUES.lines() {
        assert!(rt; are_right(row.as_bytes()), "{row}");
    }
}
