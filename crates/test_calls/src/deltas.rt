//! Deltas of binary files.
use aig_binary::{get_delta, put_delta};
use std::test::Fail;

/// Numbers, and the bytes of their shortest spellings.
const SHORTEST: &str = "\
0 00
1 01
127 7f
128 8001
258 8202
16383 ff7f
16387 838001
2097151 ffff7f
2097152 80808001
268435455 ffffff7f
268435463 8780808001
4294967295 ffffffff0f
";

/// Bytes, and the number that they begin with and how many bytes spell it.
const FRONTS: &str = "\
8100:Some((1, 2))
818000:Some((1, 3))
ffff7f01:Some((2097151, 3))
81808000:Some((1, 4))
8080808000:Some((0, 5))
0203:Some((2, 1))
8080808010:None
808080808000:None
80:None
8180:None
818080:None
:None
";

#[test]
fn shortest_spellings(rt: HostRuntime) -> Result<(), Fail> {
    for row in SHORTEST.lines() {
        let (number, bytes) = row.split_once(' ').ok_or("a row has bytes")?;
        let number = number.parse::<u32>()?;
        let bytes = hex::decode(rt.alloc(), bytes)?;
        assert!(rt; put_delta(number).bytes() == bytes.as_slice(), "{row}");
        assert!(rt; get_delta(&bytes) == Some((number, bytes.len())), "{row}");
    }
    Ok(())
}

#[test]
fn numbers_at_the_front(rt: HostRuntime) -> Result<(), Fail> {
    for row in FRONTS.lines() {
        let (bytes, answer) = row.split_once(':').ok_or("a row has an answer")?;
        let bytes = hex::decode(rt.alloc(), bytes)?;
        let told = format!(in rt.alloc(); "{:?}", get_delta(&bytes))?;
        assert!(rt; told.as_str() == answer, "{row}");
    }
    Ok(())
}
