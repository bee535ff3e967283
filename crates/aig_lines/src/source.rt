//! The bytes of a source, from the first to the end.
ghost use Rattle.std.specs.Prelude.{◌≡◌};
ghost use Rattle.aig_lines.specs.Feeders.{FoldedSource, IsInitial};

use crate::feeder::{LineFeeder, LineTaker};
use aig_io::{DeviceFault, ROOM, Source};

/// Hands on the lines of all that the source gives, and answers whether none was refused. After one
/// that was nothing more is fetched.
pub fn feed_source<T: LineTaker, R: Source>(
    feeder: &mut LineFeeder,
    taker: &mut T,
    source: &mut R,
) -> Result<bool, DeviceFault>
    requires initial { IsInitial feeder.old }
    requires counted { T.counted taker.old ≡ 0 }
    ensures { (s : T.State) → T.IsAt taker.old s → FoldedSource T.step T.IsAt feeder.old.limit s
        (R.history source.old) (R.history source.new) result feeder.new taker.new }
{
    let mut block = [0u8; ROOM];
    loop {
        let Ok(count) = source.fetch(&mut block) else {
            return Err(DeviceFault);
        };
        if count == 0 {
            return Ok(feeder.end(taker));
        }
        let (chunk, _) = block.split_at(count);
        if !feeder.feed(taker, chunk) {
            return Ok(false);
        }
    }
}
