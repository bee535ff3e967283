//! What else than the places of gates must be right in a block, for it to be the one of the mapped
//! image.
ghost use Rattle.std.specs.Prelude.{◌↔◌, IsTrue};
ghost use Rattle.aig_map.specs.Parts.Confirmed.{TellsComment};

use crate::recorded::Recorded;

/// Whether nothing follows a block that records no comment section.
pub fn tells_comment(recorded: &Recorded, rest: &[u8]) -> bool
    ensures { IsTrue result ↔ TellsComment recorded.now.has_comment rest.now }
{
    recorded.has_comment || rest.is_empty()
}
