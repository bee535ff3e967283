//! Room for bytes that a source gives.
ghost use Rattle.std.specs.Prelude.{◌≡◌, ◌<◌, ◌≤◌, take, vec_len, OnOk};

use std::alloc::AllocError;

/// How many bytes there is room for at first, and how much room is added where there is little.
pub(crate) const PIECE: usize = 65536;

/// Makes room after so many bytes, where there is little. It is cleared, so it grows by pieces:
/// one is still in the cache when bytes come, and what a file does not fill is not cleared.
pub(crate) fn make_room(bytes: &mut Vec<u8>, len: usize) -> Result<(), AllocError>
    requires within { len ≤ vec_len bytes.old }
    ensures same { take len bytes.new.items ≡ take len bytes.old.items }
    ensures room { OnOk result (len < vec_len bytes.new) }
    ensures grown { vec_len bytes.old ≤ vec_len bytes.new }
{
    let room = bytes.len();
    if room - len < PIECE / 2 {
        bytes.resize(room + PIECE, 0)?;
    }
    Ok(())
}
