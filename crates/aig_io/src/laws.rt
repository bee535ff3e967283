//! Laws: facts about the definitions alone, each the contract of a function with an empty body.
ghost use Rattle.aig_io.specs.Laws.{RoomIsTheBlockSize};

/// A block has room for as many bytes as a sink is handed at most in one slice.
pub fn room_is_the_block_size()
    ensures { RoomIsTheBlockSize }
{}
