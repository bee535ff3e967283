//! The characters of a vector, the last one first.
ghost use Rattle.std.specs.Prelude.{length, reverse};
ghost use Rattle.aig_io.specs.Output.{Appended};

use aig_io::{Line, Output, Sink};

/// How many are written at once.
const PIECE: usize = 64;

/// Characters, which are written from the last to the first.
#[derive(Drop)]
struct Reversed<'a> {
    bytes: &'a [u8],
}

impl<'a> Line for Reversed<'a> {
    type State = ();

    ghost is_whole = { λ _ _. Unit {0} };

    ghost size = { λ l _. length l.bytes.now };

    ghost text = { λ l _. reverse l.bytes.now };

    ghost leads = { λ _ _ _. Unit {0} };

    #[inline(always)]
    fn write(&self, _state: &mut (), line: &mut [u8], at: usize) -> usize {
        let end = at + self.bytes.len();
        let place = &mut line[at..end];
        place.copy_from_slice(self.bytes);
        place.reverse();
        end
    }
}

/// Puts characters from the last to the first.
pub(crate) fn put_reversed<W: Sink>(output: &mut Output<W>, bytes: &[u8])
    ensures { Appended output.old output.new (reverse bytes.now) }
{
    let mut rest = bytes;
    while rest.len() > 0 {
        let (others, last) = rest.split_at(rest.len().saturating_sub(PIECE));
        let mut room = [0u8; PIECE];
        output.put_line(&mut room, &Reversed { bytes: last }, &mut ());
        rest = others;
    }
}
