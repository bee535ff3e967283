//! The line of a step in a lane.
ghost use Rattle.std.specs.Prelude.{◌+◌, ◌*◌, ◌<◌, ◌≤◌, ◌^◌, length};
ghost use Rattle.aig_lanes.specs.Parts.LaneTexts.{end_of, shown_size, shown_text};
ghost use Rattle.aig_lanes.specs.Parts.Sheets.{text_in};

use crate::lane_columns::LaneColumns;
use crate::sheets::Sheet;
use aig_io::Line;

/// The line of a step in a lane, with these inputs.
#[derive(Drop)]
pub struct ShownLine<'a> {
    pub given: &'a [u8],
    pub shown: &'a LaneColumns,
    pub sheet: &'a Sheet,
    pub step: usize,
    pub lane: usize,
}

impl<'a> Line for ShownLine<'a> {
    type State = ();

    ghost is_whole = { λ l _. (l.lane < 256) × ((l.step + 1) * shown_size l.shown.now < 2 ^ 64)
        × (end_of l.shown.now (l.step + 1) ≤ length (text_in l.lane l.sheet.now)) };

    ghost size = { λ l _. shown_size l.shown.now + length l.given.now };

    ghost text = { λ l _. shown_text l.shown.now l.step l.given.now (text_in l.lane l.sheet.now) };

    ghost leads = { λ _ _ _. Unit {0} };

    #[inline(always)]
    fn write(&self, _state: &mut (), line: &mut [u8], at: usize) -> usize {
        self.shown
            .write(self.sheet, line, at, self.given, self.step, self.lane)
    }
}
