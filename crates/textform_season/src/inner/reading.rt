// Where the reading of a season stands. In a file of its own: its invariant cites `Kept`, and what is claimed of the reading cites it.
ghost use Rattle.std.specs.Prelude.{◌-◌, ◌≤◌};
ghost use Rattle.textform_report.specs.Permille.{most_tracks};
ghost use Rattle.textform_season.specs.Kept.{ColumnSound, ColumnSound_prop, TracksSound, TracksSound_prop};

use crate::inner::column::Column;
use crate::inner::track::Lines;
use arcstring_check::check::Refusal;
use textform::inner::reader::Reader;

// In its row, as of two strings; what has been read of the first column; the number of the last track, 0 before the first; and what is
// kept of the tracks before it.
#[derive(Clone, Copy)]
pub struct Reading {
    pub row: Reader,
    pub column: Column,
    pub last: u64,
    pub tracks: Result<Lines, Refusal>,
    pub ghost column_within: { ColumnSound column } by { ColumnSound_prop column },
    pub ghost few: { last ≤ most_tracks },
    pub ghost tracks_within: { TracksSound tracks (last - 1) } by { TracksSound_prop tracks (last - 1) },
}
