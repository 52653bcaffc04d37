// The text form of a season read byte by byte: each row goes on as a row of two strings does, once its first column is read. The limit's
// floats and those of the last track go to two lists that the caller lends, and the lines of the tracks that have ended to a third.
ghost use Rattle.std.specs.Prelude.{◌≡◌, List, ℕ, ◌≤◌, ◌<◌, length, Float};
ghost use Rattle.textform.specs.Kept as Text;
ghost use Rattle.textform_report.specs.Permille.{most_tracks};
ghost use Rattle.textform_season.specs.Season as Season;
ghost use Rattle.textform_season.specs.Kept.{end_track, held_tracks, TracksSound, kept_start, kept_fed};
ghost use Rattle.textform_season.specs.Held.{held_season, Becomes};

use crate::inner::column::{Column, column_after};
pub use crate::inner::reading::Reading;
use crate::inner::report::REPORT_ROOM;
use crate::inner::track::{Lines, end_track, no_tracks};
use arcstring_check::check::Refusal;
use textform::inner::read;
use textform::inner::read::FLOATS_KEPT;

// Before the first byte.
pub fn begin(out: &mut [u8; REPORT_ROOM]) -> Reading
    ensures { (limit track : List Float) → held_season result limit track out.new ≡ kept_start }
{
    Reading {
        row: read::begin(),
        column: Column::Empty,
        last: 0,
        tracks: no_tracks(out),
    }
}

// To where malformed input ends up, and stays.
fn malformed(r: Reading) -> Reading
    ensures { Becomes r Season.malformed result }
{
    let mut next = r;
    next.row = read::malformed(r.row);
    next.column = Column::Empty;
    next
}

// A byte of the first column, other than a blank.
fn in_column(r: Reading, byte: u8) -> Reading
    ensures { Becomes r (Season.in_column (Season.column_after r.column byte)) result }
{
    let Some(column) = column_after(r.column, byte) else {
        return malformed(r);
    };
    let mut next = r;
    next.column = column;
    next
}

// On in a row of the limit, or of the last track.
fn on_in_row(r: Reading, second: bool) -> Reading
    ensures { Becomes r (Season.on_in_row second) result }
{
    let mut next = r;
    next.row = read::in_row(r.row, second);
    next.column = Column::Empty;
    next
}

// A row of the limit: before the first track.
fn limit_row(r: Reading) -> Reading
    ensures { Becomes r Season.limit_row result }
{
    if r.last > 0 {
        return malformed(r);
    }
    on_in_row(r, false)
}

// All tracks: the last one too, where there is one.
pub(crate) fn all_done(
    r: Reading,
    limit: &[f64; FLOATS_KEPT],
    track: &[f64; FLOATS_KEPT],
    out: &mut [u8; REPORT_ROOM],
) -> Result<Lines, Refusal>
    ensures out_after { held_tracks result out.new ≡ Season.all_done end_track (held_season r limit.now track.now out.old) }
    ensures tracks_sound { TracksSound result r.last }
{
    if r.last == 0 {
        return r.tracks;
    }
    end_track(r.tracks, r.last, &limit[..r.row.a], &track[..r.row.b], out)
}

// The next track begins.
fn next_track(
    r: Reading,
    limit: &[f64; FLOATS_KEPT],
    track: &[f64; FLOATS_KEPT],
    out: &mut [u8; REPORT_ROOM],
) -> Reading
    requires { r.last < most_tracks }
    ensures { held_season result limit.now track.now out.new
        ≡ Season.next_track end_track (held_season r limit.now track.now out.old) }
{
    Reading {
        row: read::without_second(r.row),
        column: Column::Empty,
        last: r.last + 1,
        tracks: all_done(r, limit, track, out),
    }
}

// A row of track n: of the last one, or the first row of the next.
fn track_row(
    r: Reading,
    n: u64,
    limit: &[f64; FLOATS_KEPT],
    track: &[f64; FLOATS_KEPT],
    out: &mut [u8; REPORT_ROOM],
) -> Reading
    requires { n ≤ most_tracks }
    ensures { held_season result limit.now track.now out.new
        ≡ Season.track_row end_track n (held_season r limit.now track.now out.old) }
{
    if n == r.last {
        return on_in_row(r, true);
    }
    if n == r.last + 1 {
        return on_in_row(next_track(r, limit, track, out), true);
    }
    malformed(r)
}

// The blank after the first column.
fn row_of(
    r: Reading,
    limit: &[f64; FLOATS_KEPT],
    track: &[f64; FLOATS_KEPT],
    out: &mut [u8; REPORT_ROOM],
) -> Reading
    ensures { held_season result limit.now track.now out.new
        ≡ Season.row_of end_track r.column (held_season r limit.now track.now out.old) }
{
    match r.column {
        Column::Empty => malformed(r),
        Column::Limit => limit_row(r),
        Column::Number(n) => track_row(r, n, limit, track, out),
    }
}

// A byte of a row after its first column, or of the names line.
fn in_text(
    r: Reading,
    byte: u8,
    limit: &mut [f64; FLOATS_KEPT],
    track: &mut [f64; FLOATS_KEPT],
) -> Reading
    ensures { (out : List ℕ) → held_season result limit.new track.new out
        ≡ Season.in_text Text.keep (held_season r limit.old track.old out) byte }
{
    let mut next = r;
    next.row = read::step(r.row, byte, limit, track);
    next
}

// One byte.
fn step(
    r: Reading,
    byte: u8,
    limit: &mut [f64; FLOATS_KEPT],
    track: &mut [f64; FLOATS_KEPT],
    out: &mut [u8; REPORT_ROOM],
) -> Reading
    ensures { held_season result limit.new track.new out.new
        ≡ Season.step_with end_track Text.keep (held_season r limit.old track.old out.old) byte }
{
    if r.row.place != read::ROW_START {
        return in_text(r, byte, limit, track);
    }
    if byte == b' ' {
        return row_of(r, limit, track, out);
    }
    in_column(r, byte)
}

// A piece of the input, byte by byte.
pub fn feed(
    r: Reading,
    bytes: &[u8],
    limit: &mut [f64; FLOATS_KEPT],
    track: &mut [f64; FLOATS_KEPT],
    out: &mut [u8; REPORT_ROOM],
) -> Reading
    ensures { held_season result limit.new track.new out.new
        ≡ kept_fed (held_season r limit.old track.old out.old) bytes.now }
{
    let mut reading = r;
    for byte in bytes {
        reading = step(reading, *byte, limit, track, out);
    }
    reading
}
