// What the season report prints once its input has ended.
ghost use Rattle.std.specs.Prelude.{◌≡◌, ◌≤◌, length, take};
ghost use Rattle.arcstring_check.specs.Answer.{unless_refused};
ghost use Rattle.arcstring_check.specs.Check.{build_check};
ghost use Rattle.textform_report.specs.Permille.{most_tracks};
ghost use Rattle.textform_season.specs.Season.{all_done};
ghost use Rattle.textform_season.specs.Output.{output};
ghost use Rattle.textform_season.specs.Kept.{report_room, end_track, held_tracks, TracksSound, kept_answer, printed_report};
ghost use Rattle.textform_season.specs.Held.{held_season};

use crate::inner::column::Column;
use crate::inner::read::{all_done, begin, feed};
use crate::inner::reading::Reading;
use crate::inner::track::Lines;
use arcstring_check::check::{MOST_FLOATS, Refusal};
use textform::inner::print::print_refusal;
use textform::inner::read;
use textform::inner::read::FLOATS_KEPT;
use textform_count::inner::count::build_plain;
use textform_report::inner::lines::put_all;

// Room for the longest report: a heading of 39 bytes, and at most 126 for each of 1,001 lines.
pub const REPORT_ROOM: usize = 131072;

// What is printed of the tracks: how many bytes of `out`.
fn print_tracks(tracks: Result<Lines, Refusal>, out: &mut [u8; REPORT_ROOM]) -> usize
    requires { TracksSound tracks most_tracks }
    ensures { (take result out.new ≡ printed_report (held_tracks tracks out.old)) × (result ≤ report_room) }
{
    match tracks {
        Ok(lines) => put_all(out, lines.at, lines.sums),
        Err(e) => print_refusal(u32::from(e), out),
    }
}

// What is printed for a well-formed input: the limit's refusal comes before the tracks', and the limit is built here only to see whether
// there is one.
fn print_season(
    r: Reading,
    limit: &[f64; FLOATS_KEPT],
    track: &[f64; FLOATS_KEPT],
    out: &mut [u8; REPORT_ROOM],
) -> usize
    ensures out_after { take result out.new ≡ (let s = held_season r limit.now track.now out.old in
        printed_report (unless_refused (build_check s.text.a) (all_done end_track s))) }
    ensures upper_bound { result ≤ report_room }
{
    let mut vertices = [0.0; MOST_FLOATS];
    match build_plain(&limit[..r.row.a], &mut vertices) {
        Err(e) => print_refusal(u32::from(e), out),
        Ok(_) => print_tracks(all_done(r, limit, track, out), out),
    }
}

// What is printed once the input has ended: how many bytes of `out`.
pub fn conclude(
    r: Reading,
    limit: &[f64; FLOATS_KEPT],
    track: &[f64; FLOATS_KEPT],
    out: &mut [u8; REPORT_ROOM],
) -> usize
    ensures out_after { take result out.new ≡ printed_report (kept_answer (held_season r limit.now track.now out.old)) }
    ensures upper_bound { result ≤ report_room }
{
    if r.row.place != read::ROW_START {
        return print_refusal(8, out);
    }
    match r.column {
        Column::Empty => print_season(r, limit, track, out),
        Column::Limit | Column::Number(_) => print_refusal(8, out),
    }
}

// The bytes printed for a whole input: how many bytes of `out`.
pub fn report_text(input: &[u8], out: &mut [u8; REPORT_ROOM]) -> usize
    ensures { (take result out.new ≡ output input.now) × (result ≤ report_room) }
{
    let mut limit = [0.0; FLOATS_KEPT];
    let mut track = [0.0; FLOATS_KEPT];
    let r = feed(begin(out), input, &mut limit, &mut track, out);
    conclude(r, &limit, &track, out)
}
