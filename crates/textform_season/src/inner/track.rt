// A track that has ended: counted with the limit, and its line put after those of the tracks before it.
ghost use Rattle.std.specs.Prelude.{◌≡◌, [], ◌-◌, ◌≤◌, length};
ghost use Rattle.arcstring_check.specs.Answer.{answered};
ghost use Rattle.textform.specs.Kept.{floats_kept};
ghost use Rattle.arcstring_visit.specs.Visit.{most_pairs};
ghost use Rattle.textform_report.specs.Permille.{most_tracks};
ghost use Rattle.textform_report.specs.Report.{report_for, with_track};
ghost use Rattle.same_crossings.specs.CountLaws.{sum_of_counts};
ghost use Rattle.textform_season.specs.Kept.{end_track, held_tracks, held_lines, TracksSound, LinesSound};

use crate::inner::report::REPORT_ROOM;
use arcstring_check::check::Refusal;
use arcstring_tally::counts::Counts;
use textform_count::inner::count::count_built;
use textform_report::inner::lines::{add_counts, put_heading, put_track};

// Where the lines end, and the sums of their counts.
#[derive(Clone, Copy)]
pub struct Lines {
    pub at: usize,
    pub sums: Counts,
}

// No track yet: the heading alone.
pub(crate) fn no_tracks(out: &mut [u8; REPORT_ROOM]) -> Result<Lines, Refusal>
    ensures { (held_tracks result out.new ≡ answered (report_for [])) × TracksSound result 0 }
{
    Ok(Lines {
        at: put_heading(out),
        sums: Counts {
            clean: 0,
            end: 0,
            grazing: 0,
            apart: 0,
        },
    })
}

// One line more, track n's after those of the tracks before it.
fn with_track(lines: Lines, n: u64, c: Counts, out: &mut [u8; REPORT_ROOM]) -> Lines
    requires { (1 ≤ n) × (n ≤ most_tracks) × LinesSound lines (n - 1) × (sum_of_counts c ≤ most_pairs) }
    ensures { (held_lines result out.new ≡ with_track n (held_lines lines out.old) c) × LinesSound result n }
{
    Lines {
        at: put_track(out, lines.at, n, c),
        sums: add_counts(lines.sums, c),
    }
}

// Track n, counted after the tracks before it.
fn count_track(
    lines: Lines,
    n: u64,
    limit: &[f64],
    track: &[f64],
    out: &mut [u8; REPORT_ROOM],
) -> Result<Lines, Refusal>
    requires le_n { (1 ≤ n) × (n ≤ most_tracks) × LinesSound lines (n - 1) }
    requires limit_len_bound { (length limit.now ≤ floats_kept) × (length track.now ≤ floats_kept) }
    ensures out_after { held_tracks result out.new
        ≡ end_track limit.now track.now n (answered (held_lines lines out.old)) }
    ensures tracks_sound { TracksSound result n }
{
    let counts = count_built(track, limit)?;
    Ok(with_track(lines, n, counts, out))
}

// Track n has ended, the tracks before it as they are.
pub(crate) fn end_track(
    tracks: Result<Lines, Refusal>,
    n: u64,
    limit: &[f64],
    track: &[f64],
    out: &mut [u8; REPORT_ROOM],
) -> Result<Lines, Refusal>
    requires le_n { (1 ≤ n) × (n ≤ most_tracks) × TracksSound tracks (n - 1) }
    requires limit_len_bound { (length limit.now ≤ floats_kept) × (length track.now ≤ floats_kept) }
    ensures out_after { held_tracks result out.new
        ≡ end_track limit.now track.now n (held_tracks tracks out.old) }
    ensures tracks_sound { TracksSound result n }
{
    count_track(tracks?, n, limit, track, out)
}
