// The lines of the season report, each after those that stand in the list already.
ghost use Rattle.std.specs.Prelude.{◌≡◌, ◌++◌, ◌+◌, ◌≤◌, length, take};
ghost use Rattle.same_crossings.specs.CountLaws.{add_counts, sum_of_counts};
ghost use Rattle.textform.specs.Print.{decimal};
ghost use Rattle.textform_report.specs.Permille.{most_pairs_of_season};
ghost use Rattle.textform_report.specs.Report.{rest_room, line_room, heading_length, report_heading, all_word, line_rest, report_line};

use crate::inner::permille::permille;
use arcstring_tally::counts::Counts;
use textform::inner::print::{put_number, put_text};
use textform_count::inner::print::put_counts;

// Counts added to counts.
pub fn add_counts(a: Counts, b: Counts) -> Counts
    requires { sum_of_counts a + sum_of_counts b ≤ most_pairs_of_season }
    ensures { result ≡ add_counts a b }
{
    Counts {
        clean: a.clean + b.clean,
        end: a.end + b.end,
        grazing: a.grazing + b.grazing,
        apart: a.apart + b.apart,
    }
}

// The heading at the start of `out`; how many bytes.
pub fn put_heading(out: &mut [u8]) -> usize
    requires { heading_length ≤ length out.old }
    ensures { (result ≡ heading_length) × (take result out.new ≡ report_heading) }
{
    put_text(out, 0, b"track clean end grazing apart permille\n")
}

// What stands in a line after its name: the counts and their permille, from position `at` on; where the line ends.
fn put_rest(out: &mut [u8], at: usize, c: Counts) -> usize
    requires { (at + rest_room ≤ length out.old) × (sum_of_counts c ≤ most_pairs_of_season) }
    ensures { (result ≤ at + rest_room) × (take result out.new ≡ take at out.old ++ line_rest c) }
{
    let rate = permille(c);
    let at = put_counts(out, at, c, b' ');
    put_number(out, at, rate, b'\n')
}

// The line of a track, from position `at` on; where it ends.
pub fn put_track(out: &mut [u8], at: usize, n: u64, c: Counts) -> usize
    requires { (at + line_room ≤ length out.old) × (sum_of_counts c ≤ most_pairs_of_season) }
    ensures { (result ≤ at + line_room) × (take result out.new ≡ take at out.old ++ report_line (decimal n) c) }
{
    let at = put_number(out, at, n, b' ');
    put_rest(out, at, c)
}

// The line of all tracks, from position `at` on; where it ends.
pub fn put_all(out: &mut [u8], at: usize, c: Counts) -> usize
    requires { (at + line_room ≤ length out.old) × (sum_of_counts c ≤ most_pairs_of_season) }
    ensures { (result ≤ at + line_room) × (take result out.new ≡ take at out.old ++ report_line all_word c) }
{
    let at = put_text(out, at, b"all ");
    put_rest(out, at, c)
}
