// The crossings and the four counts of a string with itself. The kept points are the source's, each with a mark byte: 1 clean,
// 0 grazing.
ghost use Rattle.std.specs.Prelude.{◌≡◌, true, false, map, ◌*◌, ◌≤◌, length, Float};
ghost use Rattle.arcstring_check.specs.Answer.{leaves, answer_of};
ghost use Rattle.arcstring.specs.Points.{flat};
ghost use Rattle.arcstring.specs.Splice.{splice};
ghost use Rattle.arcstring_build.specs.Build.{normalized_all};
ghost use Rattle.arcstring_tally.specs.Pairs.{kept_marks, mark_point, mark_byte};
ghost use Rattle.arcstring_tally.specs.Tally.{no_tally, tally_on};
ghost use Rattle.arcstring_visit.specs.Visit.{most_pairs};
ghost use Rattle.arcstring_listing.specs.Listing.{listed_result, listed_floats, listed_bytes};
ghost use Rattle.arcstring_self.specs.SelfListing.{self_pairs, self_crossings, crosses_self};

use arcstring_check::check::Refusal;
use arcstring_listing::inner;
use arcstring_listing::inner::Accepted;
use arcstring_tally::counts::Counts;
use arcstring_tally::inner::tally::Tally;
use arcstring_visit::inner::walk;

// An accepted string against itself, counted, its closing leg too where it is taken as closed.
fn tally_self(s: Accepted, margin: f64) -> Tally
    ensures { (result ≡ tally_on no_tally (self_pairs margin s.entry.v.now s.entry.closed)) × (result.kept ≤ most_pairs) }
{
    walk::count_within(s.legs(), margin)
}

// An accepted string's pairs with itself, counted, and what they keep written and then normalised in place.
fn visit_self(s: Accepted, margin: f64, points: &mut [f64], marks: &mut [u8]) -> Tally
    requires { (3 * length (kept_marks (self_pairs margin s.v.now s.closed)) ≤ length points.old)
        × (length (kept_marks (self_pairs margin s.v.now s.closed)) ≤ length marks.old) }
    ensures value { result ≡ tally_on no_tally (self_pairs margin s.entry.v.now s.entry.closed) }
    ensures points_after { points.new ≡ splice points.old 0 (flat (normalized_all
        (map mark_point (kept_marks (self_pairs margin s.entry.v.now s.entry.closed))))) }
    ensures marks_after { marks.new ≡ splice marks.old 0 (map mark_byte (kept_marks (self_pairs margin s.entry.v.now s.entry.closed))) }
{
    let legs = s.legs();
    let t = walk::list(legs, legs, true, margin, points, marks);
    arcstring_build::inner::normalize_points(points, t.kept);
    t
}

// What an accepted string's pairs with itself keep, written and normalised. Where they keep nothing there is no walk.
fn write_self(s: Accepted, margin: f64, kept: usize, points: &mut [f64], marks: &mut [u8])
    requires kept_value { kept ≡ length (kept_marks (self_pairs margin s.v.now s.closed)) }
    requires kept_in_bounds { (3 * kept ≤ length points.old) × (kept ≤ length marks.old) }
    ensures points_after { points.new ≡ splice points.old 0 (flat (normalized_all
        (map mark_point (kept_marks (self_pairs margin s.entry.v.now s.entry.closed))))) }
    ensures marks_after { marks.new ≡ splice marks.old 0 (map mark_byte (kept_marks (self_pairs margin s.entry.v.now s.entry.closed))) }
{
    if kept > 0 {
        visit_self(s, margin, points, marks);
    }
}

// Whether buffers of so many floats and so many bytes hold a point and a mark of every pair of an accepted string with
// itself, taken as open, whatever the margin.
fn holds_self(s: Accepted, points: usize, marks: usize) -> bool
    ensures { result ≡ true → (margin : Float) → (3 * length (kept_marks (self_pairs margin s.entry.v.now false)) ≤ points)
        × (length (kept_marks (self_pairs margin s.entry.v.now false)) ≤ marks) }
{
    let n = s.v.len() / 3;
    if n < 4 {
        return true;
    }
    let pairs = (n - 2) * (n - 3) / 2;
    3 * pairs <= points && pairs <= marks
}

// The kept points of a string with itself, normalised, their marks and the four counts: legs i and j with
// i + 2 <= j <= n - 2, so the closing leg of a closed string is not visited.
// Refuses by 1, 3 and 4 of the vertices, by 9 and by 7.
pub fn crossings_with_self(
    v: &[f64],
    margin: f64,
    points: &mut [f64],
    marks: &mut [u8],
) -> Result<(usize, Counts), Refusal>
    ensures result_value { answer_of result ≡ listed_result (self_crossings v.now margin (length points.old) (length marks.old)) }
    ensures points_after { points.new ≡ leaves (listed_floats
        (self_crossings v.now margin (length points.old) (length marks.old)))
        points.old }
    ensures marks_after { marks.new ≡ leaves (listed_bytes (self_crossings v.now margin (length points.old)
        (length marks.old)))
        marks.old }
{
    let string = Accepted::accept_last(v, false, margin)?;
    if holds_self(string, points.len(), marks.len()) {
        let t = visit_self(string, margin, points, marks);
        return Ok((t.kept, Counts::from(t)));
    }
    let t = tally_self(string, margin);
    inner::check_buffers(t.kept, points.len(), marks.len())?;
    write_self(string, margin, t.kept, points, marks);
    Ok((t.kept, Counts::from(t)))
}

// Whether a string crosses itself, with no margin: its closing leg visited too, also against leg 0; no below 4 vertices.
// Refuses by 1, 3 and 4 of the vertices.
pub fn crosses_self(v: &[f64], closed: bool) -> Result<bool, Refusal>
    ensures { answer_of result ≡ crosses_self v.now closed }
{
    let string = Accepted::accept(v, closed)?;
    let t = tally_self(string, 0.0);
    Ok((v.len() / 3 >= 4) & (t.kept > 0))
}
