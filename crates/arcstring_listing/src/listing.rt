// The crossings and the four counts of two strings, and of a leg and a string. The kept points are the source's, each with a
// mark byte: 1 clean, 0 grazing.
ghost use Rattle.std.specs.Prelude.{◌≡◌, true, map, ◌*◌, ◌≤◌, length, Float};
ghost use Rattle.arcstring_check.specs.Answer.{leaves, answer_of};
ghost use Rattle.arcstring.specs.Points.{flat};
ghost use Rattle.arcstring.specs.Splice.{splice};
ghost use Rattle.arcstring_check.specs.Check.{no_margin};
ghost use Rattle.arcstring.specs.Leg.{leg, leg_of, leg_check};
ghost use Rattle.arcstring_tally.specs.Pairs.{kept_marks, mark_point, mark_byte};
ghost use Rattle.arcstring_listing.specs.Listing.{listing_of, in_room, visited, leg_pairs, counted, leg_crossings, same_side};
ghost use Rattle.arcstring_listing.specs.Listing.{listed_result, listed_floats, listed_bytes};
ghost use Rattle.arcstring_listing.specs.Listing as Listing;
ghost use Rattle.arcstring_tally.specs.Tally.{no_tally, tally_on};

use crate::inner;
use crate::inner::Accepted;
use arcstring::inner::leg;
use arcstring_check::check::Refusal;
use arcstring_tally::counts::Counts;
use arcstring_tally::inner::tally::Tally;
use arcstring_visit::inner::walk;
use sphericalpoint::SphericalPoint;

// The pairs of two accepted strings, counted, and what they keep written.
fn visit_two(a: Accepted, b: Accepted, margin: f64, points: &mut [f64], marks: &mut [u8]) -> Tally
    requires points_in_bounds { 3 * length (kept_marks (visited margin a.v.now a.closed b.v.now b.closed)) ≤ length points.old }
    requires marks_in_bounds { length (kept_marks (visited margin a.v.now a.closed b.v.now b.closed)) ≤ length marks.old }
    ensures value { result ≡ tally_on no_tally (visited margin a.entry.v.now a.entry.closed b.entry.v.now b.entry.closed) }
    ensures points_after { points.new ≡ splice points.old 0 (flat (map mark_point
        (kept_marks (visited margin a.entry.v.now a.entry.closed b.entry.v.now b.entry.closed)))) }
    ensures marks_after { marks.new ≡ splice marks.old 0 (map mark_byte
        (kept_marks (visited margin a.entry.v.now a.entry.closed b.entry.v.now b.entry.closed))) }
{
    walk::list(a.legs(), b.legs(), false, margin, points, marks)
}

// What the pairs of two accepted strings keep, written. Where they keep nothing there is no walk.
fn write_two(
    a: Accepted,
    b: Accepted,
    margin: f64,
    kept: usize,
    points: &mut [f64],
    marks: &mut [u8],
)
    requires kept_value { kept ≡ length (kept_marks (visited margin a.v.now a.closed b.v.now b.closed)) }
    requires kept_in_bounds { (3 * kept ≤ length points.old) × (kept ≤ length marks.old) }
    ensures points_after { points.new ≡ splice points.old 0 (flat (map mark_point
        (kept_marks (visited margin a.entry.v.now a.entry.closed b.entry.v.now b.entry.closed)))) }
    ensures marks_after { marks.new ≡ splice marks.old 0 (map mark_byte
        (kept_marks (visited margin a.entry.v.now a.entry.closed b.entry.v.now b.entry.closed))) }
{
    if kept > 0 {
        visit_two(a, b, margin, points, marks);
    }
}

// Whether buffers of so many floats and so many bytes hold a point and a mark of every pair of two accepted strings,
// whatever the margin.
fn holds_all(a: Accepted, b: Accepted, points: usize, marks: usize) -> bool
    ensures { result ≡ true → (margin : Float) → (3 * length (kept_marks (visited margin a.entry.v.now a.entry.closed b.entry.v.now b.entry.closed)) ≤ points)
        × (length (kept_marks (visited margin a.entry.v.now a.entry.closed b.entry.v.now b.entry.closed)) ≤ marks) }
{
    let pairs = a.legs().count * b.legs().count;
    3 * pairs <= points && pairs <= marks
}

// The four counts of the pairs of every leg of the first string with every leg of the second.
// Refuses by 1, 3 and 4 of the first string's vertices, then of the second's, and by 9.
pub fn count(
    a: &[f64],
    a_closed: bool,
    b: &[f64],
    b_closed: bool,
    margin: f64,
) -> Result<Counts, Refusal>
    ensures { answer_of result ≡ counted a.now a_closed b.now b_closed margin }
{
    let left = Accepted::accept(a, a_closed)?;
    let right = Accepted::accept_last(b, b_closed, margin)?;
    Ok(Counts::from(inner::tally_two(left, right, margin)))
}

// The kept points of the pairs of two accepted strings, their marks and the four counts. Where the buffers hold a point of
// every pair one walk counts and writes; else the pairs are counted first, and what does not fit is refused by 7.
fn list_two(
    a: Accepted,
    b: Accepted,
    margin: f64,
    points: &mut [f64],
    marks: &mut [u8],
) -> Result<(usize, Counts), Refusal>
    ensures result_value { answer_of result ≡ listed_result (in_room (listing_of (visited margin a.entry.v.now a.entry.closed b.entry.v.now b.entry.closed))
        (length points.old) (length marks.old)) }
    ensures points_after { points.new ≡ leaves (listed_floats (in_room (listing_of (visited margin a.entry.v.now a.entry.closed b.entry.v.now b.entry.closed))
        (length points.old) (length marks.old))) points.old }
    ensures marks_after { marks.new ≡ leaves (listed_bytes (in_room (listing_of (visited margin a.entry.v.now a.entry.closed b.entry.v.now b.entry.closed))
        (length points.old) (length marks.old))) marks.old }
{
    if holds_all(a, b, points.len(), marks.len()) {
        let t = visit_two(a, b, margin, points, marks);
        return Ok((t.kept, Counts::from(t)));
    }
    let t = inner::tally_two(a, b, margin);
    inner::check_buffers(t.kept, points.len(), marks.len())?;
    write_two(a, b, margin, t.kept, points, marks);
    Ok((t.kept, Counts::from(t)))
}

// The kept points of the same pairs, leg by leg of the first string, with their marks and the four counts.
// Refuses by 1, 3 and 4 of the first string's vertices, then of the second's, by 9 and by 7.
pub fn crossings(
    a: &[f64],
    a_closed: bool,
    b: &[f64],
    b_closed: bool,
    margin: f64,
    points: &mut [f64],
    marks: &mut [u8],
) -> Result<(usize, Counts), Refusal>
    ensures result_value { answer_of result ≡ listed_result
        (Listing.crossings a.now a_closed b.now b_closed margin (length points.old) (length marks.old)) }
    ensures points_after { points.new ≡ leaves
        (listed_floats (Listing.crossings a.now a_closed b.now b_closed margin (length points.old)
        (length marks.old)))
        points.old }
    ensures marks_after { marks.new ≡ leaves
        (listed_bytes (Listing.crossings a.now a_closed b.now b_closed margin (length points.old)
        (length marks.old)))
        marks.old }
{
    let left = Accepted::accept(a, a_closed)?;
    let right = Accepted::accept_last(b, b_closed, margin)?;
    list_two(left, right, margin, points, marks)
}

// One leg against an accepted string, counted with no margin.
fn tally_leg(arc: [[f64; 3]; 2], b: Accepted) -> Tally
    requires { leg_check (leg_of arc) ≡ 0 }
    ensures { result ≡ tally_on no_tally (leg_pairs no_margin (leg_of arc) b.entry.v.now b.entry.closed) }
{
    let v = leg::leg_string(arc);
    let a = Accepted {
        v: &v,
        closed: false,
    };
    inner::tally_two(a, b, 0.0)
}

// The kept points of one leg with every leg of a string, their marks and the four counts.
// Refuses by 4 of the leg, by 1, 3 and 4 of the string's vertices, by 9 and by 7.
pub fn arc_crossings_with_arcstring(
    arc: [[f64; 3]; 2],
    v: &[f64],
    closed: bool,
    margin: f64,
    points: &mut [f64],
    marks: &mut [u8],
) -> Result<(usize, Counts), Refusal>
    ensures result_value { answer_of result ≡ listed_result
        (leg_crossings (leg_of arc) v.now closed margin (length points.old) (length marks.old)) }
    ensures points_after { points.new ≡ leaves
        (listed_floats (leg_crossings (leg_of arc) v.now closed margin (length points.old) (length marks.old)))
        points.old }
    ensures marks_after { marks.new ≡ leaves
        (listed_bytes (leg_crossings (leg_of arc) v.now closed margin (length points.old) (length marks.old)))
        marks.old }
{
    leg::check_leg(arc)?;
    let right = Accepted::accept_last(v, closed, margin)?;
    let leg = leg::leg_string(arc);
    let left = Accepted {
        v: &leg,
        closed: false,
    };
    list_two(left, right, margin, points, marks)
}

// Whether two points are on the same side of a string: the leg between them has an even number of kept points with
// it. Refuses by 4 of the points, then by 1, 3 and 4 of the string's vertices.
pub fn points_are_on_same_side(
    point_a: SphericalPoint,
    point_b: SphericalPoint,
    v: &[f64],
    closed: bool,
) -> Result<bool, Refusal>
    ensures { answer_of result ≡ same_side (leg point_a point_b) v.now closed }
{
    let arc = [
        [point_a.x, point_a.y, point_a.z],
        [point_b.x, point_b.y, point_b.z],
    ];
    leg::check_leg(arc)?;
    let string = Accepted::accept(v, closed)?;
    let t = tally_leg(arc, string);
    Ok(t.kept % 2 == 0)
}
