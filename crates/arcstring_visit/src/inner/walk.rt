// The one walk over pairs of legs: it counts them, and does with what they keep what its `Keep` says. Two strings, a leg and
// a string and a string with itself are all visited by it.
ghost use Rattle.std.specs.Prelude.{◌≡◌, true, false, ℕ, ◌+◌, ◌-◌, ◌*◌, ◌≤◌, ◌<◌, length, get_or};
ghost use Rattle.arcstring_check.specs.Check.{most_points};
ghost use Rattle.arcstring.specs.Leg.{leg_of, legs_from};
ghost use Rattle.arcstring_tally.specs.Keep.{Room, Stored};
ghost use Rattle.arcstring_tally.specs.Pairs.{kept_marks, pairs_between, pairs_within};
ghost use Rattle.arcstring_tally.specs.Tally.{no_tally, tally_on, tally_sum};
ghost use Rattle.arcstring_visit.specs.Visit.{row_pairs, found_pairs, row_start, visits_from};

use arcstring::inner::SHORT_POINTS;
use arcstring_check::check::MOST_POINTS;
use arcstring_crossing::inner::planes;
use arcstring_crossing::inner::planes::{Kept, Legs, Planes, Tested};
use arcstring_tally::inner::tally::{Keep, Lists, Nothing, Tally};

// A leg's pairs with the legs at some positions, counted on from a start; what they keep goes on from the place that
// the start has reached.
fn walk_found<const N: usize, K: Keep>(
    a: Tested,
    b: Kept<'_, N>,
    found: &[usize],
    margin: f64,
    keep: &mut K,
    start: Tally,
) -> Tally
    requires start_in_bounds { tally_sum start + 2 * length found.now < 4294967296 }
    requires found_in_bounds { (j : ℕ) → j < length found.now → get_or found.now j 0 < b.legs.count }
    requires room { K.room keep.old (kept_marks
        (found_pairs margin (leg_of a.arc) b.legs.string.v.now b.legs.string.n found.now 0 (length found.now))) start.kept }
    ensures value { result ≡ tally_on start
        (found_pairs margin (leg_of a.arc) b.entry.legs.string.v.now b.entry.legs.string.n found.now 0 (length found.now)) }
    ensures written { K.written (kept_marks
        (found_pairs margin (leg_of a.arc) b.entry.legs.string.v.now b.entry.legs.string.n found.now 0 (length found.now))) start.kept keep.old keep.new }
{
    let mut t = start;
    for k in found {
        let p = b.pair(a, *k, margin);
        keep.keep(t.kept, p);
        t = t.add(p);
    }
    t
}

// What a pass over a leg's pairs with N legs tells: a flag for each, and the positions of those that are set.
#[derive(Drop)]
struct Row<const N: usize> {
    flags: [usize; N],
    found: [usize; N],
}

// A leg's pairs with the legs of a string from position `from` on. Only those that are flagged are tested: the others are
// apart.
fn walk_row<const N: usize, K: Keep>(
    a: Tested,
    b: Kept<'_, N>,
    row: &mut Row<N>,
    from: usize,
    margin: f64,
    keep: &mut K,
    start: Tally,
) -> Tally
    requires start_in_bounds { tally_sum start + 2 * b.legs.string.n < 4294967296 }
    requires room { K.room keep.old (kept_marks (row_pairs margin (leg_of a.arc) b.legs.string.v.now from b.legs.count)) start.kept }
    ensures value { result ≡ tally_on start (row_pairs margin (leg_of a.arc) b.entry.legs.string.v.now from b.entry.legs.count) }
    ensures written { K.written (kept_marks
        (row_pairs margin (leg_of a.arc) b.entry.legs.string.v.now from b.entry.legs.count)) start.kept keep.old keep.new }
{
    let to = b.legs.count;
    if planes::flag_row(a, b, from, margin, &mut row.flags) == 0 {
        return start.add_apart(from, to, 0);
    }
    let m = planes::gather(&row.flags, from, to, &mut row.found);
    let t = start.add_apart(from, to, m);
    walk_found(a, b, &row.found[..m], margin, keep, t)
}

// Where the row of leg i begins: within one string after the next leg.
fn row_start(within: bool, i: usize) -> usize
    requires { i < 4294967296 }
    ensures { result ≡ row_start within i }
{
    if within { i + 2 } else { 0 }
}

// The legs of a string against those of another, whose planes are kept, or of the same string, each against those after
// the next one.
fn walk<const N: usize, K: Keep>(
    a: Legs,
    b: Kept<'_, N>,
    within: bool,
    margin: f64,
    keep: &mut K,
) -> Tally
    requires same { within ≡ true → (a.string.v.now ≡ b.legs.string.v.now) × (a.count ≡ b.legs.count) }
    requires room { K.room keep.old (kept_marks (visits_from margin within a.string.v.now 0 a.count b.legs.string.v.now b.legs.count)) 0 }
    ensures value { result ≡ tally_on no_tally (visits_from margin within a.entry.string.v.now 0 a.entry.count b.entry.legs.string.v.now b.entry.legs.count) }
    ensures written { K.written (kept_marks
        (visits_from margin within a.entry.string.v.now 0 a.entry.count b.entry.legs.string.v.now b.entry.legs.count)) 0 keep.old keep.new }
{
    let mut row = Row {
        flags: [0; N],
        found: [0; N],
    };
    let mut t = Tally::default();
    for i in 0..a.count {
        let leg = Tested::of(a.at(i));
        let from = row_start(within, i);
        t = walk_row(leg, b, &mut row, from, margin, keep, t);
    }
    t
}

// The same with lists of N for the second string.
fn visit_in<const N: usize, K: Keep>(
    a: Legs,
    b: Legs,
    within: bool,
    margin: f64,
    keep: &mut K,
) -> Tally
    requires fits { (b.count ≤ N) × (N ≤ most_points) }
    requires same { within ≡ true → (a.string.v.now ≡ b.string.v.now) × (a.count ≡ b.count) }
    requires room { K.room keep.old (kept_marks (visits_from margin within a.string.v.now 0 a.count b.string.v.now b.count)) 0 }
    ensures value { result ≡ tally_on no_tally (visits_from margin within a.entry.string.v.now 0 a.entry.count b.entry.string.v.now b.entry.count) }
    ensures written { K.written (kept_marks
        (visits_from margin within a.entry.string.v.now 0 a.entry.count b.entry.string.v.now b.entry.count)) 0 keep.old keep.new }
{
    let mut planes = Planes::<N>::zero();
    planes.keep(b);
    let kept = Kept {
        legs: b,
        planes: &planes,
    };
    walk(a, kept, within, margin, keep)
}

// The legs of a string against those of another or, within one string, each against those after the next one: counted,
// and what they keep handed on from place 0 on. The lists that this takes are set to zero first, which for a short string
// would cost more than its pairs: so there are two sizes.
fn visit<K: Keep>(a: Legs, b: Legs, within: bool, margin: f64, keep: &mut K) -> Tally
    requires same { within ≡ true → (a.string.v.now ≡ b.string.v.now) × (a.count ≡ b.count) }
    requires room { K.room keep.old (kept_marks (visits_from margin within a.string.v.now 0 a.count b.string.v.now b.count)) 0 }
    ensures value { result ≡ tally_on no_tally (visits_from margin within a.entry.string.v.now 0 a.entry.count b.entry.string.v.now b.entry.count) }
    ensures written { K.written (kept_marks
        (visits_from margin within a.entry.string.v.now 0 a.entry.count b.entry.string.v.now b.entry.count)) 0 keep.old keep.new }
{
    if b.count <= SHORT_POINTS {
        return visit_in::<SHORT_POINTS, K>(a, b, within, margin, keep);
    }
    visit_in::<MOST_POINTS, K>(a, b, within, margin, keep)
}

// The same, counted, and what the pairs keep written from the start of the buffers.
pub fn list(
    a: Legs,
    b: Legs,
    within: bool,
    margin: f64,
    points: &mut [f64],
    marks: &mut [u8],
) -> Tally
    requires same { within ≡ true → (a.string.v.now ≡ b.string.v.now) × (a.count ≡ b.count) }
    requires room { Room (kept_marks (visits_from margin within a.string.v.now 0 a.count b.string.v.now b.count)) 0 points.old marks.old }
    ensures value { result ≡ tally_on no_tally (visits_from margin within a.entry.string.v.now 0 a.entry.count b.entry.string.v.now b.entry.count) }
    ensures stored { Stored (kept_marks
        (visits_from margin within a.entry.string.v.now 0 a.entry.count b.entry.string.v.now b.entry.count)) 0 points.old marks.old points.new marks.new }
{
    let mut lists = Lists { points, marks };
    visit(a, b, within, margin, &mut lists)
}

// The legs of a string against those of another.
pub fn count_between(a: Legs, b: Legs, margin: f64) -> Tally
    ensures { result ≡ tally_on no_tally
        (pairs_between margin (legs_from a.entry.string.v.now 0 a.entry.count) (legs_from b.entry.string.v.now 0 b.entry.count)) }
{
    visit(a, b, false, margin, &mut Nothing)
}

// The legs of a string, each against those after the next one.
pub fn count_within(a: Legs, margin: f64) -> Tally
    ensures { result ≡ tally_on no_tally (pairs_within margin (legs_from a.entry.string.v.now 0 a.entry.count)) }
{
    visit(a, a, true, margin, &mut Nothing)
}
