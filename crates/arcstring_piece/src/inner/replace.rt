// A piece replaced by the two that a cut makes of it, list by list: the two built, a run of items replaced by another, and one
// item by two.
ghost use Rattle.std.specs.Prelude.{◌≡◌, ◌++◌, ◌∷◌, ◌+◌, ◌-◌, ◌*◌, ◌≤◌, ◌<◌, length, take, drop};
ghost use Rattle.arcstring_check.specs.Check.{most_points};
ghost use Rattle.arcstring.specs.Points.{numbered, points};
ghost use Rattle.arcstring.specs.Splice.{splice};
ghost use Rattle.arcstring_build.specs.Build.{built_numbered};
ghost use Rattle.arcstring_piece.specs.Pieces.{built_room};
ghost use Rattle.arcstring_piece.specs.Cut.{first_points, second_points};

use super::piece;
use super::piece::Piece;
use arcstring::inner::vertex;
use arcstring::inner::vertex::{Numbered, Vertex};
use arcstring_check::check::MOST_POINTS;
use arcstring_insert::inner::move_on;

// Room for the points that one piece of a cut is built from.
const READ_POINTS: usize = MOST_POINTS + 2;

// Room for the vertices of both pieces of a cut.
pub(crate) const BUILT_POINTS: usize = 2 * (MOST_POINTS + 1);

// The item at place k of m made `first`, and `second` put in after it; those after stand one place further.
pub fn replace_item<T: Copy>(list: &mut [T], m: usize, k: usize, first: T, second: T)
    requires { (k < m) × (m < length list.old) }
    ensures { list.new ≡ splice list.old k
        (first ∷ second ∷ take (m - (k + 1)) (drop (k + 1) list.old)) }
{
    move_on(list, k + 1, m, 1);
    list[k] = first;
    list[k + 1] = second;
}

// The two pieces of a cut.
#[derive(Clone, Copy)]
pub(crate) struct Halves {
    pub(crate) first: Piece,
    pub(crate) second: Piece,
}

// The pieces of a cut at leg i of `string`, each built from the place in `out` where the one before it ends.
pub(crate) fn build_halves(
    string: Numbered,
    i: usize,
    x: Vertex,
    out: &mut [f64],
    out_buoys: &mut [u32],
) -> Halves
    requires { (i < length string.buoys.now) × (length string.buoys.now ≤ most_points)
        × (length out.old ≡ 3 * built_room) × (length out_buoys.old ≡ built_room) }
    ensures first { (result.first.count
        ≡ length (built_numbered (first_points x (numbered (points string.entry.v.now) string.entry.buoys.now) i)).vertices)
        × (result.first.closed
        ≡ (built_numbered (first_points x (numbered (points string.entry.v.now) string.entry.buoys.now) i)).closed)
        × (1 ≤ result.first.count) }
    ensures second { (result.second.count
        ≡ length (built_numbered (second_points x (numbered (points string.entry.v.now) string.entry.buoys.now) i)).vertices)
        × (result.second.closed
        ≡ (built_numbered (second_points x (numbered (points string.entry.v.now) string.entry.buoys.now) i)).closed)
        × (1 ≤ result.second.count) }
    ensures written { (take (result.first.count + result.second.count) (numbered (points out.new) out_buoys.new)
        ≡ (built_numbered (first_points x (numbered (points string.entry.v.now) string.entry.buoys.now) i)).vertices
        ++ (built_numbered (second_points x (numbered (points string.entry.v.now) string.entry.buoys.now) i)).vertices)
        × (result.first.count + result.second.count ≤ built_room) }
{
    let mut from = [0.0; 3 * READ_POINTS];
    let mut numbers = [0; READ_POINTS];
    piece::first_points(string, i, x, &mut from, &mut numbers);
    let count = i + 2;
    let first_string = Numbered {
        v: &from[..3 * count],
        buoys: &numbers[..count],
    };
    let first = piece::build_piece(first_string, out, out_buoys);
    let count = piece::second_points(string, i, x, &mut from, &mut numbers);
    let second_string = Numbered {
        v: &from[..3 * count],
        buoys: &numbers[..count],
    };
    let at = first.count;
    let second = piece::build_piece(second_string, &mut out[3 * at..], &mut out_buoys[at..]);
    Halves { first, second }
}

// `old` items from position `at` on made the first `size` of `fresh`; those after them, up to `total`, follow.
pub(crate) fn replace_items<T: Copy>(
    list: &mut [T],
    at: usize,
    old: usize,
    total: usize,
    fresh: &mut [T],
    size: usize,
)
    requires { (at + old ≤ total) × (total ≤ length list.old)
        × (at + size + (total - (at + old)) ≤ length list.old) × (size + (total - (at + old)) ≤ length fresh.old) }
    ensures { list.new ≡ splice list.old at
        (take size fresh.old ++ take (total - (at + old)) (drop (at + old) list.old)) }
{
    let rest = total - (at + old);
    vertex::copy_items(list, at + old, rest, fresh, size);
    vertex::copy_items(fresh, 0, size + rest, list, at);
}

// The same of vertices, three floats to each.
pub(crate) fn replace_run(
    v: &mut [f64],
    at: usize,
    old: usize,
    total: usize,
    fresh: &mut [f64],
    size: usize,
)
    requires { (at + old ≤ total) × (3 * total ≤ length v.old)
        × (3 * (at + size + (total - (at + old))) ≤ length v.old) × (3 * (size + (total - (at + old))) ≤ length fresh.old) }
    ensures { v.new ≡ splice v.old (3 * at)
        (take (3 * size) fresh.old ++ take (3 * (total - (at + old))) (drop (3 * (at + old)) v.old)) }
{
    replace_items(v, 3 * at, 3 * old, 3 * total, fresh, 3 * size);
}
