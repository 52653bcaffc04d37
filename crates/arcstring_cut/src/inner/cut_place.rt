// The pieces of a split string, cut in place: one point at one piece, at every piece, and every point.
ghost use Rattle.std.specs.Prelude.{◌≡◌, ◌≤◌, ◌<◌, length, take};
ghost use Rattle.arcstring_check.specs.Check.{most_points};
ghost use Rattle.arcstring.specs.Points.{numbered, place_of, points};
ghost use Rattle.arcstring_build.specs.Build.{built_numbered};
ghost use Rattle.arcstring_insert.specs.Steps.{for_each, for_positions};
ghost use Rattle.arcstring_piece.specs.Pieces.{sum};
ghost use Rattle.arcstring_piece.specs.Standing.{standing, held_pieces};
ghost use Rattle.arcstring_piece.specs.Cut.{cut_at_leg, cut_string};
ghost use Rattle.arcstring_piece.specs.Cut as Cuts;

use arcstring::inner::vertex::{Numbered, Vertex};
use arcstring::inner::{leg, vertex};
use arcstring_along::inner::along;
use arcstring_check::check::{MOST_FLOATS, MOST_POINTS, Refusal};
use arcstring_piece::inner::pieces::Pieces;

// The walk over the legs of `copy`, the string that stood at place k: each leg that the point is along is a cut there.
fn cut_legs_of(
    pieces: &mut Pieces,
    copy: Numbered,
    legs: usize,
    x: Vertex,
    k: usize,
    at: usize,
) -> Result<(), Refusal>
    requires { (legs ≤ length copy.buoys.now) × (length copy.buoys.now ≤ most_points)
        × (k < pieces.old.count) × (at ≡ sum (take k pieces.old.counts)) }
    ensures cut { held_pieces result pieces.new
        ≡ for_positions (cut_at_leg place_of built_numbered x (numbered (points copy.entry.v.now) copy.entry.buoys.now) k) 0 legs
        (standing pieces.old) }
    ensures before { take k pieces.new.counts ≡ take k pieces.old.counts }
{
    for i in 0..legs {
        if along::along_leg_at(x.place, copy.vertices(), i) {
            pieces.cut_at(copy, i, x, k, at)?;
        }
    }
    Ok(())
}

// One point at place k, which starts at vertex `at`: the walk goes over a copy of the string that stands there.
// The copy's two lists stay two parameters: a struct of both would pass through this call and the next alone, and say no more.
fn cut_place(
    pieces: &mut Pieces,
    k: usize,
    at: usize,
    x: Vertex,
    copy: &mut [f64; MOST_FLOATS],
    copy_buoys: &mut [u32; MOST_POINTS],
) -> Result<(), Refusal>
    requires { (k < pieces.old.count) × (at ≡ sum (take k pieces.old.counts)) }
    ensures cut { held_pieces result pieces.new ≡ Cuts.cut_place place_of built_numbered x k (standing pieces.old) }
    ensures before { take k pieces.new.counts ≡ take k pieces.old.counts }
{
    let n = pieces.counts[k];
    vertex::copy_run(&pieces.v, at, n, copy, 0);
    vertex::copy_items(&pieces.buoys, at, n, copy_buoys, 0);
    let string = Numbered {
        v: &copy[..3 * n],
        buoys: &copy_buoys[..n],
    };
    let legs = leg::leg_count(n, pieces.closed[k]);
    cut_legs_of(pieces, string, legs, x, k, at)
}

// One point, at each of the places that there are before it.
fn cut_string(
    pieces: &mut Pieces,
    x: Vertex,
    copy: &mut [f64; MOST_FLOATS],
    copy_buoys: &mut [u32; MOST_POINTS],
) -> Result<(), Refusal>
    ensures { held_pieces result pieces.new ≡ cut_string place_of built_numbered x (standing pieces.old) }
{
    let mut at = 0;
    for k in 0..pieces.count {
        cut_place(pieces, k, at, x, copy, copy_buoys)?;
        at += pieces.counts[k];
    }
    Ok(())
}

// Each of the points in turn, from the pieces that stand there on.
pub fn cut_at_points(pieces: &mut Pieces, extra: Numbered) -> Result<(), Refusal>
    ensures { held_pieces result pieces.new
        ≡ for_each (cut_string place_of built_numbered) (numbered (points extra.entry.v.now) extra.entry.buoys.now)
        (standing pieces.old) }
{
    let mut copy = [0.0; MOST_FLOATS];
    let mut copy_buoys = [0; MOST_POINTS];
    for i in 0..extra.len() {
        cut_string(pieces, extra.at(i), &mut copy, &mut copy_buoys)?;
    }
    Ok(())
}
