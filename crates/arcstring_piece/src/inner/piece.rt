// The two pieces that a cut of a string makes: what each is built from, and how it is built where it is to stand. Vertices and
// their numbers stand in two lists.
ghost use Rattle.std.specs.Prelude.{◌≡◌, ◌++◌, ◌+◌, ◌*◌, ◌≤◌, ◌<◌, length, take, drop};
ghost use Rattle.arcstring.specs.Points.{numbered, places_of, buoys_of, points, flat};
ghost use Rattle.arcstring_build.specs.Build.{built_numbered};
ghost use Rattle.arcstring_piece.specs.Cut.{first_points, second_points};

use arcstring::inner::vertex;
use arcstring::inner::vertex::{Numbered, Vertex};

// How many vertices a piece has, and whether it is closed.
#[derive(Clone, Copy)]
pub(crate) struct Piece {
    pub(crate) count: usize,
    pub(crate) closed: bool,
}

// The vertices up to the start of leg i, and the point.
pub(crate) fn first_points(
    string: Numbered,
    i: usize,
    x: Vertex,
    out: &mut [f64],
    out_buoys: &mut [u32],
)
    requires { (i < length string.buoys.now) × (3 * i + 6 ≤ length out.old) × (i + 2 ≤ length out_buoys.old) }
    ensures { take (i + 2) (numbered (points out.new) out_buoys.new)
        ≡ first_points x (numbered (points string.entry.v.now) string.entry.buoys.now) i }
{
    vertex::copy_run(string.v, 0, i + 1, out, 0);
    vertex::copy_items(string.buoys, 0, i + 1, out_buoys, 0);
    vertex::put_vertex(out, i + 1, x.place);
    out_buoys[i + 1] = x.buoy;
}

// The point, and the vertices from the end of leg i on; the closing leg's end is vertex 0 alone. How many they are.
pub(crate) fn second_points(
    string: Numbered,
    i: usize,
    x: Vertex,
    out: &mut [f64],
    out_buoys: &mut [u32],
) -> usize
    requires { (i < length string.buoys.now) × (3 * length string.buoys.now + 6 ≤ length out.old)
        × (length string.buoys.now + 2 ≤ length out_buoys.old) }
    ensures { (take result (numbered (points out.new) out_buoys.new)
        ≡ second_points x (numbered (points string.entry.v.now) string.entry.buoys.now) i)
        × (2 ≤ result) × (result ≤ length string.entry.buoys.now + 1) }
{
    let n = string.len();
    vertex::put_vertex(out, 0, x.place);
    out_buoys[0] = x.buoy;
    if i + 1 < n {
        vertex::copy_run(string.v, i + 1, n - 1 - i, out, 1);
        vertex::copy_items(string.buoys, i + 1, n - 1 - i, out_buoys, 1);
        return n - i;
    }
    vertex::copy_run(string.v, 0, 1, out, 1);
    vertex::copy_items(string.buoys, 0, 1, out_buoys, 1);
    2
}

// The piece that the points of `string` make, written and normalised at the start of `out`, with the numbers of the vertices that
// it keeps at the start of `out_buoys`.
pub(crate) fn build_piece(string: Numbered, out: &mut [f64], out_buoys: &mut [u32]) -> Piece
    requires { (2 ≤ length string.buoys.now) × (3 * length string.buoys.now ≤ length out.old)
        × (length string.buoys.now ≤ length out_buoys.old) }
    ensures piece { (result.count ≡ length (built_numbered (numbered (points string.entry.v.now) string.entry.buoys.now)).vertices)
        × (result.closed ≡ (built_numbered (numbered (points string.entry.v.now) string.entry.buoys.now)).closed)
        × (1 ≤ result.count) × (result.count ≤ length string.entry.buoys.now) }
    ensures out_after { out.new
        ≡ flat (places_of (built_numbered (numbered (points string.entry.v.now) string.entry.buoys.now)).vertices)
        ++ drop (3 * result.count) out.old }
    ensures out_buoys_after { out_buoys.new
        ≡ buoys_of (built_numbered (numbered (points string.entry.v.now) string.entry.buoys.now)).vertices
        ++ drop result.count out_buoys.old }
{
    let n = string.len();
    if arcstring_build::inner::ends_meet(string.vertices()) {
        arcstring_build::inner::build_closed(string.v, n - 1, out);
        vertex::copy_items(string.buoys, 0, n - 1, out_buoys, 0);
        return Piece {
            count: n - 1,
            closed: true,
        };
    }
    arcstring_build::inner::build_open(string.v, n, out);
    vertex::copy_items(string.buoys, 0, n, out_buoys, 0);
    Piece {
        count: n,
        closed: false,
    }
}
