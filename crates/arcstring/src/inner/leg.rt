// A leg, two points by value, and the legs of a string by position.
ghost use Rattle.std.specs.Prelude.{◌≡◌, ◌∷◌, [], ◌+◌, ◌*◌, ◌≤◌, ◌<◌, length, get_or};
ghost use Rattle.std.specs.Float.{nan};
ghost use Rattle.arcstring.specs.Points.{point, point_at};
ghost use Rattle.arcstring_check.specs.Check.{check_number};
ghost use Rattle.arcstring.specs.Leg.{leg, leg_of, leg_check, position_after, leg_at, leg_count, leg_floats};

use super::vertex::Vertices;
use arcstring_check::check::Refusal;
use arcstring_check::inner::checks;
use sphericalpoint::SphericalPoint;

// A point handed over as an array of three.
fn point_of(c: [f64; 3]) -> SphericalPoint
    ensures { result ≡ point (get_or c 0 nan) (get_or c 1 nan) (get_or c 2 nan) }
{
    SphericalPoint {
        x: c[0],
        y: c[1],
        z: c[2],
    }
}

pub fn start_of(arc: [[f64; 3]; 2]) -> SphericalPoint
    ensures { result ≡ (leg_of arc).from }
{
    point_of(arc[0])
}

pub fn end_of(arc: [[f64; 3]; 2]) -> SphericalPoint
    ensures { result ≡ (leg_of arc).to }
{
    point_of(arc[1])
}

// A leg by itself: 4 for its start or its end.
pub fn check_leg(arc: [[f64; 3]; 2]) -> Result<(), Refusal>
    ensures { check_number result ≡ leg_check (leg_of arc) }
{
    checks::check_point(start_of(arc))?;
    checks::check_point(end_of(arc))
}

// A leg as a string of two vertices.
pub fn leg_string(arc: [[f64; 3]; 2]) -> [f64; 6]
    ensures { result ≡ leg_floats (leg_of arc) }
{
    [
        arc[0][0], arc[0][1], arc[0][2], arc[1][0], arc[1][1], arc[1][2],
    ]
}

// How many legs a string of n vertices has.
pub fn leg_count(n: usize, closed: bool) -> usize
    requires { 1 ≤ n }
    ensures { (result ≡ leg_count n closed) × (result ≤ n) }
{
    if closed { n } else { n - 1 }
}

// The position after k around n vertices: where leg k goes to.
pub fn position_after(k: usize, n: usize) -> usize
    requires { k < n }
    ensures { (result ≡ position_after k n) × (result < n) }
{
    if k + 1 < n { k + 1 } else { 0 }
}

// The coordinates of vertex k.
fn coordinates_at(v: &[f64], k: usize) -> [f64; 3]
    requires { 3 * k + 3 ≤ length v.now }
    ensures { result ≡ get_or v.now (3 * k) nan ∷ get_or v.now (3 * k + 1) nan ∷ get_or v.now (3 * k + 2) nan ∷ [] }
{
    let at = 3 * k;
    [v[at], v[at + 1], v[at + 2]]
}

// The leg from vertex k to vertex j.
pub fn leg_between(v: &[f64], k: usize, j: usize) -> [[f64; 3]; 2]
    requires { (3 * k + 3 ≤ length v.now) × (3 * j + 3 ≤ length v.now) }
    ensures { leg_of result ≡ leg (point_at v.now k) (point_at v.now j) }
{
    [coordinates_at(v, k), coordinates_at(v, j)]
}

// Leg k of a string: the last one goes back to vertex 0.
pub fn leg_at(string: Vertices, k: usize) -> [[f64; 3]; 2]
    requires { k < string.n }
    ensures { leg_of result ≡ leg_at string.entry.v.now string.entry.n k }
{
    leg_between(string.v, k, position_after(k, string.n))
}
