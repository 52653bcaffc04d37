// Turn orientations and midpoints of a string.
ghost use Rattle.std.specs.Prelude.{◌≡◌, map, ◌*◌, ◌≤◌, ◌<◌, length};
ghost use Rattle.sphericalpoint.specs.Vector.{xyz_div};
ghost use Rattle.arcstring_check.specs.Answer.{leaves, answer_of};
ghost use Rattle.arcstring.specs.Points.{points, flat};
ghost use Rattle.arcstring.specs.Splice.{splice};
ghost use Rattle.arcstring_check.specs.Check.{check_number};
ghost use Rattle.arcstring.specs.Written.{written_result, written_floats};
ghost use Rattle.arcstring.specs.Leg.{leg_of, legs_from};
ghost use Rattle.arcstring_measure.specs.Measure.{turn, position_before, turn_at, turns_to, turn_orientations, turns_result, two, midpoint, midpoints_check};
ghost use Rattle.arcstring_measure.specs.Measure as Measure;

use arcstring::inner::vertex::Vertices;
use arcstring::inner::{leg, vertex};
use arcstring_check::check::Refusal;
use arcstring_check::inner::checks;
use sphericalpoint::SphericalPoint;

// The source's sum at b, between a and c.
fn turn_between(a: SphericalPoint, b: SphericalPoint, c: SphericalPoint) -> f64
    ensures { result ≡ turn a b c }
{
    sphericalpoint::xyz_sum(sphericalpoint::xyz_mul_xyz(
        b,
        sphericalpoint::xyz_cross(
            sphericalpoint::xyz_sub_xyz(a, b),
            sphericalpoint::xyz_sub_xyz(c, b),
        ),
    ))
}

// The position before k, around n vertices.
fn position_before(k: usize, n: usize) -> usize
    requires { k < n }
    ensures { (result ≡ position_before k n) × (result < n) }
{
    if k == 0 { n - 1 } else { k - 1 }
}

// The turn orientation at vertex k: NaN at both ends of an open string.
fn turn_at(string: Vertices, closed: bool, k: usize) -> f64
    requires { k < string.n }
    ensures { result ≡ turn_at (points string.entry.v.now) closed k }
{
    if !closed & ((k == 0) | (k + 1 == string.n)) {
        return 0.0 / 0.0;
    }
    turn_between(
        string.at(position_before(k, string.n)),
        string.at(k),
        string.at(leg::position_after(k, string.n)),
    )
}

fn put_turns(string: Vertices, closed: bool, out: &mut [f64])
    requires { string.n ≤ length out.old }
    ensures { out.new ≡ splice out.old 0 (turns_to (points string.entry.v.now) closed string.entry.n) }
{
    for k in 0..string.n {
        out[k] = turn_at(string, closed, k);
    }
}

// A float for each vertex: NaN at both ends of an open string, otherwise the inner product that is negative at a left
// turn and positive at a right one, as seen from above the sphere. Refuses by 1, 3 and 4 of the vertices, and by 7.
pub fn xyzs_turn_orientations(v: &[f64], closed: bool, out: &mut [f64]) -> Result<usize, Refusal>
    ensures result_value { answer_of result ≡ turns_result (turn_orientations v.now closed (length out.old)) }
    ensures out_after { out.new ≡ leaves (turn_orientations v.now closed (length out.old)) out.old }
{
    let n = v.len() / 3;
    checks::check_stored(v)?;
    checks::check_room(n, out.len())?;
    put_turns(Vertices { v, n }, closed, out);
    Ok(n)
}

// A vector divided by 2. Times 0.5 is the same float, of a subnormal coordinate too, and asks no division of the processor.
fn halved(xyz: SphericalPoint) -> SphericalPoint
    ensures { result ≡ xyz_div xyz two }
{
    SphericalPoint {
        x: xyz.x * 0.5,
        y: xyz.y * 0.5,
        z: xyz.z * 0.5,
    }
}

// The sum of a leg's ends halved, and normalised.
fn midpoint_of(arc: [[f64; 3]; 2]) -> SphericalPoint
    ensures { result ≡ midpoint (leg_of arc) }
{
    sphericalpoint::normalize_unless_short(halved(sphericalpoint::xyz_add_xyz(
        leg::start_of(arc),
        leg::end_of(arc),
    )))
}

// The midpoints of the first `l` legs.
fn put_midpoints(string: Vertices, l: usize, out: &mut [f64])
    requires { (l ≤ string.n) × (3 * l ≤ length out.old) }
    ensures { out.new ≡ splice out.old 0 (flat (map midpoint (legs_from string.entry.v.now 0 l))) }
{
    for k in 0..l {
        vertex::put_vertex(out, k, midpoint_of(leg::leg_at(string, k)));
    }
}

// The checks of a stored list, with 2 for an open string of one vertex, which has no midpoint.
fn check_midpoints(v: &[f64], closed: bool) -> Result<(), Refusal>
    ensures { check_number result ≡ midpoints_check v.now closed }
{
    if v.is_empty() {
        return checks::check_list(v, Err(Refusal::NotTriples));
    }
    if !closed & (v.len() / 3 == 1) {
        return checks::check_list(v, Err(Refusal::TooFewPoints));
    }
    checks::check_list(v, Ok(()))
}

// The midpoint of each leg. Refuses by 1, 2 (an open string of one vertex), 3 and 4 of the vertices, and by 7.
pub fn midpoints(v: &[f64], closed: bool, out: &mut [f64]) -> Result<usize, Refusal>
    ensures result_value { answer_of result ≡ written_result (Measure.midpoints v.now closed (length out.old)) }
    ensures out_after { out.new ≡ leaves (written_floats (Measure.midpoints v.now closed (length out.old))) out.old }
{
    check_midpoints(v, closed)?;
    let n = v.len() / 3;
    let l = leg::leg_count(n, closed);
    checks::check_room(3 * l, out.len())?;
    put_midpoints(Vertices { v, n }, l, out);
    Ok(l)
}
