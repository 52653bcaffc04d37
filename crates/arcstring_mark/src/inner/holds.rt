// Whether a leg holds a mark, and which leg of a string is the first that does.
ghost use Rattle.std.specs.Prelude.{◌≡◌, ◌≤◌, ◌<◌};
ghost use Rattle.arcstring.specs.Points.{point};
ghost use Rattle.arcstring.specs.Leg.{leg, leg_at, legs_from};
ghost use Rattle.arcstring_mark.specs.Mark.{inside_leg, mark_on_leg, first_holding};
ghost use Rattle.arcstring_mark.specs.MarkParts.{between_ends};
ghost use Rattle.arcstring_check.specs.Answer.{option_of};

use arcstring::inner::leg;
use arcstring::inner::vertex::Vertices;
use float_sizes::inner::size;
use sphericalpoint::inner::root_of_squares;
use sphericalpoint::{SphericalPoint, xyz_add_xyz, xyz_cross, xyz_dot, xyz_eq};
use sphericalpoint_coplanar::inner::far_off_plane;

// The tests of a mark inside the leg from a to b that need no normal.
fn between_ends(a: SphericalPoint, b: SphericalPoint, p: SphericalPoint) -> bool
    ensures { result ≡ between_ends p (leg a b) }
{
    let ends = xyz_dot(a, b);
    let not_antipodal = ends > -1.0 + SphericalPoint::COPLANAR_TOLERANCE;
    let inside = (xyz_dot(p, a) >= ends) & (xyz_dot(p, b) >= ends);
    let near_side = xyz_dot(p, xyz_add_xyz(a, b)) >= 0.0;
    not_antipodal & inside & near_side
}

// Whether a mark lies inside the leg from a to b. What is cheap and says no to most marks comes first.
fn inside_leg(a: SphericalPoint, b: SphericalPoint, p: SphericalPoint) -> bool
    ensures { result ≡ inside_leg p (leg a b) }
{
    let normal = xyz_cross(a, b);
    if far_off_plane(p, normal) {
        return false;
    }
    if !between_ends(a, b, p) {
        return false;
    }
    let length = root_of_squares(normal.x, normal.y, normal.z);
    if length < SphericalPoint::COPLANAR_TOLERANCE {
        return false;
    }
    size(xyz_dot(p, normal)) / length < SphericalPoint::COPLANAR_TOLERANCE
}

// Whether the leg from a to b holds a mark, by coordinates, which go to the test in registers: as of `coplanar_of`, of sphericalpoint_coplanar.
pub fn leg_holds(
    ax: f64,
    ay: f64,
    az: f64,
    bx: f64,
    by: f64,
    bz: f64,
    x: f64,
    y: f64,
    z: f64,
) -> bool
    ensures { result ≡ mark_on_leg (point x y z) (leg (point ax ay az) (point bx «by» bz)) }
{
    let a = SphericalPoint::new(ax, ay, az);
    let b = SphericalPoint::new(bx, by, bz);
    let p = SphericalPoint::new(x, y, z);
    if xyz_eq(p, a) | xyz_eq(p, b) {
        return true;
    }
    inside_leg(a, b, p)
}

// Whether leg k of a string holds a mark; the vertices are read where they stand.
fn leg_at_holds(p: SphericalPoint, string: Vertices, k: usize) -> bool
    requires { k < string.n }
    ensures { result ≡ mark_on_leg p (leg_at string.entry.v.now string.entry.n k) }
{
    let next = leg::position_after(k, string.n);
    let a = string.at(k);
    let b = string.at(next);
    leg_holds(a.x, a.y, a.z, b.x, b.y, b.z, p.x, p.y, p.z)
}

// The first of the first `l` legs of a string that holds a mark.
pub fn first_leg(p: SphericalPoint, string: Vertices, l: usize) -> Option<usize>
    requires { l ≤ string.n }
    ensures { option_of result ≡ first_holding p (legs_from string.entry.v.now 0 l) }
{
    (0..l).find(|k| leg_at_holds(p, string, *k))
}
