// The test of three points in parts, and by coordinates, for the crates of this repository that test many points.
ghost use Rattle.std.specs.Prelude.{◌≡◌, true, false, cond};
ghost use Rattle.std.specs.Float.{binary64};
ghost use Rattle.std.specs.Float.Ieee.{div, lt};
ghost use Rattle.ieee754.specs.Size.{abs};
ghost use Rattle.sphericalpoint.specs.Vector.{coplanar_tolerance, xyz_cross, xyz_dot, xyz_length};
ghost use Rattle.sphericalpoint_coplanar.specs.Coplanar.{between_in_plane, between_ends, xyzs_coplanar};

use float_sizes::inner::{magnitude, size};
use sphericalpoint::{SphericalPoint, inner, xyz_cross, xyz_dot, xyz_eq};

// Whether c is near the plane of a and b and between them, given the cross product of a and b and its length.
fn between_in_plane(
    a: SphericalPoint,
    b: SphericalPoint,
    c: SphericalPoint,
    normal: SphericalPoint,
    normal_length: f64,
) -> bool
    ensures { result ≡ between_in_plane a b c normal normal_length }
{
    let ab = xyz_dot(a, b);
    let coplanar = size(xyz_dot(c, normal)) / normal_length < SphericalPoint::COPLANAR_TOLERANCE;
    let interior_of_minor_arc = (xyz_dot(a, c) >= ab) & (xyz_dot(b, c) >= ab);
    let not_antipodal = ab > -1.0 + SphericalPoint::COPLANAR_TOLERANCE;
    coplanar & interior_of_minor_arc & not_antipodal
}

// The part of that which needs no normal: a point that fails here is not between them, whatever the length of the normal.
fn between_ends(a: SphericalPoint, b: SphericalPoint, c: SphericalPoint) -> bool
    ensures { result ≡ between_ends a b c }
{
    let ab = xyz_dot(a, b);
    (xyz_dot(a, c) >= ab) & (xyz_dot(b, c) >= ab) & (ab > -1.0 + SphericalPoint::COPLANAR_TOLERANCE)
}

// Whether c is so far off the plane with this normal that no root is needed to tell. Where the square of the normal's length is at most 16, the
// length is at most 4, and a fourth of 1e-7 is above the tolerance. In range the square is always that small: coordinates are from -1 to 1.
pub fn far_off_plane(c: SphericalPoint, normal: SphericalPoint) -> bool
    ensures { result ≡ true → lt (xyz_length normal) coplanar_tolerance ≡ false
        → lt (div binary64 (abs (xyz_dot c normal)) (xyz_length normal)) coplanar_tolerance ≡ false }
{
    (magnitude(xyz_dot(c, normal)) >= 1e-7) & (xyz_dot(normal, normal) <= 16.0)
}

// Whether c lies on the leg from a to b, for ends that have a plane. What is cheap and says no to most points comes first.
fn on_leg(a: SphericalPoint, b: SphericalPoint, c: SphericalPoint) -> bool
    ensures { result ≡ cond (lt (xyz_length (xyz_cross a b)) coplanar_tolerance) false (between_in_plane a b c (xyz_cross a b) (xyz_length (xyz_cross a b))) }
{
    let normal = xyz_cross(a, b);
    if far_off_plane(c, normal) {
        return false;
    }
    if !between_ends(a, b, c) {
        return false;
    }
    let normal_length = inner::root_of_squares(normal.x, normal.y, normal.z);
    if normal_length < SphericalPoint::COPLANAR_TOLERANCE {
        return false;
    }
    between_in_plane(a, b, c, normal, normal_length)
}

// The test below by coordinates, which go to it in registers: it is too long to become part of its callers, and with points, which go through
// memory, on-string tests took more than twice the time (docs/DECISIONS.md).
pub fn coplanar_of(
    ax: f64,
    ay: f64,
    az: f64,
    bx: f64,
    by: f64,
    bz: f64,
    cx: f64,
    cy: f64,
    cz: f64,
) -> bool
    ensures { result ≡ xyzs_coplanar (record { x = ax; y = ay; z = az }) (record { x = bx; y = by; z = bz }) (record { x = cx; y = cy; z = cz }) }
{
    let a = SphericalPoint {
        x: ax,
        y: ay,
        z: az,
    };
    let b = SphericalPoint {
        x: bx,
        y: by,
        z: bz,
    };
    let c = SphericalPoint {
        x: cx,
        y: cy,
        z: cz,
    };
    if xyz_eq(a, b) | xyz_eq(b, c) {
        return true;
    }
    on_leg(a, b, c)
}
