// The vector layer: a point of three floats, its tolerances, and the functions of sphericalpoint.rs on it,
// with the source's names. A point goes by value; each float operation is rounded once, in the source's order.
// Every function takes any floats, infinities and NaN among them. The test of three points is in sphericalpoint_coplanar.
//
//     inner    a length by its coordinates: for the crates of this repository
#![tactic(auto)]

ghost use Rattle.std.specs.Prelude.{◌≡◌, [], ◌∷◌};
ghost use Rattle.sphericalpoint.specs.Vector.{xyz_add, xyz_sub, xyz_mul, xyz_div, xyz_neg, xyz_abs, xyz_sum, xyz_dot, xyz_cross, xyz_length, xyz_eq, normalized};
ghost use Rattle.sphericalpoint.specs.Point.{normalized_unless_short, point_from};

use float_sizes::inner::{magnitude, size};

pub mod inner;

#[repr(C)]
#[derive(Clone, Copy)]
pub struct SphericalPoint {
    pub x: f64,
    pub y: f64,
    pub z: f64,
}

impl SphericalPoint {
    // Two points closer than this are equal, and a vector shorter than this is not divided by its length.
    pub const EQUALITY_TOLERANCE: f64 = 3e-11;

    // How far from a leg's plane, and from antipodal, `xyzs_coplanar` looks.
    pub const COPLANAR_TOLERANCE: f64 = 2e-8;

    // A length less than this above 1 counts as 1 in `from`.
    pub const UNIT_TOLERANCE: f64 = 2e-11;

    // The point with these coordinates, as they are.
    pub fn new(x: f64, y: f64, z: f64) -> Self
        ensures { result ≡ record { x = x; y = y; z = z } }
    {
        Self { x, y, z }
    }

    // A point by itself: kept if its length minus 1 is below the unit tolerance, else normalised.
    pub fn from(x: f64, y: f64, z: f64) -> Self
        ensures { result ≡ point_from (record { x = x; y = y; z = z }) }
    {
        let xyz = SphericalPoint { x, y, z };
        if xyz_length(xyz) - 1.0 < Self::UNIT_TOLERANCE {
            xyz
        } else {
            normalize(xyz)
        }
    }
}

// The three coordinates in sequence.
impl From<SphericalPoint> for [f64; 3] {
    ghost from_gives = { λ p out. out ≡ p.x ∷ p.y ∷ p.z ∷ [] };

    fn from(p: SphericalPoint) -> [f64; 3] {
        [p.x, p.y, p.z]
    }
}

pub fn xyz_add_xyz(a: SphericalPoint, b: SphericalPoint) -> SphericalPoint
    ensures { result ≡ xyz_add a b }
{
    SphericalPoint {
        x: a.x + b.x,
        y: a.y + b.y,
        z: a.z + b.z,
    }
}

pub fn xyz_sub_xyz(a: SphericalPoint, b: SphericalPoint) -> SphericalPoint
    ensures { result ≡ xyz_sub a b }
{
    SphericalPoint {
        x: a.x - b.x,
        y: a.y - b.y,
        z: a.z - b.z,
    }
}

pub fn xyz_mul_xyz(a: SphericalPoint, b: SphericalPoint) -> SphericalPoint
    ensures { result ≡ xyz_mul a b }
{
    SphericalPoint {
        x: a.x * b.x,
        y: a.y * b.y,
        z: a.z * b.z,
    }
}

pub fn xyz_div_f64(a: SphericalPoint, b: f64) -> SphericalPoint
    ensures { result ≡ xyz_div a b }
{
    SphericalPoint {
        x: a.x / b,
        y: a.y / b,
        z: a.z / b,
    }
}

pub fn xyz_neg(xyz: SphericalPoint) -> SphericalPoint
    ensures { result ≡ xyz_neg xyz }
{
    SphericalPoint {
        x: -xyz.x,
        y: -xyz.y,
        z: -xyz.z,
    }
}

pub fn xyz_abs(xyz: SphericalPoint) -> SphericalPoint
    ensures { result ≡ xyz_abs xyz }
{
    SphericalPoint {
        x: size(xyz.x),
        y: size(xyz.y),
        z: size(xyz.z),
    }
}

pub fn xyz_sum(xyz: SphericalPoint) -> f64
    ensures { result ≡ xyz_sum xyz }
{
    xyz.x + xyz.y + xyz.z
}

pub fn xyz_dot(a: SphericalPoint, b: SphericalPoint) -> f64
    ensures { result ≡ xyz_dot a b }
{
    xyz_sum(xyz_mul_xyz(a, b))
}

pub fn xyz_cross(a: SphericalPoint, b: SphericalPoint) -> SphericalPoint
    ensures { result ≡ xyz_cross a b }
{
    SphericalPoint {
        x: a.y * b.z - a.z * b.y,
        y: a.z * b.x - a.x * b.z,
        z: a.x * b.y - a.y * b.x,
    }
}

pub fn xyz_length(xyz: SphericalPoint) -> f64
    ensures { result ≡ xyz_length xyz }
{
    inner::root_of_squares(xyz.x, xyz.y, xyz.z)
}

// Divided by its length, whatever that is: a zero vector becomes NaNs.
pub fn normalize(xyz: SphericalPoint) -> SphericalPoint
    ensures { result ≡ normalized xyz }
{
    xyz_div_f64(xyz, xyz_length(xyz))
}

// Normalised as the points of a string are: a vector shorter than the equality tolerance stays as it is.
pub fn normalize_unless_short(xyz: SphericalPoint) -> SphericalPoint
    ensures { result ≡ normalized_unless_short xyz }
{
    let length = inner::root_of_squares(xyz.x, xyz.y, xyz.z);
    if length < SphericalPoint::EQUALITY_TOLERANCE {
        xyz
    } else {
        xyz_div_f64(xyz, length)
    }
}

// Whether the sum of absolute differences is strictly below the equality tolerance.
pub fn xyz_eq(a: SphericalPoint, b: SphericalPoint) -> bool
    ensures { result ≡ xyz_eq a b }
{
    let d = xyz_sub_xyz(a, b);
    magnitude(d.x) + magnitude(d.y) + magnitude(d.z) < SphericalPoint::EQUALITY_TOLERANCE
}
