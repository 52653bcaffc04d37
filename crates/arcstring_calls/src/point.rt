// The calls on points: whether two are equal and three lie in a plane, and a point of its coordinates.
ghost use Rattle.std.specs.Prelude.{◌≡◌};
ghost use Rattle.arcstring_check.specs.Answer.{flag_number};
ghost use Rattle.arcstring.specs.Points.{point};
ghost use Rattle.arcstring_point.specs.Point.{equal_points, coplanar_points, built_point};
ghost use Rattle.arcstring_put.specs.Put.{answer_number, left_in, three_floats};

use arcstring_point::point;
use arcstring_put::inner::put::put;
use sphericalpoint::SphericalPoint;

pub fn arcstring_xyz_eq(ax: f64, ay: f64, az: f64, bx: f64, by: f64, bz: f64, yes: &mut u8) -> u32
    ensures value { result ≡ answer_number (equal_points (point ax ay az) (point bx «by» bz)) }
    ensures yes_after { yes.new ≡ left_in flag_number (equal_points (point ax ay az) (point bx «by» bz)) yes.old }
{
    let a = SphericalPoint::new(ax, ay, az);
    let b = SphericalPoint::new(bx, by, bz);
    put(point::xyz_eq(a, b), yes)
}

pub fn arcstring_xyzs_coplanar(
    ax: f64,
    ay: f64,
    az: f64,
    bx: f64,
    by: f64,
    bz: f64,
    cx: f64,
    cy: f64,
    cz: f64,
    yes: &mut u8,
) -> u32
    ensures value { result ≡ answer_number (coplanar_points (point ax ay az) (point bx «by» bz) (point cx cy cz)) }
    ensures yes_after { yes.new ≡ left_in flag_number (coplanar_points (point ax ay az) (point bx «by» bz) (point cx cy cz)) yes.old }
{
    let a = SphericalPoint::new(ax, ay, az);
    let b = SphericalPoint::new(bx, by, bz);
    let c = SphericalPoint::new(cx, cy, cz);
    put(point::xyzs_coplanar(a, b, c), yes)
}

pub fn arcstring_point(x: f64, y: f64, z: f64, out: &mut [f64; 3]) -> u32
    ensures value { result ≡ answer_number (built_point (point x y z)) }
    ensures out_after { out.new ≡ left_in three_floats (built_point (point x y z)) out.old }
{
    let p = SphericalPoint::new(x, y, z);
    put(point::point_from(p), out)
}
