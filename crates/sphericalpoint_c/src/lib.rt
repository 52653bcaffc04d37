// The vector layer exported for the comparison programs of compare/: its root beside the processor's, its points
// beside the published Rust's. Makers link arcstring_c and not this: users reach the root through the strings alone.
#![tactic(auto)]

ghost use Rattle.std.specs.Prelude.{◌≡◌};
ghost use Rattle.square_root.specs.Sqrt.{sqrt_of};
ghost use Rattle.sphericalpoint.specs.Vector.{xyz_eq};
ghost use Rattle.sphericalpoint.specs.Point.{point_from};
ghost use Rattle.sphericalpoint_coplanar.specs.Coplanar.{xyzs_coplanar};

use sphericalpoint::SphericalPoint;

#[unsafe(no_mangle)]
pub extern "C" fn sphericalpoint_sqrt(x: f64) -> f64
    ensures { result ≡ sqrt_of x }
{
    square_root::sqrt(x)
}

#[unsafe(no_mangle)]
pub extern "C" fn sphericalpoint_xyz_eq(a: SphericalPoint, b: SphericalPoint) -> bool
    ensures { result ≡ xyz_eq a b }
{
    sphericalpoint::xyz_eq(a, b)
}

#[unsafe(no_mangle)]
pub extern "C" fn sphericalpoint_xyzs_coplanar(
    a: SphericalPoint,
    b: SphericalPoint,
    c: SphericalPoint,
) -> bool
    ensures { result ≡ xyzs_coplanar a b c }
{
    sphericalpoint_coplanar::xyzs_coplanar(a, b, c)
}

#[unsafe(no_mangle)]
pub extern "C" fn sphericalpoint_from(x: f64, y: f64, z: f64) -> SphericalPoint
    ensures { result ≡ point_from (record { x = x; y = y; z = z }) }
{
    SphericalPoint::from(x, y, z)
}
