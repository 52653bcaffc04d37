// The test of three points of sphericalpoint.rs, with the source's name: whether the third lies between the others. It takes any floats, infinities and
// NaN among them.
//
//     inner    the test in parts, and by coordinates: for the crates of this repository
#![tactic(auto)]

ghost use Rattle.std.specs.Prelude.{◌≡◌};
ghost use Rattle.sphericalpoint_coplanar.specs.Coplanar.{xyzs_coplanar};

use sphericalpoint::SphericalPoint;

pub mod inner;

// Whether a and b or b and c are equal, or c lies on the leg from a to b. Callers pass the point that they ask
// about as b: the source does so, and its answers are kept.
pub fn xyzs_coplanar(a: SphericalPoint, b: SphericalPoint, c: SphericalPoint) -> bool
    ensures { result ≡ xyzs_coplanar a b c }
{
    inner::coplanar_of(a.x, a.y, a.z, b.x, b.y, b.z, c.x, c.y, c.z)
}
