// Whether two points are near, as the near list of a string has it.
ghost use Rattle.std.specs.Prelude.{◌≡◌};
ghost use Rattle.arcstring_near.specs.Near.{is_near};

use sphericalpoint::SphericalPoint;

// Whether the sum of squared differences is strictly below the equality tolerance.
pub fn is_near(p: SphericalPoint, e: SphericalPoint) -> bool
    ensures { result ≡ is_near p e }
{
    let d = sphericalpoint::xyz_sub_xyz(p, e);
    sphericalpoint::xyz_sum(sphericalpoint::xyz_mul_xyz(d, d)) < SphericalPoint::EQUALITY_TOLERANCE
}
