// The calls on single points: the vector layer's, after the check of each point (4).
ghost use Rattle.std.specs.Prelude.{◌≡◌};
ghost use Rattle.arcstring_check.specs.Answer.{answer_of};
ghost use Rattle.arcstring_point.specs.Point.{equal_points, coplanar_points, built_point};

use arcstring_check::check::Refusal;
use arcstring_check::inner::checks;
use sphericalpoint::SphericalPoint;

// Whether the sum of absolute differences of two points is strictly below 3e-11.
pub fn xyz_eq(a: SphericalPoint, b: SphericalPoint) -> Result<bool, Refusal>
    ensures { answer_of result ≡ equal_points a b }
{
    checks::check_point(a)?;
    checks::check_point(b)?;
    Ok(sphericalpoint::xyz_eq(a, b))
}

// Whether a and b or b and c are equal, or c lies on the leg from a to b, as the source's test has it.
pub fn xyzs_coplanar(
    a: SphericalPoint,
    b: SphericalPoint,
    c: SphericalPoint,
) -> Result<bool, Refusal>
    ensures { answer_of result ≡ coplanar_points a b c }
{
    checks::check_point(a)?;
    checks::check_point(b)?;
    checks::check_point(c)?;
    Ok(sphericalpoint_coplanar::xyzs_coplanar(a, b, c))
}

// A point by itself, as `SphericalPoint::from` builds it.
pub fn point_from(p: SphericalPoint) -> Result<SphericalPoint, Refusal>
    ensures { answer_of result ≡ built_point p }
{
    checks::check_point(p)?;
    Ok(SphericalPoint::from(p.x, p.y, p.z))
}
