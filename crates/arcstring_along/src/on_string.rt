// Whether a point is along a string.
ghost use Rattle.std.specs.Prelude.{◌≡◌};
ghost use Rattle.arcstring_check.specs.Answer.{answer_of};
ghost use Rattle.arcstring_along.specs.OnString.{along};

use crate::inner::along;
use crate::inner::stored::Stored;
use arcstring_check::check::Refusal;
use arcstring_check::inner::checks;
use sphericalpoint::SphericalPoint;

// Whether a point is along a string: near an entry of its near list, or the source's test holds for one of its legs.
// Refuses by 1, 3 and 4 of the vertices, then of the near list, then by 4 of the point.
pub fn point_is_along_arcstring(
    p: SphericalPoint,
    v: &[f64],
    near: &[f64],
    closed: bool,
) -> Result<bool, Refusal>
    ensures { answer_of result ≡ along p v.now near.now closed }
{
    let string = Stored::accept(v, near, closed)?;
    checks::check_point(p)?;
    Ok(along::along_string(p, string))
}
