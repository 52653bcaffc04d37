// Whether a mark lies on a leg, and on a string.
ghost use Rattle.std.specs.Prelude.{◌≡◌};
ghost use Rattle.arcstring_check.specs.Answer.{answer_of};
ghost use Rattle.arcstring_check.specs.Check.{stored_check};
ghost use Rattle.arcstring.specs.Points.{points};
ghost use Rattle.arcstring.specs.Leg.{leg_of};
ghost use Rattle.arcstring_mark.specs.Mark.{mark_on_leg, mark_on_string, on_leg, on_string};

use crate::inner::holds;
use arcstring::inner::leg;
use arcstring::inner::vertex::Vertices;
use arcstring_check::check::Refusal;
use arcstring_check::inner::checks;
use sphericalpoint::SphericalPoint;

// The test of a leg by itself.
fn arc_holds(arc: [[f64; 3]; 2], p: SphericalPoint) -> bool
    ensures { result ≡ mark_on_leg p (leg_of arc) }
{
    let a = leg::start_of(arc);
    let b = leg::end_of(arc);
    holds::leg_holds(a.x, a.y, a.z, b.x, b.y, b.z, p.x, p.y, p.z)
}

// Whether a mark lies on a leg: it equals an end, or lies inside. Refuses by 4 of the leg, then of the mark.
pub fn mark_on_leg(arc: [[f64; 3]; 2], p: SphericalPoint) -> Result<bool, Refusal>
    ensures { answer_of result ≡ on_leg (leg_of arc) p }
{
    leg::check_leg(arc)?;
    checks::check_point(p)?;
    Ok(arc_holds(arc, p))
}

// Whether a leg of an accepted string holds a mark.
fn string_holds(p: SphericalPoint, v: &[f64], closed: bool) -> bool
    requires { stored_check v.now ≡ 0 }
    ensures { result ≡ mark_on_string p (points v.now) closed }
{
    let string = Vertices::of(v);
    holds::first_leg(p, string, leg::leg_count(string.n, closed)).is_some()
}

// Whether a mark lies on a string: some leg holds it. Refuses by 1, 3 and 4 of the vertices, then by 4 of the mark.
pub fn mark_on_string(p: SphericalPoint, v: &[f64], closed: bool) -> Result<bool, Refusal>
    ensures { answer_of result ≡ on_string p v.now closed }
{
    checks::check_stored(v)?;
    checks::check_point(p)?;
    Ok(string_holds(p, v, closed))
}
