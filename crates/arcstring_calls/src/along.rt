// The call that says whether a point lies on a string.
ghost use Rattle.std.specs.Prelude.{◌≡◌};
ghost use Rattle.arcstring_check.specs.Answer.{flag_number};
ghost use Rattle.arcstring.specs.Points.{point};
ghost use Rattle.arcstring_along.specs.OnString.{along};
ghost use Rattle.arcstring_put.specs.Put.{answer_number, left_in, flag};

use arcstring_along::on_string;
use arcstring_put::inner::lent;
use arcstring_put::inner::put::put;
use sphericalpoint::SphericalPoint;

pub fn arcstring_along(
    x: f64,
    y: f64,
    z: f64,
    v: &[f64],
    near: &[f64],
    closed: u8,
    yes: &mut u8,
) -> u32
    ensures value { result ≡ answer_number (along (point x y z) v.now near.now (flag closed)) }
    ensures yes_after { yes.new ≡ left_in flag_number (along (point x y z) v.now near.now (flag closed)) yes.old }
{
    let p = SphericalPoint::new(x, y, z);
    let r = on_string::point_is_along_arcstring(p, v, near, lent::is_closed(closed));
    put(r, yes)
}
