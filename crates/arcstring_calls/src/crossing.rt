// The call that judges a pair of legs.
ghost use Rattle.std.specs.Prelude.{◌≡◌};
ghost use Rattle.arcstring_pair.specs.Pair.{arcs_crossing};
ghost use Rattle.arcstring_put.specs.Put.{answer_number, left_in, leg_of_six};
ghost use Rattle.arcstring_put_found.specs.PutFound.{class_byte, kept_byte, point_place};

use arcstring_crossing::crossing;
use arcstring_put::inner::lent;
use arcstring_put_found::inner::pair;

pub fn arcstring_pair(
    a: &[f64; 6],
    b: &[f64; 6],
    class_: &mut u8,
    kept: &mut u8,
    point: &mut [f64; 3],
) -> u32
    ensures value { result ≡ answer_number (arcs_crossing (leg_of_six a.now) (leg_of_six b.now)) }
    ensures class_after { class_.new ≡ left_in class_byte (arcs_crossing (leg_of_six a.now) (leg_of_six b.now)) class_.old }
    ensures kept_after { kept.new ≡ left_in kept_byte (arcs_crossing (leg_of_six a.now) (leg_of_six b.now)) kept.old }
    ensures point_after { point.new ≡ left_in (point_place point.old) (arcs_crossing (leg_of_six a.now) (leg_of_six b.now))
        point.old }
{
    let r = crossing::arcs_crossing(lent::leg_of_six(a), lent::leg_of_six(b));
    pair::put_pair(r, class_, kept, point)
}
