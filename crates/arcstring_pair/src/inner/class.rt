// The class of a pair of legs by its four side values.
ghost use Rattle.std.specs.Prelude.{◌≡◌};
ghost use Rattle.arcstring.specs.Leg.{leg_of};
ghost use Rattle.arcstring_pair.specs.Pair.{at_end, kept_or_dropped, grazing_outcome, end_or_clean, class_at};

use crate::pair::{Outcome, Pair};
use arcstring::inner::leg;
use arcstring_sides::inner::{
    all_above, all_below, all_sign_negative, all_sign_positive, some_grazing,
};
use sphericalpoint::SphericalPoint;

// The two legs of a pair.
#[derive(Clone, Copy)]
struct TwoLegs {
    a: [[f64; 3]; 2],
    b: [[f64; 3]; 2],
}

impl TwoLegs {
    // Whether a point is equal to one of the four leg ends.
    fn at_end(self, p: SphericalPoint) -> bool
        ensures { result ≡ at_end p (leg_of self.a) (leg_of self.b) }
    {
        sphericalpoint::xyz_eq(p, leg::start_of(self.a))
            | sphericalpoint::xyz_eq(p, leg::end_of(self.a))
            | sphericalpoint::xyz_eq(p, leg::start_of(self.b))
            | sphericalpoint::xyz_eq(p, leg::end_of(self.b))
    }

    // The sign bits of a grazing pair agree: the listings drop the point if it is one of the four ends, else they keep it.
    fn kept_or_dropped(self, point: SphericalPoint) -> Outcome
        ensures { result ≡ kept_or_dropped point (leg_of self.a) (leg_of self.b) }
    {
        if self.at_end(point) {
            Outcome::Dropped(point)
        } else {
            Outcome::Kept(point)
        }
    }

    // What the source does with a grazing pair.
    fn grazing_outcome(self, t: SphericalPoint, s: [f64; 4]) -> Outcome
        ensures { result ≡ grazing_outcome t (leg_of self.a) (leg_of self.b) s }
    {
        if all_sign_positive(s) {
            return self.kept_or_dropped(t);
        }
        if all_sign_negative(s) {
            return self.kept_or_dropped(sphericalpoint::xyz_neg(t));
        }
        Outcome::None
    }

    // The signs agree: an end if the point is one of the four, else clean.
    fn end_or_clean(self, p: SphericalPoint) -> Pair
        ensures { result ≡ end_or_clean p (leg_of self.a) (leg_of self.b) }
    {
        if self.at_end(p) {
            Pair::End(p)
        } else {
            Pair::Clean(p)
        }
    }
}

// The class by the four side values and the margin.
pub fn class_at(
    t: SphericalPoint,
    arc_a: [[f64; 3]; 2],
    arc_b: [[f64; 3]; 2],
    s: [f64; 4],
    margin: f64,
) -> Pair
    ensures { result ≡ class_at margin t (leg_of arc_a) (leg_of arc_b) s }
{
    let legs = TwoLegs { a: arc_a, b: arc_b };
    if some_grazing(s, margin) {
        return Pair::Grazing(legs.grazing_outcome(t, s));
    }
    if all_above(s) {
        return legs.end_or_clean(t);
    }
    if all_below(s) {
        return legs.end_or_clean(sphericalpoint::xyz_neg(t));
    }
    Pair::Apart
}
