// The class of a pair of legs, with no margin: docs/TERMS.md's, over the source's `arcs_crossing`.
ghost use Rattle.std.specs.Prelude.{◌≡◌};
ghost use Rattle.arcstring.specs.Leg.{leg_of};
ghost use Rattle.arcstring_check.specs.Check.{no_margin};
ghost use Rattle.arcstring_pair.specs.Pair.{pair_of, arcs_crossing};
ghost use Rattle.arcstring_crossing.specs.Crossing.{crossed_answer};

use crate::inner::planes::{Kept, Legs, Planes, Tested};
use arcstring::inner::leg;
use arcstring::inner::vertex::Vertices;
use arcstring_check::check::Refusal;
use arcstring_pair::pair::Pair;

// The class of a pair of legs, each an array of two arrays of three. By the test that the walk makes, over the one plane of the second.
fn pair_of(arc_a: [[f64; 3]; 2], arc_b: [[f64; 3]; 2]) -> Pair
    ensures { result ≡ pair_of no_margin (leg_of arc_a) (leg_of arc_b) }
{
    let b = leg::leg_string(arc_b);
    let legs = Legs {
        string: Vertices { v: &b, n: 2 },
        count: 1,
    };
    let mut planes = Planes::<1>::zero();
    planes.keep(legs);
    let kept = Kept {
        legs,
        planes: &planes,
    };
    kept.pair(Tested::of(arc_a), 0, 0.0)
}

// The class of a pair of legs. Refuses by 4 of the first leg, then of the second.
pub fn arcs_crossing(arc_a: [[f64; 3]; 2], arc_b: [[f64; 3]; 2]) -> Result<Pair, Refusal>
    ensures { crossed_answer result ≡ arcs_crossing (leg_of arc_a) (leg_of arc_b) }
{
    leg::check_leg(arc_a)?;
    leg::check_leg(arc_b)?;
    Ok(pair_of(arc_a, arc_b))
}
