// The legs that a split makes of one leg, cut in place in a local list of their points, two by two.
ghost use Rattle.std.specs.Prelude.{◌≡◌, ◌≤◌, ◌<◌, length};
ghost use Rattle.arcstring_check.specs.Check.{most_floats};
ghost use Rattle.arcstring.specs.Points.{points};
ghost use Rattle.arcstring.specs.Leg.{leg_of};
ghost use Rattle.arcstring_insert.specs.Steps.{for_each};
ghost use Rattle.arcstring_split_leg.specs.Legs.{most_legs};
ghost use Rattle.arcstring_split_leg.specs.SplitLeg.{cuts_leg, cut_leg_at, cut_legs};

use arcstring::inner::vertex::Vertices;
use arcstring::inner::{leg, vertex};
use arcstring_along::inner::along;
use arcstring_check::check::{MOST_FLOATS, Refusal};
use sphericalpoint::SphericalPoint;

// The most legs that the local list holds, two points each.
const MOST_LEGS: usize = 512;

// Whether a point cuts a leg: it is along it, and equal to neither end.
fn cuts_leg(p: SphericalPoint, arc: [[f64; 3]; 2]) -> bool
    ensures { result ≡ cuts_leg p (leg_of arc) }
{
    if sphericalpoint::xyz_eq(leg::start_of(arc), p) {
        return false;
    }
    if sphericalpoint::xyz_eq(p, leg::end_of(arc)) {
        return false;
    }
    along::along_leg(p, arc)
}

// The local list that is worked on: the legs that stand in it are the first `count`.
#[derive(Drop)]
pub(crate) struct Work {
    pub(crate) v: [f64; MOST_FLOATS],
    pub(crate) count: usize,
    ghost fits: { (length v ≡ most_floats) × (count ≤ most_legs) },
}

impl Work {
    ghost use Rattle.arcstring_split_leg.specs.Worked.{standing, worked};

    // Leg k, where the point cuts it, made the leg up to the point; after it the second half, which is point, point.
    fn cut_leg_at(&mut self, k: usize, p: SphericalPoint) -> Result<(), Refusal>
        requires { k < self.old.count }
        ensures { (worked result self.new ≡ cut_leg_at p k (standing self.old)) × (self.old.count ≤ self.new.count) }
    {
        let m = self.count;
        if !cuts_leg(p, leg::leg_between(&self.v, 2 * k, 2 * k + 1)) {
            return Ok(());
        }
        if m == MOST_LEGS {
            return Err(Refusal::TooManyPoints);
        }
        vertex::put_vertex(&mut self.v, 2 * k + 1, p);
        arcstring_insert::inner::insert_vertex(&mut self.v, 2 * m, 2 * k + 2, p);
        arcstring_insert::inner::insert_vertex(&mut self.v, 2 * m + 1, 2 * k + 2, p);
        self.count = m + 1;
        Ok(())
    }

    // One point, at each of the places that there are before it.
    fn cut_legs(&mut self, p: SphericalPoint) -> Result<(), Refusal>
        ensures { worked result self.new ≡ cut_legs p (standing self.old) }
    {
        for k in 0..self.count {
            self.cut_leg_at(k, p)?;
        }
        Ok(())
    }

    // Each of the points in turn.
    pub(crate) fn cut_at_points(&mut self, extra: Vertices) -> Result<(), Refusal>
        ensures { worked result self.new ≡ for_each cut_legs (points extra.entry.v.now) (standing self.old) }
    {
        for i in 0..extra.n {
            self.cut_legs(extra.at(i))?;
        }
        Ok(())
    }
}
