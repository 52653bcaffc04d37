// Whether a point is near an entry of a near list, along a leg, and along an accepted string.
ghost use Rattle.std.specs.Prelude.{◌≡◌, ◌≤◌, ◌<◌};
ghost use Rattle.arcstring.specs.Points.{points};
ghost use Rattle.arcstring.specs.Leg.{leg_of, leg_at, legs_from};
ghost use Rattle.arcstring_along.specs.OnString.{first_near, near_some, along_leg, along_some_leg, along_string, string_of};
ghost use Rattle.arcstring_check.specs.Answer.{option_of};

use super::stored::Stored;
use arcstring::inner::leg;
use arcstring::inner::vertex::Vertices;
use arcstring_near::inner::is_near;
use sphericalpoint::SphericalPoint;

// The position of the first near entry that passes.
fn first_near(p: SphericalPoint, near: Vertices) -> Option<usize>
    ensures { option_of result ≡ first_near p (points near.entry.v.now) }
{
    (0..near.n).find(|k| is_near(p, near.at(*k)))
}

fn near_some(p: SphericalPoint, near: Vertices) -> bool
    ensures { result ≡ near_some p (points near.entry.v.now) }
{
    first_near(p, near).is_some()
}

// Whether a point is along leg k of a string, whose vertices are read where they stand; coordinates go to the test in registers. The point stands in the
// second place of the source's test, which seeks the leg's end between start and point.
pub fn along_leg_at(p: SphericalPoint, string: Vertices, k: usize) -> bool
    requires { k < string.n }
    ensures { result ≡ along_leg p (leg_at string.entry.v.now string.entry.n k) }
{
    let next = leg::position_after(k, string.n);
    let a = string.at(k);
    let b = string.at(next);
    sphericalpoint_coplanar::inner::coplanar_of(a.x, a.y, a.z, p.x, p.y, p.z, b.x, b.y, b.z)
}

// The same of a leg by itself.
pub fn along_leg(p: SphericalPoint, arc: [[f64; 3]; 2]) -> bool
    ensures { result ≡ along_leg p (leg_of arc) }
{
    sphericalpoint_coplanar::xyzs_coplanar(leg::start_of(arc), p, leg::end_of(arc))
}

// Whether a point is along one of the first `l` legs.
fn along_some_leg(p: SphericalPoint, string: Vertices, l: usize) -> bool
    requires { l ≤ string.n }
    ensures { result ≡ along_some_leg p (legs_from string.entry.v.now 0 l) }
{
    (0..l).any(|k| along_leg_at(p, string, k))
}

// Near an entry of the near list, or along a leg.
pub fn along_string(p: SphericalPoint, s: Stored) -> bool
    ensures { result ≡ along_string p (string_of s.entry) }
{
    if near_some(p, Vertices::of(s.near)) {
        return true;
    }
    let string = s.vertices();
    along_some_leg(p, string, leg::leg_count(string.n, s.closed))
}
