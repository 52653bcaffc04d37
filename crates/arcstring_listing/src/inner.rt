// Strings that are accepted, their pairs counted, and the room of a listing: for the calls of this crate, the self listing and the
// comparisons.
ghost use Rattle.std.specs.Prelude.{◌≡◌, ◌*◌, ◌≤◌, MatchResult};
ghost use Rattle.arcstring_check.specs.Answer.{first_of, refusal_number};
ghost use Rattle.arcstring_check.specs.Check.{check_number, stored_check, margin_check, room_check};
ghost use Rattle.arcstring.specs.Points.{points};
ghost use Rattle.arcstring.specs.Leg.{legs, legs_from};
ghost use Rattle.arcstring_visit.specs.Visit.{most_pairs};
ghost use Rattle.arcstring_tally.specs.Tally.{no_tally, tally_on};
ghost use Rattle.arcstring_listing.specs.Listing.{visited};

use arcstring::inner::leg;
use arcstring::inner::vertex::Vertices;
use arcstring_check::check::Refusal;
use arcstring_check::inner::checks;
use arcstring_crossing::inner::planes::Legs;
use arcstring_tally::inner::tally::Tally;
use arcstring_visit::inner::walk;

// A string's vertices, once they are accepted, and whether it is closed.
#[derive(Clone, Copy)]
pub struct Accepted<'a> {
    pub v: &'a [f64],
    pub closed: bool,
    ghost accepted: { stored_check v.now ≡ 0 },
}

impl<'a> Accepted<'a> {
    // The string of these vertices. Refuses by 1, 3 and 4 of them.
    pub fn accept(v: &'a [f64], closed: bool) -> Result<Accepted<'a>, Refusal>
        ensures { MatchResult result (λ s. (s.v.now ≡ v.now) × (s.closed ≡ closed) × (0 ≡ stored_check v.now))
            (λ e. refusal_number e ≡ stored_check v.now) }
    {
        checks::check_stored(v)?;
        Ok(Accepted { v, closed })
    }

    // The last string of a call, with its margin. Refuses by 1, 3 and 4 of the vertices, then by 9.
    pub fn accept_last(v: &'a [f64], closed: bool, margin: f64) -> Result<Accepted<'a>, Refusal>
        ensures { MatchResult result (λ s. (s.v.now ≡ v.now) × (s.closed ≡ closed) × (0 ≡ first_of (stored_check v.now) (margin_check margin)))
            (λ e. refusal_number e ≡ first_of (stored_check v.now) (margin_check margin)) }
    {
        let s = Accepted::accept(v, closed)?;
        checks::check_margin(margin)?;
        Ok(s)
    }

    // Its legs.
    pub fn legs(self) -> Legs<'a>
        ensures { legs_from result.string.v.now 0 result.count ≡ legs (points self.entry.v.now) self.entry.closed }
    {
        let string = Vertices::of(self.v);
        Legs {
            string,
            count: leg::leg_count(string.n, self.closed),
        }
    }
}

// The pairs of two accepted strings at a margin, counted.
pub fn tally_two(a: Accepted, b: Accepted, margin: f64) -> Tally
    ensures { (result ≡ tally_on no_tally (visited margin a.entry.v.now a.entry.closed b.entry.v.now b.entry.closed)) × (result.kept ≤ most_pairs) }
{
    walk::count_between(a.legs(), b.legs(), margin)
}

// Whether so many kept points and their marks fit the buffers.
pub fn check_buffers(kept: usize, points: usize, marks: usize) -> Result<(), Refusal>
    requires { kept ≤ most_pairs }
    ensures { check_number result ≡ first_of (room_check (3 * kept) points) (room_check kept marks) }
{
    checks::check_room(3 * kept, points)?;
    checks::check_room(kept, marks)
}
