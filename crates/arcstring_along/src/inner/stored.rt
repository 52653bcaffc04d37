// A stored string that the checks of its lists accepted.
ghost use Rattle.std.specs.Prelude.{◌≡◌, ◌/◌, ◌≤◌, length, MatchResult};
ghost use Rattle.arcstring_check.specs.Check.{stored_check};
ghost use Rattle.arcstring_check.specs.Answer.{first_of, refusal_number};

use arcstring::inner::vertex::Vertices;
use arcstring_check::check::Refusal;
use arcstring_check::inner::checks;

// A string as it is lent: its vertices, its near list, and whether it is closed. `string_of` of specs/OnString.antt is the string that it is.
#[derive(Clone, Copy)]
pub struct Stored<'a> {
    pub v: &'a [f64],
    pub near: &'a [f64],
    pub closed: bool,
    ghost accepted: { (stored_check v.now ≡ 0) × (stored_check near.now ≡ 0) },
}

impl<'a> Stored<'a> {
    // The string of these lists. Refuses by 1, 3 and 4 of the vertices, then of the near list.
    pub fn accept(v: &'a [f64], near: &'a [f64], closed: bool) -> Result<Stored<'a>, Refusal>
        ensures { MatchResult result (λ s. (s.v.now ≡ v.now) × (s.near.now ≡ near.now) × (s.closed ≡ closed))
            (λ e. refusal_number e ≡ first_of (stored_check v.now) (stored_check near.now)) }
    {
        checks::check_stored(v)?;
        checks::check_stored(near)?;
        Ok(Stored { v, near, closed })
    }

    // Its vertices, one at least.
    pub fn vertices(self) -> Vertices<'a>
        ensures { (result.v.now ≡ self.entry.v.now) × (result.n ≡ length self.entry.v.now / 3) × (1 ≤ result.n) }
    {
        Vertices::of(self.v)
    }
}
