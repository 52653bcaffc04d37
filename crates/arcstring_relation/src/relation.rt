// `==`, `within`, `contains` and `crosses` of two strings. A string is its vertices, its near list and its flag; a call is
// lent only what it reads.
ghost use Rattle.std.specs.Prelude.{◌≡◌};
ghost use Rattle.arcstring_check.specs.Answer.{answer_of};
ghost use Rattle.arcstring_along.specs.OnString.{string_of};
ghost use Rattle.arcstring_relation.specs.Relation.{crosses_string, equal};
ghost use Rattle.arcstring_relation.specs.Relation as Relation;

use arcstring::inner::vertex::Vertices;
use arcstring_against::inner;
use arcstring_along::inner::stored::Stored;
use arcstring_check::check::Refusal;
use arcstring_check::inner::checks;
use arcstring_listing::inner::{Accepted, tally_two};

// Whether two strings are equal as the source's `==` has it: their boundaries first, then each vertex of the longer
// along the shorter and of the shorter along the longer. Refuses by 1, 3 and 4 of each list in turn.
pub fn eq(
    a: &[f64],
    a_near: &[f64],
    a_closed: bool,
    b: &[f64],
    b_near: &[f64],
    b_closed: bool,
) -> Result<bool, Refusal>
    ensures { answer_of result ≡ equal a.now a_near.now a_closed b.now b_near.now b_closed }
{
    let a = Stored::accept(a, a_near, a_closed)?;
    let b = Stored::accept(b, b_near, b_closed)?;
    Ok(inner::equal_strings(a, b))
}

// Whether every vertex of the first string is along the second. Refuses by 1, 3 and 4 of each list in turn.
pub fn within(a: &[f64], b: &[f64], b_near: &[f64], b_closed: bool) -> Result<bool, Refusal>
    ensures { answer_of result ≡ Relation.within a.now b.now b_near.now b_closed }
{
    checks::check_stored(a)?;
    let b = Stored::accept(b, b_near, b_closed)?;
    Ok(inner::all_along(Vertices::of(a), b))
}

// Whether every vertex of the second string is along the first. Refuses by 1, 3 and 4 of each list in turn.
pub fn contains(a: &[f64], a_near: &[f64], a_closed: bool, b: &[f64]) -> Result<bool, Refusal>
    ensures { answer_of result ≡ Relation.contains a.now a_near.now a_closed b.now }
{
    let a = Stored::accept(a, a_near, a_closed)?;
    checks::check_stored(b)?;
    Ok(inner::all_along(Vertices::of(b), a))
}

// Whether some pair of legs of two accepted strings, neither within the other, keeps a point.
fn crosses_string(a: Stored, b: Stored) -> bool
    ensures { result ≡ crosses_string (string_of a.entry) (string_of b.entry) }
{
    if !inner::apart(a, b) {
        return false;
    }
    let left = Accepted {
        v: a.v,
        closed: a.closed,
    };
    let right = Accepted {
        v: b.v,
        closed: b.closed,
    };
    let t = tally_two(left, right, 0.0);
    t.kept > 0
}

// Whether two strings cross as the source has it: neither is within the other, and some pair of their legs keeps a
// point. Refuses by 1, 3 and 4 of each list in turn.
pub fn crosses(
    a: &[f64],
    a_near: &[f64],
    a_closed: bool,
    b: &[f64],
    b_near: &[f64],
    b_closed: bool,
) -> Result<bool, Refusal>
    ensures { answer_of result ≡ Relation.crosses a.now a_near.now a_closed b.now
        b_near.now b_closed }
{
    let a = Stored::accept(a, a_near, a_closed)?;
    let b = Stored::accept(b, b_near, b_closed)?;
    Ok(crosses_string(a, b))
}
