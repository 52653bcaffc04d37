// `equals` and `overlaps` of two strings, which simplify copies of them. The near list of a copy is its own vertices; a call's
// own strings keep the near lists that were lent.
ghost use Rattle.std.specs.Prelude.{◌≡◌, length, MatchResult};
ghost use Rattle.arcstring.specs.Points.{points, copied};
ghost use Rattle.arcstring_check.specs.Answer.{answered, refused, refusal_number, answer_of};
ghost use Rattle.arcstring_along.specs.OnString.{string_of};
ghost use Rattle.arcstring_equals.specs.Simplified.{simplified_string, equals_longer, equals_simplified, equals_string};
ghost use Rattle.arcstring_equals.specs.Simplified.{overlap_legs, overlaps_apart, same_simplified};
ghost use Rattle.arcstring_equals.specs.Simplified as Relation;

use arcstring::inner::vertex::Vertices;
use arcstring_against::inner;
use arcstring_along::inner::along::along_string;
use arcstring_along::inner::stored::Stored;
use arcstring_check::check::{MOST_FLOATS, Refusal};
use arcstring_rounds::inner::simplify_points;

// A simplified copy of a string, as it stands in `room`. Its near list is the string's vertices.
fn simplified_copy<'a>(
    s: Stored<'a>,
    room: &'a mut [f64; MOST_FLOATS],
) -> Result<Stored<'a>, Refusal>
    ensures { MatchResult result (λ copy. simplified_string (copied (string_of s.entry)) ≡ answered (string_of copy))
        (λ e. simplified_string (copied (string_of s.entry)) ≡ refused (refusal_number e)) }
{
    let n = simplify_points(s.v, s.closed, room)?;
    let v = &room[..3 * n];
    Ok(Stored {
        v,
        near: s.v,
        closed: s.closed,
    })
}

// A simplified copy of the shorter string, as it stands in `short`, against the longer, and then against a simplified copy of the longer.
fn equals_longer(short: Stored, longer: Stored) -> Result<bool, Refusal>
    ensures { answer_of result ≡ equals_longer (string_of short.entry) (string_of longer.entry) }
{
    if inner::equal_strings(short, longer) {
        return Ok(true);
    }
    let mut long = [0.0; MOST_FLOATS];
    let copy = simplified_copy(longer, &mut long)?;
    Ok(inner::equal_strings(short, copy))
}

// The shorter string simplified, and then the longer too.
fn equals_simplified(shorter: Stored, longer: Stored) -> Result<bool, Refusal>
    ensures { answer_of result ≡ equals_simplified (string_of shorter.entry) (string_of longer.entry) }
{
    let mut short = [0.0; MOST_FLOATS];
    let copy = simplified_copy(shorter, &mut short)?;
    equals_longer(copy, longer)
}

// `equals` of two accepted strings.
fn equals_strings(a: Stored, b: Stored) -> Result<bool, Refusal>
    ensures { answer_of result ≡ equals_string (string_of a.entry) (string_of b.entry) }
{
    if inner::equal_strings(a, b) {
        return Ok(true);
    }
    if a.v.len() < b.v.len() {
        equals_simplified(a, b)
    } else {
        equals_simplified(b, a)
    }
}

// Whether two strings are equal as the source's `equals` has it: by `==`, or once copies of them are simplified. Refuses by 1,
// 3 and 4 of each list in turn, and by 5 where a copy that it comes to simplify gets it.
pub fn equals(
    a: &[f64],
    a_near: &[f64],
    a_closed: bool,
    b: &[f64],
    b_near: &[f64],
    b_closed: bool,
) -> Result<bool, Refusal>
    ensures { answer_of result ≡ Relation.equals a.now a_near.now a_closed b.now
        b_near.now b_closed }
{
    let a = Stored::accept(a, a_near, a_closed)?;
    let b = Stored::accept(b, b_near, b_closed)?;
    equals_strings(a, b)
}

// Whether a leg of `a` has both ends along the other string. The last leg of a closed string reads past its last vertex.
fn overlap_legs(a: Stored, b: Stored) -> Result<bool, Refusal>
    ensures { answer_of result ≡ overlap_legs (string_of b.entry) a.entry.closed (points a.entry.v.now) }
{
    let string = a.vertices();
    for k in 1..string.n {
        if along_string(string.at(k - 1), b) && along_string(string.at(k), b) {
            return Ok(true);
        }
    }
    if a.closed {
        return Err(Refusal::ReadsPastEnd);
    }
    Ok(false)
}

// Neither of two strings within the other, and such a leg.
fn overlaps_apart(a: Stored, b: Stored) -> Result<bool, Refusal>
    ensures { answer_of result ≡ overlaps_apart (string_of a.entry) (string_of b.entry) }
{
    if !inner::apart(a, b) {
        return Ok(false);
    }
    overlap_legs(a, b)
}

// Whether the simplified copies of two accepted strings are `equals`.
fn same_simplified(a: Stored, b: Stored) -> Result<bool, Refusal>
    ensures { answer_of result ≡ same_simplified (string_of a.entry) (string_of b.entry) }
{
    let mut simple_a = [0.0; MOST_FLOATS];
    let first = simplified_copy(a, &mut simple_a)?;
    let mut simple_b = [0.0; MOST_FLOATS];
    let second = simplified_copy(b, &mut simple_b)?;
    equals_strings(first, second)
}

// Whether two strings overlap as the source has it: simplified copies of them are `equals`, neither is within the other, and a
// leg of the first has both ends along the second. Refuses by 1, 3 and 4 of each list in turn, by 5 where a copy gets it, and by
// 6 where the legs of a closed first string come to the last one.
pub fn overlaps(
    a: &[f64],
    a_near: &[f64],
    a_closed: bool,
    b: &[f64],
    b_near: &[f64],
    b_closed: bool,
) -> Result<bool, Refusal>
    ensures { answer_of result ≡ Relation.overlaps a.now a_near.now a_closed b.now
        b_near.now b_closed }
{
    let a = Stored::accept(a, a_near, a_closed)?;
    let b = Stored::accept(b, b_near, b_closed)?;
    let same = same_simplified(a, b)?;
    if same {
        overlaps_apart(a, b)
    } else {
        Ok(false)
    }
}
