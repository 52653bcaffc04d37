// Two accepted strings held against each other: vertices along a string, ends near ends, and `==` of the two.
ghost use Rattle.std.specs.Prelude.{◌≡◌, ◌∷◌, [], ◌≤◌};
ghost use Rattle.arcstring.specs.Points.{points};
ghost use Rattle.arcstring_along.specs.OnString.{near_some, string_of};
ghost use Rattle.arcstring_against.specs.Against.{first_end, last_end, boundary, all_near, same_boundary, all_along, each_along, apart, equal_strings};

use arcstring::inner::vertex::Vertices;
use arcstring_along::inner::along::along_string;
use arcstring_along::inner::stored::Stored;
use arcstring_near::inner::is_near;
use sphericalpoint::{SphericalPoint, normalize_unless_short};

// Whether every one of these vertices is along a string.
pub fn all_along(a: Vertices, s: Stored) -> bool
    ensures { result ≡ all_along (points a.entry.v.now) (string_of s.entry) }
{
    (0..a.n).all(|k| along_string(a.at(k), s))
}

// Whether neither of two strings is within the other.
pub fn apart(a: Stored, b: Stored) -> bool
    ensures { result ≡ apart (string_of a.entry) (string_of b.entry) }
{
    !all_along(a.vertices(), b) && !all_along(b.vertices(), a)
}

// Whether a point is near one of two.
fn near_either(p: SphericalPoint, first: SphericalPoint, last: SphericalPoint) -> bool
    ensures { result ≡ near_some p (first ∷ last ∷ []) }
{
    is_near(p, first) | is_near(p, last)
}

// The first vertex, normalised once more.
fn first_end(string: Vertices) -> SphericalPoint
    requires { 1 ≤ string.n }
    ensures { result ≡ first_end (points string.entry.v.now) }
{
    normalize_unless_short(string.at(0))
}

// The last vertex, normalised once more.
fn last_end(string: Vertices) -> SphericalPoint
    requires { 1 ≤ string.n }
    ensures { result ≡ last_end (points string.entry.v.now) }
{
    normalize_unless_short(string.at(string.n - 1))
}

// Whether each end of the left is near an end of the right.
fn ends_near(a: Vertices, b: Vertices) -> bool
    requires { (1 ≤ a.n) × (1 ≤ b.n) }
    ensures { result ≡ all_near (boundary (points a.entry.v.now)) (boundary (points b.entry.v.now)) }
{
    let first = first_end(b);
    let last = last_end(b);
    near_either(first_end(a), first, last) & near_either(last_end(a), first, last)
}

// Both closed, or both open with each end of the left near an end of the right.
fn same_boundary(a: Stored, b: Stored) -> bool
    ensures { result ≡ same_boundary (string_of a.entry) (string_of b.entry) }
{
    if a.closed & b.closed {
        return true;
    }
    if a.closed | b.closed {
        return false;
    }
    ends_near(a.vertices(), b.vertices())
}

// Every vertex of the longer along the shorter, and of the shorter along the longer.
fn each_along(shorter: Stored, longer: Stored) -> bool
    ensures { result ≡ each_along (string_of shorter.entry) (string_of longer.entry) }
{
    all_along(longer.vertices(), shorter) && all_along(shorter.vertices(), longer)
}

// `==` of two accepted strings.
pub fn equal_strings(a: Stored, b: Stored) -> bool
    ensures { result ≡ equal_strings (string_of a.entry) (string_of b.entry) }
{
    if !same_boundary(a, b) {
        return false;
    }
    if a.v.len() < b.v.len() {
        each_along(a, b)
    } else {
        each_along(b, a)
    }
}
