// The tests of four side values: whether one grazes, whether all are above zero or below it, their signs, and the pass's test that a pair is apart.
ghost use Rattle.std.specs.Prelude.{◌≡◌, Bool, true, false, cond, Float};
ghost use Rattle.std.specs.Float.{binary64};
ghost use Rattle.std.specs.Float.Ieee.{mul, lt};
ghost use Rattle.arcstring_sides.specs.Sides.{shows_apart, grazes, is_above, is_below, sign_negative, sign_positive, some_side, every_side};

// Whether a side value grazes: its size is at most the margin.
fn is_grazing(x: f64, margin: f64) -> bool
    ensures { result ≡ grazes margin x }
{
    float_sizes::inner::magnitude(x) <= margin
}

fn is_above(x: f64) -> bool
    ensures { result ≡ is_above x }
{
    x > 0.0
}

fn is_below(x: f64) -> bool
    ensures { result ≡ is_below x }
{
    x < 0.0
}

// Whether the sign bit is set, of a zero too; a NaN has no sign here.
fn is_sign_negative(x: f64) -> bool
    ensures { result ≡ sign_negative x }
{
    !x.is_nan() && x.is_sign_negative()
}

// Whether the sign bit is clear, of a zero too.
fn is_sign_positive(x: f64) -> bool
    ensures { result ≡ sign_positive x }
{
    !x.is_nan() && x.is_sign_positive()
}

// Whether all four side values pass a test, with no branch.
fn every_side<F: Fn(f64) -> bool>(s: [f64; 4], test: F) -> bool
    requires { F.IsAlwaysCallable test }
    ensures { (t : Float → Bool) → ((x : Float) (r : Bool) → F.post test x r → r ≡ t x) → result ≡ every_side t s }
{
    test(s[0]) & test(s[1]) & test(s[2]) & test(s[3])
}

// The sides are joined by `|`, and no other test asks for some side: a form of `every_side` for it would be no plainer.
pub fn some_grazing(s: [f64; 4], margin: f64) -> bool
    ensures { result ≡ some_side (grazes margin) s }
{
    is_grazing(s[0], margin)
        | is_grazing(s[1], margin)
        | is_grazing(s[2], margin)
        | is_grazing(s[3], margin)
}

pub fn all_above(s: [f64; 4]) -> bool
    ensures { result ≡ every_side is_above s }
{
    every_side(s, is_above)
}

pub fn all_below(s: [f64; 4]) -> bool
    ensures { result ≡ every_side is_below s }
{
    every_side(s, is_below)
}

pub fn all_sign_positive(s: [f64; 4]) -> bool
    ensures { result ≡ every_side sign_positive s }
{
    every_side(s, is_sign_positive)
}

pub fn all_sign_negative(s: [f64; 4]) -> bool
    ensures { result ≡ every_side sign_negative s }
{
    every_side(s, is_sign_negative)
}

// The smaller of two floats, with no branch; the second where either is a NaN.
fn smaller(x: f64, y: f64) -> f64
    ensures { result ≡ cond (lt x y) x y }
{
    if x < y { x } else { y }
}

// The least of the side values' squares. Above the margin's square none grazes.
fn least_square(s: [f64; 4]) -> f64
    ensures { (margin : Float) → lt (mul binary64 margin margin) result ≡ true → some_side (grazes margin) s ≡ false }
{
    let last = smaller(s[2] * s[2], s[3] * s[3]);
    smaller(s[0] * s[0], smaller(s[1] * s[1], last))
}

// The least of the products of the first side value with the others. Below zero, some is above zero and some below.
fn least_product(s: [f64; 4]) -> f64
    ensures { is_below result ≡ true → (some_side is_above s ≡ true) × (some_side is_below s ≡ true) }
{
    smaller(s[0] * s[1], smaller(s[0] * s[2], s[0] * s[3]))
}

// Whether the four side values show that a pair is apart: none grazes, some is above zero and some below. With no
// branch, for a pass over many pairs. It may miss such a pair, where a square or a product vanishes, which is then tested
// as any other.
pub fn shows_apart(s: [f64; 4], margin: f64) -> bool
    ensures { result ≡ true → shows_apart margin s ≡ true }
{
    (least_square(s) > margin * margin) & (least_product(s) < 0.0)
}
