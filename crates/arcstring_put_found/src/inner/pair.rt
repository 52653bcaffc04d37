// A pair of legs put into the places that a C program lends: its class, 1 where the listings keep its point, and the point.
ghost use Rattle.std.specs.Prelude.{◌≡◌};
ghost use Rattle.arcstring_check.specs.Answer.{option_of};
ghost use Rattle.arcstring_pair.specs.Pair.{class_number, pair_point, pair_kept};
ghost use Rattle.arcstring_crossing.specs.Crossing.{crossed_answer};
ghost use Rattle.arcstring_put.specs.Put.{answer_number, left_in};
ghost use Rattle.arcstring_put_found.specs.PutFound.{class_byte, kept_byte, point_place};

use arcstring_check::check::Refusal;
use arcstring_pair::pair::{Outcome, Pair};
use arcstring_put::inner::put::put;
use sphericalpoint::SphericalPoint;

// The classes' numbers are the C interface's.
fn class_number(p: Pair) -> u8
    ensures { result ≡ class_number p }
{
    match p {
        Pair::Clean(_) => 1,
        Pair::End(_) => 2,
        Pair::Grazing(_) => 3,
        Pair::Apart => 4,
    }
}

// Whether the listings keep its point.
fn is_kept(p: Pair) -> bool
    ensures { result ≡ pair_kept p }
{
    matches!(p, Pair::Clean(_) | Pair::Grazing(Outcome::Kept(_)))
}

// The point that it has, where it has one.
fn point_of(p: Pair) -> Option<SphericalPoint>
    ensures { option_of result ≡ pair_point p }
{
    match p {
        Pair::Clean(t) | Pair::End(t) => Some(t),
        Pair::Grazing(Outcome::Kept(t) | Outcome::Dropped(t)) => Some(t),
        Pair::Grazing(Outcome::None) | Pair::Apart => None,
    }
}

pub fn put_pair(
    r: Result<Pair, Refusal>,
    class_: &mut u8,
    kept: &mut u8,
    point: &mut [f64; 3],
) -> u32
    ensures { (result ≡ answer_number (crossed_answer r)) × (class_.new ≡ left_in class_byte (crossed_answer r) class_.old)
        × (kept.new ≡ left_in kept_byte (crossed_answer r) kept.old)
        × (point.new ≡ left_in (point_place point.old) (crossed_answer r) point.old) }
{
    if let Ok(Some(t)) = r.map(point_of) {
        *point = t.into();
    }
    put(r.map(is_kept), kept);
    put(r.map(class_number), class_)
}
