// The comparisons of two strings that simplify copies of them.
ghost use Rattle.std.specs.Prelude.{◌≡◌};
ghost use Rattle.arcstring_check.specs.Answer.{flag_number};
ghost use Rattle.arcstring_equals.specs.Simplified.{equals, overlaps};
ghost use Rattle.arcstring_put.specs.Put.{answer_number, left_in, flag};

use arcstring_equals::simplified;
use arcstring_put::inner::lent;
use arcstring_put::inner::put::put;

pub fn arcstring_equals(
    a: &[f64],
    a_near: &[f64],
    a_closed: u8,
    b: &[f64],
    b_near: &[f64],
    b_closed: u8,
    yes: &mut u8,
) -> u32
    ensures value { result ≡ answer_number (equals a.now a_near.now (flag a_closed) b.now b_near.now
        (flag b_closed)) }
    ensures yes_after { yes.new ≡ left_in flag_number
        (equals a.now a_near.now (flag a_closed) b.now b_near.now (flag b_closed)) yes.old }
{
    let first = lent::is_closed(a_closed);
    let second = lent::is_closed(b_closed);
    put(simplified::equals(a, a_near, first, b, b_near, second), yes)
}

pub fn arcstring_overlaps(
    a: &[f64],
    a_near: &[f64],
    a_closed: u8,
    b: &[f64],
    b_near: &[f64],
    b_closed: u8,
    yes: &mut u8,
) -> u32
    ensures value { result ≡ answer_number (overlaps a.now a_near.now (flag a_closed) b.now b_near.now
        (flag b_closed)) }
    ensures yes_after { yes.new ≡ left_in flag_number
        (overlaps a.now a_near.now (flag a_closed) b.now b_near.now (flag b_closed)) yes.old }
{
    let first = lent::is_closed(a_closed);
    let second = lent::is_closed(b_closed);
    put(
        simplified::overlaps(a, a_near, first, b, b_near, second),
        yes,
    )
}
