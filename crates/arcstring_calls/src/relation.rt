// The calls that compare two strings.
ghost use Rattle.std.specs.Prelude.{◌≡◌};
ghost use Rattle.arcstring_check.specs.Answer.{flag_number};
ghost use Rattle.arcstring_relation.specs.Relation.{equal, crosses, within, contains};
ghost use Rattle.arcstring_put.specs.Put.{answer_number, left_in, flag};

use arcstring_put::inner::lent;
use arcstring_put::inner::put::put;
use arcstring_relation::relation;

pub fn arcstring_eq(
    a: &[f64],
    a_near: &[f64],
    a_closed: u8,
    b: &[f64],
    b_near: &[f64],
    b_closed: u8,
    yes: &mut u8,
) -> u32
    ensures value { result ≡ answer_number (equal a.now a_near.now (flag a_closed) b.now b_near.now
        (flag b_closed)) }
    ensures yes_after { yes.new ≡ left_in flag_number
        (equal a.now a_near.now (flag a_closed) b.now b_near.now (flag b_closed)) yes.old }
{
    let first = lent::is_closed(a_closed);
    let second = lent::is_closed(b_closed);
    put(relation::eq(a, a_near, first, b, b_near, second), yes)
}

pub fn arcstring_crosses(
    a: &[f64],
    a_near: &[f64],
    a_closed: u8,
    b: &[f64],
    b_near: &[f64],
    b_closed: u8,
    yes: &mut u8,
) -> u32
    ensures value { result ≡ answer_number (crosses a.now a_near.now (flag a_closed) b.now b_near.now
        (flag b_closed)) }
    ensures yes_after { yes.new ≡ left_in flag_number
        (crosses a.now a_near.now (flag a_closed) b.now b_near.now (flag b_closed)) yes.old }
{
    let first = lent::is_closed(a_closed);
    let second = lent::is_closed(b_closed);
    put(relation::crosses(a, a_near, first, b, b_near, second), yes)
}

pub fn arcstring_within(a: &[f64], b: &[f64], b_near: &[f64], b_closed: u8, yes: &mut u8) -> u32
    ensures value { result ≡ answer_number (within a.now b.now b_near.now (flag b_closed)) }
    ensures yes_after { yes.new ≡ left_in flag_number (within a.now b.now b_near.now (flag b_closed))
        yes.old }
{
    put(
        relation::within(a, b, b_near, lent::is_closed(b_closed)),
        yes,
    )
}

pub fn arcstring_contains(a: &[f64], a_near: &[f64], a_closed: u8, b: &[f64], yes: &mut u8) -> u32
    ensures value { result ≡ answer_number (contains a.now a_near.now (flag a_closed) b.now) }
    ensures yes_after { yes.new ≡ left_in flag_number (contains a.now a_near.now (flag a_closed) b.now)
        yes.old }
{
    put(
        relation::contains(a, a_near, lent::is_closed(a_closed), b),
        yes,
    )
}
