// The comparisons of two strings that simplify copies of them.
ghost use Rattle.std.specs.Prelude.{◌≡◌};
ghost use Rattle.arcstring_check.specs.Answer.{flag_number};
ghost use Rattle.arcstring_equals.specs.Simplified.{equals, overlaps};
ghost use Rattle.arcstring_put.specs.Put.{answer_number, left_in, flag};

#[unsafe(no_mangle)]
pub extern "C" fn arcstring_equals(
    a: &[f64],
    a_near: &[f64],
    a_closed: u8,
    b: &[f64],
    b_near: &[f64],
    b_closed: u8,
    yes: &mut u8,
) -> u32
    ensures value { result ≡ answer_number (equals a.now a_near.now (flag a_closed) b.now b_near.now
        (flag b_closed)) }
    ensures yes_after { yes.new ≡ left_in flag_number
        (equals a.now a_near.now (flag a_closed) b.now b_near.now (flag b_closed)) yes.old }
{
    arcstring_calls::simplified::arcstring_equals(a, a_near, a_closed, b, b_near, b_closed, yes)
}

#[unsafe(no_mangle)]
pub extern "C" fn arcstring_overlaps(
    a: &[f64],
    a_near: &[f64],
    a_closed: u8,
    b: &[f64],
    b_near: &[f64],
    b_closed: u8,
    yes: &mut u8,
) -> u32
    ensures value { result ≡ answer_number (overlaps a.now a_near.now (flag a_closed) b.now b_near.now
        (flag b_closed)) }
    ensures yes_after { yes.new ≡ left_in flag_number
        (overlaps a.now a_near.now (flag a_closed) b.now b_near.now (flag b_closed)) yes.old }
{
    arcstring_calls::simplified::arcstring_overlaps(a, a_near, a_closed, b, b_near, b_closed, yes)
}
