// The calls that compare two strings.
ghost use Rattle.std.specs.Prelude.{◌≡◌};
ghost use Rattle.arcstring_check.specs.Answer.{flag_number};
ghost use Rattle.arcstring_relation.specs.Relation.{equal, crosses, within, contains};
ghost use Rattle.arcstring_put.specs.Put.{answer_number, left_in, flag};

#[unsafe(no_mangle)]
pub extern "C" fn arcstring_eq(
    a: &[f64],
    a_near: &[f64],
    a_closed: u8,
    b: &[f64],
    b_near: &[f64],
    b_closed: u8,
    yes: &mut u8,
) -> u32
    ensures value { result ≡ answer_number (equal a.now a_near.now (flag a_closed) b.now b_near.now
        (flag b_closed)) }
    ensures yes_after { yes.new ≡ left_in flag_number
        (equal a.now a_near.now (flag a_closed) b.now b_near.now (flag b_closed)) yes.old }
{
    arcstring_calls::relation::arcstring_eq(a, a_near, a_closed, b, b_near, b_closed, yes)
}

#[unsafe(no_mangle)]
pub extern "C" fn arcstring_crosses(
    a: &[f64],
    a_near: &[f64],
    a_closed: u8,
    b: &[f64],
    b_near: &[f64],
    b_closed: u8,
    yes: &mut u8,
) -> u32
    ensures value { result ≡ answer_number (crosses a.now a_near.now (flag a_closed) b.now b_near.now
        (flag b_closed)) }
    ensures yes_after { yes.new ≡ left_in flag_number
        (crosses a.now a_near.now (flag a_closed) b.now b_near.now (flag b_closed)) yes.old }
{
    arcstring_calls::relation::arcstring_crosses(a, a_near, a_closed, b, b_near, b_closed, yes)
}

#[unsafe(no_mangle)]
pub extern "C" fn arcstring_within(
    a: &[f64],
    b: &[f64],
    b_near: &[f64],
    b_closed: u8,
    yes: &mut u8,
) -> u32
    ensures value { result ≡ answer_number (within a.now b.now b_near.now (flag b_closed)) }
    ensures yes_after { yes.new ≡ left_in flag_number (within a.now b.now b_near.now (flag b_closed))
        yes.old }
{
    arcstring_calls::relation::arcstring_within(a, b, b_near, b_closed, yes)
}

#[unsafe(no_mangle)]
pub extern "C" fn arcstring_contains(
    a: &[f64],
    a_near: &[f64],
    a_closed: u8,
    b: &[f64],
    yes: &mut u8,
) -> u32
    ensures value { result ≡ answer_number (contains a.now a_near.now (flag a_closed) b.now) }
    ensures yes_after { yes.new ≡ left_in flag_number (contains a.now a_near.now (flag a_closed) b.now)
        yes.old }
{
    arcstring_calls::relation::arcstring_contains(a, a_near, a_closed, b, yes)
}
