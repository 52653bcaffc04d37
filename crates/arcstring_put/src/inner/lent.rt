// What a C program lends, as the string layer takes it: a flag is 0 for open and anything else for closed, and a leg is six floats.
ghost use Rattle.std.specs.Prelude.{◌≡◌};
ghost use Rattle.arcstring.specs.Leg.{leg_of};
ghost use Rattle.arcstring_put.specs.Put.{flag, leg_of_six};

pub fn is_closed(closed: u8) -> bool
    ensures { result ≡ flag closed }
{
    closed != 0
}

pub fn leg_of_six(six: &[f64; 6]) -> [[f64; 3]; 2]
    ensures { leg_of result ≡ leg_of_six six.now }
{
    [[six[0], six[1], six[2]], [six[3], six[4], six[5]]]
}
