// The size of a float, exactly and by value.
ghost use Rattle.std.specs.Prelude.{◌≡◌};
ghost use Rattle.ieee754.specs.Size.{abs};
ghost use Rattle.ieee754.specs.Value.{value};

// The size of a float: the sign is cleared, of a zero too.
pub fn size(x: f64) -> f64
    ensures { result ≡ abs x }
{
    x.abs()
}

// The size by value: the larger of x and -x. A zero may keep its sign, which changes no sum's value.
pub fn magnitude(x: f64) -> f64
    ensures { value result ≡ value (abs x) }
{
    if x > -x { x } else { -x }
}
