// A length by its coordinates: for the crates of this repository.
ghost use Rattle.std.specs.Prelude.{◌≡◌};
ghost use Rattle.sphericalpoint.specs.Vector.{xyz_length};

// The length of the vector with these coordinates. It takes three floats, which go to it in registers: it is too long to become part of
// its callers, and with a point, which goes through memory, building and simplifying took twice the time (docs/DECISIONS.md).
pub fn root_of_squares(x: f64, y: f64, z: f64) -> f64
    ensures { result ≡ xyz_length (record { x = x; y = y; z = z }) }
{
    square_root::sqrt(x * x + y * y + z * z)
}
