// The four counts of pairs of legs.
ghost use Rattle.std.specs.Prelude.{◌≡◌, [], ◌∷◌};

// How many of the visited pairs are in each class.
#[derive(Clone, Copy)]
pub struct Counts {
    pub clean: u64,
    pub end: u64,
    pub grazing: u64,
    pub apart: u64,
}

// The counts in the sequence of the classes' numbers.
impl From<Counts> for [u64; 4] {
    ghost from_gives = { λ c out. out ≡ c.clean ∷ c.end ∷ c.grazing ∷ c.apart ∷ [] };

    fn from(c: Counts) -> [u64; 4] {
        [c.clean, c.end, c.grazing, c.apart]
    }
}
