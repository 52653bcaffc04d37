// A pair of legs: its class, and the point that it has.
use sphericalpoint::SphericalPoint;

// What the source does with a grazing pair, by the signs of its side values, of zeros too. Where they agree `arcs_crossing` answers a point, which the
// listings keep, or drop if it is an end; where they differ it answers none.
#[derive(Clone, Copy)]
pub enum Outcome {
    Kept(SphericalPoint),
    Dropped(SphericalPoint),
    None,
}

// The class of a pair of legs, with its point where it has one.
#[derive(Clone, Copy)]
pub enum Pair {
    Clean(SphericalPoint),
    End(SphericalPoint),
    Grazing(Outcome),
    Apart,
}
