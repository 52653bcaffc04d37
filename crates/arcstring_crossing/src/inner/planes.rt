// The planes of a string's legs, worked out once, the pair test by them, and the pass over them that tells which pairs need no test.
ghost use Rattle.std.specs.Prelude.{◌≡◌, ◌≢◌, ℕ, ◌+◌, ◌-◌, ◌≤◌, ◌<◌, eqb, length, get_or, take};
ghost use Rattle.arcstring_check.specs.Answer.{pick};
ghost use Rattle.arcstring_check.specs.Check.{most_points};
ghost use Rattle.arcstring.specs.Leg.{leg_of, leg_at};
ghost use Rattle.arcstring_pair.specs.Pair.{pair_of};
ghost use Rattle.arcstring_pair.specs.declared.pair.Pair.TheVariants.{Apart};
ghost use Rattle.arcstring_crossing.specs.Plane.{plane_of, plane_sides, vector_at, zero_vectors, plane_at, PlanesOf, AllApart, FlagsOf, flagged_from};

use arcstring::inner::leg;
use arcstring::inner::vertex::Vertices;
use arcstring_pair::inner::class;
use arcstring_pair::pair::Pair;
use sphericalpoint::SphericalPoint;

// What the pair test takes of a leg, worked out once for a leg that is tested against many: its own cross product, and the vectors
// whose dot products with the meeting of two legs are its side values. That with `past_start` is above zero where the meeting
// lies past the leg's start, that with `before_end` where it lies before its end.
#[derive(Clone, Copy)]
pub struct Plane {
    pub normal: SphericalPoint,
    pub past_start: SphericalPoint,
    pub before_end: SphericalPoint,
}

pub fn plane_of(arc: [[f64; 3]; 2]) -> Plane
    ensures { result ≡ plane_of (leg_of arc) }
{
    let from = leg::start_of(arc);
    let to = leg::end_of(arc);
    let normal = sphericalpoint::xyz_cross(from, to);
    let past_start = sphericalpoint::xyz_neg(sphericalpoint::xyz_cross(from, normal));
    let before_end = sphericalpoint::xyz_cross(to, normal);
    Plane {
        normal,
        past_start,
        before_end,
    }
}

// The four side values of a pair of legs, by the plane of each and where these meet.
fn side_values(a: Plane, b: Plane, t: SphericalPoint) -> [f64; 4]
    ensures { result ≡ plane_sides a b t }
{
    [
        sphericalpoint::xyz_dot(a.past_start, t),
        sphericalpoint::xyz_dot(a.before_end, t),
        sphericalpoint::xyz_dot(b.past_start, t),
        sphericalpoint::xyz_dot(b.before_end, t),
    ]
}

// N vectors, coordinate by coordinate, so that a pass over many reads each run in sequence.
#[derive(Drop)]
pub struct Vectors<const N: usize> {
    pub x: [f64; N],
    pub y: [f64; N],
    pub z: [f64; N],
}

impl<const N: usize> Vectors<N> {
    // N times the zero vector.
    pub fn zero() -> Vectors<N>
        ensures { result ≡ zero_vectors N }
    {
        Vectors {
            x: [0.0; N],
            y: [0.0; N],
            z: [0.0; N],
        }
    }

    // Vector k.
    pub fn at(&self, k: usize) -> SphericalPoint
        requires { k < N }
        ensures { result ≡ vector_at self.now k }
    {
        SphericalPoint {
            x: self.x[k],
            y: self.y[k],
            z: self.z[k],
        }
    }

    // A vector written as vector k; the others stay.
    pub fn put(&mut self, k: usize, p: SphericalPoint)
        requires { k < N }
        ensures this { vector_at self.new k ≡ p }
        ensures others { (j : ℕ) → j ≢ k → vector_at self.new j ≡ vector_at self.old j }
    {
        self.x[k] = p.x;
        self.y[k] = p.y;
        self.z[k] = p.z;
    }
}

// N planes, vector by vector.
#[derive(Drop)]
pub struct Planes<const N: usize> {
    pub normal: Vectors<N>,
    pub past_start: Vectors<N>,
    pub before_end: Vectors<N>,
}

impl<const N: usize> Planes<N> {
    // N planes that are zero, to be written.
    pub fn zero() -> Planes<N>
        ensures { (result.normal ≡ zero_vectors N) × (result.past_start ≡ zero_vectors N) × (result.before_end ≡ zero_vectors N) }
    {
        Planes {
            normal: Vectors::zero(),
            past_start: Vectors::zero(),
            before_end: Vectors::zero(),
        }
    }

    // Plane k.
    pub fn at(&self, k: usize) -> Plane
        requires { k < N }
        ensures { result ≡ plane_at self.now k }
    {
        Plane {
            normal: self.normal.at(k),
            past_start: self.past_start.at(k),
            before_end: self.before_end.at(k),
        }
    }

    // A plane written as plane k; the others stay.
    pub fn put(&mut self, k: usize, p: Plane)
        requires { k < N }
        ensures this { plane_at self.new k ≡ p }
        ensures others { (j : ℕ) → j ≢ k → plane_at self.new j ≡ plane_at self.old j }
    {
        self.normal.put(k, p.normal);
        self.past_start.put(k, p.past_start);
        self.before_end.put(k, p.before_end);
    }

    // The planes of a string's legs, written.
    pub fn keep(&mut self, legs: Legs)
        requires { legs.count ≤ N }
        ensures { PlanesOf legs.entry.string.v.now legs.entry.string.n legs.entry.count self.new }
    {
        for k in 0..legs.count {
            self.put(k, plane_of(legs.at(k)));
        }
    }
}

// The first `count` legs of a string.
#[derive(Clone, Copy)]
pub struct Legs<'a> {
    pub string: Vertices<'a>,
    pub count: usize,
    ghost within: { (count ≤ string.n) × (string.n ≤ most_points) },
}

impl<'a> Legs<'a> {
    // Leg k.
    pub fn at(self, k: usize) -> [[f64; 3]; 2]
        requires { k < self.count }
        ensures { leg_of result ≡ leg_at self.entry.string.v.now self.entry.string.n k }
    {
        leg::leg_at(self.string, k)
    }
}

// A leg with its plane, to be tested against many.
#[derive(Clone, Copy)]
pub struct Tested {
    pub arc: [[f64; 3]; 2],
    pub plane: Plane,
    ghost known: { plane ≡ plane_of (leg_of arc) },
}

impl Tested {
    // A leg to be tested.
    pub fn of(arc: [[f64; 3]; 2]) -> Tested
        ensures { leg_of result.arc ≡ leg_of arc }
    {
        Tested {
            arc,
            plane: plane_of(arc),
        }
    }
}

// The class of a pair of legs at a margin, by the plane of each: the second is leg k of a string, whose plane is kept as plane k.
pub fn pair_at<const N: usize>(
    a: Tested,
    planes: &Planes<N>,
    string: Vertices,
    k: usize,
    margin: f64,
) -> Pair
    requires { (k < string.n) × (k < N) × (plane_at planes.now k ≡ plane_of (leg_at string.v.now string.n k)) }
    ensures { result ≡ pair_of margin (leg_of a.arc) (leg_at string.entry.v.now string.entry.n k) }
{
    let other = planes.at(k);
    let t = sphericalpoint::xyz_cross(a.plane.normal, other.normal);
    let s = side_values(a.plane, other, t);
    class::class_at(t, a.arc, leg::leg_at(string, k), s, margin)
}

// A string's legs with their planes, which are kept.
#[derive(Clone, Copy)]
pub struct Kept<'a, const N: usize> {
    pub legs: Legs<'a>,
    pub planes: &'a Planes<N>,
    ghost fits: { (legs.count ≤ N) × (N ≤ most_points) },
    ghost known: { PlanesOf legs.string.v.now legs.string.n legs.count planes.now },
}

impl<'a, const N: usize> Kept<'a, N> {
    // The class of a leg's pair with leg k at a margin, by the plane of each.
    pub fn pair(self, a: Tested, k: usize, margin: f64) -> Pair
        requires { k < self.legs.count }
        ensures { result ≡ pair_of margin (leg_of a.arc) (leg_at self.entry.legs.string.v.now self.entry.legs.string.n k) }
    {
        pair_at(a, self.planes, self.legs.string, k, margin)
    }

    // 0 only where a leg's pair with leg k is apart: its side values show it. With no branch, so that a pass over many legs
    // works out several at a time.
    fn flag(self, a: Tested, k: usize, margin: f64) -> usize
        requires { k < self.legs.count }
        ensures { (result ≤ 1) × (result ≡ 0
            → Apart ≡ pair_of margin (leg_of a.arc) (leg_at self.entry.legs.string.v.now self.entry.legs.string.n k)) }
    {
        let other = self.planes.at(k);
        let t = sphericalpoint::xyz_cross(a.plane.normal, other.normal);
        let s = side_values(a.plane, other, t);
        if arcstring_sides::inner::shows_apart(s, margin) {
            0
        } else {
            1
        }
    }
}

// The flags of a leg's pairs with a string's legs from position `from` on, and how many are not 0.
pub fn flag_row<const N: usize>(
    a: Tested,
    b: Kept<'_, N>,
    from: usize,
    margin: f64,
    flags: &mut [usize; N],
) -> usize
    ensures all_apart { result ≡ 0 → AllApart margin (leg_of a.arc) b.entry.legs.string.v.now b.entry.legs.string.n from b.entry.legs.count }
    ensures flags_of { FlagsOf margin (leg_of a.arc) b.entry.legs.string.v.now b.entry.legs.string.n from b.entry.legs.count flags.new }
{
    let mut found = 0;
    for k in from..b.legs.count {
        let f = b.flag(a, k, margin);
        flags[k] = f;
        found += f;
    }
    found
}

// The place after n where a flag is set, else n.
fn next_place(n: usize, flag: usize) -> usize
    requires { n < 4294967296 }
    ensures { result ≡ pick (eqb flag 0) n (n + 1) }
{
    if flag == 0 { n } else { n + 1 }
}

// The positions from `from` up to `to` whose flag is set, in sequence, and how many they are. Each position is written
// and counted only if its flag is set, so that there is no branch to go the wrong way.
pub fn gather<const N: usize>(
    flags: &[usize; N],
    from: usize,
    to: usize,
    found: &mut [usize; N],
) -> usize
    requires { (to ≤ N) × (to ≤ most_points) }
    ensures as_long { length found.new ≡ N }
    ensures few { (result ≤ to - from) × (result ≤ N) }
    ensures all { take result found.new ≡ flagged_from flags.now from (to - from) }
    ensures by_index { (j : ℕ) → j < result → get_or found.new j 0 < to }
{
    let mut n = 0;
    for k in from..to {
        found[n] = k;
        n = next_place(n, flags[k]);
    }
    n
}
