// Vertices of flat lists, and their numbers in lists beside them: one read, one written, a run of them copied, those at given
// positions gathered. Every call that moves vertices moves whole ones by these.
ghost use Rattle.std.specs.Prelude.{◌≡◌, ◌∷◌, [], ◌++◌, map, ◌+◌, ◌*◌, ◌/◌, ◌%◌, ◌≤◌, ◌<◌, length, take, drop};
ghost use Rattle.arcstring.specs.Points.{point_at, flat};
ghost use Rattle.arcstring.specs.Positions.{Within, buoy_at, vertex_at, positions_from};
ghost use Rattle.arcstring.specs.Splice.{splice};

use sphericalpoint::SphericalPoint;

// A vertex as it is lent and written: its point, and the number of its buoy, 0 for none.
#[derive(Clone, Copy)]
pub struct Vertex {
    pub place: SphericalPoint,
    pub buoy: u32,
}

// Vertex k of a list.
pub fn vertex_at(v: &[f64], k: usize) -> SphericalPoint
    requires { 3 * k + 3 ≤ length v.now }
    ensures { result ≡ point_at v.now k }
{
    let at = 3 * k;
    SphericalPoint {
        x: v[at],
        y: v[at + 1],
        z: v[at + 2],
    }
}

// The vertices of a string in a flat list, and how many they are.
#[derive(Clone, Copy)]
pub struct Vertices<'a> {
    pub v: &'a [f64],
    pub n: usize,
    ghost whole: { length v.now ≡ 3 * n },
}

impl<'a> Vertices<'a> {
    // Those of a list of whole points.
    pub fn of(v: &'a [f64]) -> Vertices<'a>
        requires { length v.now % 3 ≡ 0 }
        ensures { (result.v.now ≡ v.now) × (result.n ≡ length v.now / 3) }
    {
        Vertices { v, n: v.len() / 3 }
    }

    // Vertex k.
    pub fn at(self, k: usize) -> SphericalPoint
        requires { k < self.n }
        ensures { result ≡ point_at self.entry.v.now k }
    {
        vertex_at(self.v, k)
    }
}

// Vertices and their numbers, as many of the one as of the other.
#[derive(Clone, Copy)]
pub struct Numbered<'a> {
    pub v: &'a [f64],
    pub buoys: &'a [u32],
    ghost as_many: { length v.now ≡ 3 * length buoys.now },
}

impl<'a> Numbered<'a> {
    // The vertices alone.
    pub fn vertices(self) -> Vertices<'a>
        ensures { (result.v.now ≡ self.entry.v.now) × (result.n ≡ length self.entry.buoys.now) }
    {
        Vertices {
            v: self.v,
            n: self.buoys.len(),
        }
    }

    // How many they are.
    pub fn len(self) -> usize
        ensures { result ≡ length self.entry.buoys.now }
    {
        self.buoys.len()
    }

    // Vertex k with its number.
    pub fn at(self, k: usize) -> Vertex
        requires { k < length self.buoys.now }
        ensures { result ≡ vertex_at self.entry.v.now self.entry.buoys.now k }
    {
        Vertex {
            place: vertex_at(self.v, k),
            buoy: self.buoys[k],
        }
    }
}

// A point written as vertex k.
pub fn put_vertex(out: &mut [f64], k: usize, p: SphericalPoint)
    requires { 3 * k + 3 ≤ length out.old }
    ensures { out.new ≡ splice out.old (3 * k) (p.x ∷ p.y ∷ p.z ∷ []) }
{
    let at = 3 * k;
    out[at] = p.x;
    out[at + 1] = p.y;
    out[at + 2] = p.z;
}

// `count` items of a list from position `from` on, copied to `out` from position `to` on. Not by `copy_from_slice`, since the library
// asks for no memmove.
pub fn copy_items<T: Copy>(list: &[T], from: usize, count: usize, out: &mut [T], to: usize)
    requires { (from + count ≤ length list.now) × (to + count ≤ length out.old) }
    ensures { out.new ≡ splice out.old to (take count (drop from list.now)) }
{
    for i in 0..count {
        out[to + i] = list[from + i];
    }
}

// `count` vertices of `v` from position `from` on, copied to `out` from position `to` on.
pub fn copy_run(v: &[f64], from: usize, count: usize, out: &mut [f64], to: usize)
    requires { (3 * (from + count) ≤ length v.now) × (3 * (to + count) ≤ length out.old) }
    ensures { out.new ≡ splice out.old (3 * to) (take (3 * count) (drop (3 * from) v.now)) }
{
    copy_items(v, 3 * from, 3 * count, out, 3 * to);
}

// The vertices that stand at the positions of `at`, in their order.
pub fn gather_vertices(v: &[f64], at: &[usize], out: &mut [f64])
    requires { Within (length v.now / 3) at.now × (3 * length at.now ≤ length out.old) }
    ensures { out.new ≡ flat (map (point_at v.now) at.now) ++ drop (3 * length at.now) out.old }
{
    for (i, k) in at.iter().enumerate() {
        put_vertex(out, i, vertex_at(v, *k));
    }
}

// The numbers of these. Not one function with the above: what both wrote would be stated of parts of lists, which is no plainer to any caller.
pub fn gather_buoys(buoys: &[u32], at: &[usize], out: &mut [u32])
    requires { Within (length buoys.now) at.now × (length at.now ≤ length out.old) }
    ensures { out.new ≡ map (buoy_at buoys.now) at.now ++ drop (length at.now) out.old }
{
    for (i, k) in at.iter().enumerate() {
        out[i] = buoys[*k];
    }
}

// The positions 0 to n - 1.
pub fn positions(n: usize, at: &mut [usize])
    requires { n ≤ length at.old }
    ensures { at.new ≡ positions_from 0 n ++ drop n at.old }
{
    for i in 0..n {
        at[i] = i;
    }
}
