// Points normalised in a list, once and twice, as the vertices of open and of closed strings are.
ghost use Rattle.std.specs.Prelude.{◌≡◌, ◌++◌, ◌*◌, ◌≤◌, length, take, drop};
ghost use Rattle.arcstring.specs.Points.{points, flat};
ghost use Rattle.arcstring_build.specs.Build.{normalized_all, ends_meet};

use arcstring::inner::vertex;
use arcstring::inner::vertex::Vertices;

// The first `n` points of a list, normalised in place.
pub fn normalize_points(out: &mut [f64], n: usize)
    requires { 3 * n ≤ length out.old }
    ensures { out.new ≡ flat (normalized_all (points (take (3 * n) out.old))) ++ drop (3 * n) out.old }
{
    for i in 0..n {
        let p = vertex::vertex_at(out, i);
        vertex::put_vertex(out, i, sphericalpoint::normalize_unless_short(p));
    }
}

// Whether the first and the last of some points meet once they are normalised.
pub fn ends_meet(string: Vertices) -> bool
    requires { 1 ≤ string.n }
    ensures { result ≡ ends_meet (normalized_all (points string.entry.v.now)) }
{
    let first = sphericalpoint::normalize_unless_short(string.at(0));
    let last = sphericalpoint::normalize_unless_short(string.at(string.n - 1));
    sphericalpoint::xyz_eq(first, last)
}

// The first `m` points of `v`, normalised once: an open string's vertices.
// A loop of its own beside `normalize_points`': copied first, and then normalised in place, a point takes 1 to 3 in 100 longer (measured).
pub fn build_open(v: &[f64], m: usize, out: &mut [f64])
    requires { (3 * m ≤ length v.now) × (3 * m ≤ length out.old) }
    ensures { out.new ≡ flat (normalized_all (points (take (3 * m) v.now))) ++ drop (3 * m) out.old }
{
    for i in 0..m {
        let p = vertex::vertex_at(v, i);
        vertex::put_vertex(out, i, sphericalpoint::normalize_unless_short(p));
    }
}

// The first `m` points of `v`, normalised twice: a closed string's vertices.
pub fn build_closed(v: &[f64], m: usize, out: &mut [f64])
    requires { (3 * m ≤ length v.now) × (3 * m ≤ length out.old) }
    ensures { out.new ≡ flat (normalized_all (normalized_all (points (take (3 * m) v.now)))) ++ drop (3 * m) out.old }
{
    build_open(v, m, out);
    normalize_points(out, m);
}
