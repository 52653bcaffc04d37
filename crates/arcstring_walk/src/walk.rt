// A string walked backwards, restarted at a vertex, and the run of vertices between two positions.
ghost use Rattle.std.specs.Prelude.{◌≡◌, ◌&&◌, ◌++◌, reverse, ◌*◌, ◌≤◌, ltb, length, take, drop};
ghost use Rattle.arcstring_check.specs.Answer.{leaves, pick, answer_of};
ghost use Rattle.arcstring.specs.Points.{points, flat};
ghost use Rattle.arcstring_walk.specs.Walk.{walk_back, run_of};
ghost use Rattle.arcstring.specs.Written.{written_result, written_floats, without_buoys, written_buoys};
ghost use Rattle.arcstring_walk.specs.Walk as Walk;

use arcstring::inner::vertex;
use arcstring::inner::vertex::Vertices;
use arcstring_check::check::Refusal;
use arcstring_check::inner::checks;

// The vertices of a string, last to first.
fn reverse_vertices(string: Vertices, out: &mut [f64])
    requires { 3 * string.n ≤ length out.old }
    ensures { out.new ≡ flat (reverse (points string.entry.v.now)) ++ drop (3 * string.entry.n) out.old }
{
    for i in 0..string.n {
        vertex::put_vertex(out, i, string.at(string.n - 1 - i));
    }
}

// The numbers, last to first. (The floats of vertices are not simply reversed: each vertex keeps its three in their order.)
fn reverse_buoys(buoys: &[u32], out: &mut [u32])
    requires { length buoys.now ≤ length out.old }
    ensures { out.new ≡ reverse buoys.now ++ drop (length buoys.now) out.old }
{
    let n = buoys.len();
    vertex::copy_items(buoys, 0, n, out, 0);
    out[..n].reverse();
}

// The string backwards, last vertex first, each number with its vertex. Bits, flag and near list stay.
// Refuses by 1, 10, 3 and 4 of the vertices, and by 7.
pub fn walk_back(
    v: &[f64],
    buoys: &[u32],
    out: &mut [f64],
    out_buoys: &mut [u32],
) -> Result<usize, Refusal>
    ensures result_value { answer_of result ≡ written_result
        (walk_back v.now buoys.now (length out.old) (length out_buoys.old)) }
    ensures out_after { out.new ≡ leaves
        (written_floats (without_buoys (walk_back v.now buoys.now (length out.old) (length out_buoys.old))))
        out.old }
    ensures out_buoys_after { out_buoys.new ≡ leaves
        (written_buoys (walk_back v.now buoys.now (length out.old) (length out_buoys.old)))
        out_buoys.old }
{
    checks::check_string(v, buoys)?;
    let n = v.len() / 3;
    checks::check_rooms(n, out.len(), out_buoys.len())?;
    reverse_vertices(Vertices { v, n }, out);
    reverse_buoys(buoys, out_buoys);
    Ok(n)
}

// The items from position k on, and then those before it.
fn rotate<T: Copy>(list: &[T], k: usize, out: &mut [T])
    requires { (k ≤ length list.now) × (length list.now ≤ length out.old) }
    ensures { out.new ≡ (drop k list.now ++ take k list.now) ++ drop (length list.now) out.old }
{
    let n = list.len();
    vertex::copy_items(list, k, n - k, out, 0);
    vertex::copy_items(list, 0, k, out, n - k);
}

// Where a restart begins: at the named vertex of a closed string, else at vertex 0.
fn restart_vertex(n: usize, closed: bool, at: usize) -> usize
    ensures { result ≡ pick (closed && ltb at n) at 0 }
{
    if closed & (at < n) { at } else { 0 }
}

// The string restarted at vertex `at`, each number with its vertex. An open string, or a position that names no vertex,
// gives back the same string. Bits, flag and near list stay. Refuses by 1, 10, 3 and 4 of the vertices, and by 7.
pub fn restart(
    v: &[f64],
    buoys: &[u32],
    closed: bool,
    at: usize,
    out: &mut [f64],
    out_buoys: &mut [u32],
) -> Result<usize, Refusal>
    ensures result_value { answer_of result ≡ written_result
        (Walk.restart v.now buoys.now closed at (length out.old) (length out_buoys.old)) }
    ensures out_after { out.new ≡ leaves
        (written_floats (without_buoys (Walk.restart v.now buoys.now closed at (length out.old)
        (length out_buoys.old)))) out.old }
    ensures out_buoys_after { out_buoys.new ≡ leaves
        (written_buoys (Walk.restart v.now buoys.now closed at (length out.old) (length out_buoys.old)))
        out_buoys.old }
{
    checks::check_string(v, buoys)?;
    let n = v.len() / 3;
    checks::check_rooms(n, out.len(), out_buoys.len())?;
    let k = restart_vertex(n, closed, at);
    rotate(v, 3 * k, out);
    rotate(buoys, k, out_buoys);
    Ok(n)
}

// The run of vertices from position `from` up to, not including, `to`, as that part of the caller's list. Never
// refuses: positions out of order or past the end, or a list that is not whole triples, give the empty part, and
// coordinates are not looked at.
pub fn run<'a>(v: &'a [f64], from: usize, to: usize) -> &'a [f64]
    ensures { result.now ≡ run_of v.now from to }
{
    let n = v.len();
    if n % 3 != 0 {
        return &v[0..0];
    }
    if from > to {
        return &v[0..0];
    }
    if to > n / 3 {
        return &v[0..0];
    }
    let a = 3 * from;
    let b = 3 * to;
    &v[a..b]
}
