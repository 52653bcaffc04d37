// What inserting, splitting and cutting share: items moved on in their list, a point put in among vertices, and its number among
// theirs.
ghost use Rattle.std.specs.Prelude.{◌≡◌, ◌∷◌, ◌+◌, ◌-◌, ◌*◌, ◌≤◌, ◌<◌, length, take, drop};
ghost use Rattle.arcstring.specs.Points.{numbered, points};
ghost use Rattle.arcstring.specs.Splice.{splice};
ghost use Rattle.arcstring_insert.specs.Insert.{insert_at};

use arcstring::inner::vertex;
use arcstring::inner::vertex::Vertex;
use sphericalpoint::SphericalPoint;

// The items from position `from` up to `to` moved `by` places on, the last one first. Not by `copy_within`, since the library asks for
// no memmove.
pub fn move_on<T: Copy>(list: &mut [T], from: usize, to: usize, by: usize)
    requires { (from ≤ to) × (to + by ≤ length list.old) }
    ensures { list.new ≡ splice list.old (from + by) (take (to - from) (drop from list.old)) }
{
    for i in (from..to).rev() {
        list[i + by] = list[i];
    }
}

// A point put in as vertex k of n; those from k on stand one place further.
pub fn insert_vertex(work: &mut [f64], n: usize, k: usize, p: SphericalPoint)
    requires { (k ≤ n) × (3 * n + 3 ≤ length work.old) }
    ensures { work.new ≡ splice work.old (3 * k)
        (p.x ∷ p.y ∷ p.z ∷ take (3 * (n - k)) (drop (3 * k) work.old)) }
{
    move_on(work, 3 * k, 3 * n, 3);
    vertex::put_vertex(work, k, p);
}

// A number put in as the k-th of n; those from k on stand one place further.
fn insert_buoy(buoys: &mut [u32], n: usize, k: usize, buoy: u32)
    requires { (k ≤ n) × (n < length buoys.old) }
    ensures { buoys.new ≡ splice buoys.old k (buoy ∷ take (n - k) (drop k buoys.old)) }
{
    move_on(buoys, k, n, 1);
    buoys[k] = buoy;
}

// A vertex put in as the k-th of n, in the list of vertices and in that of their numbers.
pub fn insert_numbered(work: &mut [f64], buoys: &mut [u32], n: usize, k: usize, x: Vertex)
    requires { (length work.old ≡ 3 * length buoys.old) × (k ≤ n) × (n < length buoys.old) }
    ensures { take (n + 1) (numbered (points work.new) buoys.new)
        ≡ insert_at k x (take n (numbered (points work.old) buoys.old)) }
{
    insert_vertex(work, n, k, x.place);
    insert_buoy(buoys, n, k, x.buoy);
}
