// Unnecessary vertices removed, round by round, as the source's `simplify` judges and removes them. The rounds move
// positions of the lent vertices; what stands at those that are left is gathered at the end.
ghost use Rattle.std.specs.Prelude.{◌≡◌, map, ◌/◌, ◌≤◌, ◌<◌, length, take};
ghost use Rattle.arcstring_check.specs.Answer.{leaves, answer_of};
ghost use Rattle.arcstring.specs.Points.{point_at};
ghost use Rattle.arcstring.specs.Positions.{Within, positions_from};
ghost use Rattle.arcstring.specs.Written.{written_result, written_floats};
ghost use Rattle.arcstring.specs.Work.{held, held_count};
ghost use Rattle.arcstring_rounds.specs.Rounds.{third_position, unnecessary_positions, remove_all, simplified, simplify_points};
ghost use Rattle.arcstring_rounds.specs.Rounds as Rounds;
ghost use Rattle.arcstring_rounds.specs.Kept.{kept_vertices};

use arcstring::inner::vertex;
use arcstring_check::check::{MOST_POINTS, Refusal};
use arcstring_check::inner::checks;

// The position of the third point that vertex k of n is judged by: the next vertex, and vertex 2 for the last.
fn third_position(k: usize, n: usize) -> usize
    requires { (3 ≤ n) × (1 ≤ k) × (k < n) }
    ensures { (result ≡ third_position k n) × (result < n) }
{
    if k + 1 < n { k + 1 } else { n - k + 1 }
}

// The vertices at the positions of a list, three at least.
#[derive(Clone, Copy)]
struct Chosen<'a> {
    v: &'a [f64],
    at: &'a [usize],
    ghost enough: { Within (length v.now / 3) at.now × (3 ≤ length at.now) },
}

impl Chosen<'_> {
    // Whether vertex k is judged unnecessary.
    fn unnecessary(self, k: usize) -> bool
        requires { (1 ≤ k) × (k < length self.at.now) }
        ensures { result ≡ Rounds.unnecessary (map (point_at self.entry.v.now) self.entry.at.now) k }
    {
        let before = self.at[k - 1];
        let this = self.at[k];
        let t = third_position(k, self.at.len());
        let third = self.at[t];
        // The coordinates go to the test in registers.
        let a = vertex::vertex_at(self.v, before);
        let b = vertex::vertex_at(self.v, this);
        let c = vertex::vertex_at(self.v, third);
        sphericalpoint_coplanar::inner::coplanar_of(a.x, a.y, a.z, b.x, b.y, b.z, c.x, c.y, c.z)
    }

    // Position 0, and position k + skip for each k from 1 on whose vertex is not judged unnecessary.
    fn keep(self, skip: usize, next: &mut [usize]) -> usize
        requires { (skip ≤ 1) × (length self.at.now ≤ length next.old) }
        ensures { (result ≤ length self.entry.at.now)
            × (take result next.new ≡ kept_vertices (map (point_at self.entry.v.now) self.entry.at.now) self.entry.at.now skip) }
    {
        next[0] = self.at[0];
        // `kept` is counted by hand: no method filters into a lent list, and there is no heap to collect in.
        let mut kept = 1;
        for k in 1..self.at.len() - skip {
            if !self.unnecessary(k) {
                next[kept] = self.at[k + skip];
                kept += 1;
            }
        }
        kept
    }

    // One round: what is left, at the start of `next`. A closed string judges vertex 1 twice: where it goes, it goes first, so
    // that the vertex after each one judged unnecessary is removed, and the last one's would lie past the end.
    fn round(self, closed: bool, next: &mut [usize]) -> Result<usize, Refusal>
        requires { length self.at.now ≤ length next.old }
        ensures { (held result next.new
            ≡ remove_all (unnecessary_positions (map (point_at self.entry.v.now) self.entry.at.now) closed) self.entry.at.now)
            × (held_count result ≤ length self.entry.at.now) }
    {
        if !closed {
            return Ok(self.keep(0, next));
        }
        if !self.unnecessary(1) {
            return Ok(self.keep(0, next));
        }
        if self.unnecessary(self.at.len() - 1) {
            return Err(Refusal::RemovesPastEnd);
        }
        Ok(self.keep(1, next))
    }
}

// Rounds until nothing is judged unnecessary or two vertices are left: their positions, at the start of `at`.
fn simplify_rounds(
    v: &[f64],
    at: &mut [usize],
    closed: bool,
    next: &mut [usize],
) -> Result<usize, Refusal>
    requires { Within (length v.now / 3) at.old × (length at.old ≤ length next.old) }
    ensures { (held result at.new ≡ simplified (point_at v.now) closed at.old) × (held_count result ≤ length at.old) }
{
    let mut m = at.len();
    while m > 2 {
        let left = Chosen { v, at: &at[..m] };
        let kept = left.round(closed, next)?;
        if kept == m {
            return Ok(m);
        }
        vertex::copy_items(next, 0, kept, at, 0);
        m = kept;
    }
    Ok(m)
}

// The positions of the vertices that are left, at the start of `at`.
pub fn simplify_positions(
    v: &[f64],
    closed: bool,
    at: &mut [usize],
    next: &mut [usize],
) -> Result<usize, Refusal>
    requires { (length v.now / 3 ≤ length at.old) × (length v.now / 3 ≤ length next.old) }
    ensures { (held result at.new ≡ simplified (point_at v.now) closed (positions_from 0 (length v.now / 3)))
        × (held_count result ≤ length v.now / 3) }
{
    let n = v.len() / 3;
    vertex::positions(n, at);
    simplify_rounds(v, &mut at[..n], closed, next)
}

// The points alone, for calls that are lent no numbers. Refuses by 1, 3 and 4 of the vertices, by 5 and by 7.
pub fn simplify_points(v: &[f64], closed: bool, out: &mut [f64]) -> Result<usize, Refusal>
    ensures result_value { answer_of result ≡ written_result (simplify_points v.now closed (length out.old)) }
    ensures out_after { out.new ≡ leaves (written_floats (simplify_points v.now closed (length out.old))) out.old }
{
    checks::check_stored(v)?;
    let mut at = [0; MOST_POINTS];
    let mut next = [0; MOST_POINTS];
    let n = simplify_positions(v, closed, &mut at, &mut next)?;
    checks::check_room(3 * n, out.len())?;
    vertex::gather_vertices(v, &at[..n], out);
    Ok(n)
}
