// Points put in as vertices, each with its number, as the source's `insert_vertices` puts them in.
ghost use Rattle.std.specs.Prelude.{◌≡◌, ◌≤◌, length};
ghost use Rattle.arcstring_check.specs.Answer.{leaves, answer_of};
ghost use Rattle.arcstring.specs.Points.{numbered, place_of, points};
ghost use Rattle.arcstring_check.specs.Check.{most_points, most_floats, into_rooms};
ghost use Rattle.arcstring.specs.Written.{written_result, written_floats, without_buoys, written_buoys};
ghost use Rattle.arcstring_insert.specs.Insert.{inserted, insert_point, insert_vertices};

use crate::inner;
use arcstring::inner::vertex::{Numbered, Vertex, Vertices};
use arcstring::inner::{leg, vertex};
use arcstring_along::inner::along;
use arcstring_check::check::{MOST_FLOATS, MOST_POINTS, Refusal};
use arcstring_check::inner::checks;

// The local lists that are worked on: the vertices and the numbers that stand in them are the first `count`.
#[derive(Drop)]
struct Work {
    v: [f64; MOST_FLOATS],
    buoys: [u32; MOST_POINTS],
    count: usize,
    ghost fits: { (length v ≡ most_floats) × (length buoys ≡ most_points) × (1 ≤ count) × (count ≤ most_points) },
}

impl Work {
    ghost use Rattle.arcstring_insert.specs.Worked.{standing, worked};

    // One point put in before the start of each leg that it is along. After an insertion the walk goes on two places further.
    fn insert_point(&mut self, closed: bool, x: Vertex) -> Result<(), Refusal>
        ensures { worked result self.new ≡ insert_point place_of closed x (standing self.old) }
    {
        let legs = leg::leg_count(self.count, closed);
        let mut k = 0;
        for _ in 0..legs {
            let string = Vertices {
                v: &self.v[..3 * self.count],
                n: self.count,
            };
            if !along::along_leg_at(x.place, string, k) {
                k += 1;
                continue;
            }
            if self.count == MOST_POINTS {
                return Err(Refusal::TooManyPoints);
            }
            inner::insert_numbered(&mut self.v, &mut self.buoys, self.count, k, x);
            self.count += 1;
            k += 2;
        }
        Ok(())
    }

    // Each of the points in turn.
    fn insert_points(&mut self, closed: bool, extra: Numbered) -> Result<(), Refusal>
        ensures { worked result self.new
            ≡ inserted place_of closed (numbered (points extra.entry.v.now) extra.entry.buoys.now) (standing self.old) }
    {
        for i in 0..extra.len() {
            self.insert_point(closed, extra.at(i))?;
        }
        Ok(())
    }

    // A finished answer: what stands in the local lists copied out, or 7 where it does not fit.
    fn hand_over(&self, out: &mut [f64], out_buoys: &mut [u32]) -> Result<usize, Refusal>
        ensures result_value { answer_of result ≡ written_result
            (into_rooms (length out.old) (length out_buoys.old) (standing self.now)) }
        ensures out_after { out.new ≡ leaves (written_floats (without_buoys
            (into_rooms (length out.old) (length out_buoys.old) (standing self.now)))) out.old }
        ensures out_buoys_after { out_buoys.new ≡ leaves (written_buoys
            (into_rooms (length out.old) (length out_buoys.old) (standing self.now))) out_buoys.old }
    {
        let n = self.count;
        checks::check_room(3 * n, out.len())?;
        checks::check_room(n, out_buoys.len())?;
        vertex::copy_run(&self.v, 0, n, out, 0);
        vertex::copy_items(&self.buoys, 0, n, out_buoys, 0);
        Ok(n)
    }
}

// The string with each of the points put in before the start of every leg that it is along, with its own number. The points are
// used as given; flag and near list stay. Refuses by 1, 10, 3 and 4 of the vertices, by 1, 10, 3 and 4 of the points, by 3 where
// an insertion makes more than 1,024 vertices, and by 7.
pub fn insert_vertices(
    v: &[f64],
    buoys: &[u32],
    closed: bool,
    extra: &[f64],
    extra_buoys: &[u32],
    out: &mut [f64],
    out_buoys: &mut [u32],
) -> Result<usize, Refusal>
    ensures result_value { answer_of result ≡ written_result
        (insert_vertices v.now buoys.now closed extra.now extra_buoys.now
        (length out.old) (length out_buoys.old)) }
    ensures out_after { out.new ≡ leaves (written_floats (without_buoys
        (insert_vertices v.now buoys.now closed extra.now extra_buoys.now
        (length out.old) (length out_buoys.old))))
        out.old }
    ensures out_buoys_after { out_buoys.new ≡ leaves (written_buoys
        (insert_vertices v.now buoys.now closed extra.now extra_buoys.now
        (length out.old) (length out_buoys.old)))
        out_buoys.old }
{
    checks::check_string(v, buoys)?;
    checks::check_points(extra, extra_buoys)?;
    let n = v.len() / 3;
    let mut work = Work {
        v: [0.0; MOST_FLOATS],
        buoys: [0; MOST_POINTS],
        count: n,
    };
    vertex::copy_run(v, 0, n, &mut work.v, 0);
    vertex::copy_items(buoys, 0, n, &mut work.buoys, 0);
    let extra = Numbered {
        v: extra,
        buoys: extra_buoys,
    };
    work.insert_points(closed, extra)?;
    work.hand_over(out, out_buoys)
}
