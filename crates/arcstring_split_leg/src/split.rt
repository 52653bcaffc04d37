// A leg cut at points, as the source's `split_arc_at_points` cuts it.
ghost use Rattle.std.specs.Prelude.{◌≡◌, length};
ghost use Rattle.arcstring_check.specs.Answer.{leaves, map_answer};
ghost use Rattle.arcstring.specs.Leg.{leg_of};
ghost use Rattle.arcstring_split_leg.specs.SplitLeg.{split_leg, split_answer, leg_floats, piece_count, of_pieces};

use crate::cut_leg::Work;
use arcstring::inner::vertex::Vertices;
use arcstring::inner::{leg, vertex};
use arcstring_check::check::{MOST_FLOATS, Refusal};
use arcstring_check::inner::checks;

// The leg cut at each of the points, as legs one after another, two points each. The second half of a cut is point, point. A
// point equal to an end of a leg does not cut it. Uncut writes nothing. Refuses by 4 of the leg, by 1, 3 and 4 of the points, by
// 3 where a cut makes more than 1,024 points, and by 7.
pub fn split_arc_at_points(
    arc: [[f64; 3]; 2],
    extra: &[f64],
    out: &mut [f64],
) -> Result<Option<usize>, Refusal>
    ensures result_value { split_answer result
        ≡ map_answer piece_count (split_leg (leg_of arc) extra.now (length out.old)) }
    ensures out_after { out.new ≡ leaves
        (map_answer (of_pieces leg_floats) (split_leg (leg_of arc) extra.now (length out.old)))
        out.old }
{
    leg::check_leg(arc)?;
    checks::check_list(extra, Ok(()))?;
    let mut work = Work {
        v: [0.0; MOST_FLOATS],
        count: 1,
    };
    vertex::put_vertex(&mut work.v, 0, leg::start_of(arc));
    vertex::put_vertex(&mut work.v, 1, leg::end_of(arc));
    work.cut_at_points(Vertices::of(extra))?;
    let legs = work.count;
    if legs < 2 {
        return Ok(None);
    }
    checks::check_room(6 * legs, out.len())?;
    vertex::copy_run(&work.v, 0, 2 * legs, out, 0);
    Ok(Some(legs))
}
