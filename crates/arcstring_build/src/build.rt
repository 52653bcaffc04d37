// A string built from a list of points, as the source's `try_from` and `try_new` build it. What is answered is how many vertices were written, and
// whether the string is closed.
ghost use Rattle.std.specs.Prelude.{◌≡◌, ◌*◌, length};
ghost use Rattle.arcstring_check.specs.Answer.{leaves, answer_of};
ghost use Rattle.arcstring_build.specs.Build.{build_flagged, built_result, built_floats, built_buoys};
ghost use Rattle.arcstring_build.specs.Build as Build;

use crate::inner;
use arcstring::inner::vertex;
use arcstring::inner::vertex::Vertices;
use arcstring_check::check::Refusal;
use arcstring_check::inner::checks;

// The string that the points of `v` make, each vertex with its point's number: each point divided by its length unless that
// is below 3e-11; and if first and last then are equal, without the last, the rest normalised once more, and closed. Its near
// list is its vertices. Refuses by 1, 10, 2, 3 and 4 of the points, and by 7.
pub fn build(
    v: &[f64],
    buoys: &[u32],
    out: &mut [f64],
    out_buoys: &mut [u32],
) -> Result<(usize, bool), Refusal>
    ensures result_value { answer_of result ≡ built_result
        (Build.build v.now buoys.now (length out.old) (length out_buoys.old)) }
    ensures out_after { out.new ≡ leaves
        (built_floats (Build.build v.now buoys.now (length out.old) (length out_buoys.old))) out.old }
    ensures out_buoys_after { out_buoys.new ≡ leaves
        (built_buoys (Build.build v.now buoys.now (length out.old) (length out_buoys.old)))
        out_buoys.old }
{
    checks::check_building(v, buoys)?;
    let all = v.len() / 3;
    let closed = inner::ends_meet(Vertices { v, n: all });
    let n = all - usize::from(closed);
    checks::check_rooms(n, out.len(), out_buoys.len())?;
    if closed {
        inner::build_closed(v, n, out);
    } else {
        inner::build_open(v, n, out);
    }
    vertex::copy_items(buoys, 0, n, out_buoys, 0);
    Ok((n, closed))
}

// The same with a given flag, which replaces only the flag: vertices and numbers are those of `build`.
pub fn build_flagged(
    v: &[f64],
    buoys: &[u32],
    closed: bool,
    out: &mut [f64],
    out_buoys: &mut [u32],
) -> Result<(usize, bool), Refusal>
    ensures result_value { answer_of result ≡ built_result
        (build_flagged v.now buoys.now closed (length out.old) (length out_buoys.old)) }
    ensures out_after { out.new ≡ leaves
        (built_floats (build_flagged v.now buoys.now closed (length out.old) (length out_buoys.old)))
        out.old }
    ensures out_buoys_after { out_buoys.new ≡ leaves
        (built_buoys (build_flagged v.now buoys.now closed (length out.old) (length out_buoys.old)))
        out_buoys.old }
{
    let (n, _) = build(v, buoys, out, out_buoys)?;
    Ok((n, closed))
}
