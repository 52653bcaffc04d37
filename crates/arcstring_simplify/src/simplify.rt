// A string simplified: its unnecessary vertices removed, each number with its vertex.
ghost use Rattle.std.specs.Prelude.{◌≡◌, ◌/◌, ◌≤◌, ◌<◌, length};
ghost use Rattle.arcstring_check.specs.Answer.{leaves, answer_of};
ghost use Rattle.arcstring_check.specs.Check.{most_points, string_check};
ghost use Rattle.arcstring.specs.Written.{written_result, written_floats, without_buoys, written_buoys};
ghost use Rattle.arcstring_simplify.specs.Simplify as Simplify;

use arcstring::inner::{SHORT_FLOATS, SHORT_POINTS, vertex};
use arcstring_check::check::{MOST_POINTS, Refusal};
use arcstring_check::inner::checks;
use arcstring_rounds::inner;

// An accepted string, simplified in local lists of so many positions.
fn simplify_sized<const POINTS: usize>(
    v: &[f64],
    buoys: &[u32],
    closed: bool,
    out: &mut [f64],
    out_buoys: &mut [u32],
) -> Result<usize, Refusal>
    requires { (string_check v.now buoys.now ≡ 0) × (length v.now / 3 ≤ POINTS) × (POINTS ≤ most_points) }
    ensures result_value { answer_of result ≡ written_result
        (Simplify.simplify v.now buoys.now closed (length out.old) (length out_buoys.old)) }
    ensures out_after { out.new ≡ leaves
        (written_floats (without_buoys (Simplify.simplify v.now buoys.now closed (length out.old)
        (length out_buoys.old)))) out.old }
    ensures out_buoys_after { out_buoys.new ≡ leaves
        (written_buoys (Simplify.simplify v.now buoys.now closed (length out.old) (length out_buoys.old)))
        out_buoys.old }
{
    let mut at = [0; POINTS];
    let mut next = [0; POINTS];
    let n = inner::simplify_positions(v, closed, &mut at, &mut next)?;
    checks::check_room(3 * n, out.len())?;
    checks::check_room(n, out_buoys.len())?;
    vertex::gather_vertices(v, &at[..n], out);
    vertex::gather_buoys(buoys, &at[..n], out_buoys);
    Ok(n)
}

// The string without its unnecessary vertices, as the source judges and removes them; each number stays with its vertex. Flag and
// near list stay. Refuses by 1, 10, 3 and 4 of the vertices, by 5 where a removal lies past the end, and by 7.
// The lists are set to zero first, which for a short string would take longer than its rounds: so there are two sizes.
pub fn simplify(
    v: &[f64],
    buoys: &[u32],
    closed: bool,
    out: &mut [f64],
    out_buoys: &mut [u32],
) -> Result<usize, Refusal>
    ensures result_value { answer_of result ≡ written_result
        (Simplify.simplify v.now buoys.now closed (length out.old) (length out_buoys.old)) }
    ensures out_after { out.new ≡ leaves
        (written_floats (without_buoys (Simplify.simplify v.now buoys.now closed (length out.old)
        (length out_buoys.old)))) out.old }
    ensures out_buoys_after { out_buoys.new ≡ leaves
        (written_buoys (Simplify.simplify v.now buoys.now closed (length out.old) (length out_buoys.old)))
        out_buoys.old }
{
    checks::check_string(v, buoys)?;
    if v.len() <= SHORT_FLOATS {
        return simplify_sized::<SHORT_POINTS>(v, buoys, closed, out, out_buoys);
    }
    simplify_sized::<MOST_POINTS>(v, buoys, closed, out, out_buoys)
}
