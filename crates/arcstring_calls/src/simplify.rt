// The call that simplifies a string.
ghost use Rattle.std.specs.Prelude.{◌≡◌, length};
ghost use Rattle.arcstring_check.specs.Answer.{leaves};
ghost use Rattle.arcstring.specs.Written.{written_floats, without_buoys, written_buoys};
ghost use Rattle.arcstring_simplify.specs.Simplify.{simplify};
ghost use Rattle.arcstring_put.specs.Put.{answer_number, left_in, flag};

use arcstring_put::inner::lent;
use arcstring_put::inner::put::put;
use arcstring_simplify::simplify;

pub fn arcstring_simplify(
    v: &[f64],
    buoys: &[u32],
    closed: u8,
    out: &mut [f64],
    out_buoys: &mut [u32],
    count: &mut usize,
) -> u32
    ensures value { result ≡ answer_number (simplify v.now buoys.now (flag closed) (length out.old)
        (length out_buoys.old)) }
    ensures out_after { out.new ≡ leaves
        (written_floats (without_buoys (simplify v.now buoys.now (flag closed) (length out.old)
        (length out_buoys.old)))) out.old }
    ensures out_buoys_after { out_buoys.new ≡ leaves
        (written_buoys (simplify v.now buoys.now (flag closed) (length out.old) (length out_buoys.old)))
        out_buoys.old }
    ensures count_after { count.new ≡ left_in length
        (simplify v.now buoys.now (flag closed) (length out.old) (length out_buoys.old)) count.old }
{
    let r = simplify::simplify(v, buoys, lent::is_closed(closed), out, out_buoys);
    put(r, count)
}
