// The measures of a string.
ghost use Rattle.std.specs.Prelude.{◌≡◌, length};
ghost use Rattle.arcstring_check.specs.Answer.{leaves};
ghost use Rattle.arcstring.specs.Written.{written_floats};
ghost use Rattle.arcstring_measure.specs.Measure.{turn_orientations, midpoints};
ghost use Rattle.arcstring_put.specs.Put.{answer_number, left_in, flag};

use arcstring_measure::measure;
use arcstring_put::inner::lent;
use arcstring_put::inner::put::put;

pub fn arcstring_turn_orientations(v: &[f64], closed: u8, out: &mut [f64], count: &mut usize) -> u32
    ensures value { result ≡ answer_number (turn_orientations v.now (flag closed) (length out.old)) }
    ensures out_after { out.new ≡ leaves (turn_orientations v.now (flag closed) (length out.old)) out.old }
    ensures count_after { count.new ≡ left_in length (turn_orientations v.now (flag closed) (length out.old)) count.old }
{
    let r = measure::xyzs_turn_orientations(v, lent::is_closed(closed), out);
    put(r, count)
}

pub fn arcstring_midpoints(v: &[f64], closed: u8, out: &mut [f64], count: &mut usize) -> u32
    ensures value { result ≡ answer_number (midpoints v.now (flag closed) (length out.old)) }
    ensures out_after { out.new ≡ leaves (written_floats (midpoints v.now (flag closed) (length out.old))) out.old }
    ensures count_after { count.new ≡ left_in length (midpoints v.now (flag closed) (length out.old)) count.old }
{
    let r = measure::midpoints(v, lent::is_closed(closed), out);
    put(r, count)
}
