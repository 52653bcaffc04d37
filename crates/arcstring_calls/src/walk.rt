// The calls that walk a string: back, from another vertex, and a run of its vertices.
ghost use Rattle.std.specs.Prelude.{◌≡◌, length};
ghost use Rattle.arcstring_check.specs.Answer.{leaves};
ghost use Rattle.arcstring.specs.Written.{written_floats, without_buoys, written_buoys};
ghost use Rattle.arcstring_walk.specs.Walk.{walk_back, restart};
ghost use Rattle.arcstring_put.specs.Put.{answer_number, left_in, flag};
ghost use Rattle.arcstring_calls.specs.Numbers.{run_length, run_start};

use arcstring_put::inner::lent;
use arcstring_put::inner::put::put;
use arcstring_walk::walk;

pub fn arcstring_walk_back(
    v: &[f64],
    buoys: &[u32],
    out: &mut [f64],
    out_buoys: &mut [u32],
    count: &mut usize,
) -> u32
    ensures value { result ≡ answer_number (walk_back v.now buoys.now (length out.old) (length out_buoys.old)) }
    ensures out_after { out.new ≡ leaves
        (written_floats (without_buoys (walk_back v.now buoys.now (length out.old) (length out_buoys.old))))
        out.old }
    ensures out_buoys_after { out_buoys.new ≡ leaves
        (written_buoys (walk_back v.now buoys.now (length out.old) (length out_buoys.old)))
        out_buoys.old }
    ensures count_after { count.new ≡ left_in length
        (walk_back v.now buoys.now (length out.old) (length out_buoys.old)) count.old }
{
    let r = walk::walk_back(v, buoys, out, out_buoys);
    put(r, count)
}

pub fn arcstring_restart(
    v: &[f64],
    buoys: &[u32],
    closed: u8,
    at: usize,
    out: &mut [f64],
    out_buoys: &mut [u32],
    count: &mut usize,
) -> u32
    ensures value { result ≡ answer_number (restart v.now buoys.now (flag closed) at (length out.old)
        (length out_buoys.old)) }
    ensures out_after { out.new ≡ leaves
        (written_floats (without_buoys (restart v.now buoys.now (flag closed) at (length out.old)
        (length out_buoys.old)))) out.old }
    ensures out_buoys_after { out_buoys.new ≡ leaves
        (written_buoys (restart v.now buoys.now (flag closed) at (length out.old) (length out_buoys.old)))
        out_buoys.old }
    ensures count_after { count.new ≡ left_in length
        (restart v.now buoys.now (flag closed) at (length out.old) (length out_buoys.old))
        count.old }
{
    let r = walk::restart(v, buoys, lent::is_closed(closed), at, out, out_buoys);
    put(r, count)
}

pub fn arcstring_run(v: &[f64], from: usize, to: usize, start: &mut usize, len: &mut usize)
    ensures start_after { start.new ≡ run_start v.now from to }
    ensures len_after { len.new ≡ run_length v.now from to }
{
    let part = walk::run(v, from, to);
    *start = if part.is_empty() { 0 } else { 3 * from };
    *len = part.len();
}
