// The call that inserts vertices into a string.
ghost use Rattle.std.specs.Prelude.{◌≡◌, length};
ghost use Rattle.arcstring_check.specs.Answer.{leaves};
ghost use Rattle.arcstring.specs.Written.{written_floats, without_buoys, written_buoys};
ghost use Rattle.arcstring_insert.specs.Insert.{insert_vertices};
ghost use Rattle.arcstring_put.specs.Put.{answer_number, left_in, flag};

use arcstring_insert::insert;
use arcstring_put::inner::lent;
use arcstring_put::inner::put::put;

pub fn arcstring_insert_vertices(
    v: &[f64],
    buoys: &[u32],
    closed: u8,
    points: &[f64],
    point_buoys: &[u32],
    out: &mut [f64],
    out_buoys: &mut [u32],
    count: &mut usize,
) -> u32
    ensures value { result ≡ answer_number (insert_vertices v.now buoys.now (flag closed) points.now point_buoys.now
        (length out.old) (length out_buoys.old)) }
    ensures out_after { out.new ≡ leaves
        (written_floats (without_buoys (insert_vertices v.now buoys.now (flag closed) points.now point_buoys.now
        (length out.old) (length out_buoys.old)))) out.old }
    ensures out_buoys_after { out_buoys.new ≡ leaves
        (written_buoys (insert_vertices v.now buoys.now (flag closed) points.now point_buoys.now
        (length out.old) (length out_buoys.old))) out_buoys.old }
    ensures count_after { count.new ≡ left_in length
        (insert_vertices v.now buoys.now (flag closed) points.now point_buoys.now (length out.old)
        (length out_buoys.old)) count.old }
{
    let flag = lent::is_closed(closed);
    let r = insert::insert_vertices(v, buoys, flag, points, point_buoys, out, out_buoys);
    put(r, count)
}
