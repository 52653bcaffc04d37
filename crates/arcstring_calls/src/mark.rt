// The calls on marks: on a leg, on a string, and a string cut at them.
ghost use Rattle.std.specs.Prelude.{◌≡◌, length};
ghost use Rattle.arcstring_check.specs.Answer.{leaves, map_answer, flag_number};
ghost use Rattle.arcstring.specs.Points.{point};
ghost use Rattle.arcstring.specs.Written.{piece_floats, piece_buoys, piece_counts};
ghost use Rattle.arcstring_split_leg.specs.SplitLeg.{of_pieces};
ghost use Rattle.arcstring_mark.specs.Mark.{on_leg, on_string};
ghost use Rattle.arcstring_mark_cut.specs.CutAtMarks.{cut_at_marks};
ghost use Rattle.arcstring_put.specs.Put.{answer_number, left_in, flag, leg_of_six};
ghost use Rattle.arcstring_calls.specs.Numbers.{pieces_written};

use arcstring_mark::mark;
use arcstring_mark_cut::cut;
use arcstring_put::inner::lent;
use arcstring_put::inner::put::put;
use arcstring_put_found::inner::found;
use sphericalpoint::SphericalPoint;

pub fn arcstring_mark_on_leg(leg: &[f64; 6], x: f64, y: f64, z: f64, yes: &mut u8) -> u32
    ensures value { result ≡ answer_number (on_leg (leg_of_six leg.now) (point x y z)) }
    ensures yes_after { yes.new ≡ left_in flag_number (on_leg (leg_of_six leg.now) (point x y z)) yes.old }
{
    let r = mark::mark_on_leg(lent::leg_of_six(leg), SphericalPoint::new(x, y, z));
    put(r, yes)
}

pub fn arcstring_mark_on_string(x: f64, y: f64, z: f64, v: &[f64], closed: u8, yes: &mut u8) -> u32
    ensures value { result ≡ answer_number (on_string (point x y z) v.now (flag closed)) }
    ensures yes_after { yes.new ≡ left_in flag_number (on_string (point x y z) v.now (flag closed)) yes.old }
{
    let p = SphericalPoint::new(x, y, z);
    let r = mark::mark_on_string(p, v, lent::is_closed(closed));
    put(r, yes)
}

pub fn arcstring_cut_at_marks(
    v: &[f64],
    buoys: &[u32],
    closed: u8,
    points: &[f64],
    point_buoys: &[u32],
    out: &mut [f64],
    out_buoys: &mut [u32],
    counts: &mut [usize],
    pieces: &mut usize,
) -> u32
    ensures value { result ≡ answer_number (cut_at_marks v.now buoys.now (flag closed) points.now point_buoys.now
        (length out.old) (length out_buoys.old) (length counts.old)) }
    ensures out_after { out.new ≡ leaves
        (map_answer (of_pieces piece_floats)
        (cut_at_marks v.now buoys.now (flag closed) points.now point_buoys.now (length out.old)
        (length out_buoys.old) (length counts.old))) out.old }
    ensures out_buoys_after { out_buoys.new ≡ leaves
        (map_answer (of_pieces piece_buoys)
        (cut_at_marks v.now buoys.now (flag closed) points.now point_buoys.now (length out.old)
        (length out_buoys.old) (length counts.old))) out_buoys.old }
    ensures counts_after { counts.new ≡ leaves
        (map_answer (of_pieces piece_counts)
        (cut_at_marks v.now buoys.now (flag closed) points.now point_buoys.now (length out.old)
        (length out_buoys.old) (length counts.old))) counts.old }
    ensures pieces_after { pieces.new ≡ left_in pieces_written
        (cut_at_marks v.now buoys.now (flag closed) points.now point_buoys.now (length out.old)
        (length out_buoys.old) (length counts.old)) pieces.old }
{
    let r = cut::cut_at_marks(
        v,
        buoys,
        lent::is_closed(closed),
        points,
        point_buoys,
        out,
        out_buoys,
        counts,
    );
    found::put_pieces(r, pieces)
}
