// The call that splits a string at points.
ghost use Rattle.std.specs.Prelude.{◌≡◌, length};
ghost use Rattle.arcstring_check.specs.Answer.{leaves, map_answer};
ghost use Rattle.arcstring_split_leg.specs.SplitLeg.{of_pieces};
ghost use Rattle.arcstring.specs.Written.{piece_floats, piece_buoys, piece_counts};
ghost use Rattle.arcstring_split.specs.Split.{split_string, piece_flags};
ghost use Rattle.arcstring_put.specs.Put.{answer_number, left_in, flag};
ghost use Rattle.arcstring_calls.specs.Numbers.{pieces_written};

use arcstring_put::inner::lent;
use arcstring_put_found::inner::found;
use arcstring_split::split;

pub fn arcstring_split(
    v: &[f64],
    buoys: &[u32],
    closed: u8,
    points: &[f64],
    point_buoys: &[u32],
    out: &mut [f64],
    out_buoys: &mut [u32],
    counts: &mut [usize],
    flags: &mut [u8],
    pieces: &mut usize,
) -> u32
    ensures value { result ≡ answer_number (split_string v.now buoys.now (flag closed) points.now point_buoys.now
        (length out.old) (length out_buoys.old) (length counts.old) (length flags.old)) }
    ensures out_after { out.new ≡ leaves
        (map_answer (of_pieces piece_floats)
        (split_string v.now buoys.now (flag closed) points.now point_buoys.now (length out.old)
        (length out_buoys.old) (length counts.old) (length flags.old))) out.old }
    ensures out_buoys_after { out_buoys.new ≡ leaves
        (map_answer (of_pieces piece_buoys) (split_string v.now buoys.now (flag closed) points.now point_buoys.now
        (length out.old) (length out_buoys.old) (length counts.old) (length flags.old)))
        out_buoys.old }
    ensures counts_after { counts.new ≡ leaves
        (map_answer (of_pieces piece_counts)
        (split_string v.now buoys.now (flag closed) points.now point_buoys.now (length out.old)
        (length out_buoys.old) (length counts.old) (length flags.old))) counts.old }
    ensures flags_after { flags.new ≡ leaves
        (map_answer (of_pieces piece_flags) (split_string v.now buoys.now (flag closed) points.now point_buoys.now
        (length out.old) (length out_buoys.old) (length counts.old) (length flags.old))) flags.old }
    ensures pieces_after { pieces.new ≡ left_in pieces_written
        (split_string v.now buoys.now (flag closed) points.now point_buoys.now (length out.old)
        (length out_buoys.old) (length counts.old) (length flags.old)) pieces.old }
{
    let r = split::split_arcstring_at_points(
        v,
        buoys,
        lent::is_closed(closed),
        points,
        point_buoys,
        out,
        out_buoys,
        counts,
        flags,
    );
    found::put_pieces(r, pieces)
}
