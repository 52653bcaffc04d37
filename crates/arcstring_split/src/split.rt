// A string cut at points, as the source's `split_arcstring_at_points` cuts it.
ghost use Rattle.std.specs.Prelude.{◌≡◌, ◌≤◌, length};
ghost use Rattle.arcstring_check.specs.Answer.{leaves, map_answer};
ghost use Rattle.arcstring.specs.Splice.{splice};
ghost use Rattle.arcstring_split_leg.specs.SplitLeg.{split_answer, piece_count, of_pieces};
ghost use Rattle.arcstring_split.specs.Handed.{flags_of, handed_over};
ghost use Rattle.arcstring.specs.Written.{piece_floats, piece_buoys, piece_counts};
ghost use Rattle.arcstring_split.specs.Split.{piece_flags, split_string};

use arcstring::inner::vertex;
use arcstring::inner::vertex::Numbered;
use arcstring_check::check::Refusal;
use arcstring_check::inner::checks;
use arcstring_cut::inner::cut_place;
use arcstring_piece::inner::pieces::Pieces;

// Whether each piece is closed, copied out as 0 or 1.
fn copy_flags(closed: &[bool], out: &mut [u8])
    requires { length closed.now ≤ length out.old }
    ensures { out.new ≡ splice out.old 0 (flags_of closed.now) }
{
    for (i, flag) in closed.iter().enumerate() {
        out[i] = u8::from(*flag);
    }
}

// The finished pieces copied out, or 7 where one of the four buffers is too short for them.
fn hand_over(
    pieces: &Pieces,
    out: &mut [f64],
    out_buoys: &mut [u32],
    counts: &mut [usize],
    flags: &mut [u8],
) -> Result<Option<usize>, Refusal>
    ensures result_value { split_answer result ≡ map_answer piece_count
        (handed_over pieces.now (length out.old) (length out_buoys.old) (length counts.old) (length flags.old)) }
    ensures out_after { out.new ≡ leaves (map_answer (of_pieces piece_floats)
        (handed_over pieces.now (length out.old) (length out_buoys.old) (length counts.old) (length flags.old)))
        out.old }
    ensures out_buoys_after { out_buoys.new ≡ leaves (map_answer (of_pieces piece_buoys)
        (handed_over pieces.now (length out.old) (length out_buoys.old) (length counts.old) (length flags.old)))
        out_buoys.old }
    ensures counts_after { counts.new ≡ leaves (map_answer (of_pieces piece_counts)
        (handed_over pieces.now (length out.old) (length out_buoys.old) (length counts.old) (length flags.old)))
        counts.old }
    ensures flags_after { flags.new ≡ leaves (map_answer (of_pieces piece_flags)
        (handed_over pieces.now (length out.old) (length out_buoys.old) (length counts.old) (length flags.old)))
        flags.old }
{
    let m = pieces.count;
    if m < 2 {
        return Ok(None);
    }
    let total = pieces.total();
    if (out.len() < 3 * total)
        | (out_buoys.len() < total)
        | (counts.len() < m)
        | (flags.len() < m)
    {
        return Err(Refusal::NoRoom);
    }
    vertex::copy_run(&pieces.v, 0, total, out, 0);
    vertex::copy_items(&pieces.buoys, 0, total, out_buoys, 0);
    vertex::copy_items(&pieces.counts, 0, m, counts, 0);
    copy_flags(&pieces.closed[..m], flags);
    Ok(Some(m))
}

// The string cut at each of the points, as pieces one after another: vertices in `out` and their numbers in `out_buoys`, how many
// vertices each piece has in `counts` and 1 for a closed piece, 0 for an open one, in `flags`. A point cut at brings its own number
// into both pieces. Every piece is built anew, so that it is normalised and may close, when it drops its last vertex's number too;
// its near list is its vertices. Uncut writes nothing. Refuses by 1, 10, 3 and 4 of the vertices, then of the points, by 3 where
// after a cut all pieces together have more than 1,024 vertices, and by 7 where one of the four buffers is too short.
pub fn split_arcstring_at_points(
    v: &[f64],
    buoys: &[u32],
    closed: bool,
    extra: &[f64],
    extra_buoys: &[u32],
    out: &mut [f64],
    out_buoys: &mut [u32],
    counts: &mut [usize],
    flags: &mut [u8],
) -> Result<Option<usize>, Refusal>
    ensures result_value { split_answer result ≡ map_answer piece_count
        (split_string v.now buoys.now closed extra.now extra_buoys.now (length out.old)
        (length out_buoys.old) (length counts.old) (length flags.old)) }
    ensures out_after { out.new ≡ leaves (map_answer (of_pieces piece_floats)
        (split_string v.now buoys.now closed extra.now extra_buoys.now (length out.old)
        (length out_buoys.old) (length counts.old) (length flags.old)))
        out.old }
    ensures out_buoys_after { out_buoys.new ≡ leaves (map_answer (of_pieces piece_buoys)
        (split_string v.now buoys.now closed extra.now extra_buoys.now (length out.old)
        (length out_buoys.old) (length counts.old) (length flags.old)))
        out_buoys.old }
    ensures counts_after { counts.new ≡ leaves (map_answer (of_pieces piece_counts)
        (split_string v.now buoys.now closed extra.now extra_buoys.now (length out.old)
        (length out_buoys.old) (length counts.old) (length flags.old)))
        counts.old }
    ensures flags_after { flags.new ≡ leaves (map_answer (of_pieces piece_flags)
        (split_string v.now buoys.now closed extra.now extra_buoys.now (length out.old)
        (length out_buoys.old) (length counts.old) (length flags.old)))
        flags.old }
{
    checks::check_string(v, buoys)?;
    checks::check_points(extra, extra_buoys)?;
    let mut pieces = Pieces::empty();
    pieces.hold(Numbered { v, buoys }, closed);
    let points = Numbered {
        v: extra,
        buoys: extra_buoys,
    };
    cut_place::cut_at_points(&mut pieces, points)?;
    hand_over(&pieces, out, out_buoys, counts, flags)
}
