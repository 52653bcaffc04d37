// A string cut at marks that lie on its legs.
ghost use Rattle.std.specs.Prelude.{◌≡◌, length};
ghost use Rattle.arcstring_check.specs.Answer.{leaves, map_answer};
ghost use Rattle.arcstring.specs.Written.{piece_floats, piece_buoys, piece_counts};
ghost use Rattle.arcstring_split_leg.specs.SplitLeg.{split_answer, piece_count, of_pieces};
ghost use Rattle.arcstring_mark_cut.specs.CutAtMarks.{cut_at_marks};

use crate::pieces::Opened;
use arcstring::inner::vertex::Numbered;
use arcstring_check::check::Refusal;
use arcstring_check::inner::checks;

// The string cut at each of the marks, as pieces one after another: vertices in `out` and their numbers in `out_buoys`, and how many
// vertices each piece has in `counts`. A closed string is opened at vertex 0, which then stands at both ends. Each mark in turn: of
// the first piece that holds it, at the first leg that does, the mark becomes the last vertex of one piece and the first of the next,
// as given and with its own number; but a mark that equals an end of that piece cuts nothing, and so does one that no leg holds.
// Vertices stay as they are, every piece is open, and its near list is its vertices. Uncut writes nothing. Refuses by 1, 10, 3 and 4
// of the vertices, then of the marks, by 3 where after a cut all pieces together have more than 1,024 vertices, and by 7 where one of
// the three buffers is too short.
pub fn cut_at_marks(
    v: &[f64],
    buoys: &[u32],
    closed: bool,
    extra: &[f64],
    extra_buoys: &[u32],
    out: &mut [f64],
    out_buoys: &mut [u32],
    counts: &mut [usize],
) -> Result<Option<usize>, Refusal>
    ensures result_value { split_answer result ≡ map_answer piece_count
        (cut_at_marks v.now buoys.now closed extra.now extra_buoys.now (length out.old)
        (length out_buoys.old) (length counts.old)) }
    ensures out_after { out.new ≡ leaves (map_answer (of_pieces piece_floats)
        (cut_at_marks v.now buoys.now closed extra.now extra_buoys.now (length out.old)
        (length out_buoys.old) (length counts.old)))
        out.old }
    ensures out_buoys_after { out_buoys.new ≡ leaves (map_answer (of_pieces piece_buoys)
        (cut_at_marks v.now buoys.now closed extra.now extra_buoys.now (length out.old)
        (length out_buoys.old) (length counts.old)))
        out_buoys.old }
    ensures counts_after { counts.new ≡ leaves (map_answer (of_pieces piece_counts)
        (cut_at_marks v.now buoys.now closed extra.now extra_buoys.now (length out.old)
        (length out_buoys.old) (length counts.old)))
        counts.old }
{
    checks::check_string(v, buoys)?;
    checks::check_points(extra, extra_buoys)?;
    let mut string = Opened::empty();
    string.open(Numbered { v, buoys }, closed);
    string.cut_at_each(Numbered {
        v: extra,
        buoys: extra_buoys,
    })?;
    string.hand_over(out, out_buoys, counts)
}
