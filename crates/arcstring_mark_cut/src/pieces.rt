// A string that is being cut at marks, in local lists. A cut leaves every vertex in its place and puts the mark in twice, at the end of one piece and at the
// start of the next.
ghost use Rattle.std.specs.Prelude.{◌≡◌, ◌∷◌, [], ◌+◌, ◌*◌, ◌≤◌, ◌<◌, length, get_or, take, drop};
ghost use Rattle.arcstring_check.specs.Check.{most_points};
ghost use Rattle.arcstring.specs.Points.{numbered, place_of, itself, points};
ghost use Rattle.arcstring_piece.specs.Pieces.{sum};
ghost use Rattle.arcstring_mark_cut.specs.CutAtMarks.{opened, at_piece_end};
ghost use Rattle.arcstring_mark_cut.specs.Standing.{opened_room, standing, Stands};

use arcstring::inner::vertex;
use arcstring::inner::vertex::{Numbered, Vertex, Vertices};
use arcstring_check::check::{MOST_POINTS, Refusal};
use arcstring_insert::inner::insert_numbered;
use arcstring_mark::inner::holds;
use arcstring_piece::inner::replace;
use sphericalpoint::{SphericalPoint, xyz_eq};

// Room for an opened string: vertex 0 of a closed one stands there twice.
const OPENED_POINTS: usize = MOST_POINTS + 1;

// Its floats.
const OPENED_FLOATS: usize = 3 * OPENED_POINTS;

// The string copied to the start of the local lists, and opened if it is closed: vertex 0 is then written once more, at the end. How
// many points that makes.
fn copy_opened(string: Numbered, closed: bool, v: &mut [f64], buoys: &mut [u32]) -> usize
    requires { (1 ≤ length string.buoys.now) × (length string.buoys.now ≤ most_points)
        × (length v.old ≡ 3 * opened_room) × (length buoys.old ≡ opened_room) }
    ensures { (take result (numbered (points v.new) buoys.new)
        ≡ opened (numbered (points string.entry.v.now) string.entry.buoys.now) closed)
        × (1 ≤ result) × (result ≤ opened_room) }
{
    let n = string.len();
    vertex::copy_run(string.v, 0, n, v, 0);
    vertex::copy_items(string.buoys, 0, n, buoys, 0);
    if !closed {
        return n;
    }
    vertex::copy_run(string.v, 0, 1, v, n);
    vertex::copy_items(string.buoys, 0, 1, buoys, n);
    n + 1
}

// Whether a mark equals the first or the last of the n vertices from position `at` on.
fn at_piece_end(v: &[f64], at: usize, n: usize, p: SphericalPoint) -> bool
    requires { (1 ≤ n) × (3 * (at + n) ≤ length v.now) }
    ensures { result ≡ at_piece_end itself p (take n (drop at (points v.now))) }
{
    xyz_eq(p, vertex::vertex_at(v, at)) | xyz_eq(p, vertex::vertex_at(v, at + n - 1))
}

// The pieces of a string: their vertices one piece after another, the numbers of these, how many vertices each piece has, how many points the opened string
// had, of which each cut has made two more, and how many pieces there are.
#[derive(Drop)]
pub(crate) struct Opened {
    v: [f64; OPENED_FLOATS],
    buoys: [u32; OPENED_POINTS],
    counts: [usize; MOST_POINTS],
    points: usize,
    count: usize,
    ghost stands: { Stands points count v buoys counts },
}

impl Opened {
    ghost use Rattle.arcstring_check.specs.Answer.{leaves, map_answer};
    ghost use Rattle.arcstring.specs.Written.{piece_floats, piece_buoys, piece_counts};
    ghost use Rattle.arcstring_insert.specs.Steps.{for_each};
    ghost use Rattle.arcstring_split_leg.specs.SplitLeg.{split_answer, piece_count, of_pieces};
    ghost use Rattle.arcstring_mark_cut.specs.CutAtMarks.{checked_cut, cut_at_mark};
    ghost use Rattle.arcstring_mark_cut.specs.Standing.{cut_there};
    ghost use Rattle.arcstring_mark_cut.specs.OpenedPieces.{pieces_of, still_standing, handed_over};

    // The lists before a string is put in: they hold one point.
    pub(crate) fn empty() -> Opened
        ensures { (result.points ≡ 1) × (result.count ≡ 1) }
    {
        let mut counts = [0; MOST_POINTS];
        counts[0] = 1;
        Opened {
            v: [0.0; OPENED_FLOATS],
            buoys: [0; OPENED_POINTS],
            counts,
            points: 1,
            count: 1,
        }
    }

    // A string put in, opened, as one piece. Not handed back by value, so that the lists stand on the stack once.
    pub(crate) fn open(&mut self, string: Numbered, closed: bool)
        requires { (1 ≤ length string.buoys.now) × (length string.buoys.now ≤ most_points) }
        ensures { pieces_of self.new ≡ opened (numbered (points string.entry.v.now) string.entry.buoys.now) closed ∷ [] }
    {
        let points = copy_opened(string, closed, &mut self.v, &mut self.buoys);
        self.counts[0] = points;
        self.points = points;
        self.count = 1;
    }

    // Piece k, which starts at vertex `at` and whose leg i holds the mark, cut there, unless the mark equals an end of it.
    fn cut_piece(&mut self, k: usize, at: usize, i: usize, x: Vertex) -> Result<(), Refusal>
        requires { (k < self.old.count) × (at ≡ sum (take k self.old.counts)) × (i + 1 < get_or self.old.counts k 0) }
        ensures { still_standing result self.new
            ≡ checked_cut place_of (pieces_of self.old) (cut_there x k i (pieces_of self.old)) }
    {
        let size = self.counts[k];
        if at_piece_end(&self.v, at, size, x.place) {
            return Ok(());
        }
        let total = self.points + 2 * (self.count - 1);
        if total + 2 > MOST_POINTS {
            return Err(Refusal::TooManyPoints);
        }
        let place = at + i + 1;
        insert_numbered(&mut self.v, &mut self.buoys, total, place, x);
        insert_numbered(&mut self.v, &mut self.buoys, total + 1, place, x);
        replace::replace_item(&mut self.counts, self.count, k, i + 2, size - i);
        self.count += 1;
        Ok(())
    }

    // One mark: the first piece that holds it, and the first leg of that piece that does.
    fn cut_at(&mut self, x: Vertex) -> Result<(), Refusal>
        ensures { still_standing result self.new ≡ cut_at_mark place_of x (pieces_of self.old) }
    {
        let mut at = 0;
        for k in 0..self.count {
            let size = self.counts[k];
            let end = at + size;
            let piece = Vertices {
                v: &self.v[3 * at..3 * end],
                n: size,
            };
            if let Some(i) = holds::first_leg(x.place, piece, size - 1) {
                return self.cut_piece(k, at, i, x);
            }
            at = end;
        }
        Ok(())
    }

    // Each of the marks in turn.
    pub(crate) fn cut_at_each(&mut self, marks: Numbered) -> Result<(), Refusal>
        ensures { still_standing result self.new
            ≡ for_each (cut_at_mark place_of) (numbered (points marks.entry.v.now) marks.entry.buoys.now) (pieces_of self.old) }
    {
        for i in 0..marks.len() {
            self.cut_at(marks.at(i))?;
        }
        Ok(())
    }

    // The finished pieces copied out, or 7 where one of the three buffers is too short for them.
    pub(crate) fn hand_over(
        &self,
        out: &mut [f64],
        out_buoys: &mut [u32],
        counts: &mut [usize],
    ) -> Result<Option<usize>, Refusal>
        ensures result_value { split_answer result ≡ map_answer piece_count
            (handed_over self.now (length out.old) (length out_buoys.old) (length counts.old)) }
        ensures out_after { out.new ≡ leaves (map_answer (of_pieces piece_floats)
            (handed_over self.now (length out.old) (length out_buoys.old) (length counts.old)))
            out.old }
        ensures out_buoys_after { out_buoys.new ≡ leaves (map_answer (of_pieces piece_buoys)
            (handed_over self.now (length out.old) (length out_buoys.old) (length counts.old)))
            out_buoys.old }
        ensures counts_after { counts.new ≡ leaves (map_answer (of_pieces piece_counts)
            (handed_over self.now (length out.old) (length out_buoys.old) (length counts.old)))
            counts.old }
    {
        let m = self.count;
        if m < 2 {
            return Ok(None);
        }
        let total = self.points + 2 * (m - 1);
        if (out.len() < 3 * total) | (out_buoys.len() < total) | (counts.len() < m) {
            return Err(Refusal::NoRoom);
        }
        vertex::copy_run(&self.v, 0, total, out, 0);
        vertex::copy_items(&self.buoys, 0, total, out_buoys, 0);
        vertex::copy_items(&self.counts, 0, m, counts, 0);
        Ok(Some(m))
    }
}
