// The pieces of a string in lists of fixed size, and one of them cut.
ghost use Rattle.std.specs.Prelude as Std;
ghost use Rattle.std.specs.Prelude.{◌≡◌, ◌∷◌, [], ◌≤◌, ◌<◌, length, take};
ghost use Rattle.arcstring_check.specs.Check.{most_points};
ghost use Rattle.arcstring.specs.Points.{numbered, place_of, points};
ghost use Rattle.arcstring_build.specs.Build.{built_numbered};
ghost use Rattle.arcstring_piece.specs.Pieces.{piece, sum, Stands};
ghost use Rattle.arcstring_piece.specs.Cut.{cut_at};

use super::replace;
use super::replace::{BUILT_POINTS, Halves};
use arcstring::inner::vertex;
use arcstring::inner::vertex::{Numbered, Vertex};
use arcstring_check::check::{MOST_FLOATS, MOST_POINTS, Refusal};

// The sum of some counts.
fn sum_of(counts: &[usize]) -> usize
    requires { Std.sum counts.now ≤ most_points }
    ensures { result ≡ Std.sum counts.now }
{
    counts.iter().sum()
}

// Pieces that stand one after another in lists of fixed size: their vertices, the numbers of these, how many vertices each piece
// has, and whether it is closed. What lies past the `count` pieces is not read.
#[derive(Drop)]
pub struct Pieces {
    pub v: [f64; MOST_FLOATS],
    pub buoys: [u32; MOST_POINTS],
    pub counts: [usize; MOST_POINTS],
    pub closed: [bool; MOST_POINTS],
    pub count: usize,
    ghost stands: { Stands count v buoys counts closed },
}

impl Pieces {
    ghost use Rattle.arcstring_piece.specs.Standing.{standing, held_pieces};

    // The lists before a string is put in: they hold one piece of one point.
    pub fn empty() -> Pieces
        ensures { result.count ≡ 1 }
    {
        let mut counts = [0; MOST_POINTS];
        counts[0] = 1;
        Pieces {
            v: [0.0; MOST_FLOATS],
            buoys: [0; MOST_POINTS],
            counts,
            closed: [false; MOST_POINTS],
            count: 1,
        }
    }

    // A string put in, as the one piece. Not handed back by value, so that the lists are not copied.
    pub fn hold(&mut self, string: Numbered, closed: bool)
        requires { (1 ≤ length string.buoys.now) × (length string.buoys.now ≤ most_points) }
        ensures { standing self.new ≡ piece (numbered (points string.entry.v.now) string.entry.buoys.now) closed ∷ [] }
    {
        let n = string.len();
        vertex::copy_run(string.v, 0, n, &mut self.v, 0);
        vertex::copy_items(string.buoys, 0, n, &mut self.buoys, 0);
        self.counts[0] = n;
        self.closed[0] = closed;
        self.count = 1;
    }

    // How many vertices they have together.
    pub fn total(&self) -> usize
        ensures { result ≡ sum (take self.now.count self.now.counts) }
    {
        sum_of(&self.counts[..self.count])
    }

    // A cut at leg i of `copy`: a new first piece takes place k, which starts at vertex `at`, and a new second piece stands after it.
    pub fn cut_at(
        &mut self,
        copy: Numbered,
        i: usize,
        x: Vertex,
        k: usize,
        at: usize,
    ) -> Result<(), Refusal>
        requires { (i < length copy.buoys.now) × (length copy.buoys.now ≤ most_points)
            × (k < self.old.count) × (at ≡ sum (take k self.old.counts)) }
        ensures cut { held_pieces result self.new
            ≡ cut_at place_of built_numbered x (numbered (points copy.entry.v.now) copy.entry.buoys.now) k i (standing self.old) }
        ensures before { take k self.new.counts ≡ take k self.old.counts }
    {
        let mut fresh = [0.0; 3 * BUILT_POINTS];
        let mut numbers = [0; BUILT_POINTS];
        let Halves { first, second } = replace::build_halves(copy, i, x, &mut fresh, &mut numbers);
        let size = first.count + second.count;
        let m = self.count;
        let total = self.total();
        let old = self.counts[k];
        if at + size + (total - (at + old)) > MOST_POINTS {
            return Err(Refusal::TooManyPoints);
        }
        replace::replace_run(&mut self.v, at, old, total, &mut fresh, size);
        replace::replace_items(&mut self.buoys, at, old, total, &mut numbers, size);
        replace::replace_item(&mut self.counts, m, k, first.count, second.count);
        replace::replace_item(&mut self.closed, m, k, first.closed, second.closed);
        self.count = m + 1;
        Ok(())
    }
}
