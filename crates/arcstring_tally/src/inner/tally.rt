// What the walks over legs count up and write.
ghost use Rattle.std.specs.Prelude.{◌≡◌, ◌∷◌, [], List, map, ℕ, ◌+◌, ◌-◌, ◌*◌, ◌≤◌, ◌<◌, length, replicate, ⊤, refl};
ghost use mathlib.Core.Path.{◌∙◌};
ghost use Rattle.arcstring.specs.Points.{flat};
ghost use Rattle.arcstring_check.specs.Check.{most_points};
ghost use Rattle.arcstring.specs.Splice.{splice};
ghost use Rattle.arcstring_pair.specs.declared.pair.Pair.TheVariants.{Grazing, Apart};
ghost use Rattle.arcstring_tally.specs.Pairs.{Mark, kept_marks, mark_point, mark_byte};
ghost use Rattle.arcstring_tally.specs.Tally.{tally_on, tally_counts, tally_sum};
ghost use Rattle.arcstring_tally.specs.Keep.{Room, Stored, KeepLaws, stored_none, room_first, room_after, stored_both};

use crate::counts::Counts;
use arcstring::inner::vertex;
use arcstring_pair::pair::{Outcome, Pair};
use sphericalpoint::SphericalPoint;

// How many of the pairs visited so far are in each class, and how many of them are kept.
#[derive(Clone, Copy, Default)]
pub struct Tally {
    pub clean: u64,
    pub end: u64,
    pub grazing: u64,
    pub apart: u64,
    pub kept: usize,
}

impl From<Tally> for Counts {
    ghost from_gives = { λ t c. c ≡ tally_counts t };

    fn from(t: Tally) -> Counts {
        Counts {
            clean: t.clean,
            end: t.end,
            grazing: t.grazing,
            apart: t.apart,
        }
    }
}

impl Tally {
    // One pair more.
    pub fn add(self, p: Pair) -> Tally
        requires { tally_sum self < 4294967296 }
        ensures { result ≡ tally_on self (p ∷ []) }
    {
        match p {
            Pair::Clean(_) => Tally {
                clean: self.clean + 1,
                kept: self.kept + 1,
                ..self
            },
            Pair::End(_) => Tally {
                end: self.end + 1,
                ..self
            },
            Pair::Grazing(o) => Tally {
                grazing: self.grazing + 1,
                kept: self.kept + outcome_kept(o),
                ..self
            },
            Pair::Apart => Tally {
                apart: self.apart + 1,
                ..self
            },
        }
    }

    // Of the pairs with the legs from position `from` up to `to` all but `found` counted on, which are apart.
    pub fn add_apart(self, from: usize, to: usize, found: usize) -> Tally
        requires { (tally_sum self < 4294967296) × (to ≤ most_points) × (found ≤ to - from) }
        ensures { result ≡ tally_on self (replicate (to - from - found) Apart) }
    {
        if to <= from {
            return self;
        }
        Tally {
            apart: self.apart + (to - from - found) as u64,
            ..self
        }
    }
}

// 1 for a grazing pair whose point is kept, else 0.
fn outcome_kept(o: Outcome) -> usize
    ensures { result ≡ length (kept_marks (Grazing o ∷ [])) }
{
    match o {
        Outcome::Kept(_) => 1,
        Outcome::Dropped(_) => 0,
        Outcome::None => 0,
    }
}

// A kept point and its mark written at place `at`.
fn put_mark(points: &mut [f64], marks: &mut [u8], at: usize, p: SphericalPoint, mark: u8)
    requires { (3 * at + 3 ≤ length points.old) × (at + 1 ≤ length marks.old) }
    ensures points_after { points.new ≡ splice points.old (3 * at) (p.x ∷ p.y ∷ p.z ∷ []) }
    ensures marks_after { marks.new ≡ splice marks.old at (mark ∷ []) }
{
    vertex::put_vertex(points, at, p);
    marks[at] = mark;
}

// What one pair keeps written at place `at`.
fn store(points: &mut [f64], marks: &mut [u8], at: usize, p: Pair)
    requires { (3 * (at + length (kept_marks (p ∷ []))) ≤ length points.old) × (at + length (kept_marks (p ∷ [])) ≤ length marks.old) }
    ensures points_after { points.new ≡ splice points.old (3 * at) (flat (map mark_point (kept_marks (p ∷ [])))) }
    ensures marks_after { marks.new ≡ splice marks.old at (map mark_byte (kept_marks (p ∷ []))) }
{
    match p {
        Pair::Clean(t) => put_mark(points, marks, at, t, 1),
        Pair::Grazing(o) => match o {
            Outcome::Kept(t) => put_mark(points, marks, at, t, 0),
            Outcome::Dropped(_) => {}
            Outcome::None => {}
        },
        Pair::End(_) => {}
        Pair::Apart => {}
    }
}

// What a walk does with what its pairs keep: nothing, or it writes it.
pub trait Keep {
    // Room for these kept points from a place on.
    ghost room: { Self → List Mark → ℕ → Type 0 };

    // What these kept points, from a place on, make of what was there before.
    ghost written: { List Mark → ℕ → Self → Self → Type 0 };

    // No kept point, and some and then others: by these the walk goes on from pair to pair.
    ghost laws: { KeepLaws room written };

    // What one pair keeps, at place `at`.
    fn keep(&mut self, at: usize, p: Pair)
        requires { room self.old (kept_marks (p ∷ [])) at }
        ensures { written (kept_marks (p ∷ [])) at self.old self.new };
}

// A walk that only counts.
#[derive(Drop)]
pub struct Nothing;

impl Keep for Nothing {
    ghost room = { λ s ms at. ⊤ };

    ghost written = { λ ms at s t. ⊤ };

    ghost laws = { record {
      nothing = λ at s. tt;
      first = λ s ms ns at r. tt;
      others = λ s t ms ns at r w. tt;
      both = λ s t u ms ns at r w x. tt;
    } };

    fn keep(&mut self, _at: usize, _p: Pair) {}
}

// A walk that writes the kept points and their marks.
#[derive(Drop)]
pub struct Lists<'a> {
    pub points: &'a mut [f64],
    pub marks: &'a mut [u8],
}

impl<'a> Keep for Lists<'a> {
    ghost room = { λ s ms at. Room ms at s.points.now s.marks.now };

    ghost written = { λ ms at s t. Stored ms at s.points.now s.marks.now t.points.now t.marks.now
        × (t.points.ghost_name ≡ s.points.ghost_name) × (t.marks.ghost_name ≡ s.marks.ghost_name) };

    ghost laws = { record {
      nothing = λ at s. (stored_none at s.points.now s.marks.now, refl, refl);
      first = λ s ms ns at r. room_first ms ns at s.points.now s.marks.now r;
      others = λ s t ms ns at r w. room_after ms ns at s.points.now s.marks.now t.points.now t.marks.now r w.0;
      both = λ s t u ms ns at r w x. (
        stored_both ms ns at s.points.now s.marks.now t.points.now t.marks.now u.points.now u.marks.now r w.0 x.0,
        x.1 ∙ w.1,
        x.2 ∙ w.2,
      );
    } };

    fn keep(&mut self, at: usize, p: Pair) {
        store(self.points, self.marks, at, p);
    }
}
