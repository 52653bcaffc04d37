// A listing and a cut put into the places that a C program lends. Each call returns 0 or the refusal's number.
ghost use Rattle.std.specs.Prelude.{◌≡◌};
ghost use Rattle.arcstring_check.specs.Answer.{answer_of};
ghost use Rattle.arcstring_split_leg.specs.SplitLeg.{split_answer};
ghost use Rattle.arcstring_put.specs.Put.{answer_number, left_in};
ghost use Rattle.arcstring_put_found.specs.PutFound.{listed_kept, listed_counts, piece_number};

use arcstring_check::check::Refusal;
use arcstring_put::inner::put::put;
use arcstring_tally::counts::Counts;

// How many points a listing keeps, and its counts.
pub fn put_listing(
    l: Result<(usize, Counts), Refusal>,
    kept: &mut usize,
    counts: &mut [u64; 4],
) -> u32
    ensures { (result ≡ answer_number (answer_of l)) × (kept.new ≡ left_in listed_kept (answer_of l) kept.old)
        × (counts.new ≡ left_in listed_counts (answer_of l) counts.old) }
{
    put(l.map(|(n, _)| n), kept);
    put(l.map(|(_, c)| c), counts)
}

// How many pieces were written, 0 for uncut.
pub fn put_pieces(s: Result<Option<usize>, Refusal>, pieces: &mut usize) -> u32
    ensures { (result ≡ answer_number (split_answer s)) × (pieces.new ≡ left_in piece_number (split_answer s) pieces.old) }
{
    put(s.map(|n| n.unwrap_or(0)), pieces)
}
