// The calls for the crossings of a string with itself.
ghost use Rattle.std.specs.Prelude.{◌≡◌, length};
ghost use Rattle.arcstring_check.specs.Answer.{leaves, flag_number};
ghost use Rattle.arcstring_listing.specs.Listing.{listed_floats, listed_bytes};
ghost use Rattle.arcstring_self.specs.SelfListing.{self_crossings, crosses_self};
ghost use Rattle.arcstring_put.specs.Put.{answer_number, left_in, flag};
ghost use Rattle.arcstring_calls.specs.Numbers.{kept_count, listing_counts};

use arcstring_put::inner::lent;
use arcstring_put::inner::put::put;
use arcstring_put_found::inner::found;
use arcstring_self::with_self;

pub fn arcstring_crossings_with_self(
    v: &[f64],
    margin: f64,
    points: &mut [f64],
    marks: &mut [u8],
    kept: &mut usize,
    counts: &mut [u64; 4],
) -> u32
    ensures value { result ≡ answer_number (self_crossings v.now margin (length points.old) (length marks.old)) }
    ensures points_after { points.new ≡ leaves (listed_floats
        (self_crossings v.now margin (length points.old) (length marks.old)))
        points.old }
    ensures marks_after { marks.new ≡ leaves (listed_bytes (self_crossings v.now margin (length points.old)
        (length marks.old)))
        marks.old }
    ensures kept_after { kept.new ≡ left_in kept_count (self_crossings v.now margin (length points.old) (length marks.old))
        kept.old }
    ensures counts_after { counts.new ≡ left_in listing_counts
        (self_crossings v.now margin (length points.old) (length marks.old))
        counts.old }
{
    let r = with_self::crossings_with_self(v, margin, points, marks);
    found::put_listing(r, kept, counts)
}

pub fn arcstring_crosses_self(v: &[f64], closed: u8, yes: &mut u8) -> u32
    ensures value { result ≡ answer_number (crosses_self v.now (flag closed)) }
    ensures yes_after { yes.new ≡ left_in flag_number (crosses_self v.now (flag closed)) yes.old }
{
    put(with_self::crosses_self(v, lent::is_closed(closed)), yes)
}
