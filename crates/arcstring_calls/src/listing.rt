// The calls that count and list crossings, of two strings, and of a leg and a string.
ghost use Rattle.std.specs.Prelude.{◌≡◌, length};
ghost use Rattle.arcstring_check.specs.Answer.{leaves, flag_number};
ghost use Rattle.arcstring.specs.Points.{point};
ghost use Rattle.arcstring.specs.Leg.{leg};
ghost use Rattle.arcstring_listing.specs.Listing.{counted, crossings, leg_crossings, same_side, listed_floats, listed_bytes};
ghost use Rattle.arcstring_put.specs.Put.{answer_number, left_in, flag, leg_of_six};
ghost use Rattle.arcstring_put_found.specs.PutFound.{four_counts};
ghost use Rattle.arcstring_calls.specs.Numbers.{kept_count, listing_counts};

use arcstring_listing::listing;
use arcstring_put::inner::lent;
use arcstring_put::inner::put::put;
use arcstring_put_found::inner::found;
use sphericalpoint::SphericalPoint;

pub fn arcstring_count(
    a: &[f64],
    a_closed: u8,
    b: &[f64],
    b_closed: u8,
    margin: f64,
    counts: &mut [u64; 4],
) -> u32
    ensures value { result ≡ answer_number (counted a.now (flag a_closed) b.now (flag b_closed) margin) }
    ensures counts_after { counts.new ≡ left_in four_counts (counted a.now (flag a_closed) b.now (flag b_closed) margin)
        counts.old }
{
    let r = listing::count(
        a,
        lent::is_closed(a_closed),
        b,
        lent::is_closed(b_closed),
        margin,
    );
    put(r, counts)
}

pub fn arcstring_leg_crossings(
    leg: &[f64; 6],
    v: &[f64],
    closed: u8,
    margin: f64,
    points: &mut [f64],
    marks: &mut [u8],
    kept: &mut usize,
    counts: &mut [u64; 4],
) -> u32
    ensures value { result ≡ answer_number (leg_crossings (leg_of_six leg.now) v.now (flag closed) margin (length points.old)
        (length marks.old)) }
    ensures points_after { points.new ≡ leaves
        (listed_floats (leg_crossings (leg_of_six leg.now) v.now (flag closed) margin (length points.old)
        (length marks.old)))
        points.old }
    ensures marks_after { marks.new ≡ leaves
        (listed_bytes (leg_crossings (leg_of_six leg.now) v.now (flag closed) margin (length points.old)
        (length marks.old)))
        marks.old }
    ensures kept_after { kept.new ≡ left_in kept_count
        (leg_crossings (leg_of_six leg.now) v.now (flag closed) margin (length points.old) (length marks.old))
        kept.old }
    ensures counts_after { counts.new ≡ left_in listing_counts
        (leg_crossings (leg_of_six leg.now) v.now (flag closed) margin (length points.old) (length marks.old))
        counts.old }
{
    let arc = lent::leg_of_six(leg);
    let r = listing::arc_crossings_with_arcstring(
        arc,
        v,
        lent::is_closed(closed),
        margin,
        points,
        marks,
    );
    found::put_listing(r, kept, counts)
}

pub fn arcstring_crossings(
    a: &[f64],
    a_closed: u8,
    b: &[f64],
    b_closed: u8,
    margin: f64,
    points: &mut [f64],
    marks: &mut [u8],
    kept: &mut usize,
    counts: &mut [u64; 4],
) -> u32
    ensures value { result ≡ answer_number (crossings a.now (flag a_closed) b.now (flag b_closed) margin (length points.old)
        (length marks.old)) }
    ensures points_after { points.new ≡ leaves
        (listed_floats (crossings a.now (flag a_closed) b.now (flag b_closed) margin (length points.old)
        (length marks.old))) points.old }
    ensures marks_after { marks.new ≡ leaves
        (listed_bytes (crossings a.now (flag a_closed) b.now (flag b_closed) margin (length points.old)
        (length marks.old))) marks.old }
    ensures kept_after { kept.new ≡ left_in kept_count
        (crossings a.now (flag a_closed) b.now (flag b_closed) margin (length points.old) (length marks.old))
        kept.old }
    ensures counts_after { counts.new ≡ left_in listing_counts
        (crossings a.now (flag a_closed) b.now (flag b_closed) margin (length points.old) (length marks.old))
        counts.old }
{
    let first = lent::is_closed(a_closed);
    let second = lent::is_closed(b_closed);
    let r = listing::crossings(a, first, b, second, margin, points, marks);
    found::put_listing(r, kept, counts)
}

pub fn arcstring_same_side(
    ax: f64,
    ay: f64,
    az: f64,
    bx: f64,
    by: f64,
    bz: f64,
    v: &[f64],
    closed: u8,
    yes: &mut u8,
) -> u32
    ensures value { result ≡ answer_number (same_side (leg (point ax ay az) (point bx «by» bz)) v.now (flag closed)) }
    ensures yes_after { yes.new ≡ left_in flag_number (same_side (leg (point ax ay az) (point bx «by» bz)) v.now (flag closed))
        yes.old }
{
    let a = SphericalPoint::new(ax, ay, az);
    let b = SphericalPoint::new(bx, by, bz);
    let r = listing::points_are_on_same_side(a, b, v, lent::is_closed(closed));
    put(r, yes)
}
