// The counts of two strings in the text form: what the counting program prints for what it reads.
ghost use Rattle.std.specs.Prelude.{◌≡◌, ◌≤◌, length, take};
ghost use Rattle.arcstring_check.specs.Answer.{leaves, answer_of};
ghost use Rattle.arcstring_build.specs.Build.{built_result};
ghost use Rattle.textform.specs.Kept.{floats_kept};
ghost use Rattle.textform.specs.Held.{held_state};
ghost use Rattle.textform.specs.Print.{print_room};
ghost use Rattle.textform_count.specs.Plain.{plain_build, plain_floats};
ghost use Rattle.textform_count.specs.Print.{printed};
ghost use Rattle.textform_count.specs.Count.{count_built, count_state, output};

use crate::inner::print::print_counts;
use arcstring_build::build;
use arcstring_check::check::{MOST_FLOATS, MOST_POINTS, Refusal};
use arcstring_listing::listing;
use arcstring_tally::counts::Counts;
use textform::inner::print::{PRINT_ROOM, print_refusal};
use textform::inner::read;
use textform::inner::read::FLOATS_KEPT;
use textform::inner::reader::Reader;

// The string that points make, without buoys: every number is 0, and those of the vertices are not looked at.
pub fn build_plain(v: &[f64], out: &mut [f64; MOST_FLOATS]) -> Result<(usize, bool), Refusal>
    requires { length v.now ≤ floats_kept }
    ensures result_value { answer_of result ≡ built_result (plain_build v.now) }
    ensures out_after { out.new ≡ leaves (plain_floats (plain_build v.now)) out.old }
{
    let none = [0; read::POINTS_KEPT];
    let mut numbers = [0; MOST_POINTS];
    let n = v.len() / 3;
    build::build(v, &none[..n], out, &mut numbers)
}

// Two lists of points built, the first first, and the pairs of their legs counted with no margin. What is built is never refused there.
pub fn count_built(a: &[f64], b: &[f64]) -> Result<Counts, Refusal>
    requires { (length a.now ≤ floats_kept) × (length b.now ≤ floats_kept) }
    ensures { answer_of result ≡ count_built a.now b.now }
{
    let mut first = [0.0; MOST_FLOATS];
    let mut second = [0.0; MOST_FLOATS];
    let (n, closed) = build_plain(a, &mut first)?;
    let (m, other_closed) = build_plain(b, &mut second)?;
    listing::count(&first[..3 * n], closed, &second[..3 * m], other_closed, 0.0)
}

// What is printed once the input has ended: how many bytes of `out`.
pub fn conclude(
    r: Reader,
    a: &[f64; FLOATS_KEPT],
    b: &[f64; FLOATS_KEPT],
    out: &mut [u8; PRINT_ROOM],
) -> usize
    ensures { (take result out.new ≡ printed (count_state (held_state r a.now b.now))) × (result ≤ print_room) }
{
    if r.place != read::ROW_START {
        return print_refusal(8, out);
    }
    match count_built(&a[..r.a], &b[..r.b]) {
        Err(e) => print_refusal(u32::from(e), out),
        Ok(c) => print_counts(c, out),
    }
}

// The bytes printed for a whole input: how many bytes of `out`.
pub fn count_text(input: &[u8], out: &mut [u8; PRINT_ROOM]) -> usize
    ensures { (take result out.new ≡ output input.now) × (result ≤ print_room) }
{
    let mut a = [0.0; FLOATS_KEPT];
    let mut b = [0.0; FLOATS_KEPT];
    let r = read::feed(read::begin(), input, &mut a, &mut b);
    conclude(r, &a, &b, out)
}
