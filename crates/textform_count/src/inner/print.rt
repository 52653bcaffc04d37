// What the programs print of counts.
ghost use Rattle.std.specs.Prelude.{◌≡◌, [], ◌∷◌, ◌++◌, ◌+◌, ◌≤◌, length, take};
ghost use Rattle.textform.specs.Print.{print_room};
ghost use Rattle.textform_count.specs.Print.{counts_room, four_counts, counts_text};

use arcstring_tally::counts::Counts;
use textform::inner::print::{put_number, put_text};

// The four counts with a byte after them, from position `at` on; where they end.
pub fn put_counts(out: &mut [u8], at: usize, c: Counts, after: u8) -> usize
    requires { at + counts_room ≤ length out.old }
    ensures { (result ≤ at + counts_room) × (take result out.new ≡ take at out.old ++ (four_counts c ++ (after ∷ []))) }
{
    let at = put_number(out, at, c.clean, b' ');
    let at = put_number(out, at, c.end, b' ');
    let at = put_number(out, at, c.grazing, b' ');
    put_number(out, at, c.apart, after)
}

// The heading, and the four counts below it; how many bytes.
pub fn print_counts(c: Counts, out: &mut [u8]) -> usize
    requires { print_room ≤ length out.old }
    ensures { (take result out.new ≡ counts_text c) × (result ≤ print_room) }
{
    let at = put_text(out, 0, b"clean end grazing apart\n");
    put_counts(out, at, c, b'\n')
}
