// What the programs print: texts, decimal numbers, and the line of a refusal.
ghost use Rattle.std.specs.Prelude.{◌≡◌, [], ◌∷◌, ◌++◌, ◌+◌, ◌≤◌, ◌<◌, length, take};
ghost use Rattle.textform.specs.Print.{print_room, most_digits, decimal, refusal_text};
ghost use Rattle.textform.specs.Digits.{last_digits, IsDigitCount};

// Room for a refusal, and for what the counting program prints.
pub const PRINT_ROOM: usize = 128;

// Bytes written from position `at` on; where they end.
pub fn put_text(out: &mut [u8], at: usize, text: &[u8]) -> usize
    requires { at + length text.now ≤ length out.old }
    ensures { (result ≡ at + length text.now) × (take result out.new ≡ take at out.old ++ text.now) }
{
    let end = at + text.len();
    out[at..end].copy_from_slice(text);
    end
}

// How many decimal digits a number has.
fn digit_count(n: u64) -> usize
    ensures { IsDigitCount n result }
{
    n.max(1).ilog10() as usize + 1
}

// As many of a number's last decimal digits as `out` has room for.
fn write_digits(n: u64, out: &mut [u8])
    ensures { out.new ≡ last_digits (length out.old) n }
{
    let mut rest = n;
    for i in (0..out.len()).rev() {
        out[i] = b'0' + (rest % 10) as u8;
        rest /= 10;
    }
}

// A number's decimal digits written from position `at` on; where they end. By hand: std's `write!` promises its bytes only where it
// answers `Ok`, whatever room there is, and these clauses promise them of every number.
fn put_decimal(out: &mut [u8], at: usize, n: u64) -> usize
    requires { at + most_digits ≤ length out.old }
    ensures { (result ≤ at + most_digits) × (take result out.new ≡ take at out.old ++ decimal n) }
{
    let end = at + digit_count(n);
    write_digits(n, &mut out[at..end]);
    end
}

// A number's decimal digits and a byte after them, from position `at` on; where they end.
pub fn put_number(out: &mut [u8], at: usize, n: u64, after: u8) -> usize
    requires { at + most_digits < length out.old }
    ensures { (result ≤ at + most_digits + 1) × (take result out.new ≡ take at out.old ++ (decimal n ++ (after ∷ []))) }
{
    let end = put_decimal(out, at, n);
    out[end] = after;
    end + 1
}

// One line: `refusal` and the number; how many bytes.
pub fn print_refusal(n: u32, out: &mut [u8]) -> usize
    requires { print_room ≤ length out.old }
    ensures { (take result out.new ≡ refusal_text n) × (result ≤ print_room) }
{
    let at = put_text(out, 0, b"refusal ");
    put_number(out, at, u64::from(n), b'\n')
}
