// The text form read byte by byte. The floats of each string go to a list that the caller lends. A string of 1,025 points is
// refused by 3 whatever else stands in it, so that no more than 1,025 are kept; the rows after them are still read.
ghost use Rattle.std.specs.Prelude.{◌≡◌, [], ◌^◌, ◌≤◌, ◌<◌, take};
ghost use Rattle.std.specs.Float.{binary64};
ghost use Rattle.std.specs.Float.Ieee.{of_bits};
ghost use Rattle.textform.specs.Text.{row_last, malformed_place, float_part, row_part, part_at, place_after, hex_digit, start, with_float, State, step_at};
ghost use Rattle.textform.specs.Text.{step_with, fed_with};
ghost use Rattle.textform.specs.Text as Text;
ghost use Rattle.textform.specs.Kept.{floats_kept, in_place, digits_before};
ghost use Rattle.textform.specs.Held.{held_state, Becomes};
ghost use Rattle.textform.specs.Kept as Kept;
ghost use Rattle.arcstring_check.specs.Answer.{option_of};

pub use super::reader::Reader;

// The place of a row's first byte, and so how long the names line is.
pub const ROW_START: usize = 13;

// The place past a row's name and the blank after it.
const PAST_NAME: usize = 15;

// The place of a row's last byte.
const ROW_LAST: usize = 65;

// Where malformed input ends up.
const MALFORMED: usize = 66;

// Where in its row the line feed stands.
const LINE_FEED_AT: usize = 52;

// A float's bytes, the blank before it among them.
const FLOAT_BYTES: usize = 17;

// Where in those bytes the last digit stands.
const LAST_DIGIT_AT: usize = 16;

// The points kept of a string.
pub const POINTS_KEPT: usize = 1025;

// Their floats.
pub const FLOATS_KEPT: usize = 3 * POINTS_KEPT;

// The bits of -0: the rest of a word by it is the word without its sign.
const SIGN_BIT: u64 = 0x8000_0000_0000_0000;

// The bits of infinity.
const INFINITY: u64 = 0x7ff0_0000_0000_0000;

// What may stand at a place of the input.
#[derive(Clone, Copy)]
pub enum Part {
    Exactly(u8),
    Name,
    Digit,
    LastDigit,
    Nothing,
}

// Before the first byte.
pub fn begin() -> Reader
    ensures { (held_state result [] [] ≡ start) × (result.a ≡ 0) × (result.b ≡ 0) }
{
    Reader {
        place: 0,
        second: false,
        word: 0,
        a: 0,
        b: 0,
    }
}

// What stands at a place of a float, the blank before it among its places.
fn float_part(k: usize) -> Part
    ensures { result ≡ float_part k }
{
    if k == 0 {
        return Part::Exactly(b' ');
    }
    if k == LAST_DIGIT_AT {
        return Part::LastDigit;
    }
    Part::Digit
}

// What stands at a place of a row.
fn row_part(k: usize) -> Part
    ensures { result ≡ row_part k }
{
    if k == 0 {
        return Part::Name;
    }
    if k == LINE_FEED_AT {
        return Part::Exactly(b'\n');
    }
    float_part((k - 1) % FLOAT_BYTES)
}

// What stands at a place of the input.
fn part_at(place: usize) -> Part
    ensures { result ≡ part_at place }
{
    if place < ROW_START {
        let names = b"string x y z\n";
        return Part::Exactly(names[place]);
    }
    if place < MALFORMED {
        return row_part(place - ROW_START);
    }
    Part::Nothing
}

// The next place: after a row, the start of the next one.
fn place_after(place: usize) -> usize
    requires { place ≤ malformed_place }
    ensures { result ≡ place_after place }
{
    if place == ROW_LAST {
        ROW_START
    } else {
        place + 1
    }
}

// 0 to 9 and A to F.
pub fn hex_digit(byte: u8) -> Option<u8>
    ensures { option_of result ≡ hex_digit byte }
{
    match byte {
        b'0'..=b'9' => Some(byte - b'0'),
        b'A'..=b'F' => Some(byte - b'A' + 10),
        _ => None,
    }
}

// The float of 64 bits, and 2 where they are a NaN's: both are out of range.
pub fn coordinate(word: u64) -> f64
    ensures { result ≡ in_place (of_bits binary64 word) }
{
    let rest = word % SIGN_BIT;
    if rest > INFINITY {
        return 2.0;
    }
    f64::from_bits(word)
}

// One float more at the end of the first n of a list, unless it has 1,025 points. How many there are then.
fn keep(list: &mut [f64; FLOATS_KEPT], n: usize, word: u64) -> usize
    requires { n ≤ floats_kept }
    ensures { (take result list.new ≡ Kept.keep (of_bits binary64 word) (take n list.old)) × (result ≤ floats_kept) }
{
    if n == FLOATS_KEPT {
        return n;
    }
    list[n] = coordinate(word);
    n + 1
}

// A whole float, kept for the string of its row.
fn with_float(
    r: Reader,
    word: u64,
    a: &mut [f64; FLOATS_KEPT],
    b: &mut [f64; FLOATS_KEPT],
) -> Reader
    requires { r.place ≤ row_last }
    ensures { held_state result a.new b.new
        ≡ with_float Kept.keep (of_bits binary64 word) (held_state r a.old b.old) }
{
    let mut next = r;
    next.place = place_after(r.place);
    next.word = 0;
    if r.second {
        next.b = keep(b, r.b, word);
        return next;
    }
    next.a = keep(a, r.a, word);
    next
}

// To where malformed input ends up, and stays.
pub fn malformed(r: Reader) -> Reader
    ensures { Becomes r Text.malformed result }
{
    let mut next = r;
    next.place = MALFORMED;
    next.word = 0;
    next
}

// On to the next place: in a row of this string, with these digits.
fn onward(r: Reader, second: bool, word: u64) -> Reader
    requires { (r.place ≤ row_last) × (word < 16 ^ digits_before (place_after r.place)) }
    ensures { Becomes r (Text.onward second word) result }
{
    let mut next = r;
    next.place = place_after(r.place);
    next.second = second;
    next.word = word;
    next
}

// Past the name of its string and the blank after it, at the start of a row.
pub fn in_row(r: Reader, second: bool) -> Reader
    ensures { Becomes r (Text.in_row second) result }
{
    let mut next = r;
    next.place = PAST_NAME;
    next.second = second;
    next.word = 0;
    next
}

// Without the floats of B.
pub fn without_second(r: Reader) -> Reader
    ensures { Becomes r Text.without_second result }
{
    let mut next = r;
    next.b = 0;
    next
}

// A byte where this one has to stand.
fn take_exactly(r: Reader, byte: u8, c: u8) -> Reader
    requires { part_at r.place ≡ Part.Exactly c }
    ensures { Becomes r (λ (s : State). step_at Kept.keep (Part.Exactly c) s byte) result }
{
    if byte == c {
        return onward(r, r.second, 0);
    }
    malformed(r)
}

// A byte where a string's name has to stand.
fn take_name(r: Reader, byte: u8) -> Reader
    requires { part_at r.place ≡ Part.Name }
    ensures { Becomes r (λ (s : State). step_at Kept.keep Part.Name s byte) result }
{
    if byte == b'A' {
        return onward(r, false, 0);
    }
    if byte == b'B' {
        return onward(r, true, 0);
    }
    malformed(r)
}

// A byte where a digit has to stand, with more to come.
fn take_digit(r: Reader, byte: u8) -> Reader
    requires { part_at r.place ≡ Part.Digit }
    ensures { Becomes r (λ (s : State). step_at Kept.keep Part.Digit s byte) result }
{
    match hex_digit(byte) {
        Some(d) => onward(r, r.second, 16 * r.word + u64::from(d)),
        None => malformed(r),
    }
}

// A byte where the last digit of a float has to stand.
fn take_last_digit(
    r: Reader,
    byte: u8,
    a: &mut [f64; FLOATS_KEPT],
    b: &mut [f64; FLOATS_KEPT],
) -> Reader
    requires { part_at r.place ≡ Part.LastDigit }
    ensures { held_state result a.new b.new
        ≡ step_at Kept.keep Part.LastDigit (held_state r a.old b.old) byte }
{
    match hex_digit(byte) {
        Some(d) => with_float(r, 16 * r.word + u64::from(d), a, b),
        None => malformed(r),
    }
}

// One byte, by the part that stands at its place.
pub fn step(r: Reader, byte: u8, a: &mut [f64; FLOATS_KEPT], b: &mut [f64; FLOATS_KEPT]) -> Reader
    ensures { held_state result a.new b.new
        ≡ step_with Kept.keep (held_state r a.old b.old) byte }
{
    match part_at(r.place) {
        Part::Exactly(c) => take_exactly(r, byte, c),
        Part::Name => take_name(r, byte),
        Part::Digit => take_digit(r, byte),
        Part::LastDigit => take_last_digit(r, byte, a, b),
        Part::Nothing => malformed(r),
    }
}

// A piece of the input, byte by byte.
pub fn feed(
    r: Reader,
    bytes: &[u8],
    a: &mut [f64; FLOATS_KEPT],
    b: &mut [f64; FLOATS_KEPT],
) -> Reader
    ensures { held_state result a.new b.new
        ≡ fed_with Kept.keep (held_state r a.old b.old) bytes.now }
{
    let mut reader = r;
    for byte in bytes {
        reader = step(reader, *byte, a, b);
    }
    reader
}
