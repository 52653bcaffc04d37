// What is read of standard input: words, the words of a request that stand before its lists, and the lists.
ghost use Rattle.std.specs.Prelude.{◌≤◌, length, IfSome};

use std::io::Read;
use textform::inner::read;

// The words before the lists: the call, the two strings' flags, two positions, the rooms of the floats, bytes, numbers and buoys lent,
// and the margin.
#[derive(Clone, Copy)]
pub(crate) struct Request {
    pub(crate) call: u8,
    pub(crate) first_flag: u8,
    pub(crate) second_flag: u8,
    pub(crate) first: usize,
    pub(crate) second: usize,
    pub(crate) floats: u8,
    pub(crate) bytes: u8,
    pub(crate) numbers: u8,
    pub(crate) buoys: u8,
    pub(crate) margin: f64,
}

// What a request has of a string: its vertices, its near list, its flag and its buoys.
#[derive(Clone, Copy)]
pub(crate) struct Given<'a> {
    pub(crate) v: &'a [f64],
    pub(crate) near: &'a [f64],
    pub(crate) closed: u8,
    pub(crate) buoys: &'a [u32],
}

// What the elements of a list are, as words.
pub(crate) trait Element: Copy {
    // The element of a word, where there is one.
    fn of(word: u64) -> Option<Self>;
}

// The float of 64 bits; every pattern of a NaN stands for a NaN.
impl Element for f64 {
    fn of(word: u64) -> Option<f64> {
        if word % 0x8000_0000_0000_0000 > 0x7FF0_0000_0000_0000 {
            return Some(f64::NAN);
        }
        Some(read::coordinate(word))
    }
}

// A buoy has at most 32 bits.
impl Element for u32 {
    fn of(word: u64) -> Option<u32> {
        u32::try_from(word).ok()
    }
}

// The number of 16 hexadecimal digits, whatever the byte after them is.
fn number(bytes: &[u8; 17]) -> Option<u64> {
    let mut word = 0;
    for byte in &bytes[..16] {
        word = word << 4 | u64::from(read::hex_digit(*byte)?);
    }
    Some(word)
}

// The number of a word, unless the input ends or has no digits there.
fn read_word(stdin: &mut impl Read) -> Option<u64> {
    let mut bytes = [0; 17];
    stdin.read_exact(&mut bytes).ok()?;
    number(&bytes)
}

fn read_small(stdin: &mut impl Read) -> Option<u8> {
    u8::try_from(read_word(stdin)?).ok()
}

fn read_size(stdin: &mut impl Read) -> Option<usize> {
    usize::try_from(read_word(stdin)?).ok()
}

// A request, unless its words are not there whole or its call is unknown.
pub(crate) fn read_request(stdin: &mut impl Read) -> Option<Request> {
    let q = Request {
        call: read_small(stdin)?,
        first_flag: read_small(stdin)?,
        second_flag: read_small(stdin)?,
        first: read_size(stdin)?,
        second: read_size(stdin)?,
        floats: read_small(stdin)?,
        bytes: read_small(stdin)?,
        numbers: read_small(stdin)?,
        buoys: read_small(stdin)?,
        margin: f64::of(read_word(stdin)?)?,
    };
    if q.call > 30 { None } else { Some(q) }
}

// A list read into a room: its length, its period (0 for the empty list alone), and as many elements as the period, which the rest of it
// repeats. None where the input has it not whole, or it passes the room.
pub(crate) fn read_list<'a, T: Element>(stdin: &mut impl Read, room: &'a mut [T]) -> Option<&'a [T]>
    ensures { IfSome result (λ list. length list.now ≤ length room.old) }
{
    let length = read_size(stdin)?;
    let period = read_size(stdin)?;
    if length > room.len() || period > room.len() || (period == 0 && length > 0) {
        return None;
    }
    for place in &mut room[..period] {
        *place = T::of(read_word(stdin)?)?;
    }
    for i in period..room.len() {
        room[i] = room[i - period];
    }
    Some(&room[..length])
}
