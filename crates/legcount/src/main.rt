// The counting program: reads two strings from standard input, in the text form, to its end, and prints the counts of their pairs
// of legs, or a refusal. What is printed for what is read is textform_count's to say; here it is only read and written.
//
// No contract can say what is read from a descriptor. Those below say: a turn feeds what its read put into the buffer, as much as the read
// answered, once and in sequence; there are pieces of 1 to 4,096 bytes, and what is held, and then printed, is that of the pieces one after
// another; of a reader that tells what it has left, these are the bytes that it had, and it has nothing left. What is left to be read in the
// code: that no other read is made, so that the loop goes on until a read gives none, and that `main` writes what there is to print and
// nothing else.
//
// A read that fails is no end of the input: nothing is printed then, and a line on standard error says so, as it does where a write
// fails. The status is 0 all the same: the empty output and that line stand in for it.
#![tactic(auto)]

ghost use Rattle.std.specs.Prelude.{◌≡◌, ◌≤◌, take, IfOk};
ghost use Rattle.std.specs.Io.KnownBytes.{IsAtEnd, ReadConsumes};
ghost use Rattle.textform.specs.Text.{fed_with};
ghost use Rattle.textform.specs.Kept.{keep};
ghost use Rattle.textform.specs.Held.{held_state};
ghost use Rattle.textform.specs.Pieces.{most_read, given};
ghost use Rattle.textform.specs.Print.{print_room};
ghost use Rattle.textform_count.specs.Pieces.{ReadInPieces, PrintedOfPieces};

use std::io;
use std::io::{ErrorKind, Read};
use textform::inner::pieces::MOST_READ;
use textform::inner::print::PRINT_ROOM;
use textform::inner::read::FLOATS_KEPT;
use textform::inner::reader::Reader;
use textform::inner::{read, say};
use textform_count::inner::count;

// One read, and what it gave fed, however little that is: how many bytes.
fn read_some<R: Read>(
    stdin: &mut R,
    reader: &mut Reader,
    bytes: &mut [u8; MOST_READ],
    a: &mut [f64; FLOATS_KEPT],
    b: &mut [f64; FLOATS_KEPT],
) -> io::Result<usize>
    ensures fed { held_state reader.new a.new b.new ≡ fed_with keep (held_state reader.old a.old b.old) (take (given result) bytes.new) }
    ensures bound { given result ≤ most_read }
    ensures bytes { ReadConsumes (R.remaining stdin.old) (R.remaining stdin.new) result bytes.new }
{
    let n = stdin.read(bytes)?;
    *reader = read::feed(*reader, &bytes[..n], a, b);
    Ok(n)
}

// The input to its end, each piece fed, however little it is: the reader then. A proved loop has to end, and nothing says that the
// input does: so the loop counts its turns, to a number that no run comes to. If one did, its input would not be whole.
fn read_all<R: Read>(
    stdin: &mut R,
    a: &mut [f64; FLOATS_KEPT],
    b: &mut [f64; FLOATS_KEPT],
) -> io::Result<Reader>
    ensures { IfOk result (λ r. IsAtEnd (R.remaining stdin.new)
        × ReadInPieces (R.remaining stdin.old) (R.remaining stdin.new) r a.new b.new) }
{
    let mut bytes = [0; MOST_READ];
    let mut reader = read::begin();
    for _turn in 0..u64::MAX {
        let n = read_some(stdin, &mut reader, &mut bytes, a, b)?;
        if n == 0 {
            return Ok(reader);
        }
    }
    Err(ErrorKind::Other.into())
}

// The input read, and what is printed for it at the start of `out`: how many bytes.
fn read_and_count<R: Read>(stdin: &mut R, out: &mut [u8; PRINT_ROOM]) -> io::Result<usize>
    ensures { IfOk result (λ n. IsAtEnd (R.remaining stdin.new)
        × PrintedOfPieces (R.remaining stdin.old) (R.remaining stdin.new) (take n out.new) × (n ≤ print_room)) }
{
    let mut a = [0.0; FLOATS_KEPT];
    let mut b = [0.0; FLOATS_KEPT];
    let reader = read_all(stdin, &mut a, &mut b)?;
    Ok(count::conclude(reader, &a, &b, out))
}

fn main(rt: HostRuntime) {
    let mut out = [0u8; PRINT_ROOM];
    match read_and_count(&mut rt.stdin(), &mut out) {
        Ok(n) => say::text(&rt.stdout(), &rt.stderr(), &out[..n]),
        Err(_) => say::failure(&rt.stderr(), b"read failed\n"),
    }
}
