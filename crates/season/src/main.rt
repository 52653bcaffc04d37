// The season report: reads a limit and up to 1,000 tracks from standard input, in the text form, to its end, and prints the counts of each
// track with the limit and of all, or a refusal. What is printed for what is read is textform_season's to say; here it is only read and
// written.
//
// No contract can say what is read from a descriptor. Those below say what the counting program's say: a turn feeds what its read put into
// the buffer, as much as the read answered, once and in sequence; there are pieces of 1 to 4,096 bytes, and what is held, and then printed,
// is that of the pieces one after another; of a reader that tells what it has left, these are the bytes that it had, and it has nothing
// left. What is left to be read in the code: that no other read is made, and that `main` writes what there is to print, once all of the
// input is read, and nothing else.
//
// A read that fails is no end of the input: nothing is printed then, and a line on standard error says so, as it does where a write fails.
// The status is 0 all the same.
#![tactic(auto)]

ghost use Rattle.std.specs.Prelude.{◌≡◌, ◌≤◌, take, IfOk};
ghost use Rattle.std.specs.Io.KnownBytes.{IsAtEnd, ReadConsumes};
ghost use Rattle.textform.specs.Pieces.{most_read, given};
ghost use Rattle.textform_season.specs.Kept.{kept_fed, report_room};
ghost use Rattle.textform_season.specs.Held.{held_season};
ghost use Rattle.textform_season.specs.Pieces.{SeasonOfPieces, ReportOfPieces};

use std::io;
use std::io::{ErrorKind, Read};
use textform::inner::pieces::MOST_READ;
use textform::inner::read::FLOATS_KEPT;
use textform::inner::say;
use textform_season::inner::reading::Reading;
use textform_season::inner::report::REPORT_ROOM;
use textform_season::inner::{read, report};

// One read, and what it gave fed, however little that is: how many bytes.
fn read_some<R: Read>(
    stdin: &mut R,
    reading: &mut Reading,
    bytes: &mut [u8; MOST_READ],
    limit: &mut [f64; FLOATS_KEPT],
    track: &mut [f64; FLOATS_KEPT],
    out: &mut [u8; REPORT_ROOM],
) -> io::Result<usize>
    ensures fed { held_season reading.new limit.new track.new out.new
        ≡ kept_fed (held_season reading.old limit.old track.old out.old) (take (given result) bytes.new) }
    ensures bound { given result ≤ most_read }
    ensures bytes { ReadConsumes (R.remaining stdin.old) (R.remaining stdin.new) result bytes.new }
{
    let n = stdin.read(bytes)?;
    *reading = read::feed(*reading, &bytes[..n], limit, track, out);
    Ok(n)
}

// The input to its end, each piece fed, however little it is: the reading then. The loop counts its turns, to a number that no run comes to,
// since a proved loop has to end.
fn read_all<R: Read>(
    stdin: &mut R,
    limit: &mut [f64; FLOATS_KEPT],
    track: &mut [f64; FLOATS_KEPT],
    out: &mut [u8; REPORT_ROOM],
) -> io::Result<Reading>
    ensures { IfOk result (λ r. IsAtEnd (R.remaining stdin.new)
        × SeasonOfPieces (R.remaining stdin.old) (R.remaining stdin.new) r limit.new track.new out.new) }
{
    let mut bytes = [0; MOST_READ];
    let mut reading = read::begin(out);
    for _turn in 0..u64::MAX {
        let n = read_some(stdin, &mut reading, &mut bytes, limit, track, out)?;
        if n == 0 {
            return Ok(reading);
        }
    }
    Err(ErrorKind::Other.into())
}

// The input read, and what is printed for it at the start of `out`: how many bytes.
fn read_and_report<R: Read>(stdin: &mut R, out: &mut [u8; REPORT_ROOM]) -> io::Result<usize>
    ensures { IfOk result (λ n. IsAtEnd (R.remaining stdin.new)
        × ReportOfPieces (R.remaining stdin.old) (R.remaining stdin.new) (take n out.new) × (n ≤ report_room)) }
{
    let mut limit = [0.0; FLOATS_KEPT];
    let mut track = [0.0; FLOATS_KEPT];
    let reading = read_all(stdin, &mut limit, &mut track, out)?;
    Ok(report::conclude(reading, &limit, &track, out))
}

fn main(rt: HostRuntime) {
    let mut out = [0; REPORT_ROOM];
    match read_and_report(&mut rt.stdin(), &mut out) {
        Ok(n) => say::text(&rt.stdout(), &rt.stderr(), &out[..n]),
        Err(_) => say::failure(&rt.stderr(), b"read failed\n"),
    }
}
