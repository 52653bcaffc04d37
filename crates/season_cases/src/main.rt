// What the season report prints for inputs other than its own stored one, one after the other: the gate compares.
#![tactic(auto)]

ghost use Rattle.std.specs.Prelude.{◌+◌, ◌≤◌, length};

use std::io::Print;
use textform::inner::print;
use textform_season::inner::report;

// One input's output.
fn show(out: &impl Print, input: &[u8]) {
    let mut text = [0; report::REPORT_ROOM];
    let n = report::report_text(input, &mut text);
    let _ = out.write_all(&text[..n]);
}

// Room for the longest input.
const INPUT_ROOM: usize = 262144;

// The output of a beginning, a row so many times, and an end.
fn show_long(out: &impl Print, head: &[u8], row: &[u8], times: usize, tail: &[u8])
    requires { (length head.now ≤ 400) × (length row.now ≤ 60) × (times ≤ 1100) × (length tail.now ≤ 400) }
{
    let mut input = [0; INPUT_ROOM];
    let mut at = print::put_text(&mut input, 0, head);
    for _row in 0..times {
        at = print::put_text(&mut input, at, row);
    }
    at = print::put_text(&mut input, at, tail);
    show(out, &input[..at]);
}

// The output of a limit of one leg along the equator, and the rows after it.
fn show_season(out: &impl Print, tail: &[u8])
    requires { length tail.now ≤ 400 }
{
    show_long(
        out,
        b"string x y z\n\
          L 3FF0000000000000 BFE0000000000000 0000000000000000\n\
          L 3FF0000000000000 3FE0000000000000 0000000000000000\n",
        b"",
        0,
        tail,
    );
}

// A row of track n, from position `at` on; where it ends.
fn put_row(input: &mut [u8], at: usize, n: u64, floats: &[u8]) -> usize
    requires { (at + 80 ≤ length input.old) × (length floats.now ≤ 55) }
    ensures { result ≤ at + 80 }
{
    let at = print::put_number(input, at, n, b' ');
    print::put_text(input, at, floats)
}

// So many tracks of one leg each.
fn show_many(out: &impl Print, tracks: u64)
    requires { tracks ≤ 1001 }
{
    let mut input = [0; INPUT_ROOM];
    let mut at = print::put_text(
        &mut input,
        0,
        b"string x y z\n\
          L 3FF0000000000000 BFE0000000000000 0000000000000000\n\
          L 3FF0000000000000 3FE0000000000000 0000000000000000\n",
    );
    for n in 1..tracks + 1 {
        at = put_row(
            &mut input,
            at,
            n,
            b"3FF0000000000000 0000000000000000 BFE0000000000000\n",
        );
        at = put_row(
            &mut input,
            at,
            n,
            b"3FF0000000000000 0000000000000000 3FE0000000000000\n",
        );
    }
    show(out, &input[..at]);
}

// No tracks; one that crosses the limit; a second one beside it that does not.
fn show_reports(out: &impl Print) {
    show_season(out, b"");
    show_season(
        out,
        b"1 3FF0000000000000 0000000000000000 BFE0000000000000\n\
          1 3FF0000000000000 0000000000000000 3FE0000000000000\n",
    );
    show_season(
        out,
        b"1 3FF0000000000000 0000000000000000 BFE0000000000000\n\
          1 3FF0000000000000 0000000000000000 3FE0000000000000\n\
          2 3FF0000000000000 BFE0000000000000 3FE0000000000000\n\
          2 3FF0000000000000 3FE0000000000000 3FE0000000000000\n",
    );
}

// A limit without rows, alone and with a track; of one point, before a track out of range; a NaN in it, before a track of one point.
fn show_refused_limits(out: &impl Print) {
    show(out, b"string x y z\n");
    show(
        out,
        b"string x y z\n\
          1 3FF0000000000000 0000000000000000 BFE0000000000000\n\
          1 3FF0000000000000 0000000000000000 3FE0000000000000\n",
    );
    show(
        out,
        b"string x y z\n\
          L 3FF0000000000000 BFE0000000000000 0000000000000000\n\
          1 4000000000000000 0000000000000000 BFE0000000000000\n\
          1 3FF0000000000000 0000000000000000 3FE0000000000000\n",
    );
    show(
        out,
        b"string x y z\n\
          L 3FF0000000000000 BFE0000000000000 0000000000000000\n\
          L 7FF8000000000000 3FE0000000000000 0000000000000000\n\
          1 3FF0000000000000 0000000000000000 BFE0000000000000\n",
    );
}

// A track of one point; one out of range, before one of one point; the other way round; the second of two, with an infinity.
fn show_refused_tracks(out: &impl Print) {
    show_season(
        out,
        b"1 3FF0000000000000 0000000000000000 BFE0000000000000\n",
    );
    show_season(
        out,
        b"1 4000000000000000 0000000000000000 BFE0000000000000\n\
          1 3FF0000000000000 0000000000000000 3FE0000000000000\n\
          2 3FF0000000000000 0000000000000000 3FE0000000000000\n",
    );
    show_season(
        out,
        b"1 3FF0000000000000 0000000000000000 3FE0000000000000\n\
          2 4000000000000000 0000000000000000 BFE0000000000000\n\
          2 3FF0000000000000 0000000000000000 3FE0000000000000\n",
    );
    show_season(
        out,
        b"1 3FF0000000000000 0000000000000000 BFE0000000000000\n\
          1 3FF0000000000000 0000000000000000 3FE0000000000000\n\
          2 3FF0000000000000 0000000000000000 FFF0000000000000\n\
          2 3FF0000000000000 0000000000000000 3FE0000000000000\n",
    );
}

// Malformed by the sequence of rows: L after a track, a gap, a number that falls back, a first track that is not 1, and a fall back after a
// track that is refused.
fn show_out_of_sequence(out: &impl Print) {
    show_season(
        out,
        b"1 3FF0000000000000 0000000000000000 BFE0000000000000\n\
          1 3FF0000000000000 0000000000000000 3FE0000000000000\n\
          L 3FF0000000000000 0000000000000000 3FE0000000000000\n",
    );
    show_season(
        out,
        b"1 3FF0000000000000 0000000000000000 BFE0000000000000\n\
          1 3FF0000000000000 0000000000000000 3FE0000000000000\n\
          3 3FF0000000000000 0000000000000000 BFE0000000000000\n\
          3 3FF0000000000000 0000000000000000 3FE0000000000000\n",
    );
    show_season(
        out,
        b"1 3FF0000000000000 0000000000000000 BFE0000000000000\n\
          1 3FF0000000000000 0000000000000000 3FE0000000000000\n\
          2 3FF0000000000000 0000000000000000 BFE0000000000000\n\
          1 3FF0000000000000 0000000000000000 3FE0000000000000\n",
    );
    show_season(
        out,
        b"2 3FF0000000000000 0000000000000000 BFE0000000000000\n",
    );
    show_season(
        out,
        b"1 4000000000000000 0000000000000000 BFE0000000000000\n\
          2 3FF0000000000000 0000000000000000 BFE0000000000000\n\
          1 3FF0000000000000 0000000000000000 3FE0000000000000\n",
    );
}

// Malformed by the first column: 0, a leading zero, a sign, nothing, L twice, L and a number, a small l, A, a letter in a number.
fn show_first_columns(out: &impl Print) {
    show_season(
        out,
        b"0 3FF0000000000000 0000000000000000 BFE0000000000000\n",
    );
    show_season(
        out,
        b"01 3FF0000000000000 0000000000000000 BFE0000000000000\n",
    );
    show_season(
        out,
        b"+1 3FF0000000000000 0000000000000000 BFE0000000000000\n",
    );
    show_season(
        out,
        b" 3FF0000000000000 0000000000000000 BFE0000000000000\n",
    );
    show_season(
        out,
        b"LL 3FF0000000000000 0000000000000000 BFE0000000000000\n",
    );
    show_season(
        out,
        b"L1 3FF0000000000000 0000000000000000 BFE0000000000000\n",
    );
    show_season(
        out,
        b"l 3FF0000000000000 0000000000000000 BFE0000000000000\n",
    );
    show_season(
        out,
        b"A 3FF0000000000000 0000000000000000 BFE0000000000000\n",
    );
    show_season(
        out,
        b"1A 3FF0000000000000 0000000000000000 BFE0000000000000\n",
    );
}

// Malformed by its lines: no input, names without a line feed, two blanks, small letters, a carriage return, no line feed at the end, an
// end within the first column, an empty line.
fn show_lines(out: &impl Print) {
    show(out, b"");
    show(out, b"string x y z");
    show_season(
        out,
        b"1  3FF0000000000000 0000000000000000 BFE0000000000000\n",
    );
    show_season(
        out,
        b"1 3ff0000000000000 0000000000000000 BFE0000000000000\n",
    );
    show_season(
        out,
        b"1 3FF0000000000000 0000000000000000 BFE0000000000000\r\n",
    );
    show_season(out, b"1 3FF0000000000000 0000000000000000 BFE0000000000000");
    show_season(out, b"L");
    show_season(out, b"1");
    show_season(out, b"\n");
}

// A limit of 1,024 points, and of 1,025 before a track of one; a track of 1,024 points, and of 1,025; 1,100 rows of the limit before a row
// that lacks its last digit; 1,000 tracks, and 1,001.
fn show_longest(out: &impl Print) {
    let names = b"string x y z\n";
    let limit = b"L 3FF0000000000000 0000000000000000 0000000000000000\n";
    let track =
        b"1 3FF0000000000000 0000000000000000 BFE0000000000000\n1 3FF0000000000000 0000000000000000 3FE0000000000000\n";
    let one = b"1 3FF0000000000000 0000000000000000 BFE0000000000000\n";
    let two = b"string x y z\n\
          L 3FF0000000000000 BFE0000000000000 0000000000000000\n\
          L 3FF0000000000000 3FE0000000000000 0000000000000000\n";
    show_long(out, names, limit, 1024, track);
    show_long(out, names, limit, 1025, one);
    show_long(out, two, one, 1024, b"");
    show_long(out, two, one, 1025, b"");
    show_long(
        out,
        names,
        limit,
        1100,
        b"1 3FF0000000000000 0000000000000000 000000000000000\n",
    );
    show_many(out, 1000);
    show_many(out, 1001);
}

fn main(rt: HostRuntime) {
    let out = &rt.stdout();
    show_reports(out);
    show_refused_limits(out);
    show_refused_tracks(out);
    show_out_of_sequence(out);
    show_first_columns(out);
    show_lines(out);
    show_longest(out);
}
