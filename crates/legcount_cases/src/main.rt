// What the counting program prints for inputs other than its own stored one, each line of it after the other: the gate compares.
#![tactic(auto)]

ghost use Rattle.std.specs.Prelude.{◌≤◌, length};

use std::io::Print;
use textform::inner::print;
use textform_count::inner::count;

// One input's output.
fn show(out: &impl Print, input: &[u8]) {
    let mut text = [0u8; print::PRINT_ROOM];
    let n = count::count_text(input, &mut text);
    let _ = out.write_all(&text[..n]);
}

// Room for the longest input.
const INPUT_ROOM: usize = 65536;

// The output of an input of n equal rows of A and the rows after them.
fn show_long(out: &impl Print, n: usize, rest: &[u8])
    requires { (n ≤ 1100) × (length rest.now ≤ 200) }
{
    let mut input = [0; INPUT_ROOM];
    let mut at = print::put_text(&mut input, 0, b"string x y z\n");
    for _row in 0..n {
        at = print::put_text(
            &mut input,
            at,
            b"A 3FF0000000000000 0000000000000000 0000000000000000\n",
        );
    }
    at = print::put_text(&mut input, at, rest);
    show(out, &input[..at]);
}

// A with 1,024 points, with 1,025, and with 1,100 before a row that lacks its last digit.
fn show_longest(out: &impl Print) {
    let two =
        b"B 3FF0000000000000 0000000000000000 BFE0000000000000\nB 3FF0000000000000 0000000000000000 3FE0000000000000\n";
    show_long(out, 1024, two);
    show_long(out, 1025, two);
    show_long(
        out,
        1100,
        b"B 3FF0000000000000 0000000000000000 000000000000000\n",
    );
}

// The example of docs/TERMS.md.
fn show_example(out: &impl Print) {
    show(
        out,
        b"string x y z\n\
          A 3FF0000000000000 BFE0000000000000 0000000000000000\n\
          A 3FF0000000000000 3FE0000000000000 0000000000000000\n\
          B 3FF0000000000000 0000000000000000 BFE0000000000000\n\
          B 3FF0000000000000 0000000000000000 3FE0000000000000\n",
    );
}

// No input at all; the names alone; A with one point, before B's NaN; a NaN in B.
fn show_refused(out: &impl Print) {
    show(out, b"");
    show(out, b"string x y z\n");
    show(
        out,
        b"string x y z\n\
          B 7FF8000000000000 0000000000000000 0000000000000000\n\
          A 3FF0000000000000 0000000000000000 0000000000000000\n",
    );
    show(
        out,
        b"string x y z\n\
          A 3FF0000000000000 0000000000000000 0000000000000000\n\
          A 0000000000000000 3FF0000000000000 0000000000000000\n\
          B 7FF8000000000000 0000000000000000 0000000000000000\n\
          B 3FF0000000000000 0000000000000000 0000000000000000\n",
    );
}

// Malformed, though A has one point: lower case, a carriage return, a third name, no line feed at the end, two blanks.
fn show_malformed(out: &impl Print) {
    show(
        out,
        b"string x y z\nA 3ff0000000000000 0000000000000000 0000000000000000\n",
    );
    show(
        out,
        b"string x y z\r\nA 3FF0000000000000 0000000000000000 0000000000000000\r\n",
    );
    show(
        out,
        b"string x y z\nC 3FF0000000000000 0000000000000000 0000000000000000\n",
    );
    show(
        out,
        b"string x y z\nA 3FF0000000000000 0000000000000000 0000000000000000",
    );
    show(
        out,
        b"string x y z\nA 3FF0000000000000 0000000000000000  0000000000000000\n",
    );
}

// The example of docs/TERMS.md, with the rows of A and B mixed; an infinity in B.
fn show_mixed(out: &impl Print) {
    show(
        out,
        b"string x y z\n\
          B 3FF0000000000000 0000000000000000 BFE0000000000000\n\
          A 3FF0000000000000 BFE0000000000000 0000000000000000\n\
          B 3FF0000000000000 0000000000000000 3FE0000000000000\n\
          A 3FF0000000000000 3FE0000000000000 0000000000000000\n",
    );
    show(
        out,
        b"string x y z\n\
          B 3FF0000000000000 0000000000000000 0000000000000000\n\
          B 0000000000000000 FFF0000000000000 0000000000000000\n\
          A 3FF0000000000000 0000000000000000 0000000000000000\n\
          A 0000000000000000 3FF0000000000000 0000000000000000\n",
    );
}

fn main(rt: HostRuntime) {
    let out = &rt.stdout();
    show_example(out);
    show_refused(out);
    show_malformed(out);
    show_mixed(out);
    show_longest(out);
}
