// Replays stored requests: reads them from standard input, a line each, runs the call of arcstring_c that each names, and prints a
// line with what the call returned and what it left in every place that it was lent. The gate compares what is printed with the
// stored answers, which are the published Rust's, and of the calls on marks, which it does not have, an independent reading's of
// their request (docs/DIFFERENCES.md says how both lists were made). The program ends with the input, and at a request that is cut
// short, has a word that is no number, asks for an unknown call or passes a bound.
//
// A word is 16 upper-case hexadecimal digits. A request is a label of 48 bytes, then words, each with one byte after it (a blank, or the line feed): the
// call's number; the two strings' flags; two positions; the lengths of the buffers of floats, of bytes, of numbers and of buoys; the margin's bits, which the
// calls that take none leave; four lists of floats (the first string's vertices and near list, the second's) and two of buoys (the first string's, and those
// of the extra points), each as its length, how many elements are given, and these: the list repeats them to its length. Points and legs by themselves stand
// in the first list, extra points and a mark beside a leg in the third.
//
// An answer is the label, then words with a blank before each: the number returned, every float, every buoy, every byte and every number
// that was lent, single places before a buffer.
//
//     read        a word, a list, the words before the lists
//     print       words, floats, buoys, bytes and numbers
//     lent        what stands in the places before a call, and the first floats of a list
//     calls       which function runs which call; these functions are in:
//     verdicts    the calls that answer yes or no
//     strings     the calls that write a string, or its pieces, with buoys
//     vertices    a point, the calls that write other points or measures, a run of vertices
//     crossings   a pair of legs, listings of crossings and counts
#![tactic(auto)]

mod calls;
mod crossings;
mod lent;
mod print;
mod read;
mod strings;
mod verdicts;
mod vertices;

use read::Given;
use std::io::{Print, Read};

// One request read and answered; None where there is none, or not a whole one.
fn answer_one(stdin: &mut impl Read, stdout: &impl Print) -> Option<()> {
    let mut label = [0; 48];
    stdin.read_exact(&mut label).ok()?;
    let q = read::read_request(stdin)?;
    let mut v_a = [0.0; 3200];
    let mut near_a = [0.0; 3200];
    let mut v_b = [0.0; 3200];
    let mut near_b = [0.0; 3200];
    let mut buoys_a = [0; 3200];
    let mut buoys_b = [0; 3200];
    let v_a = read::read_list(stdin, &mut v_a)?;
    let near_a = read::read_list(stdin, &mut near_a)?;
    let v_b = read::read_list(stdin, &mut v_b)?;
    let near_b = read::read_list(stdin, &mut near_b)?;
    let a = Given {
        v: v_a,
        near: near_a,
        closed: q.first_flag,
        buoys: read::read_list(stdin, &mut buoys_a)?,
    };
    let b = Given {
        v: v_b,
        near: near_b,
        closed: q.second_flag,
        buoys: read::read_list(stdin, &mut buoys_b)?,
    };
    let _ = stdout.write_all(&label);
    calls::answer(stdout, q, a, b);
    stdout.write_all(b"\n").ok()
}

// A proved loop has to end, and nothing says that the input does: so the loop counts its turns, to a number that no run
// reaches.
fn main(rt: HostRuntime) {
    let mut stdin = rt.stdin();
    for _ in 0..u64::MAX {
        if answer_one(&mut stdin, &rt.stdout()).is_none() {
            return;
        }
    }
}
