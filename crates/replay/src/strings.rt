// The calls that write a string, or the pieces of one, and the buoys of its vertices. What is printed: the number returned, the floats
// lent, the buoys, the bytes, and then the numbers.
use crate::lent::{BUOY, BYTE, FLOAT, NUMBER};
use crate::print;
use crate::read::{Given, Request};
use arcstring_calls::{build, insert, mark, simplify, walk};
use std::io::Print;

// The calls that are lent floats and buoys: 3 to 6, 18 and 19.
pub(crate) fn written(stdout: &impl Print, q: Request, a: Given, b: Given) {
    let mut floats = [FLOAT; 256];
    let mut buoys = [BUOY; 256];
    let out = &mut floats[..usize::from(q.floats)];
    let out_buoys = &mut buoys[..usize::from(q.buoys)];
    let mut closed = BYTE;
    let mut count = NUMBER;
    let n = match q.call {
        3 => build::arcstring_build(a.v, a.buoys, out, out_buoys, &mut count, &mut closed),
        4 => build::arcstring_build_flagged(a.v, a.buoys, a.closed, out, out_buoys, &mut count),
        5 => walk::arcstring_walk_back(a.v, a.buoys, out, out_buoys, &mut count),
        6 => walk::arcstring_restart(a.v, a.buoys, a.closed, q.first, out, out_buoys, &mut count),
        18 => simplify::arcstring_simplify(a.v, a.buoys, a.closed, out, out_buoys, &mut count),
        _ => insert::arcstring_insert_vertices(
            a.v, a.buoys, a.closed, b.v, b.buoys, out, out_buoys, &mut count,
        ),
    };
    print::word(stdout, n);
    print::floats(stdout, out);
    print::words(stdout, out_buoys);
    if q.call == 3 {
        print::word(stdout, closed);
    }
    print::word(stdout, count);
}

// A string cut: lent floats, buoys, bytes and numbers.
pub(crate) fn split(stdout: &impl Print, q: Request, a: Given, b: Given) {
    let mut floats = [FLOAT; 256];
    let mut buoys = [BUOY; 256];
    let mut bytes = [BYTE; 256];
    let mut numbers = [NUMBER; 256];
    let out = &mut floats[..usize::from(q.floats)];
    let out_buoys = &mut buoys[..usize::from(q.buoys)];
    let flags = &mut bytes[..usize::from(q.bytes)];
    let counts = &mut numbers[..usize::from(q.numbers)];
    let mut pieces = NUMBER;
    let n = arcstring_calls::split::arcstring_split(
        a.v,
        a.buoys,
        a.closed,
        b.v,
        b.buoys,
        out,
        out_buoys,
        counts,
        flags,
        &mut pieces,
    );
    print::word(stdout, n);
    print::floats(stdout, out);
    print::words(stdout, out_buoys);
    print::words(stdout, flags);
    print::word(stdout, pieces);
    print::words(stdout, counts);
}

// A string cut at marks: lent floats, buoys and numbers.
pub(crate) fn cut_at_marks(stdout: &impl Print, q: Request, a: Given, b: Given) {
    let mut floats = [FLOAT; 256];
    let mut buoys = [BUOY; 256];
    let mut numbers = [NUMBER; 256];
    let out = &mut floats[..usize::from(q.floats)];
    let out_buoys = &mut buoys[..usize::from(q.buoys)];
    let counts = &mut numbers[..usize::from(q.numbers)];
    let mut pieces = NUMBER;
    let n = mark::arcstring_cut_at_marks(
        a.v,
        a.buoys,
        a.closed,
        b.v,
        b.buoys,
        out,
        out_buoys,
        counts,
        &mut pieces,
    );
    print::word(stdout, n);
    print::floats(stdout, out);
    print::words(stdout, out_buoys);
    print::word(stdout, pieces);
    print::words(stdout, counts);
}
