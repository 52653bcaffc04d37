// A pair of legs, the listings of crossings, and counts. What is printed: the number returned, the floats lent, the bytes, and then
// the numbers.
use crate::lent::{BYTE, COUNT, FLOAT, NUMBER, first};
use crate::print;
use crate::read::{Given, Request};
use arcstring_calls::{crossing, listing, with_self};
use std::io::Print;

pub(crate) fn pair(stdout: &impl Print, a: Given, b: Given) {
    let mut class = BYTE;
    let mut kept = BYTE;
    let mut point = [FLOAT; 3];
    let n = crossing::arcstring_pair(&first(a.v), &first(b.v), &mut class, &mut kept, &mut point);
    print::word(stdout, n);
    print::floats(stdout, &point);
    print::words(stdout, &[class, kept]);
}

pub(crate) fn count(stdout: &impl Print, q: Request, a: Given, b: Given) {
    let mut counts = [COUNT; 4];
    let n = listing::arcstring_count(a.v, a.closed, b.v, b.closed, q.margin, &mut counts);
    print::word(stdout, n);
    print::words(stdout, &counts);
}

// The listings: 9, 10 and 12.
pub(crate) fn listing(stdout: &impl Print, q: Request, a: Given, b: Given) {
    let mut floats = [FLOAT; 256];
    let mut bytes = [BYTE; 256];
    let points = &mut floats[..usize::from(q.floats)];
    let marks = &mut bytes[..usize::from(q.bytes)];
    let mut kept = NUMBER;
    let mut counts = [COUNT; 4];
    let n = match q.call {
        9 => listing::arcstring_leg_crossings(
            &first(a.v),
            b.v,
            b.closed,
            q.margin,
            points,
            marks,
            &mut kept,
            &mut counts,
        ),
        10 => listing::arcstring_crossings(
            a.v,
            a.closed,
            b.v,
            b.closed,
            q.margin,
            points,
            marks,
            &mut kept,
            &mut counts,
        ),
        _ => with_self::arcstring_crossings_with_self(
            a.v,
            q.margin,
            points,
            marks,
            &mut kept,
            &mut counts,
        ),
    };
    print::word(stdout, n);
    print::floats(stdout, points);
    print::words(stdout, marks);
    print::word(stdout, kept);
    print::words(stdout, &counts);
}
