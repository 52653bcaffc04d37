// A point, the calls that write floats and no string, and a run of vertices. What is printed: the number returned, the floats lent, and
// then the numbers.
use crate::lent::{FLOAT, NUMBER, first};
use crate::print;
use crate::read::{Given, Request};
use arcstring_calls::{measure, split_leg, walk};
use std::io::Print;

pub(crate) fn point(stdout: &impl Print, a: Given) {
    let [x, y, z] = first::<3>(a.v);
    let mut out = [FLOAT; 3];
    print::word(
        stdout,
        arcstring_calls::point::arcstring_point(x, y, z, &mut out),
    );
    print::floats(stdout, &out);
}

// A run returns nothing: 0 is printed for it.
pub(crate) fn run(stdout: &impl Print, q: Request, a: Given) {
    let mut start = NUMBER;
    let mut len = NUMBER;
    walk::arcstring_run(a.v, q.first, q.second, &mut start, &mut len);
    print::words(stdout, &[0, start, len]);
}

// The calls that are lent floats: 15, 16 and 20.
pub(crate) fn written(stdout: &impl Print, q: Request, a: Given, b: Given) {
    let mut floats = [FLOAT; 256];
    let out = &mut floats[..usize::from(q.floats)];
    let mut count = NUMBER;
    let n = match q.call {
        15 => measure::arcstring_turn_orientations(a.v, a.closed, out, &mut count),
        16 => measure::arcstring_midpoints(a.v, a.closed, out, &mut count),
        _ => split_leg::arcstring_split_leg(&first(a.v), b.v, out, &mut count),
    };
    print::word(stdout, n);
    print::floats(stdout, out);
    print::word(stdout, count);
}
