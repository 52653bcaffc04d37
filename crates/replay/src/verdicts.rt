// The calls that answer yes or no. What is printed: the number returned, and the place of the verdict.
use crate::lent::{BYTE, first};
use crate::print;
use crate::read::{Given, Request};
use arcstring_calls::{along, listing, mark, point, relation, simplified, with_self};
use std::io::Print;

// The calls on points, on a leg and a mark, and on points and a string.
pub(crate) fn on_string(stdout: &impl Print, q: Request, a: Given, b: Given) {
    let [ax, ay, az, bx, by, bz, cx, cy, cz] = first::<9>(a.v);
    let mut yes = BYTE;
    let n = match q.call {
        0 => point::arcstring_xyz_eq(ax, ay, az, bx, by, bz, &mut yes),
        1 => point::arcstring_xyzs_coplanar(ax, ay, az, bx, by, bz, cx, cy, cz, &mut yes),
        13 => with_self::arcstring_crosses_self(a.v, a.closed, &mut yes),
        14 => listing::arcstring_same_side(ax, ay, az, bx, by, bz, b.v, b.closed, &mut yes),
        28 => {
            let [x, y, z] = first::<3>(b.v);
            mark::arcstring_mark_on_leg(&first(a.v), x, y, z, &mut yes)
        }
        29 => mark::arcstring_mark_on_string(ax, ay, az, b.v, b.closed, &mut yes),
        _ => along::arcstring_along(ax, ay, az, b.v, b.near, b.closed, &mut yes),
    };
    print::word(stdout, n);
    print::word(stdout, yes);
}

// The calls on two strings: 22 to 27.
pub(crate) fn relation(stdout: &impl Print, q: Request, a: Given, b: Given) {
    let mut yes = BYTE;
    let n = match q.call {
        22 => relation::arcstring_eq(a.v, a.near, a.closed, b.v, b.near, b.closed, &mut yes),
        23 => simplified::arcstring_equals(a.v, a.near, a.closed, b.v, b.near, b.closed, &mut yes),
        24 => relation::arcstring_crosses(a.v, a.near, a.closed, b.v, b.near, b.closed, &mut yes),
        25 => simplified::arcstring_overlaps(
            a.v, a.near, a.closed, b.v, b.near, b.closed, &mut yes,
        ),
        26 => relation::arcstring_within(a.v, b.v, b.near, b.closed, &mut yes),
        _ => relation::arcstring_contains(a.v, a.near, a.closed, b.v, &mut yes),
    };
    print::word(stdout, n);
    print::word(stdout, yes);
}
