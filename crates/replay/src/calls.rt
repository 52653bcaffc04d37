// Which function runs a call.
use crate::read::{Given, Request};
use crate::{crossings, strings, verdicts, vertices};
use std::io::Print;

// The call of a request run, and what it returned and left printed. The numbers of the calls:
//
//      0 xyz_eq         1 xyzs_coplanar   2 point                 3 build              4 build_flagged  5 walk_back   6 restart
//      7 run            8 pair            9 leg_crossings        10 crossings         11 count         12 crossings_with_self
//     13 crosses_self  14 same_side      15 turn_orientations    16 midpoints         17 along         18 simplify
//     19 insert_vertices                 20 split_leg            21 split             22 eq            23 equals
//     24 crosses       25 overlaps       26 within               27 contains          28 mark_on_leg   29 mark_on_string
//     30 cut_at_marks
pub(crate) fn answer(stdout: &impl Print, q: Request, a: Given, b: Given) {
    match q.call {
        2 => vertices::point(stdout, a),
        7 => vertices::run(stdout, q, a),
        8 => crossings::pair(stdout, a, b),
        9 | 10 | 12 => crossings::listing(stdout, q, a, b),
        11 => crossings::count(stdout, q, a, b),
        15 | 16 | 20 => vertices::written(stdout, q, a, b),
        3..=6 | 18 | 19 => strings::written(stdout, q, a, b),
        21 => strings::split(stdout, q, a, b),
        30 => strings::cut_at_marks(stdout, q, a, b),
        0 | 1 | 13 | 14 | 17 | 28 | 29 => verdicts::on_string(stdout, q, a, b),
        _ => verdicts::relation(stdout, q, a, b),
    }
}
