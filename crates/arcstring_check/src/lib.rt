// What the string layer refuses, by the numbers of docs/TERMS.md: the lowest crate of the layer, above the promises of the
// vector layer. A list of points is flat, three floats a point.
//
//     check     why a call refuses, and how many points a list has at most
//
// `inner`, here and in every crate of the layer, is for the other crates and not for users: its functions may ask something.
#![tactic(auto)]

pub mod check;
pub mod inner;
