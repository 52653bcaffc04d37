// What the crates of the string layer share of this one, and users do not call.
//
//     holds     whether a leg holds a mark, and which leg of a string is the first that does
pub mod holds;
