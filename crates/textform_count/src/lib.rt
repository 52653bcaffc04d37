// What the counting program answers: the text form of two strings read, the strings built, the pairs of their legs counted, and the
// counts or a refusal printed.
//
//     inner          for the programs of this repository
//     inner::count   the answer for what was read
//     inner::print   the counts, printed
#![tactic(auto)]

pub mod inner;
