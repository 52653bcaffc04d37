// The text form that the programs read and write: two strings as a line of names and a row for each point, read byte by byte
// so that input of any length comes in pieces; and numbers or a refusal, printed. A season's rows are such rows behind another
// first column.
//
//     inner          for the programs of this repository
//     inner::pieces  a buffer for one read of the input
//     inner::reader  where the reading stands
//     inner::read    the machine over the bytes
//     inner::print   texts, decimal numbers, the refusal line
//     inner::say     text written, or a failure
#![tactic(auto)]

pub mod inner;
