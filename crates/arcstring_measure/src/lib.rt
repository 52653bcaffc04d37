// What is worked out at each vertex or leg of a string, as docs/TERMS.md has it. Above the promises of arcstring, of the same
// layer: each call takes any lists and flags, and says by its contract what it answers and what it leaves in the buffer that it was
// lent.
//
//     measure   turn orientations and midpoints
#![tactic(auto)]

pub mod measure;
