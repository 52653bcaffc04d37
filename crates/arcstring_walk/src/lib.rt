// Strings walked, as docs/TERMS.md has it. Above the promises of arcstring, of the same layer: each call takes any lists, flags and
// positions, and says by its contract what it answers and what it leaves in each buffer that it was lent.
//
//     walk      backwards, restarted, and the run between two positions
#![tactic(auto)]

pub mod walk;
