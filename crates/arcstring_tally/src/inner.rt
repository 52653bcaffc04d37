// What the walk over pairs counts up and writes, pair by pair.
pub mod tally;
