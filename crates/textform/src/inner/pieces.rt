// What the programs read at once.

// The bytes of a buffer for one read of the input.
pub const MOST_READ: usize = 4096;
