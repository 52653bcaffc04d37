// What the walk over pairs takes of the pair test: what is kept of the second string's legs, the pair test by it, and the pass that
// tells which pairs need none.
pub mod planes;
