// The class of a pair by its side values, for the pair test and the pass over many pairs.
pub mod class;
