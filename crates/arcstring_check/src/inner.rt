// The checks of what is handed in, for the crates of the string layer.
pub mod checks;
