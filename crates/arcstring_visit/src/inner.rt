// The one walk over pairs of legs.
pub mod walk;
