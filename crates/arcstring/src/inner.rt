// What the crates of the string layer share, and users do not call: the functions here ask what the calls have checked.
//
//     vertex    vertices and their numbers, read, written and moved
//     leg       the legs of a string
pub mod leg;
pub mod vertex;

// Local lists have two sizes, for strings of up to so many points and for all: they are set to zero first, which for a short string
// would take longer than the work itself.
pub const SHORT_POINTS: usize = 64;

pub const SHORT_FLOATS: usize = 3 * SHORT_POINTS;
