// Single points, as docs/TERMS.md has them: the vector layer's functions, each after the check of its points. A call takes any floats, and says by its
// contract what it answers.
//
//     point     the calls on single points
#![tactic(auto)]

pub mod point;
