// What the crates of the string layer share of this one, and users do not call.
//
//     stored    a stored string that the checks accepted
//     along     a point near a near list, along a leg, along an accepted string
pub mod along;
pub mod stored;
