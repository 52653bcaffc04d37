// The checks of docs/TERMS.md's table of refusals, in the order of its numbers, with 10 right after 1.
ghost use Rattle.std.specs.Prelude.{◌≡◌};
ghost use Rattle.arcstring_check.specs.Check.{check_number, in_range, all_in_range, list_check, stored_check, string_check, building_check, points_check};
ghost use Rattle.arcstring_check.specs.Check.{point_check, margin_check, room_check, rooms_check};

use crate::check::{MOST_POINTS, Refusal};
use sphericalpoint::SphericalPoint;

fn in_range(x: f64) -> bool
    ensures { result ≡ in_range x }
{
    (-1.0 <= x) & (x <= 1.0)
}

// Every float is looked at, also after one that is out of range: with no way out of the loop the processor takes two at a time.
fn all_in_range(list: &[f64]) -> bool
    ensures { result ≡ all_in_range list.now }
{
    let mut all = true;
    for x in list {
        all = all & in_range(*x);
    }
    all
}

// The checks of any list in number order; `few` is what is asked of how few points there are.
pub fn check_list(list: &[f64], few: Result<(), Refusal>) -> Result<(), Refusal>
    ensures { check_number result ≡ list_check (check_number few) list.now }
{
    if list.len() % 3 != 0 {
        return Err(Refusal::NotTriples);
    }
    few?;
    if list.len() / 3 > MOST_POINTS {
        return Err(Refusal::TooManyPoints);
    }
    if all_in_range(list) {
        Ok(())
    } else {
        Err(Refusal::OutOfRange)
    }
}

// The vertices or the near list of a stored string.
pub fn check_stored(list: &[f64]) -> Result<(), Refusal>
    ensures { check_number result ≡ stored_check list.now }
{
    if list.is_empty() {
        check_list(list, Err(Refusal::NotTriples))
    } else {
        check_list(list, Ok(()))
    }
}

// The vertices of a stored string, and their numbers.
pub fn check_string(v: &[f64], buoys: &[u32]) -> Result<(), Refusal>
    ensures { check_number result ≡ string_check v.now buoys.now }
{
    if v.is_empty() {
        return check_list(v, Err(Refusal::NotTriples));
    }
    if buoys.len() != v.len() / 3 {
        return check_list(v, Err(Refusal::BuoysNotAsMany));
    }
    check_list(v, Ok(()))
}

// A list to build from, and its numbers.
pub fn check_building(list: &[f64], buoys: &[u32]) -> Result<(), Refusal>
    ensures { check_number result ≡ building_check list.now buoys.now }
{
    if buoys.len() != list.len() / 3 {
        return check_list(list, Err(Refusal::BuoysNotAsMany));
    }
    if list.len() / 3 < 2 {
        return check_list(list, Err(Refusal::TooFewPoints));
    }
    check_list(list, Ok(()))
}

// Points to put in or to cut at, and their numbers.
pub fn check_points(list: &[f64], buoys: &[u32]) -> Result<(), Refusal>
    ensures { check_number result ≡ points_check list.now buoys.now }
{
    if buoys.len() != list.len() / 3 {
        return check_list(list, Err(Refusal::BuoysNotAsMany));
    }
    check_list(list, Ok(()))
}

pub fn check_point(p: SphericalPoint) -> Result<(), Refusal>
    ensures { check_number result ≡ point_check p }
{
    if in_range(p.x) & in_range(p.y) & in_range(p.z) {
        Ok(())
    } else {
        Err(Refusal::OutOfRange)
    }
}

// A margin: from 0 on, -0 too, and finite. One over zero is the infinity.
pub fn check_margin(margin: f64) -> Result<(), Refusal>
    ensures { check_number result ≡ margin_check margin }
{
    if (0.0 <= margin) & (margin < 1.0 / 0.0) {
        Ok(())
    } else {
        Err(Refusal::MarginOutOfRange)
    }
}

// Whether an answer of `needed` elements fits a buffer of `lent`.
pub fn check_room(needed: usize, lent: usize) -> Result<(), Refusal>
    ensures { check_number result ≡ room_check needed lent }
{
    if lent < needed {
        Err(Refusal::NoRoom)
    } else {
        Ok(())
    }
}

// Whether `n` vertices fit a buffer of so many floats, and their numbers one of so many numbers.
pub fn check_rooms(n: usize, floats: usize, numbers: usize) -> Result<(), Refusal>
    ensures { check_number result ≡ rooms_check n floats numbers }
{
    check_room(n, floats / 3)?;
    check_room(n, numbers)
}
