// The answers of the string layer put into the places that a C program lends. Each call for an answer that may be refused returns 0 or
// the refusal's number.
ghost use Rattle.std.specs.Prelude.{◌≡◌};
ghost use Rattle.arcstring_check.specs.Answer.{answer_of};
ghost use Rattle.arcstring_put.specs.Put.{answer_number, left_in, Leaves, built_count, built_flag};

use arcstring_check::check::Refusal;

// A verdict, a point, a count: what is answered stands in the place as the place's type has it.
pub fn put<T, U: From<T> + Drop>(answer: Result<T, Refusal>, place: &mut U) -> u32
    ensures { (result ≡ answer_number (answer_of answer)) × Leaves U.from_gives (answer_of answer) place.old place.new }
{
    match answer {
        Err(e) => u32::from(e),
        Ok(x) => {
            *place = U::from(x);
            0
        }
    }
}

// How many vertices were built.
pub fn put_built_count(b: Result<(usize, bool), Refusal>, count: &mut usize) -> u32
    ensures { (result ≡ answer_number (answer_of b)) × (count.new ≡ left_in built_count (answer_of b) count.old) }
{
    put(b.map(|(n, _)| n), count)
}

// How many vertices were built, and whether they close.
pub fn put_built(b: Result<(usize, bool), Refusal>, count: &mut usize, closed: &mut u8) -> u32
    ensures { (result ≡ answer_number (answer_of b)) × (count.new ≡ left_in built_count (answer_of b) count.old)
        × (closed.new ≡ left_in built_flag (answer_of b) closed.old) }
{
    put(b.map(|(_, c)| c), closed);
    put(b.map(|(n, _)| n), count)
}
