// What is lent to a call: what stands in each place before it, and the first floats of a list.
// What every place holds before a call, so that what is not written shows.
pub(crate) const FLOAT: f64 = -7.25;

pub(crate) const BUOY: u32 = 0xA5A5_5A5A;

pub(crate) const BYTE: u8 = 0xA5;

pub(crate) const NUMBER: usize = 0x5A5A_5A5A;

pub(crate) const COUNT: u64 = 0x5A5A_5A5A;

// The first floats of a list: a point, a leg; a NaN for each past its end.
pub(crate) fn first<const N: usize>(list: &[f64]) -> [f64; N] {
    let mut floats = [f64::NAN; N];
    for (place, x) in floats.iter_mut().zip(list) {
        *place = *x;
    }
    floats
}
