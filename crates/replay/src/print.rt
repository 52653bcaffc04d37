// What is printed of an answer: words of 16 upper-case hexadecimal digits, a blank before each.
use std::fmt::Radix;
use std::io::Print;

pub(crate) fn word<N: Radix + Copy>(stdout: &impl Print, n: N) {
    let _ = print!(stdout; " {n:016X}");
}

pub(crate) fn words<N: Radix + Copy>(stdout: &impl Print, list: &[N]) {
    for n in list {
        word(stdout, *n);
    }
}

// A float's bits; every NaN prints alike.
fn float(stdout: &impl Print, x: f64) {
    if x.is_nan() {
        word(stdout, 0x7FF8_0000_0000_0000u64);
    } else {
        word(stdout, x.to_bits());
    }
}

pub(crate) fn floats(stdout: &impl Print, list: &[f64]) {
    for x in list {
        float(stdout, *x);
    }
}
