// The square root of an `f64`, correctly rounded, worked out from its bits in whole numbers. specs/Sqrt.antt says which
// float it is, and specs/NearestRoot.antt what makes it the nearest to √x.
#![tactic(auto)]

ghost use Rattle.std.specs.Prelude.{◌≡◌, ◌+◌, ◌-◌, ◌*◌, ◌/◌, ◌^◌, ◌≤◌, ◌<◌};
ghost use Rattle.std.specs.Float.{binary64};
ghost use Rattle.std.specs.Float.Ieee.{of_bits};
ghost use Rattle.square_root.specs.Sqrt.{sqrt_of};
ghost use Rattle.square_root.specs.RootStep.{WholeRoot, Step, significand_of};

// 2^52: the leading one of a normal significand, and the weight of the exponent's field.
const LEADING_ONE: u64 = 0x10_0000_0000_0000;

// The pattern of 1, and those 2^20 places below it and above it.
const ONE: u64 = 0x3ff0_0000_0000_0000;

const NEAR_BELOW: u64 = 0x3fef_ffff_fff0_0000;

const NEAR_ABOVE: u64 = 0x3ff0_0000_0010_0000;

// The pattern of the infinity above zero: those of the finite numbers above zero are less.
const INFINITY: u64 = 0x7ff0_0000_0000_0000;

// The whole roots of 128 * n, for n from 32 to 127, in rows of 8.
const ROOTS: [[u8; 8]; 12] = [
    [64, 64, 65, 66, 67, 68, 69, 70],
    [71, 72, 73, 74, 75, 75, 76, 77],
    [78, 79, 80, 80, 81, 82, 83, 83],
    [84, 85, 86, 86, 87, 88, 89, 89],
    [90, 91, 91, 92, 93, 93, 94, 95],
    [96, 96, 97, 97, 98, 99, 99, 100],
    [101, 101, 102, 103, 103, 104, 104, 105],
    [106, 106, 107, 107, 108, 109, 109, 110],
    [110, 111, 112, 112, 113, 113, 114, 114],
    [115, 115, 116, 117, 117, 118, 118, 119],
    [119, 120, 120, 121, 121, 122, 122, 123],
    [123, 124, 124, 125, 125, 126, 126, 127],
];

// The whole root of 128 * n, by the table.
fn table_root(n: u64) -> u64
    requires { (32 ≤ n) × (n < 128) }
    ensures { WholeRoot (128 * n) result }
{
    let i = (n - 32) as usize;
    u64::from(ROOTS[i / 8][i % 8])
}

// The whole root of a number of 13 or 14 binary digits, itself of 7: the table's, or one more.
fn root7(m: u64) -> u64
    requires { (2 ^ 12 ≤ m) × (m < 2 ^ 14) }
    ensures { WholeRoot m result }
{
    let s = table_root(m / 128);
    if (s + 1) * (s + 1) <= m { s + 1 } else { s }
}

// From s, the whole root of m, to the whole root of the number whose digits in base h are m, c1 and c2
// (Zimmermann, Karatsuba Square Root, 1999): one division finds the root's next digit, or one more than it.
fn longer(m: u64, s: u64, h: u64, c1: u64, c2: u64) -> u64
    requires { Step m s h c1 c2 }
    ensures { WholeRoot (m * (h * h) + c1 * h + c2) result }
{
    let n = (m - s * s) * h + c1;
    let c = n / (2 * s);
    let e = n % (2 * s);
    let a = s * h + c;
    if c * c <= e * h + c2 { a } else { a - 1 }
}

// The whole root of m * 2^54, of 54 binary digits: 7 of them by the table, then 14, 27 and 54 by a division each.
fn root54(m: u64) -> u64
    requires { (2 ^ 52 ≤ m) × (m < 2 ^ 54) }
    ensures { WholeRoot (m * 2 ^ 54) result }
{
    let m14 = m / 0x100_0000_0000;
    let m28 = m / 0x400_0000;
    let r7 = root7(m14);
    let r14 = longer(m14, r7, 128, m28 / 128 % 128, m28 % 128);
    let r27 = longer(m28, r14, 8192, m / 8192 % 8192, m % 8192);
    longer(m, r27, 0x800_0000, 0, 0)
}

// The significand of the number whose pattern is b, as a whole number: a subnormal one has no leading one.
fn significand(b: u64) -> u64
    ensures { result ≡ significand_of b }
{
    let t = b % LEADING_ONE;
    if b < LEADING_ONE { t } else { t + LEADING_ONE }
}

// How many places above 2^-1074, the smallest float, that significand's last digit stands.
fn place(b: u64) -> u64
    ensures { result ≡ b / 2 ^ 52 - 1 }
{
    if b < LEADING_ONE {
        0
    } else {
        b / LEADING_ONE - 1
    }
}

// The pattern of the root of the number whose pattern is b, a finite one above zero.
// z moves the significand's leading one to its place, so that a subnormal number goes the way of the others. Then the
// number is (m << z) * 2^f units of 2^-2148, and an odd f gives one of its twos to the significand: in units of 2^-1074
// the root is √(s * 2^54) * 2^(f / 2 - 27). Its whole root r has one digit too many. An odd r is rounded up: then the
// root is above the point halfway, and never on it, since the square of an odd number is odd.
fn root_bits(b: u64) -> u64
    requires { (1 ≤ b) × (b < 0x7ff0_0000_0000_0000) }
    ensures { (result < 0x7ff0_0000_0000_0000) × (of_bits binary64 result ≡ sqrt_of (of_bits binary64 b)) }
{
    let m = significand(b);
    let z = m.leading_zeros() - 11;
    let f = place(b) + 1074 - u64::from(z);
    let s = (m << z) * (1 + f % 2);
    let r = root54(s);
    (f / 2 - 26) * LEADING_ONE + (r + 1) / 2
}

// The same, with a short way near 1, where the squared length of a unit vector lies. k places from 1 the root is k / 2 places from it,
// and lower by less than half a place: so its pattern is the mean of the two patterns, rounded down.
fn root_pattern(b: u64) -> u64
    requires { (1 ≤ b) × (b < 0x7ff0_0000_0000_0000) }
    ensures { (result < 0x7ff0_0000_0000_0000) × (of_bits binary64 result ≡ sqrt_of (of_bits binary64 b)) }
{
    if b < NEAR_BELOW || b > NEAR_ABOVE {
        return root_bits(b);
    }
    (b + ONE) / 2
}

// √x, rounded once. A zero keeps its sign, the infinity above zero is its own root, and a NaN or a number below zero
// has a NaN.
pub fn sqrt(x: f64) -> f64
    ensures { result ≡ sqrt_of x }
{
    if x > 0.0 {
        let b = x.to_bits();
        if b < INFINITY {
            return f64::from_bits(root_pattern(b));
        }
        return x;
    }
    if x < 0.0 {
        return f64::NAN;
    }
    x
}
