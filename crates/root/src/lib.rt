// The square root of a double, rounded to the nearest double: IEEE 754's squareRoot at binary64, for every double.
// `sqrt` is the entry, and specs/Root.antt says what the root is. Assumes nothing.
//
// 1. The square of the exact root, in units of the smallest double, is m * 2 ^ a with a whole m. An odd a gives a 2 to m, and is then halved.
// 2. m takes fours until it has 53 or 54 digits. The 53 digits of the root are √(m * 2 ^ 52) to the nearest whole number.
// 3. A guess at that number is made in doubles. Its exact square shows which it is, the guess, the number below it or the number above it.
// 4. Where it is none of the three, which no input is known to bring about, the root's whole part is rounded by what is left over.
#![tactic(auto)]

ghost use Rattle.std.specs.Prelude.{◌≡◌, ◌↔◌, ◌+◌, ◌*◌, ◌^◌, ◌<◌, ◌≤◌, IsTrue};
ghost use Rattle.std.specs.Float.{binary64};
ghost use Rattle.std.specs.Float.Ieee.{of_bits};
ghost use Rattle.root.specs.Root.{sq, root_of, IsRootOf};
ghost use Rattle.root.specs.Inner.Steps.{Rounded, pattern};

// 2 ^ 52: the weight of a significand's leading digit, and of the exponent's field in a pattern.
const LEAD: u64 = 0x0010_0000_0000_0000;

// 2 ^ 53, the first number that a significand's 53 digits do not reach.
const CARRY: u64 = LEAD * 2;

// 2 ^ 54, the first number that the 54 digits of m do not reach.
const LIMIT: u64 = LEAD * 4;

// One is 2 ^ 1074 units.
const DEPTH: u64 = 1074;

// Half of a significand's digits below the leading one.
const HALF: u64 = 26;

// The exponent's field of a double from 1 to 2 is one more: its leading digit counts there.
const BELOW_ONE: u64 = 1022;

// So far on either side of 1 the guess is halfway; that it is the root holds 64 times as far.
const NEAR: u64 = 0x0010_0000;

// START + u * (SLOPE - u * BEND) is within one part in 190 of √u for each u from 1 to 4.
const START: f64 = 0.5185;

const SLOPE: f64 = 0.526;

const BEND: f64 = 0.0395;

// So many turns of Heron's rule bring one part in 190 below what a double shows.
const TURNS: u64 = 3;

// The root of x: of a NaN and of a number below zero a NaN, of a zero itself with its sign, of +infinity itself, and of any other the nearest double.
pub fn sqrt(x: f64) -> f64
    ensures { (result ≡ root_of x) × IsRootOf x result }
{
    if x < 0.0 {
        f64::NAN
    } else if 0.0 < x && x < f64::INFINITY {
        f64::from_bits(root_bits(x.to_bits()))
    } else {
        // A NaN, a zero or +infinity.
        x
    }
}

// The root's pattern, from the pattern of a finite double above zero.
fn root_bits(bits: u64) -> u64
    requires { (0 < bits) × (bits < 0x7ff0_0000_0000_0000) }
    ensures { (of_bits binary64 result ≡ root_of (of_bits binary64 bits)) × (result < 0x7ff0_0000_0000_0000) }
{
    let field = bits / LEAD;
    let digits = bits % LEAD;
    // A subnormal has no leading digit, and the exponent of field 1.
    if field == 0 {
        halved(digits, DEPTH)
    } else {
        halved(digits + LEAD, field + (DEPTH - 1))
    }
}

// The pattern of √(m * 2 ^ a).
fn halved(m: u64, a: u64) -> u64
    requires { (0 < m) × (m < 2 ^ 53) × (1074 ≤ a) × (a ≤ 3120) }
    ensures { result ≡ pattern (m * 2 ^ a) }
{
    scaled_root(m * (a % 2 + 1), a / 2)
}

// The pattern of √(m * 4 ^ b). Only a subnormal has too few digits, and at most 26 fours to take.
fn scaled_root(m: u64, b: u64) -> u64
    requires { (0 < m) × (m < 2 ^ 54) × (537 ≤ b) × (b ≤ 1560) }
    ensures { result ≡ pattern (m * 2 ^ (b + b)) }
{
    let mut n = m;
    let mut c = b;
    while n < LEAD {
        n *= 4;
        c -= 1;
    }
    (c - HALF) * LEAD + nearest_root(n)
}

// √(m * 2 ^ 52) to the nearest whole number: that one of the guess, the number below it and the number above it which it is, where one is.
fn nearest_root(m: u64) -> u64
    requires { (2 ^ 52 ≤ m) × (m < 2 ^ 54) }
    ensures { Rounded (m * 2 ^ 52) result }
{
    let n = u128::from(m) << 52;
    let r = guess(m);
    // Kept: a search of the array of the three, by `find`, takes 8 % longer.
    if is_rounded(n, r) {
        r
    } else if is_rounded(n, r - 1) {
        r - 1
    } else if is_rounded(n, r + 1) {
        r + 1
    } else {
        rounded_root(n)
    }
}

// A guess at √(m * 2 ^ 52). Beside 1, which every second normalisation asks for, it is halfway between: the root of 1 + x is 1 + x / 2, but for x * x / 8,
// and rounding goes down. Anywhere else u is m moved to between 1 and 4, and Heron's rule mends the start. None of that is proved, and need not be:
// `nearest_root` trusts no guess.
fn guess(m: u64) -> u64
    requires { (2 ^ 52 ≤ m) × (m < 2 ^ 54) }
    ensures { (2 ^ 52 ≤ result) × (result < 2 ^ 53) }
{
    if m < LEAD + NEAR {
        return LEAD + (m - LEAD) / 2;
    }
    if LIMIT - NEAR < m {
        return CARRY - (LIMIT - m + 3) / 4;
    }
    let spare = m / CARRY;
    let u = f64::from_bits((BELOW_ONE + spare) * LEAD + (m >> spare));
    let half = u * 0.5;
    let mut s = START + u * (SLOPE - u * BEND);
    for _ in 0..TURNS {
        // The mean of s and u / s: where s is off √u by a part e, this is off by a part of about e * e / 2.
        s = s * 0.5 + half / s;
    }
    if s.is_nan() {
        LEAD
    } else {
        s.to_bits() % LEAD + LEAD
    }
}

// Whether r is √n to the nearest whole number.
fn is_rounded(n: u128, r: u64) -> bool
    requires { (n < 2 ^ 106) × (r ≤ 2 ^ 53) }
    ensures { IsTrue result ↔ Rounded n r }
{
    let r = u128::from(r);
    let square = r * r;
    square < n + r && n <= square + r
}

// √n to the nearest whole number: the root is above its whole part q and a half just where n is above the square of q by more than q.
fn rounded_root(n: u128) -> u64
    requires { (2 ^ 104 ≤ n) × (n < 2 ^ 106) }
    ensures { Rounded n result }
{
    let whole = n.isqrt();
    let q = whole as u64;
    let rem = (n - whole * whole) as u64;
    if q < rem { q + 1 } else { q }
}
