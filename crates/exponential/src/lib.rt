// exp of a double, and how large it is. A power of two is made from its exponent's bits.
#![tactic(auto)]

ghost use Rattle.std.specs.Prelude.{◌≡◌, ◌<◌, false};
ghost use Rattle.std.specs.Float.Ieee.{is_nan, lt, neg};
ghost use Rattle.exponential.specs.Exp.{power, exp_of, exponent, horner, limit, one, reduced, two_to};
ghost use Rattle.exponential.specs.Magnitude.{magnitude_of};

// From this x on exp is infinity, and below its negative 0.
const LIMIT: f64 = 700.0;

// 2^57 and 2^-56: powers of which 3/8 and 13/8 still are vast and slight.
const VAST_POWER: f64 = 144115188075855872.0;

const SLIGHT_POWER: f64 = 1.387778780781445675529539585113525390625e-17;

// How large exp(x) is, as far as its reduction shows it: vast from 2^54 on, slight up to 2^-54.
#[derive(Clone, Copy)]
pub enum Magnitude {
    Vast,
    Slight,
    Other,
}

// x less n times ln 2, and the index of the power 2^n.
#[derive(Clone, Copy)]
struct Reduced {
    r: f64,
    i: u64,
}

// 2^(i - 1010), from its exponent's bits: the field i - 1010 + 1023 above 52 digits that are 0.
#[tactic(auto, using(crate::specs::Power::power_bits))]
fn power_at(i: u64) -> f64
    requires { i < 2021 }
    ensures { result ≡ power i }
{
    f64::from_bits((i + 13) * 4503599627370496)
}

// p = 1; k = 14 down to 1: p = 1 + (r/k)×p.
fn series(r: f64) -> f64
    ensures { result ≡ horner 14 r one }
{
    let mut p = 1.0;
    for k in (1..15u64).rev() {
        p = 1.0 + r / (k as f64) * p;
    }
    p
}

// Of an x from -LIMIT to LIMIT.
fn reduce(x: f64) -> Reduced
    requires { (is_nan x ≡ false) × (lt limit x ≡ false) × (lt x (neg limit) ≡ false) }
    ensures { (result.r ≡ reduced x (exponent x)) × (result.i < 2021) × (power result.i ≡ two_to (exponent x)) }
{
    let u = x * 1.4426950408889634 + 6755399441055744.0;
    let n = u - 6755399441055744.0;
    Reduced {
        r: x - n * 0.693147180369123816490 - n * 1.90821492927058770002e-10,
        i: u.to_bits() - 4843621399236967438,
    }
}

// In line where it is called, so that no register has to be saved for it.
#[inline(always)]
pub fn exp(x: f64) -> f64
    ensures { result ≡ exp_of x }
{
    if x.is_nan() {
        return x;
    }
    if x > LIMIT {
        return f64::INFINITY;
    }
    if x < -LIMIT {
        return 0.0;
    }
    let a = reduce(x);
    series(a.r) * power_at(a.i)
}

// Without the series, which is from 3/8 to 13/8 where r is within 3/8.
pub fn how_large(x: f64) -> Magnitude
    ensures { result ≡ magnitude_of x }
{
    if x.is_nan() {
        return Magnitude::Other;
    }
    if x > LIMIT {
        return Magnitude::Vast;
    }
    if x < -LIMIT {
        return Magnitude::Slight;
    }
    let a = reduce(x);
    if !number::within(-0.375, 0.375, a.r) {
        return Magnitude::Other;
    }
    let p = power_at(a.i);
    if p >= VAST_POWER {
        return Magnitude::Vast;
    }
    if p <= SLIGHT_POWER {
        return Magnitude::Slight;
    }
    Magnitude::Other
}
