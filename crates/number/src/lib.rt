// What Rust's std gives for doubles: min, max, clamp, abs, signum and the range tests. Every function is total.
#![tactic(auto)]

ghost use Rattle.std.specs.Prelude.{◌≡◌};
ghost use Rattle.number.specs.Number.{min_of, max_of, clamp_of, abs_of, signum_of, finite_of, within_of};

// std::f64::consts::PI.
pub const PI: f64 = 3.14159265358979323846264338327950288;

// The lesser. A NaN gives the other, and of two equal values it is a, where the library leaves open which.
#[tactic(auto, unfolding(crate::specs::Number::min_of))]
pub fn min(a: f64, b: f64) -> f64
    ensures { result ≡ min_of a b }
{
    if (b < a) | a.is_nan() { b } else { a }
}

// The greater. A NaN gives the other, and of two equal values it is a, where the library leaves open which.
#[tactic(auto, unfolding(crate::specs::Number::max_of))]
pub fn max(a: f64, b: f64) -> f64
    ensures { result ≡ max_of a b }
{
    if (a < b) | a.is_nan() { b } else { a }
}

// Below lo it is lo, then above hi it is hi. A NaN stays. The library's `clamp` asks for lo ≤ hi.
#[tactic(auto, unfolding(crate::specs::Number::clamp_of))]
pub fn clamp(x: f64, lo: f64, hi: f64) -> f64
    ensures { result ≡ clamp_of x lo hi }
{
    let low = if x < lo { lo } else { x };
    if hi < low { hi } else { low }
}

// The magnitude. 0 - x is +0 at both zeros. The library's `abs` makes one comparison more.
#[tactic(auto, using(crate::proofs::Tests::abs_low, crate::proofs::Tests::abs_high))]
pub fn abs(x: f64) -> f64
    ensures { result ≡ abs_of x }
{
    if x <= 0.0 { 0.0 - x } else { x }
}

// 1 with the sign of x, that of a zero included: the highest bit. A NaN stays. The library's `signum` makes two comparisons more.
#[tactic(auto, using(crate::proofs::Tests::nan_sign, crate::proofs::Tests::plus_sign, crate::proofs::Tests::minus_sign))]
pub fn signum(x: f64) -> f64
    ensures { result ≡ signum_of x }
{
    if x.is_nan() {
        x
    } else if x.to_bits() < 9223372036854775808 {
        1.0
    } else {
        -1.0
    }
}

// No NaN and no infinity.
#[tactic(auto, using(crate::proofs::Tests::finite_same))]
pub fn is_finite(x: f64) -> bool
    ensures { result ≡ finite_of x }
{
    x.is_finite()
}

// lo ≤ x ≤ hi by value. A NaN is never within.
#[tactic(auto, unfolding(crate::specs::Number::within_of))]
pub fn within(lo: f64, hi: f64, x: f64) -> bool
    ensures { result ≡ within_of lo hi x }
{
    (lo <= x) & (x <= hi)
}
