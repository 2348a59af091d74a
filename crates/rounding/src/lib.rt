// The whole number nearest k times a double, halves away from zero: its magnitude, worked out from the double's bits.
#![tactic(auto)]

ghost use Rattle.std.specs.Prelude.{◌≡◌, ◌≤◌, T};
ghost use Rattle.number.specs.Ops.{dec};
ghost use Rattle.number.specs.Number.{about_of};
ghost use Rattle.rounding.specs.Rounded.{rounded_of};

// |x| is m / d, with m of 53 binary digits and d the power of two that x's exponent names. With a field below 1012 d is 2^64 or more, and k * |x|
// is below 1/2; a field above 1042 is that of a magnitude above 1,000,000.
pub fn rounded(x: f64, k: u64) -> u64
    requires { T (about_of (dec 1000000 1) x) × (k ≤ 1000) }
    ensures { result ≡ rounded_of k x }
{
    let b = f64::to_bits(x) % 9223372036854775808;
    let field = b / 4503599627370496;
    if field < 1012 {
        return 0;
    }
    let m = 4503599627370496 + b % 4503599627370496;
    let d = 1u64 << (1075 - field);
    (k * m + d / 2) / d
}
