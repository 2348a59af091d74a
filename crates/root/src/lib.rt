// The square root of a double, rounded to the nearest. A float estimate, not proved to be near, is tested exactly in whole numbers. Where the test fails, it is corrected by 1, or a digit loop works out the root.
#![tactic(auto)]

ghost use Rattle.std.specs.Prelude.{◌≡◌, ◌+◌, ◌*◌, ◌<◌, ◌≤◌, true, not, T};
ghost use Rattle.std.specs.Float.Ieee.{is_nan};
ghost use Rattle.root.specs.Root.{root_of, hypot_of};
ghost use Rattle.root.specs.Inner.{Near, Aligned, Radicand, RootBits, SureBits};
ghost use Rattle.std.specs.Option.{ForSome, unwrap_or};
ghost use Rattle.root.specs.Guess.{cut_of, estimate_of, is_near, is_sure, guess_of};

// 2^52: the place of the exponent's field among the bits of a double, and that of the leading one of its 53 digits, which has no bit.
const FIELD: u64 = 4503599627370496;

const LEADING: u64 = 4503599627370496;

// 2^53, the next place: a number of 53 digits is below it, and by it half of the field is read.
const NEXT: u64 = 9007199254740992;

// 1023 in the field's place: the bits of 1.
const BIAS: u64 = 4607182418800017408;

// The bits of infinity, which are above those of every finite double from +0 on, and the bits of -0.
const INFINITY: u64 = 9218868437227405312;

const MINUS_ZERO: u64 = 9223372036854775808;

// About 3 * BIAS: (SEED - b) / 2, for the bits b of x, are the bits of the seed from which `estimate` starts.
const SEED: u64 = 13823763871841648640;

// 2^27 and 2^21, where 53 digits are split: in 26 and 27, and in 32 and 21.
const MIDDLE: u64 = 134217728;

const SPLIT: u64 = 2097152;

// 2^24: in `corrected`, so many times 2^28 is 2^52.
const SCALE: u64 = 16777216;

// The whole number nearest the root of m * 2^52, binary digit by binary digit. m's range, up to 2^54 - 2, is asked here and below: as a type of its own it
// would be unpacked at each of these sums.
fn digits(m: u64) -> u64
    requires { (LEADING ≤ m) × (m < 18014398509481983) }
    ensures { Near m result }
{
    let mut root = 0u64;
    let mut rem = 0u64;
    let mut rest = m;
    for _ in 0..53u64 {
        let c = rem * 4 + rest / LEADING;
        rest = rest % LEADING * 4;
        let t = root * 4 + 1;
        if c < t {
            rem = c;
            root = root * 2;
        } else {
            rem = c - t;
            root = root * 2 + 1;
        }
    }
    if root < rem { root + 1 } else { root }
}

// The same, from an estimate r that may be off by 1. With r = a * 2^27 + b the difference m * 2^52 - r * r is g - s, worked out in 64 bits: g is
// 2^28 (2^24 (m + 64 - 4 a a) - a b), and s is b b + 2^58. 64 is added to m, and 2^58 to b b, so that nothing is below 0. Where a step would not fit, which
// e from 2^38 on and f from 2^35 on might lead to, or the difference shows that r is off by more than 1, the digit loop is used.
fn corrected(m: u64, r: u64) -> u64
    requires { ((LEADING ≤ m) × (m < 18014398509481983)) × ((LEADING ≤ r) × (r < NEXT)) }
    ensures { Near m result }
{
    let a = r / MIDDLE;
    let b = r % MIDDLE;
    let q = a * a * 4;
    if m + 64 < q {
        return digits(m);
    }
    let e = m + 64 - q;
    let p = a * b;
    if e >= 274877906944 || e * SCALE < p {
        return digits(m);
    }
    let f = e * SCALE - p;
    if f >= 34359738368 {
        return digits(m);
    }
    let g = f * 268435456;
    let s = b * b + 288230376151711744;
    let t = if g + r <= s {
        r - 1
    } else if s + r < g {
        r + 1
    } else {
        r
    };
    if s + 2 < g + r * 3 && g <= s + r * 3 + 2 && LEADING <= t && t < NEXT {
        t
    } else {
        digits(m)
    }
}

// s without its last 27 digits.
fn cut(s: f64) -> f64
    requires { T (not (is_nan s)) }
    ensures { result ≡ cut_of s }
{
    f64::from_bits(s.to_bits() / MIDDLE * MIDDLE)
}

// An estimate of the root of the positive double x, of which b are the bits. y0 is a seed for a multiple of 1 / root x, and t a multiple of x * y0 * y0, within 12.5%.
// f * q is a cubic in t; y is 1 / (2 root x) to 2^-21. sh is the first estimate of the root cut to 26 digits, so that sh * sh and sh * sh - x are exact.
#[tactic(auto, using(crate::proofs::Patterns::no_nan))]
fn estimate(x: f64, b: u64) -> f64
    requires { b < INFINITY }
    ensures { result ≡ estimate_of x b }
{
    let y0 = f64::from_bits((SEED - b) / 2);
    let t = x * 0.3149496573049748 * y0 * y0;
    let f = 1.260772897610097 - t;
    let q = t * (t - 0.8359733378808787) + 0.6896020179381465;
    let hf = x * y0 * f;
    let y = y0 * f * q;
    let s = (hf + hf) * q;
    if s.is_nan() {
        return s;
    }
    let sh = cut(s);
    let e = sh * sh - x;
    let g = (hf * q * y - 1.75) + sh * y;
    sh + e * y * g
}

// True only if r is the whole number nearest the root of m * 2^52. With r = a * 2^21 + u and l = 2 u + 1, (2 r + 1)^2 - 4 m 2^52 is 2^23 (a l - 2^21 (1024 m - a a)) + l l,
// and r is the nearest where that is neither below 0 nor above 8 r. 1024 is added to 1024 m - a a, and 2^31 to the left of the test, so that nothing is below 0.
fn is_near(m: u64, r: u64) -> bool
    requires { ((LEADING ≤ m) × (m < 18014398509481983)) × ((LEADING ≤ r) × (r < NEXT)) }
    ensures { (result ≡ true → Near m r) × (result ≡ is_near m r) }
{
    let a = r / SPLIT;
    let k = a * a;
    let n = m * 1024 + 1024;
    if n < k || n - k >= a * 4 {
        return false;
    }
    let d = n - k;
    let h = d * SPLIT;
    let l = r % SPLIT * 2 + 1;
    let p = a * l + l * l / 8388608 + 2147483648;
    // Apart: joined by `&&`, both tests are worked out on the machine, and in the hot path.
    if p < h {
        return false;
    }
    p - h < a * 2
}

// m, by the field and the digits of w: the digits with the leading one, doubled where the field is odd.
#[tactic(auto, using(crate::proofs::Rooted::doubled, crate::proofs::Rooted::single))]
fn radicand(w: u64) -> u64
    ensures { Radicand w result }
{
    let t = w % FIELD + LEADING;
    if w / FIELD % 2 == 1 { t * 2 } else { t }
}

// True only if w are the bits of the root of the normal double with the bits b.
fn sure(b: u64, w: u64) -> bool
    requires { (FIELD ≤ b) × (b < INFINITY) }
    ensures { (result ≡ true → RootBits b w) × (result ≡ is_sure b w) }
{
    let v = b + BIAS;
    w / FIELD == v / NEXT && is_near(radicand(v), w % FIELD + LEADING)
}

// The whole number nearest the root of m * 2^52. p are the bits of m / 2^52.
#[tactic(auto, using(crate::proofs::Patterns::no_nan))]
fn near(m: u64, p: u64) -> u64
    requires { ((LEADING ≤ m) × (m < 18014398509481983)) × (p < INFINITY) }
    ensures { Near m result }
{
    let w = estimate(f64::from_bits(p), p);
    if w.is_nan() {
        return digits(m);
    }
    let b = w.to_bits();
    corrected(m, b % FIELD + LEADING)
}

// The exponent's field plus 1023 and the 52 digits of the double with the bits b. A subnormal is normalized.
fn aligned(b: u64) -> u64
    requires { (0 < b) × (b < INFINITY) }
    ensures { Aligned b result }
{
    if b >= FIELD {
        return b + BIAS;
    }
    let j = 52 - b.ilog2();
    (b << j) - LEADING + (1024 - j as u64) * FIELD
}

// The bits of the root of the finite double above 0 with the bits b.
fn positive(b: u64) -> u64
    requires { (0 < b) × (b < INFINITY) }
    ensures { RootBits b result }
{
    let w = aligned(b);
    let g = w / FIELD;
    let m = radicand(w);
    let p = w % FIELD + (1023 + g % 2) * FIELD;
    near(m, p) + (g / 2 - 1) * FIELD
}

// The bits of the root of x; none where x is no normal double above 0, or its estimate is not sure. How often that is, is not proved: `compare speed` counts it.
pub fn guess(x: f64) -> Option<u64>
    ensures sure { ForSome result (λ r. SureBits x r) }
    ensures bits { unwrap_or result 0 ≡ guess_of x }
{
    if x.is_nan() {
        return None;
    }
    let b = x.to_bits();
    if b < FIELD || b >= INFINITY {
        return None;
    }
    let w = estimate(x, b);
    if w.is_nan() {
        return None;
    }
    let r = w.to_bits();
    if sure(b, r) { Some(r) } else { None }
}

// The root of any double, digit by digit at the worst. Not in line: `root` mostly has its guess.
#[inline(never)]
#[tactic(auto, using(crate::proofs::Patterns::no_nan))]
fn exact(x: f64) -> f64
    ensures { result ≡ root_of x }
{
    if x.is_nan() {
        return x;
    }
    let b = x.to_bits();
    if b == 0 {
        x
    } else if b < INFINITY {
        f64::from_bits(positive(b))
    } else if b == INFINITY {
        x
    } else if b == MINUS_ZERO {
        -0.0
    } else {
        f64::NAN
    }
}

#[tactic(auto, using(crate::proofs::Patterns::no_nan))]
pub fn root(x: f64) -> f64
    ensures { result ≡ root_of x }
{
    match guess(x) {
        Some(r) => f64::from_bits(r),
        None => exact(x),
    }
}

#[tactic(auto, unfolding(crate::specs::Root::hypot_of))]
pub fn hypot(a: f64, b: f64) -> f64
    ensures { result ≡ hypot_of a b }
{
    root(a * a + b * b)
}
