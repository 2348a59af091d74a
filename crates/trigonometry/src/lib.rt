// Cosine, sine and arctangent of 01, in its order of operations.
#![tactic(auto)]

ghost use Rattle.std.specs.Prelude.{◌≡◌, ◌≤◌};
ghost use Rattle.trigonometry.specs.Trig.{cosine_of, sine_of, arctangent_of, angle_of, halved, series, divisor, odd_series, one};
ghost use Rattle.number.specs.Ops.{◌⊘◌, dec};

// c = 1; k = 10 down to 1: c = 1 − (s/d)×c, where d is (2k−1)(2k) for O = 0 and (2k)(2k+1) for O = 1.
fn series_at<const O: u64>(s: f64) -> f64
    requires { O ≤ 1 }
    ensures { result ≡ series (divisor O) 10 s one }
{
    let mut c = 1.0;
    for k in (1..11u64).rev() {
        c = 1.0 - s / (((2 * k - 1 + O) * (2 * k + O)) as f64) * c;
    }
    c
}

#[tactic(auto, unfolding(crate::specs::Trig::cosine_of))]
pub fn cosine(x: f64) -> f64
    ensures { result ≡ cosine_of x }
{
    series_at::<0>(x * x)
}

#[tactic(auto, unfolding(crate::specs::Trig::sine_of))]
pub fn sine(x: f64) -> f64
    ensures { result ≡ sine_of x }
{
    x * series_at::<1>(x * x)
}

// s = 1/25; m = 11 down to 0: s = 1/(2m+1) − z×s.
fn odd_series(z: f64) -> f64
    ensures { result ≡ odd_series 12 z (one ⊘ dec 25 1) }
{
    let mut s = 1.0 / 25.0;
    for m in (0..12u64).rev() {
        s = 1.0 / ((2 * m + 1) as f64) - z * s;
    }
    s
}

// The tangent of half the angle with the tangent q.
fn half(q: f64) -> f64
    ensures { result ≡ halved q }
{
    q / (1.0 + root::root(1.0 + q * q))
}

// A(q)
fn angle(q: f64) -> f64
    ensures { result ≡ angle_of q }
{
    let t = half(half(q));
    4.0 * (t * odd_series(t * t))
}

pub fn arctangent(y: f64, x: f64) -> f64
    ensures { result ≡ arctangent_of y x }
{
    if y <= x {
        angle(y / x)
    } else {
        1.5707963267948966 - angle(x / y)
    }
}
