// A ball that slides on one ground sample.
#![tactic(auto)]

ghost use Rattle.std.specs.Prelude.{◌≡◌};
ghost use Rattle.vector.specs.Vec.{vlength};
ghost use Rattle.search.specs.Search.{find_root, counting, counted};
ghost use Rattle.slide.specs.Slide.{slide_accel, slide_spin_accel, slide_rate, fixed_rate, slide_fixed, patch_slip, turning_rate, slide_turning, slip_speed, slip_decay, slip_rate, time_to_roll, finish_of, turned_at, above_of, guess_of, finish_from, slide_to_threshold, slide_on_slope, slide_of};

use rk4::Motion;
use search::{Bracket, Root};
use std::ops::ControlFlow;
use vector::DVec3;

// Contact-point slip speed, or rolling speed, treated as zero.
pub const SLIP_EPS: f64 = 1e-9;

// Smallest slip speed at which a slide on a slope switches to a fixed slip direction.
const MIN_SWITCH_SLIP: f64 = 1e-6;

// The forces on a ball on one ground sample, per unit mass.
#[derive(Clone, Copy)]
pub struct Patch {
    pub n: DVec3,
    pub g_t: DVec3,
    pub friction: f64,
    pub radius: f64,
    pub k: f64,
    pub pivot_accel: DVec3,
}

// A slip, and its length.
#[derive(Clone, Copy)]
pub struct Slip {
    pub u: DVec3,
    pub len: f64,
    pub ghost length: { len ≡ vlength u },
}

// Where a slide ends, the time it takes, whether its slip reached zero, and the evaluations of its search.
#[derive(Clone, Copy)]
pub struct Slid {
    pub motion: Motion,
    pub time: f64,
    pub rolls: bool,
    pub evaluations: u64,
}

// A slide on a slope, whose slip direction turns: from where, when and in what slip direction it starts.
#[derive(Clone, Copy)]
pub struct Turning {
    pub patch: Patch,
    pub start: Motion,
    pub t: f64,
    pub u_hat0: DVec3,
}

// A slide on a slope, and the rate at its start, which serves every use.
#[derive(Clone, Copy)]
struct SlopeSlide {
    turning: Turning,
    k1: Motion,
    ghost first: { k1 ≡ turning_rate turning.patch turning.u_hat0 turning.start },
}

impl Patch {
    #[tactic(auto, unfolding(crate::specs::Slide::slide_accel))]
    fn slide_accel(self, u_hat: DVec3) -> DVec3
        ensures { result ≡ slide_accel self u_hat }
    {
        u_hat * -self.friction + self.g_t
    }

    #[tactic(auto, unfolding(crate::specs::Slide::slide_spin_accel))]
    fn slide_spin_accel(self, u_hat: DVec3) -> DVec3
        ensures { result ≡ slide_spin_accel self u_hat }
    {
        self.n.cross(u_hat) * self.friction / (self.k * self.radius) + self.pivot_accel
    }

    // Rate of change of a sliding ball with slip direction `u_hat`.
    #[tactic(auto, unfolding(crate::specs::Slide::slide_rate))]
    pub fn slide_rate(self, s: Motion, u_hat: DVec3) -> Motion
        ensures { result ≡ slide_rate self s u_hat }
    {
        Motion {
            pos: s.vel,
            vel: self.slide_accel(u_hat),
            spin: self.slide_spin_accel(u_hat),
        }
    }

    // One RK4 slide step of length `h` along the fixed slip direction `u_hat`. The time t is the Rust's parameter, which no rate uses.
    pub fn slide_fixed(self, s: Motion, t: f64, h: f64, u_hat: DVec3) -> Motion
        ensures { result ≡ slide_fixed self s t h u_hat }
    {
        let accel = self.slide_accel(u_hat);
        let spin_accel = self.slide_spin_accel(u_hat);
        let k1 = fixed_rate(accel, spin_accel, s);
        s.step_state(h, k1, |at| fixed_rate(accel, spin_accel, at))
    }

    #[tactic(auto, unfolding(crate::specs::Slide::patch_slip))]
    fn slip_of(self, s: Motion) -> DVec3
        ensures { result ≡ patch_slip self s }
    {
        contact::slip(s.vel, s.spin, self.n, self.radius)
    }

    #[tactic(auto, using(number::proofs::Steps::steps), unfolding(crate::specs::Slide::turning_rate))]
    fn turning_rate(self, fallback: DVec3, s: Motion) -> Motion
        ensures { result ≡ turning_rate self fallback s }
    {
        let u = self.slip_of(s);
        let len = u.length();
        if len > SLIP_EPS {
            return self.slide_rate(s, u / len);
        }
        self.slide_rate(s, fallback)
    }

    // One RK4 slide step of length `h`, with the slip direction evaluated at every stage; `k1` is the first stage's rate. The rate doesn't use the time t,
    // which is the Rust's parameter.
    fn slide_turning(self, s: Motion, t: f64, h: f64, fallback: DVec3, k1: Motion) -> Motion
        requires { k1 ≡ turning_rate self fallback s }
        ensures { result ≡ slide_turning self s t h fallback }
    {
        s.step_state(h, k1, |at| self.turning_rate(fallback, at))
    }

    // Contact slip speed of `s`.
    #[tactic(auto, unfolding(crate::specs::Slide::slip_speed))]
    pub fn slip_speed(self, s: Motion) -> f64
        ensures { result ≡ slip_speed self s }
    {
        self.slip_of(s).length()
    }

    #[tactic(auto, using(number::proofs::Steps::steps), unfolding(crate::specs::Slide::slip_decay))]
    fn slip_decay(self) -> f64
        ensures { result ≡ slip_decay self }
    {
        (1.0 + self.k) / self.k * self.friction
    }

    #[tactic(auto, unfolding(crate::specs::Slide::slip_rate))]
    fn slip_rate(self, u_hat: DVec3) -> f64
        ensures { result ≡ slip_rate self u_hat }
    {
        self.slip_decay() - self.g_t.dot(u_hat)
    }
}

#[tactic(auto, unfolding(crate::specs::Slide::fixed_rate))]
fn fixed_rate(accel: DVec3, spin_accel: DVec3, s: Motion) -> Motion
    ensures { result ≡ fixed_rate accel spin_accel s }
{
    Motion {
        pos: s.vel,
        vel: accel,
        spin: spin_accel,
    }
}

#[tactic(auto, using(number::proofs::Steps::steps), unfolding(crate::specs::Slide::time_to_roll))]
fn time_to_roll(len: f64, rate: f64) -> f64
    ensures { result ≡ time_to_roll len rate }
{
    if rate > 0.0 {
        return len / rate;
    }
    f64::INFINITY
}

// Slide to zero slip along the current slip direction, for at most `left`.
#[tactic(auto, using(number::proofs::Steps::steps), unfolding(crate::specs::Slide::finish_of))]
fn finish(patch: Patch, s: Motion, t: f64, left: f64, slip: Slip) -> Slid
    requires { slip.u ≡ patch_slip patch s }
    ensures { result ≡ finish_of patch s t left }
{
    if slip.len <= SLIP_EPS {
        return Slid {
            motion: s,
            time: 0.0,
            rolls: true,
            evaluations: 0,
        };
    }
    let u_hat = slip.u / slip.len;
    let to_roll = time_to_roll(slip.len, patch.slip_rate(u_hat));
    let h = number::min(left, to_roll);
    Slid {
        motion: patch.slide_fixed(s, t, h, u_hat),
        time: h,
        rolls: to_roll <= left,
        evaluations: 0,
    }
}

#[tactic(auto, using(number::proofs::Steps::steps), unfolding(crate::specs::Slide::guess_of))]
fn guess_of(over: f64, rate: f64, dt: f64) -> f64
    ensures { result ≡ guess_of over rate dt }
{
    if rate > 0.0 {
        return over / rate;
    }
    dt
}

impl SlopeSlide {
    // Where the slide is, tau after its start.
    fn turned_at(&self, tau: f64) -> Motion
        ensures { result ≡ turned_at self.now.turning tau }
    {
        self.turning.patch.slide_turning(
            self.turning.start,
            self.turning.t,
            tau,
            self.turning.u_hat0,
            self.k1,
        )
    }

    #[tactic(auto, unfolding(crate::specs::Slide::above_of))]
    fn above(&self, threshold: f64, tau: f64) -> f64
        ensures { result ≡ above_of self.now.turning threshold tau }
    {
        self.turning.patch.slip_speed(self.turned_at(tau)) - threshold
    }

    // The time at which the slip falls to the threshold, and the evaluations made, at most 200. A hop has this loop too, over looks that may stop it
    // (find_root of the crate arrival).
    fn time_at_threshold(&self, threshold: f64, b: Bracket, guess: f64) -> Root
        ensures { (result.x, result.evaluations) ≡ find_root counting (counted (above_of self.now.turning threshold)) b guess }
    {
        let mut s = search::start_search(b, guess);
        for made in 0..search::ROOT_MAX_ITER {
            let x = search::in_bracket(s);
            match search::narrow(s, x, self.above(threshold, x)) {
                ControlFlow::Continue(next) => s = next,
                ControlFlow::Break(root) => {
                    return Root {
                        x: root,
                        evaluations: made + 1,
                    };
                }
            }
        }
        Root {
            x: s.bracket.hi,
            evaluations: search::ROOT_MAX_ITER,
        }
    }

    // Slide to the root's time with the slip direction turning, then finish along the direction there.
    #[tactic(auto, unfolding(crate::specs::Slide::finish_from))]
    fn finish_from(&self, dt: f64, root: Root) -> Slid
        ensures { result ≡ finish_from self.now.turning dt (root.x, root.evaluations) }
    {
        let patch = self.turning.patch;
        let tau = root.x;
        let mid = self.turned_at(tau);
        let u = patch.slip_of(mid);
        let slip = Slip { u, len: u.length() };
        let end = finish(patch, mid, self.turning.t + tau, dt - tau, slip);
        Slid {
            motion: end.motion,
            time: tau + end.time,
            rolls: end.rolls,
            evaluations: root.evaluations,
        }
    }

    // A full step, or where the slip falls to the threshold within it, the slide to there and on.
    #[tactic(auto, using(number::proofs::Steps::steps), unfolding(crate::specs::Slide::slide_to_threshold))]
    fn slide_to_threshold(&self, dt: f64, s0: f64, threshold: f64) -> Slid
        ensures { result ≡ slide_to_threshold self.now.turning dt s0 threshold }
    {
        let patch = self.turning.patch;
        let full = self.turned_at(dt);
        let s_full = patch.slip_speed(full);
        if s_full > threshold {
            return Slid {
                motion: full,
                time: dt,
                rolls: false,
                evaluations: 0,
            };
        }
        let guess = guess_of(s0 - threshold, patch.slip_rate(self.turning.u_hat0), dt);
        let b = Bracket {
            lo: 0.0,
            f_lo: s0 - threshold,
            hi: dt,
            f_hi: s_full - threshold,
        };
        let root = self.time_at_threshold(threshold, b, guess);
        self.finish_from(dt, root)
    }

    // A slide on a slope that starts above the threshold.
    #[tactic(auto, using(number::proofs::Steps::steps), unfolding(crate::specs::Slide::slide_on_slope))]
    fn slide(&self, dt: f64, s0: f64, threshold: f64) -> Slid
        ensures { result ≡ slide_on_slope self.now.turning dt s0 threshold }
    {
        let patch = self.turning.patch;
        let fastest = patch.slip_decay() + patch.g_t.length();
        if s0 - threshold > fastest * dt {
            return Slid {
                motion: self.turned_at(dt),
                time: dt,
                rolls: false,
                evaluations: 0,
            };
        }
        self.slide_to_threshold(dt, s0, threshold)
    }
}

// A slide with the given slip at its start. The turning slide's first stage has the slip direction there, and its rate serves every use.
#[tactic(auto, using(number::proofs::Steps::steps), unfolding(crate::specs::Slide::slide_of, vector::specs::Vec::same_vec))]
pub fn slide_from(
    patch: Patch,
    start: Motion,
    t: f64,
    dt: f64,
    roll_threshold: f64,
    slip: Slip,
) -> Slid
    requires { slip.u ≡ patch_slip patch start }
    ensures { result ≡ slide_of patch start t dt roll_threshold }
{
    let threshold = number::max(roll_threshold, MIN_SWITCH_SLIP);
    if patch.g_t == DVec3::ZERO {
        return finish(patch, start, t, dt, slip);
    }
    if slip.len <= threshold {
        return finish(patch, start, t, dt, slip);
    }
    let u_hat0 = slip.u / slip.len;
    let k1 = patch.slide_rate(start, u_hat0);
    let on_slope = SlopeSlide {
        turning: Turning {
            patch,
            start,
            t,
            u_hat0,
        },
        k1,
    };
    on_slope.slide(dt, slip.len, threshold)
}

// Slide from `start`, with slip above SLIP_EPS, for at most `dt`.
pub fn slide(patch: Patch, start: Motion, t: f64, dt: f64, roll_threshold: f64) -> Slid
    ensures { result ≡ slide_of patch start t dt roll_threshold }
{
    let u = patch.slip_of(start);
    let slip = Slip { u, len: u.length() };
    slide_from(patch, start, t, dt, roll_threshold, slip)
}
