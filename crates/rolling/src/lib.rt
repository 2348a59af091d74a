// One ground step of a ball: it slides, rolls or comes to rest.
#![tactic(auto)]

ghost use Rattle.std.specs.Prelude.{◌≡◌, true};
ghost use Rattle.std.specs.Float.Ieee.{lt};
ghost use Rattle.root.specs.Root.{root_of};
ghost use Rattle.vector.specs.Vec.{vlength};
ghost use Rattle.contact.specs.Contact.{slip_of};
ghost use Rattle.slide.specs.Slide.{slip_eps};
ghost use Rattle.rolling.specs.ContactStep.{pivot_accel, patch_of, slid_to, slide_step, roll_patch_of, decel_of, heading_of, stops_of, stop_time, rest_pos, rest_spin, rest_of, resistance_of, roll_rate, roll_by, rolled_spin, roll_on, roll_step, contact_step_of};

use aero::{BallModel, G};
use contact::{Locked, Normal};
use rk4::Motion;
use slide::{Patch, SLIP_EPS, Slid, Slip};
use state::{BallState, Phase};
use surface::{GroundSample, RollLaw, Surface};
use vector::DVec3;

// The state after a ground step, the phase over it, whether the ball ends it rolling, and the evaluations of its search.
#[derive(Clone, Copy)]
pub struct Stepped {
    pub state: BallState,
    pub phase: Phase,
    pub rolling: bool,
    pub evaluations: u64,
}

// The forces on a ball that rolls, and the surface under it.
#[derive(Clone, Copy)]
struct RollingOn {
    patch: Patch,
    surface: Surface,
}

#[tactic(auto, using(number::proofs::Steps::steps), unfolding(crate::specs::ContactStep::pivot_accel))]
fn pivot_accel_of(w: f64, pivot: f64, g_n: f64, inertia: f64, n: DVec3) -> DVec3
    ensures { result ≡ pivot_accel w pivot g_n inertia n }
{
    if w == 0.0 {
        return DVec3::ZERO;
    }
    n * (-number::signum(w) * pivot * g_n / inertia)
}

#[tactic(auto, using(number::proofs::Steps::steps), unfolding(crate::specs::ContactStep::patch_of))]
fn patch_of(n: DVec3, surface: Surface, radius: f64, k: f64, w: f64) -> Patch
    ensures { result ≡ patch_of n surface radius k w }
{
    let g_n = G * n.y;
    Patch {
        n,
        g_t: contact::tangential_gravity(n),
        friction: surface.mu_slide * g_n,
        radius,
        k,
        pivot_accel: pivot_accel_of(w, surface.pivot, g_n, k * radius * radius, n),
    }
}

#[tactic(auto, using(number::proofs::Steps::steps), unfolding(crate::specs::ContactStep::slid_to))]
fn slid_to(patch: Patch, spin: DVec3, end: Slid) -> Locked
    ensures { result ≡ slid_to patch spin end }
{
    let m = end.motion;
    let w = contact::saturate_pivot(spin, m.spin, patch.n);
    if end.rolls {
        return contact::lock_rolling(m.vel, w, patch.n, patch.radius, patch.k);
    }
    Locked {
        vel: m.vel,
        spin: w,
    }
}

// The step of a ball that slides.
#[tactic(auto, unfolding(crate::specs::ContactStep::slide_step, slide::specs::Slide::patch_slip))]
fn slide_step(
    patch: Patch,
    state: BallState,
    vel: DVec3,
    dt: f64,
    roll_threshold: f64,
    slip: Slip,
) -> Stepped
    requires { slip.u ≡ slip_of vel state.spin patch.n patch.radius }
    ensures { result ≡ slide_step patch state vel dt roll_threshold }
{
    let start = Motion {
        pos: state.pos,
        vel,
        spin: state.spin,
    };
    let end = slide::slide_from(patch, start, state.time, dt, roll_threshold, slip);
    let out = slid_to(patch, state.spin, end);
    Stepped {
        state: BallState {
            time: state.time + end.time,
            pos: end.motion.pos,
            vel: out.vel,
            spin: out.spin,
        },
        phase: Phase::Slide,
        rolling: end.rolls,
        evaluations: end.evaluations,
    }
}

#[tactic(auto, using(number::proofs::Steps::steps), unfolding(crate::specs::ContactStep::stop_time))]
fn stop_time(speed: f64, a0: f64) -> f64
    ensures { result ≡ stop_time speed a0 }
{
    if a0 > 0.0 {
        return speed / a0;
    }
    0.0
}

impl RollingOn {
    #[tactic(auto, using(number::proofs::Steps::steps), unfolding(crate::specs::ContactStep::roll_patch_of))]
    fn slope(&self) -> DVec3
        ensures { result ≡ (roll_patch_of self.now.patch self.now.surface).slope }
    {
        self.patch.g_t / (1.0 + self.patch.k)
    }

    // The deceleration at the speed `v`. A call of `rolling_friction` would copy the surface.
    #[tactic(auto, using(number::proofs::Steps::steps), unfolding(crate::specs::ContactStep::decel_of, crate::specs::ContactStep::roll_patch_of, surface::specs::Surface::rolling_friction))]
    fn decel(&self, v: f64) -> f64
        ensures { result ≡ decel_of (roll_patch_of self.now.patch self.now.surface) v }
    {
        self.surface.mu_roll * self.surface.roll_law.speed_factor(v) * (G * self.patch.n.y)
            / (1.0 + self.patch.k)
    }

    // The way the slope pulls is worked out only for a ball that hardly moves.
    #[tactic(auto, using(number::proofs::Steps::steps), unfolding(crate::specs::ContactStep::heading_of, crate::specs::ContactStep::roll_patch_of))]
    fn heading(&self, vel: DVec3, speed: f64) -> DVec3
        ensures { result ≡ heading_of (roll_patch_of self.now.patch self.now.surface) vel speed }
    {
        if speed > SLIP_EPS {
            return vel / speed;
        }
        self.slope().normalize_or_zero()
    }

    #[tactic(auto, using(number::proofs::Steps::steps), unfolding(crate::specs::ContactStep::stops_of, crate::specs::ContactStep::roll_patch_of))]
    fn stops(&self, speed: f64, a0: f64, dt: f64, stop_speed: f64) -> bool
        ensures { result ≡ stops_of (roll_patch_of self.now.patch self.now.surface) speed a0 dt stop_speed }
    {
        if speed <= SLIP_EPS {
            return contact::holds_at_rest(self.patch.n, self.surface);
        }
        (a0 >= 0.0) & (speed <= number::max(stop_speed, a0 * dt))
    }

    #[tactic(auto, using(number::proofs::Steps::steps), unfolding(crate::specs::ContactStep::rest_pos, crate::specs::ContactStep::roll_patch_of))]
    fn rest_pos(&self, pos: DVec3, vel: DVec3, heading: DVec3, t: f64) -> DVec3
        ensures { result ≡ rest_pos (roll_patch_of self.now.patch self.now.surface) pos vel heading t }
    {
        let slope = self.slope();
        let across = slope - heading * slope.dot(heading);
        pos + vel * (0.5 * t) + across * (0.5 * t * t)
    }

    #[tactic(auto, unfolding(crate::specs::ContactStep::rest_spin, crate::specs::ContactStep::roll_patch_of))]
    fn rest_spin(&self, w: f64, t: f64) -> DVec3
        ensures { result ≡ rest_spin (roll_patch_of self.now.patch self.now.surface) w t }
    {
        let spin_n = self.patch.n * w;
        contact::saturate_pivot(spin_n, spin_n + self.patch.pivot_accel * t, self.patch.n)
    }

    #[tactic(auto, using(number::proofs::Steps::steps), unfolding(crate::specs::ContactStep::rest_of))]
    fn rest_after(&self, state: BallState, vel: DVec3, heading: DVec3, w: f64, t: f64) -> Stepped
        ensures { result ≡ rest_of (roll_patch_of self.now.patch self.now.surface) state vel heading w t }
    {
        Stepped {
            state: BallState {
                time: state.time + t,
                pos: self.rest_pos(state.pos, vel, heading, t),
                vel: DVec3::ZERO,
                spin: self.rest_spin(w, t),
            },
            phase: Phase::Roll,
            rolling: true,
            evaluations: 0,
        }
    }

    // The resistance at the velocity `vel`, of length `v`; `d` is the deceleration at `v`. In line, as four stages wait for it.
    #[inline(always)]
    #[tactic(auto, using(number::proofs::Steps::steps), unfolding(crate::specs::ContactStep::resistance_of, crate::specs::ContactStep::roll_patch_of))]
    fn resistance(&self, vel: DVec3, v: f64, d: f64) -> DVec3
        requires { (v ≡ vlength vel) × (d ≡ decel_of (roll_patch_of self.now.patch self.now.surface) v) }
        ensures { result ≡ resistance_of (roll_patch_of self.now.patch self.now.surface) vel }
    {
        if v > SLIP_EPS {
            return vel * -d / v;
        }
        self.slope().normalize_or_zero() * -self.decel(0.0)
    }

    fn resistance_at(&self, vel: DVec3) -> DVec3
        ensures { result ≡ resistance_of (roll_patch_of self.now.patch self.now.surface) vel }
    {
        let v = vel.length();
        self.resistance(vel, v, self.decel(v))
    }

    // The rate under the resistance `resist`.
    #[tactic(auto, unfolding(crate::specs::ContactStep::roll_rate, crate::specs::ContactStep::roll_patch_of))]
    fn rate_under(&self, s: Motion, resist: DVec3) -> Motion
        requires { resist ≡ resistance_of (roll_patch_of self.now.patch self.now.surface) s.vel }
        ensures { result ≡ roll_rate (roll_patch_of self.now.patch self.now.surface) s }
    {
        let dv = resist + self.slope();
        Motion {
            pos: s.vel,
            vel: dv,
            spin: self.patch.n.cross(dv) / self.patch.radius + self.patch.pivot_accel,
        }
    }

    fn rate(&self, s: Motion) -> Motion
        ensures { result ≡ roll_rate (roll_patch_of self.now.patch self.now.surface) s }
    {
        self.rate_under(s, self.resistance_at(s.vel))
    }

    // One RK4 step of a ball that rolls; `k1` is the first stage's rate. The rate doesn't use the time t, which is the Rust's parameter.
    fn roll_by(&self, s: Motion, t: f64, dt: f64, k1: Motion) -> Motion
        requires { k1 ≡ roll_rate (roll_patch_of self.now.patch self.now.surface) s }
        ensures { result ≡ roll_by (roll_patch_of self.now.patch self.now.surface) s t dt }
    {
        s.step_state(dt, k1, |at| self.rate(at))
    }

    #[tactic(auto, unfolding(crate::specs::ContactStep::rolled_spin, crate::specs::ContactStep::roll_patch_of))]
    fn rolled_spin(&self, spin: DVec3, m: Motion) -> DVec3
        ensures { result ≡ rolled_spin (roll_patch_of self.now.patch self.now.surface) spin m }
    {
        let n = self.patch.n;
        let spin_n = n * contact::saturate_pivot(spin, m.spin, n).dot(n);
        n.cross(m.vel) / self.patch.radius + spin_n
    }

    // The step of a ball that rolls on; `resist` is the resistance at its velocity.
    #[tactic(auto, unfolding(crate::specs::ContactStep::roll_on))]
    fn roll_on(&self, state: BallState, locked: Locked, dt: f64, resist: DVec3) -> Stepped
        requires { resist ≡ resistance_of (roll_patch_of self.now.patch self.now.surface) locked.vel }
        ensures { result ≡ roll_on (roll_patch_of self.now.patch self.now.surface) state locked dt }
    {
        let start = Motion {
            pos: state.pos,
            vel: locked.vel,
            spin: locked.spin,
        };
        let k1 = self.rate_under(start, resist);
        let m = self.roll_by(start, state.time, dt, k1);
        Stepped {
            state: BallState {
                time: state.time + dt,
                pos: m.pos,
                vel: m.vel,
                spin: self.rolled_spin(locked.spin, m),
            },
            phase: Phase::Roll,
            rolling: true,
            evaluations: 0,
        }
    }

    #[tactic(auto, using(number::proofs::Steps::steps), unfolding(crate::specs::ContactStep::roll_step))]
    fn roll_step(
        &self,
        state: BallState,
        locked: Locked,
        w: f64,
        dt: f64,
        stop_speed: f64,
    ) -> Stepped
        ensures { result ≡ roll_step (roll_patch_of self.now.patch self.now.surface) state locked w dt stop_speed }
    {
        let speed = locked.vel.length();
        let heading = self.heading(locked.vel, speed);
        let d = self.decel(speed);
        let a0 = d - self.slope().dot(heading);
        if self.stops(speed, a0, dt, stop_speed) {
            return self.rest_after(state, locked.vel, heading, w, stop_time(speed, a0));
        }
        let resist = self.resistance(locked.vel, speed, d);
        self.roll_on(state, locked, dt, resist)
    }
}

// 2^-61, far below the square of SLIP_EPS.
const SLOW_SQUARED: f64 = 4.336808689942017736029811203479766845703125e-19;

// The slip speed, of which `s` is the square; or 0, a slip as good, where `s` is so small that the speed is not above SLIP_EPS, so that no root is taken.
fn slip_root(s: f64) -> f64
    ensures { (lt slip_eps result ≡ lt slip_eps (root_of s)) × (lt slip_eps result ≡ true → result ≡ root_of s) }
{
    if s < SLOW_SQUARED {
        return 0.0;
    }
    root::root(s)
}

// One ground step of at most `dt` on the ground sample `at`, whose normal is `on`; a stop may take longer.
pub fn step_along(
    state: BallState,
    at: GroundSample,
    on: Normal,
    ball: BallModel,
    dt: f64,
    stop_speed: f64,
    roll_threshold: f64,
) -> Stepped
    requires { on.given ≡ at.normal }
    ensures { result ≡ contact_step_of state at ball dt stop_speed roll_threshold }
{
    let n = on.unit;
    let radius = ball.radius_m();
    let k = ball.inertia_factor;
    let vel = state.vel - n * state.vel.dot(n);
    let w = state.spin.dot(n);
    let patch = patch_of(n, at.surface, radius, k, w);
    let u = contact::slip(vel, state.spin, n, radius);
    let len = slip_root(u.length_squared());
    if len > SLIP_EPS {
        let slip = Slip { u, len };
        return slide_step(patch, state, vel, dt, roll_threshold, slip);
    }
    let locked = contact::lock_rolling(vel, state.spin, n, radius, k);
    let on = RollingOn {
        patch,
        surface: at.surface,
    };
    on.roll_step(state, locked, w, dt, stop_speed)
}

// The same for any sample.
pub fn contact_step(
    state: BallState,
    at: GroundSample,
    ball: BallModel,
    dt: f64,
    stop_speed: f64,
    roll_threshold: f64,
) -> Stepped
    ensures { result ≡ contact_step_of state at ball dt stop_speed roll_threshold }
{
    let on = Normal::new(at.normal);
    step_along(state, at, on, ball, dt, stop_speed, roll_threshold)
}
