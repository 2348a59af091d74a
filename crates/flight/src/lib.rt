// A ball's flight during a hop: one step of it, its path within a step, and the time of a fall.
#![tactic(auto)]

ghost use Rattle.std.specs.Prelude.{◌≡◌};
ghost use Rattle.flight.specs.Flight.{accel_of, flight_step};
ghost use Rattle.flight.specs.Arc.{hermite_pos, hermite_vel, hermite_of, parabola_of, drop_time};

use aero::{AeroParams, BallModel, G, GRAVITY};
use rk4::State;
use vector::DVec3;

// The acceleration of the ball: gravity, and with air drag and lift too.
#[tactic(auto, using(number::proofs::Steps::steps), unfolding(crate::specs::Flight::accel_of))]
pub fn accel(ball: BallModel, aero: AeroParams, air_density: f64, vel: DVec3) -> DVec3
    ensures { result ≡ accel_of ball aero air_density vel }
{
    if air_density > 0.0 {
        return ball.acceleration(vel, aero, air_density);
    }
    GRAVITY
}

// The state a time h after the state s at the time t, which is the Rust's parameter and unused. Not rk4's step over the two together: the flight adds up its stages before it scales them, and
// another order is other bits.
#[tactic(auto, using(number::proofs::Steps::steps), unfolding(rk4::specs::Rk4::step_of, rk4::specs::Rk4::moved, rk4::specs::Rk4::weighted))]
pub fn step(ball: BallModel, aero: AeroParams, air_density: f64, s: State, t: f64, h: f64) -> State
    ensures { result ≡ flight_step ball aero air_density s t h }
{
    let half = h / 2.0;
    let a1 = accel(ball, aero, air_density, s.vel);
    let v2 = rk4::move_by(s.vel, a1, half);
    let a2 = accel(ball, aero, air_density, v2);
    let v3 = rk4::move_by(s.vel, a2, half);
    let a3 = accel(ball, aero, air_density, v3);
    let v4 = rk4::move_by(s.vel, a3, h);
    let a4 = accel(ball, aero, air_density, v4);
    State {
        pos: rk4::weigh(s.pos, s.vel, v2, v3, v4, h / 6.0),
        vel: rk4::weigh(s.vel, a1, a2, a3, a4, h / 6.0),
    }
}

// The position of the interpolant at u = tau / h.
#[tactic(auto, using(number::proofs::Steps::steps), unfolding(crate::specs::Arc::hermite_pos))]
fn hermite_pos(pos: DVec3, vel: DVec3, chord: DVec3, end_vel: DVec3, h: f64, u: f64) -> DVec3
    ensures { result ≡ hermite_pos pos vel chord end_vel h u }
{
    let u2 = u * u;
    let u3 = u * u * u;
    pos + vel * ((u3 - 2.0 * u2 + u) * h)
        + chord * (3.0 * u2 - 2.0 * u3)
        + end_vel * ((u3 - u2) * h)
}

// The velocity of the interpolant at u = tau / h.
#[tactic(auto, using(number::proofs::Steps::steps), unfolding(crate::specs::Arc::hermite_vel))]
fn hermite_vel(vel: DVec3, chord: DVec3, end_vel: DVec3, h: f64, u: f64) -> DVec3
    ensures { result ≡ hermite_vel vel chord end_vel h u }
{
    let u2 = u * u;
    vel * (3.0 * u2 - 4.0 * u + 1.0)
        + chord * ((6.0 * u - 6.0 * u2) / h)
        + end_vel * (3.0 * u2 - 2.0 * u)
}

// Where `hermite` is, without its velocity.
#[tactic(auto, unfolding(crate::specs::Arc::hermite_of))]
pub fn hermite_place(a: State, b: State, h: f64, tau: f64) -> DVec3
    ensures { result ≡ (hermite_of a b h tau).pos }
{
    hermite_pos(a.pos, a.vel, b.pos - a.pos, b.vel, h, tau / h)
}

// The state a time tau into a step of length h from a to b: the cubic Hermite interpolant.
#[tactic(auto, unfolding(crate::specs::Arc::hermite_of))]
pub fn hermite(a: State, b: State, h: f64, tau: f64) -> State
    ensures { result ≡ hermite_of a b h tau }
{
    State {
        pos: hermite_place(a, b, h, tau),
        vel: hermite_vel(a.vel, b.pos - a.pos, b.vel, h, tau / h),
    }
}

// Where `parabola` is, without its velocity.
#[tactic(auto, using(number::proofs::Steps::steps), unfolding(crate::specs::Arc::parabola_of))]
pub fn parabola_place(s: State, tau: f64) -> DVec3
    ensures { result ≡ (parabola_of s tau).pos }
{
    s.pos + s.vel * tau + GRAVITY * 0.5 * tau * tau
}

// The state a time tau after s, under gravity alone.
#[tactic(auto, using(number::proofs::Steps::steps), unfolding(crate::specs::Arc::parabola_of))]
pub fn parabola(s: State, tau: f64) -> State
    ensures { result ≡ parabola_of s tau }
{
    State {
        pos: parabola_place(s, tau),
        vel: s.vel + GRAVITY * tau,
    }
}

// The time in which a ball at a height, moving up at vy, falls to the ground under gravity alone.
#[tactic(auto, using(number::proofs::Steps::steps), unfolding(crate::specs::Arc::drop_time))]
pub fn drop_time(height: f64, vy: f64) -> f64
    ensures { result ≡ drop_time height vy }
{
    if (height <= 0.0) & (vy <= 0.0) {
        return 0.0;
    }
    let above = number::max(height, 0.0);
    let disc = root::root(vy * vy + 2.0 * G * above);
    if vy >= 0.0 {
        return (vy + disc) / G;
    }
    2.0 * above / (disc - vy)
}
