// The impact of a ball on the ground: Penner's tilted contact plane, friction that grips or slides, and pivot friction.
#![tactic(auto)]

ghost use Rattle.std.specs.Prelude.{◌≡◌};
ghost use Rattle.impact.specs.Impact.{unit_or_zero, effective_normal, friction_impulse, pivoted, struck, impact_of};

use aero::BallModel;
use state::BallState;
use surface::{GroundSample, Surface};
use vector::DVec3;

// Normal speed, relative to the ball's speed, up to which an impact counts as grazing.
const GRAZING: f64 = 1e-12;

// v / len, and zero where len is not positive.
#[tactic(auto, using(number::proofs::Steps::steps), unfolding(crate::specs::Impact::unit_or_zero))]
pub fn unit_or_zero(v: DVec3, len: f64) -> DVec3
    ensures { result ≡ unit_or_zero v len }
{
    if len > 0.0 {
        return v / len;
    }
    DVec3::ZERO
}

// The normal of Penner's effective contact plane, on ground with unit normal n, for the velocity v.
#[tactic(auto, unfolding(crate::specs::Impact::effective_normal))]
pub fn effective_normal(surface: Surface, n: DVec3, v: DVec3, v_dot_n: f64) -> DVec3
    ensures { result ≡ effective_normal surface n v v_dot_n }
{
    let v_t_vec = v - n * v_dot_n;
    let v_t = v_t_vec.length();
    let beta = surface.contact_angle(v_t, -v_dot_n);
    let t_hat = unit_or_zero(v_t_vec, v_t);
    n * trigonometry::cosine(beta) - t_hat * trigonometry::sine(beta)
}

// The friction impulse that opposes the slip: what makes it grip, at most the Coulomb limit.
#[tactic(auto, using(number::proofs::Steps::steps), unfolding(crate::specs::Impact::friction_impulse))]
pub fn friction_impulse(slip: DVec3, k: f64, limit: f64) -> DVec3
    ensures { result ≡ friction_impulse slip k limit }
{
    let slip_speed = slip.length();
    let j_t = number::min(slip_speed * k / (1.0 + k), limit);
    if slip_speed > 0.0 {
        return slip * (-j_t / slip_speed);
    }
    DVec3::ZERO
}

// The spin after pivot friction about n, which takes away at most the given rate.
#[tactic(auto, unfolding(crate::specs::Impact::pivoted))]
pub fn pivot_friction(spin: DVec3, n: DVec3, limit: f64) -> DVec3
    ensures { result ≡ pivoted spin n limit }
{
    let w_n = spin.dot(n);
    let dw = number::min(number::abs(w_n), limit);
    spin - n * (number::signum(w_n) * dw)
}

// The state after the impulses along n_eff and against the slip, and the pivot friction about n.
#[tactic(auto, using(number::proofs::Steps::steps), unfolding(crate::specs::Impact::struck))]
pub fn strike(
    state: BallState,
    surface: Surface,
    radius: f64,
    k: f64,
    n: DVec3,
    n_eff: DVec3,
    v_n_eff: f64,
) -> BallState
    ensures { result ≡ struck state surface radius k n n_eff v_n_eff }
{
    let e = surface.restitution.coefficient_at(v_n_eff);
    let j_n = (1.0 + e) * -v_n_eff;
    let r = n_eff * -radius;
    let slip = state.vel - n_eff * v_n_eff + state.spin.cross(r);
    let j_t_vec = friction_impulse(slip, k, surface.mu_slide * j_n);
    let inertia = k * radius * radius;
    let turned = state.spin + r.cross(j_t_vec) / inertia;
    BallState {
        vel: state.vel + n_eff * j_n + j_t_vec,
        spin: pivot_friction(turned, n, surface.pivot * j_n / inertia),
        ..state
    }
}

// One ball-turf impact: the state after it, which is the given one where the ball does not move into the ground.
#[tactic(auto, using(number::proofs::Steps::steps), unfolding(crate::specs::Impact::impact_of))]
pub fn impact(state: BallState, at: GroundSample, ball: BallModel) -> BallState
    ensures { result ≡ impact_of state at ball }
{
    let n = at.normal.normalize();
    let v_dot_n = state.vel.dot(n);
    if v_dot_n >= -GRAZING * state.vel.length() {
        return state;
    }
    let n_eff = effective_normal(at.surface, n, state.vel, v_dot_n);
    let v_n_eff = state.vel.dot(n_eff);
    if v_n_eff >= 0.0 {
        return state;
    }
    strike(
        state,
        at.surface,
        ball.radius_m(),
        ball.inertia_factor,
        n,
        n_eff,
        v_n_eff,
    )
}
