// What is handed in for a settle, the course and the lists aside, and the tests 4 to 7 of it (01, "Numbers for what was handed in").
#![tactic(auto)]

ghost use Rattle.std.specs.Prelude.{◌≡◌};
ghost use Rattle.refusal.specs.Refusal.{answer_by};
ghost use Rattle.shot.specs.Physics.{physics_new};
ghost use Rattle.shot.specs.Tests.{step_physics_ok, physics_ok, ball_ok, density_ok, vec_about, landing_ok, input_test};

use aero::BallModel;
use refusal::Refusal;
use state::BallState;
use vector::DVec3;

const DEFAULT_STOP_SPEED: f64 = 0.01;

const DEFAULT_ROLL_THRESHOLD: f64 = 0.01;

// The tunables of the ground phase; the terrain is passed beside them.
#[derive(Clone, Copy)]
pub struct GroundPhysics {
    pub dt: f64,
    pub stop_speed: f64,
    pub roll_threshold: f64,
    pub min_hop_height: f64,
    pub max_impacts: u64,
    pub max_time: f64,
}

impl GroundPhysics {
    // 1 ms steps, 5 mm hop transition, 0.01 m/s stop and roll thresholds, at most 64 impacts and 120 s.
    pub fn new() -> GroundPhysics
        ensures { result ≡ physics_new }
    {
        GroundPhysics {
            dt: 0.001,
            stop_speed: DEFAULT_STOP_SPEED,
            roll_threshold: DEFAULT_ROLL_THRESHOLD,
            min_hop_height: 0.005,
            max_impacts: 64,
            max_time: 120.0,
        }
    }
}

// A landing and all that its settle depends on beside the course: the tunables, the most steps it may make, the ball, the air, and whether its spin fades
// in the air (the second settle) or is held (the first).
#[derive(Clone, Copy)]
pub struct Shot {
    pub physics: GroundPhysics,
    pub step_limit: u64,
    pub ball: BallModel,
    pub air_density: f64,
    pub landing: BallState,
    pub fading: bool,
}

// ---- tests

pub fn step_physics_ok(dt: f64, stop_speed: f64, roll_threshold: f64) -> bool
    ensures { result ≡ step_physics_ok dt stop_speed roll_threshold }
{
    number::within(0.0001, 0.01, dt)
        & number::within(0.0, 1.0, stop_speed)
        & number::within(0.0, 1.0, roll_threshold)
}

fn physics_ok(p: GroundPhysics, step_limit: u64) -> bool
    ensures { result ≡ physics_ok p step_limit }
{
    step_physics_ok(p.dt, p.stop_speed, p.roll_threshold)
        & number::within(0.0, 1.0, p.min_hop_height)
        & number::within(0.0, 600.0, p.max_time)
        & (p.max_impacts <= 64)
        & (1 <= step_limit)
        & (step_limit <= 2000000)
}

pub fn ball_ok(b: BallModel) -> bool
    ensures { result ≡ ball_ok b }
{
    number::within(0.001, 1.0, b.mass_kg)
        & number::within(0.005, 0.5, b.diameter_m)
        & number::within(0.1, 1.0, b.inertia_factor)
        & number::within(0.0, 10.0, b.cd_sub)
        & number::within(0.0, 10.0, b.cd_super)
        & number::within(0.0, 10.0, b.cd_spin)
        & number::within(0.001, 10.0, b.sr_sat)
        & number::within(0.0, 10.0, b.cl_sub)
        & number::within(0.0, 10.0, b.cl_super)
        & number::within(0.001, 10.0, b.sr_scale)
        & number::within(0.0, 10000000.0, b.re_crit)
        & number::within(1.0, 10000000.0, b.re_width)
}

fn density_ok(air_density: f64) -> bool
    ensures { result ≡ density_ok air_density }
{
    number::within(0.0, 10.0, air_density)
}

#[tactic(auto, unfolding(crate::specs::Tests::vec_about))]
fn vec_about(r: f64, v: DVec3) -> bool
    ensures { result ≡ vec_about r v }
{
    number::within(-r, r, v.x) & number::within(-r, r, v.y) & number::within(-r, r, v.z)
}

pub fn landing_ok(s: BallState) -> bool
    ensures { result ≡ landing_ok s }
{
    number::within(0.0, 100000.0, s.time)
        & vec_about(100000.0, s.pos)
        & vec_about(200.0, s.vel)
        & vec_about(5000.0, s.spin)
}

// Whether a shot passes the tests 4 to 7; if not, the first that it fails.
#[tactic(auto, unfolding(crate::specs::Tests::input_test))]
pub fn input_test(shot: &Shot) -> Result<(), Refusal>
    ensures { answer_by result ≡ input_test shot.now }
{
    if !physics_ok(shot.physics, shot.step_limit) {
        return Err(Refusal::Physics);
    }
    if !ball_ok(shot.ball) {
        return Err(Refusal::Ball);
    }
    if !density_ok(shot.air_density) {
        return Err(Refusal::AirDensity);
    }
    if !landing_ok(shot.landing) {
        return Err(Refusal::Landing);
    }
    Ok(())
}
