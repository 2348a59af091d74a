// A ball's state, its phase, how a settle ended, and the test of a state (22).
#![tactic(auto)]

ghost use Rattle.std.specs.Prelude.{◌≡◌};
ghost use Rattle.state.specs.Numbers.{whole_phase, phase_number, termination_number};
ghost use Rattle.state.specs.State.{coord_ok, vec_ok, state_ok};

use vector::DVec3;

// Time (s), position (m), velocity (m/s) and angular velocity (rad/s) of the ball.
#[derive(Clone, Copy)]
pub struct BallState {
    pub time: f64,
    pub pos: DVec3,
    pub vel: DVec3,
    pub spin: DVec3,
}

impl BallState {
    pub const ZERO: BallState = BallState {
        time: 0.0,
        pos: DVec3::ZERO,
        vel: DVec3::ZERO,
        spin: DVec3::ZERO,
    };
}

// What the ball does over a step.
#[derive(Clone, Copy, PartialEq, Eq)]
pub enum Phase {
    Hop = 0,
    Slide = 1,
    Roll = 2,
}

impl From<Phase> for u8 {
    ghost from_gives = { λ phase n. n ≡ whole_phase phase };

    #[tactic(auto, unfolding(crate::specs::Numbers::whole_phase))]
    fn from(phase: Phase) -> u8 {
        phase as u8
    }
}

// As the lists have it.
impl From<Phase> for f64 {
    ghost from_gives = { λ phase x. x ≡ phase_number phase };

    #[tactic(auto, using(number::proofs::Steps::steps))]
    fn from(phase: Phase) -> f64 {
        match phase {
            Phase::Hop => 0.0,
            Phase::Slide => 1.0,
            Phase::Roll => 2.0,
        }
    }
}

// How a settle ended; of one that did not, there is none.
#[derive(Clone, Copy, PartialEq, Eq)]
pub enum Termination {
    Rest = 1,
    MaxTime = 2,
    MaxImpacts = 3,
}

// What results and entries have of a settle's end: 0 where there is none. No From, since Option is the library's.
#[tactic(auto, unfolding(crate::specs::Numbers::termination_number))]
pub fn termination_number(end: Option<Termination>) -> u32
    ensures { result ≡ termination_number end }
{
    end.map_or(0, |t| t as u32)
}

// A number of a state or of a spot.
pub fn coord_ok(x: f64) -> bool
    ensures { result ≡ coord_ok x }
{
    number::within(-1000000.0, 1000000.0, x)
}

#[tactic(auto, unfolding(crate::specs::State::vec_ok))]
fn vec_ok(v: DVec3) -> bool
    ensures { result ≡ vec_ok v }
{
    coord_ok(v.x) && coord_ok(v.y) && coord_ok(v.z)
}

// Test 22.
#[tactic(auto, unfolding(crate::specs::State::state_ok))]
pub fn state_ok(s: BallState) -> bool
    ensures { result ≡ state_ok s }
{
    coord_ok(s.time) && vec_ok(s.pos) && vec_ok(s.vel) && vec_ok(s.spin)
}
