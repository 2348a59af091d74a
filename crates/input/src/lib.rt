// The input of the program settle: 240 bytes, 8 a field, little-endian, and then the course sheet (01, "Lists and the rest of the shop").
#![tactic(auto)]

ghost use Rattle.std.specs.Prelude.{◌≡◌, ◌+◌, ◌*◌, ◌<◌, ◌≤◌, ◌⊎◌, length, take, drop, MatchResult};
ghost use Rattle.refusal.specs.declared.Refusal.TheVariants.{InputLength};
ghost use Rattle.ground.specs.Settle.{result_of, told_by};
ghost use Rattle.input.specs.Input.{whole_at, real_at, vec_at, physics_at, ball_at, landing_at, shot_by, settle_input_by};

use aero::BallModel;
use ground::Settled;
use refusal::Refusal;
use shot::{GroundPhysics, Shot};
use state::BallState;
use vector::DVec3;

// Field i, as a u64.
pub fn whole(s: &[u8], i: usize) -> u64
    requires { 8 * i + 8 ≤ length s.now }
    ensures { result ≡ whole_at s.now i }
{
    octets::word(s, 8 * i)
}

// Field i, as an f64.
#[tactic(auto, unfolding(crate::specs::Input::real_at))]
fn real(s: &[u8], i: usize) -> f64
    requires { 8 * i + 8 ≤ length s.now }
    ensures { result ≡ real_at s.now i }
{
    octets::double_at(s, 8 * i)
}

// The fields i, i + 1, i + 2.
#[tactic(auto, unfolding(crate::specs::Input::vec_at))]
fn vector_at(s: &[u8], i: usize) -> DVec3
    requires { 8 * i + 24 ≤ length s.now }
    ensures { result ≡ vec_at s.now i }
{
    DVec3 {
        x: real(s, i),
        y: real(s, i + 1),
        z: real(s, i + 2),
    }
}

#[tactic(auto, unfolding(crate::specs::Input::physics_at))]
fn physics_at(s: &[u8; 240]) -> GroundPhysics
    ensures { result ≡ physics_at s.now }
{
    GroundPhysics {
        dt: real(s, 0),
        stop_speed: real(s, 1),
        roll_threshold: real(s, 2),
        min_hop_height: real(s, 3),
        max_time: real(s, 4),
        max_impacts: whole(s, 5),
    }
}

// From bytes; `fields` reads one, and vectors and states, from doubles. One reader for both would take each field from a closure, and its contract would
// be longer than it is.
#[tactic(auto, unfolding(crate::specs::Input::ball_at))]
fn ball_at(s: &[u8; 240]) -> BallModel
    ensures { result ≡ ball_at s.now }
{
    BallModel {
        mass_kg: real(s, 7),
        diameter_m: real(s, 8),
        inertia_factor: real(s, 9),
        cd_sub: real(s, 10),
        cd_super: real(s, 11),
        cd_spin: real(s, 12),
        sr_sat: real(s, 13),
        cl_sub: real(s, 14),
        cl_super: real(s, 15),
        sr_scale: real(s, 16),
        re_crit: real(s, 17),
        re_width: real(s, 18),
    }
}

#[tactic(auto, unfolding(crate::specs::Input::landing_at))]
fn landing_at(s: &[u8; 240]) -> BallState
    ensures { result ≡ landing_at s.now }
{
    BallState {
        time: real(s, 20),
        pos: vector_at(s, 21),
        vel: vector_at(s, 24),
        spin: vector_at(s, 27),
    }
}

// All fields.
#[tactic(auto, unfolding(crate::specs::Input::shot_by))]
pub fn shot_of(s: &[u8; 240], fading: bool) -> Shot
    ensures { result ≡ shot_by fading s.now }
{
    Shot {
        physics: physics_at(s),
        step_limit: whole(s, 6),
        ball: ball_at(s),
        air_density: real(s, 19),
        landing: landing_at(s),
        fading,
    }
}

// Those at the front of an input that its caller has not cut.
pub fn shot_at(s: &[u8], fading: bool) -> Shot
    requires { 240 ≤ length s.now }
    ensures { result ≡ shot_by fading s.now }
{
    let (head, _sheet) = s.split_first_chunk::<240>().unwrap();
    shot_of(head, fading)
}

// The fields of an input, and its sheet. 12 for under 240 or over 34,048 bytes.
pub fn parts(input: &[u8]) -> Result<(&[u8; 240], &[u8]), Refusal>
    ensures { MatchResult result (λ p. (240 ≤ length input.now) × (length input.now ≤ 34048) × (p.0.now ≡ take 240 input.now) × (p.1.now ≡ drop 240 input.now)) (λ e. (e ≡ InputLength) × ((length input.now < 240) ⊎ (34048 < length input.now))) }
{
    if 34048 < input.len() {
        return Err(Refusal::InputLength);
    }
    input.split_first_chunk::<240>().ok_or(Refusal::InputLength)
}

// Settles the landing that an input holds, with spin that fades in the air or is held. 12 for under 240 or over 34,048 bytes; the other answers are settle's.
pub fn settle_input(input: &[u8], fading: bool, contacts: &mut [f64], points: &mut [f64]) -> Settled
    ensures { result_of (told_by result) contacts.new points.new ≡ settle_input_by fading input.now contacts.old points.old }
{
    match parts(input) {
        Ok((head, sheet)) => ground::settle(sheet, &shot_of(head, fading), contacts, points),
        Err(refusal) => ground::refused(refusal),
    }
}
