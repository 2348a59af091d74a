// Structs in a slice of doubles, field after field, and a run of doubles written at a place.
#![tactic(auto)]

ghost use Rattle.std.specs.Prelude.{◌≡◌, ◌+◌, ◌≤◌, length};
ghost use Rattle.fields.specs.Fields.{whole_of, nat_of, is_whole, state_fields, vec_at, state_at, ball_at, written};

use aero::BallModel;
use state::BallState;
use vector::DVec3;

// A whole number as a double.
pub fn whole(n: u64) -> f64
    ensures { result ≡ whole_of n }
{
    std::num::nearest_u64_to_f64(n)
}

// Rust's `x as u32`.
#[tactic(auto, unfolding(crate::specs::Fields::nat_of))]
pub fn nat_of(x: f64) -> u32
    ensures { result ≡ nat_of x }
{
    std::num::saturating_f64_to_u32(x)
}

// Whether x is a whole number from `least` to `most`.
#[tactic(auto, unfolding(crate::specs::Fields::is_whole))]
pub fn is_whole(x: f64, least: u32, most: u32) -> bool
    ensures { result ≡ is_whole least most x }
{
    let n = nat_of(x);
    (x == whole(u64::from(n))) & (least <= n) & (n <= most)
}

// The readers take the place where a record begins: what C lends holds several, one after another.
#[tactic(auto, unfolding(crate::specs::Fields::vec_at))]
pub fn vec_at(s: &[f64], o: usize) -> DVec3
    requires { o + 3 ≤ length s.now }
    ensures { result ≡ vec_at s.now o }
{
    DVec3 {
        x: s[o],
        y: s[o + 1],
        z: s[o + 2],
    }
}

// Time, pos, vel, spin.
#[tactic(auto, unfolding(crate::specs::Fields::state_at))]
pub fn state_at(s: &[f64], o: usize) -> BallState
    requires { o + 10 ≤ length s.now }
    ensures { result ≡ state_at s.now o }
{
    BallState {
        time: s[o],
        pos: vec_at(s, o + 1),
        vel: vec_at(s, o + 4),
        spin: vec_at(s, o + 7),
    }
}

// The twelve fields of a ball in the struct's order.
#[tactic(auto, unfolding(crate::specs::Fields::ball_at))]
pub fn ball_at(s: &[f64], o: usize) -> BallModel
    requires { o + 12 ≤ length s.now }
    ensures { result ≡ ball_at s.now o }
{
    BallModel {
        mass_kg: s[o],
        diameter_m: s[o + 1],
        inertia_factor: s[o + 2],
        cd_sub: s[o + 3],
        cd_super: s[o + 4],
        cd_spin: s[o + 5],
        sr_sat: s[o + 6],
        cl_sub: s[o + 7],
        cl_super: s[o + 8],
        sr_scale: s[o + 9],
        re_crit: s[o + 10],
        re_width: s[o + 11],
    }
}

// Writes the record from `at` on.
#[tactic(auto, unfolding(crate::specs::Fields::written))]
pub fn put(out: &mut [f64], at: usize, rec: &[f64])
    requires { at + length rec.now ≤ length out.old }
    ensures { out.new ≡ written out.old at rec.now }
{
    out[at..at + rec.len()].copy_from_slice(rec);
}

// A state as ten doubles: time, pos, vel, spin.
pub fn state_numbers(s: &BallState) -> [f64; 10]
    ensures { result ≡ state_fields s.now }
{
    [
        s.time, s.pos.x, s.pos.y, s.pos.z, s.vel.x, s.vel.y, s.vel.z, s.spin.x, s.spin.y, s.spin.z,
    ]
}

// Writes the state from `at` on: time, pos, vel, spin.
pub fn put_state(out: &mut [f64], at: usize, s: BallState)
    requires { at + 10 ≤ length out.old }
    ensures { out.new ≡ written out.old at (state_fields s) }
{
    put(out, at, &state_numbers(&s));
}
