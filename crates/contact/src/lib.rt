// A ball on the ground: slip, rolling, following the surface, the end of a train of hops.
#![tactic(auto)]

ghost use Rattle.std.specs.Prelude.{◌≡◌, true, false, ◌&&◌};
ghost use Rattle.std.specs.Float.Ieee.{eq};
ghost use Rattle.vector.specs.Vec.{vec, vnormalize, same_vec};
ghost use Rattle.contact.specs.Contact.{tangent, slip_of, locked_of, saturated, tangential_gravity, relocked, onto_of, holds_at_rest, sample_holds, returned_by, spin_inertia, energy_of, hops_die_out};

use aero::{BallModel, G, GRAVITY};
use state::BallState;
use surface::{GroundSample, Surface};
use vector::DVec3;

// Velocity and spin of a ball that rolls.
#[derive(Clone, Copy)]
pub struct Locked {
    pub vel: DVec3,
    pub spin: DVec3,
}

// A sign's place among the bits of a double, and the bits of 1.
const SIGN: u64 = 9223372036854775808;

const ONE: u64 = 4607182418800017408;

// True only if (x, y, z) is (0, 1, 0), with zeros of either sign.
fn is_level(x: f64, y: f64, z: f64) -> bool
    ensures { result ≡ true → vnormalize (vec x y z) ≡ vec x y z }
{
    if x.is_nan() | y.is_nan() | z.is_nan() {
        return false;
    }
    (x.to_bits() % SIGN == 0) & (y.to_bits() == ONE) & (z.to_bits() % SIGN == 0)
}

// The unit vector along a sample's normal. That of level ground is one already.
pub fn unit(normal: DVec3) -> DVec3
    ensures { result ≡ vnormalize normal }
{
    if is_level(normal.x, normal.y, normal.z) {
        return normal;
    }
    normal.normalize()
}

// Whether two doubles are one, zeros of either sign told apart.
fn same_double(a: f64, b: f64) -> bool
    ensures { result ≡ true → a ≡ b }
{
    std::num::f64_to_bits_with_nan(a) == std::num::f64_to_bits_with_nan(b)
}

// A sample's normal, and the unit vector along it, which takes a root.
#[derive(Clone, Copy)]
pub struct Normal {
    pub given: DVec3,
    pub unit: DVec3,
    pub ghost along: { unit ≡ vnormalize given },
}

impl Normal {
    pub fn new(given: DVec3) -> Normal
        ensures { result.given ≡ given }
    {
        Normal {
            given,
            unit: unit(given),
        }
    }

    // That of another sample: mostly it is the same one.
    pub fn next(self, given: DVec3) -> Normal
        ensures { result.given ≡ given }
    {
        if same_double(given.x, self.given.x)
            & same_double(given.y, self.given.y)
            & same_double(given.z, self.given.z)
        {
            return self;
        }
        Normal::new(given)
    }
}

// The part of v along the plane with unit normal n.
#[tactic(auto, unfolding(crate::specs::Contact::tangent))]
fn along(v: DVec3, n: DVec3) -> DVec3
    ensures { result ≡ tangent v n }
{
    v - n * v.dot(n)
}

// Contact-point slip velocity of a ball on ground with unit normal n.
#[tactic(auto, unfolding(crate::specs::Contact::slip_of))]
pub fn slip(vel: DVec3, spin: DVec3, n: DVec3, radius: f64) -> DVec3
    ensures { result ≡ slip_of vel spin n radius }
{
    along(vel, n) + spin.cross(n * -radius)
}

// Removes the contact slip with the friction impulse that brings the ball to rolling.
#[tactic(auto, using(number::proofs::Steps::steps), unfolding(crate::specs::Contact::locked_of))]
pub fn lock_rolling(vel: DVec3, spin: DVec3, n: DVec3, radius: f64, k: f64) -> Locked
    ensures { result ≡ locked_of vel spin n radius k }
{
    let u = slip(vel, spin, n, radius);
    Locked {
        vel: vel - u * (k / (1.0 + k)),
        spin: spin + n.cross(u) / ((1.0 + k) * radius),
    }
}

// The spin `end`, whose part about n does not cross zero from that of `start`.
#[tactic(auto, using(number::proofs::Steps::steps), unfolding(crate::specs::Contact::saturated))]
pub fn saturate_pivot(start: DVec3, end: DVec3, n: DVec3) -> DVec3
    ensures { result ≡ saturated start end n }
{
    let w0 = start.dot(n);
    let w1 = end.dot(n);
    if (w0 == 0.0) | (number::signum(w0) != number::signum(w1)) {
        return end - n * w1;
    }
    end
}

// Gravity along ground with unit normal n.
#[tactic(auto, using(number::proofs::Steps::steps), unfolding(crate::specs::Contact::tangential_gravity))]
pub fn tangential_gravity(n: DVec3) -> DVec3
    ensures { result ≡ tangential_gravity n }
{
    along(GRAVITY, n)
}

// The spin of a ball that rolls on, with its spin about the normal kept.
#[tactic(auto, unfolding(crate::specs::Contact::relocked))]
fn relock(spin: DVec3, vel: DVec3, n: DVec3, prev: Normal, radius: f64) -> DVec3
    ensures { result ≡ relocked spin vel n prev.given radius }
{
    let w_n = spin.dot(prev.unit);
    n.cross(vel) / radius + n * w_n
}

// Whether a ball at the height `y` is on the ground already, and the ground is as it was.
#[tactic(auto, unfolding(vector::specs::Vec::same_vec))]
pub fn is_onto(y: f64, height: f64, normal: DVec3, prev_normal: DVec3) -> bool
    ensures { result ≡ (same_vec normal prev_normal && eq y height) }
{
    (normal == prev_normal) & (y == height)
}

// Puts a ball that has stepped across the ground back onto it, where it is not there already. n is the sample's normal, prev that of the step.
#[tactic(auto, using(number::proofs::Steps::steps), unfolding(crate::specs::Contact::onto_of))]
pub fn put_onto(
    state: BallState,
    at: GroundSample,
    n: Normal,
    prev: Normal,
    rolling: bool,
    radius: f64,
) -> BallState
    requires { (n.given ≡ at.normal) × ((same_vec at.normal prev.given && eq state.pos.y at.height) ≡ false) }
    ensures { result ≡ onto_of state at prev.given rolling radius }
{
    let vel = along(state.vel, n.unit);
    BallState {
        pos: DVec3 {
            y: at.height,
            ..state.pos
        },
        vel,
        spin: if rolling {
            relock(state.spin, vel, n.unit, prev, radius)
        } else {
            state.spin
        },
        ..state
    }
}

// The same for any ball. `rolling` is the Rust's parameter.
#[tactic(auto, using(number::proofs::Steps::steps), unfolding(crate::specs::Contact::onto_of))]
pub fn onto_surface(
    state: BallState,
    at: GroundSample,
    prev_normal: DVec3,
    rolling: bool,
    radius: f64,
) -> BallState
    ensures { result ≡ onto_of state at prev_normal rolling radius }
{
    if is_onto(state.pos.y, at.height, at.normal, prev_normal) {
        return state;
    }
    let prev = Normal::new(prev_normal);
    put_onto(state, at, prev.next(at.normal), prev, rolling, radius)
}

// Whether rolling resistance holds a ball at rest on ground with unit normal n.
#[tactic(auto, using(number::proofs::Steps::steps), unfolding(crate::specs::Contact::holds_at_rest))]
pub fn holds_at_rest(n: DVec3, surface: Surface) -> bool
    ensures { result ≡ holds_at_rest n surface }
{
    tangential_gravity(n).length() <= surface.mu_roll * G * n.y
}

// Whether a ball at rest at this sample stays there.
#[tactic(auto, unfolding(crate::specs::Contact::sample_holds))]
pub fn sample_holds(at: GroundSample) -> bool
    ensures { result ≡ sample_holds at }
{
    holds_at_rest(unit(at.normal), at.surface)
}

#[tactic(auto, using(number::proofs::Steps::steps), unfolding(crate::specs::Contact::returned_by))]
fn returned_by(rebound: BallState, next: BallState) -> f64
    ensures { result ≡ returned_by rebound next }
{
    0.5 * (next.vel.length_squared() - rebound.vel.length_squared())
}

#[tactic(auto, unfolding(crate::specs::Contact::spin_inertia))]
fn spin_inertia(ball: BallModel) -> f64
    ensures { result ≡ spin_inertia ball }
{
    ball.inertia_factor * ball.radius_m() * ball.radius_m()
}

#[tactic(auto, using(number::proofs::Steps::steps), unfolding(crate::specs::Contact::energy_of))]
fn energy(inertia: f64, s: BallState) -> f64
    ensures { result ≡ energy_of inertia s }
{
    0.5 * s.vel.length_squared() + 0.5 * inertia * s.spin.length_squared()
}

// Whether the hops that follow a rebound off ground with unit normal n die out.
#[tactic(auto, using(number::proofs::Steps::steps), unfolding(crate::specs::Contact::hops_die_out, vector::specs::Vec::same_vec))]
pub fn hops_die_out(
    arrival: BallState,
    rebound: BallState,
    next: BallState,
    n: DVec3,
    ball: BallModel,
    min_hop_height: f64,
) -> bool
    ensures { result ≡ hops_die_out arrival rebound next n ball min_hop_height }
{
    if tangential_gravity(n) == DVec3::ZERO {
        return true;
    }
    let returned = returned_by(rebound, next);
    if returned <= 0.0 {
        return true;
    }
    let inertia = spin_inertia(ball);
    let removed = energy(inertia, arrival) - energy(inertia, rebound);
    removed - returned >= G * min_hop_height
}
