// Doors to single functions, for the comparison with the Rust (compare/). No program needs them. Each is a function of its own, since C calls it.
#![tactic(auto)]

ghost use Rattle.std.specs.Prelude.{◌≡◌, [], ◌∷◌, ◌+◌, ◌≤◌, List, Float, length};
ghost use Rattle.number.specs.Number.{min_of, max_of, clamp_of, abs_of, signum_of};
ghost use Rattle.root.specs.Root.{root_of, hypot_of};
ghost use Rattle.exponential.specs.Exp.{exp_of};
ghost use Rattle.trigonometry.specs.Trig.{cosine_of, sine_of, arctangent_of};
ghost use Rattle.fields.specs.Fields.{state_fields};
ghost use Rattle.probe.specs.Rows.{restitution_of, roll_law_of, surface_at, sample_at, green_with, flight_at, motion_at, patch_at, truth_number, vec_fields, flight_fields};
ghost use Rattle.probe.specs.Doors.{opened, door_of, MayRun, Leaves, stepped_fields, cd_cl_fields, slid_fields, aero_fields, locked_fields, impact_row, contact_step_row, flight_step_row, coefficient_at_row, acceleration_row, cd_cl_row, slide_row, onto_surface_row, hermite_row, parabola_row, drop_time_row, hops_die_out_row, speed_factor_row, contact_angle_row, from_spin_vector_row, slip_row, lock_rolling_row, saturate_pivot_row, tangential_gravity_row, sample_holds_row};

use aero::{AeroParams, CdCl};
use contact::Locked;
use rk4::{Motion, State};
use rolling::Stepped;
use slide::{Patch, Slid};
use state::BallState;
use surface::{GroundSample, Restitution, RollLaw, Surface};
use vector::DVec3;

#[unsafe(no_mangle)]
pub extern "C" fn probe_root(x: f64) -> f64
    ensures { result ≡ root_of x }
{
    root::root(x)
}

#[unsafe(no_mangle)]
pub extern "C" fn probe_hypot(a: f64, b: f64) -> f64
    ensures { result ≡ hypot_of a b }
{
    root::hypot(a, b)
}

#[unsafe(no_mangle)]
pub extern "C" fn probe_cosine(x: f64) -> f64
    ensures { result ≡ cosine_of x }
{
    trigonometry::cosine(x)
}

#[unsafe(no_mangle)]
pub extern "C" fn probe_sine(x: f64) -> f64
    ensures { result ≡ sine_of x }
{
    trigonometry::sine(x)
}

#[unsafe(no_mangle)]
pub extern "C" fn probe_arctangent(y: f64, x: f64) -> f64
    ensures { result ≡ arctangent_of y x }
{
    trigonometry::arctangent(y, x)
}

#[unsafe(no_mangle)]
pub extern "C" fn probe_exponential(x: f64) -> f64
    ensures { result ≡ exp_of x }
{
    exponential::exp(x)
}

#[unsafe(no_mangle)]
pub extern "C" fn probe_min(a: f64, b: f64) -> f64
    ensures { result ≡ min_of a b }
{
    number::min(a, b)
}

#[unsafe(no_mangle)]
pub extern "C" fn probe_max(a: f64, b: f64) -> f64
    ensures { result ≡ max_of a b }
{
    number::max(a, b)
}

#[unsafe(no_mangle)]
pub extern "C" fn probe_clamp(x: f64, lo: f64, hi: f64) -> f64
    ensures { result ≡ clamp_of x lo hi }
{
    number::clamp(x, lo, hi)
}

#[unsafe(no_mangle)]
pub extern "C" fn probe_abs(x: f64) -> f64
    ensures { result ≡ abs_of x }
{
    number::abs(x)
}

#[unsafe(no_mangle)]
pub extern "C" fn probe_signum(x: f64) -> f64
    ensures { result ≡ signum_of x }
{
    number::signum(x)
}

// Kind 1 is Penner2002, any other double Constant(e).
#[tactic(auto, using(number::proofs::Steps::steps), unfolding(crate::specs::Rows::restitution_of))]
fn restitution_of(kind: f64, e: f64) -> Restitution
    ensures { result ≡ restitution_of kind e }
{
    if kind == 1.0 {
        Restitution::Penner2002
    } else {
        Restitution::Constant(e)
    }
}

// Law 1 is Quadratic, 2 Exponential, any other double Constant.
#[tactic(auto, using(number::proofs::Steps::steps), unfolding(crate::specs::Rows::roll_law_of))]
fn roll_law_of(law: f64, v_ref: f64) -> RollLaw
    ensures { result ≡ roll_law_of law v_ref }
{
    if law == 1.0 {
        RollLaw::Quadratic { v_ref }
    } else if law == 2.0 {
        RollLaw::Exponential { v_ref }
    } else {
        RollLaw::Constant
    }
}

// Kind, e, mu_slide, mu_roll, law, v_ref, compliance, pivot.
#[tactic(auto, unfolding(crate::specs::Rows::surface_at))]
fn surface_at(s: &[f64], o: usize) -> Surface
    requires { o + 8 ≤ length s.now }
    ensures { result ≡ surface_at s.now o }
{
    Surface {
        restitution: restitution_of(s[o], s[o + 1]),
        mu_slide: s[o + 2],
        mu_roll: s[o + 3],
        roll_law: roll_law_of(s[o + 4], s[o + 5]),
        compliance: s[o + 6],
        pivot: s[o + 7],
    }
}

// Height, normal, surface.
#[tactic(auto, unfolding(crate::specs::Rows::sample_at))]
fn sample_at(s: &[f64], o: usize) -> GroundSample
    requires { o + 12 ≤ length s.now }
    ensures { result ≡ sample_at s.now o }
{
    GroundSample {
        height: s[o],
        normal: fields::vec_at(s, o + 1),
        surface: surface_at(s, o + 4),
        number: 0,
    }
}

// Pos, vel.
#[tactic(auto, unfolding(crate::specs::Rows::flight_at))]
fn flight_at(s: &[f64], o: usize) -> State
    requires { o + 6 ≤ length s.now }
    ensures { result ≡ flight_at s.now o }
{
    State {
        pos: fields::vec_at(s, o),
        vel: fields::vec_at(s, o + 3),
    }
}

// Writes the record over all of `out`.
#[tactic(auto, using(crate::specs::Doors::all_written))]
fn fill(out: &mut [f64], rec: &[f64])
    requires { length out.old ≡ length rec.now }
    ensures { out.new ≡ rec.now }
{
    fields::put(out, 0, rec);
}

fn fill_one(out: &mut [f64], x: f64)
    requires { length out.old ≡ 1 }
    ensures { out.new ≡ x ∷ [] }
{
    fill(out, &[x]);
}

fn fill_flight(out: &mut [f64], s: State)
    requires { length out.old ≡ 6 }
    ensures { out.new ≡ flight_fields s }
{
    fill(out, &[s.pos.x, s.pos.y, s.pos.z, s.vel.x, s.vel.y, s.vel.z]);
}

fn fill_state(out: &mut [f64], s: BallState)
    requires { length out.old ≡ 10 }
    ensures { out.new ≡ state_fields s }
{
    fill(out, &fields::state_numbers(&s));
}

fn fill_stepped(out: &mut [f64], step: Stepped)
    requires { length out.old ≡ 12 }
    ensures { out.new ≡ stepped_fields step }
{
    fields::put_state(out, 0, step.state);
    fields::put(out, 10, &[f64::from(step.phase), f64::from(step.rolling)]);
}

// Pos, vel, spin.
#[tactic(auto, unfolding(crate::specs::Rows::motion_at))]
fn motion_at(s: &[f64], o: usize) -> Motion
    requires { o + 9 ≤ length s.now }
    ensures { result ≡ motion_at s.now o }
{
    Motion {
        pos: fields::vec_at(s, o),
        vel: fields::vec_at(s, o + 3),
        spin: fields::vec_at(s, o + 6),
    }
}

// N, g_t, friction, radius, k, pivot_accel.
#[tactic(auto, unfolding(crate::specs::Rows::patch_at))]
fn patch_at(s: &[f64], o: usize) -> Patch
    requires { o + 12 ≤ length s.now }
    ensures { result ≡ patch_at s.now o }
{
    Patch {
        n: fields::vec_at(s, o),
        g_t: fields::vec_at(s, o + 3),
        friction: s[o + 6],
        radius: s[o + 7],
        k: s[o + 8],
        pivot_accel: fields::vec_at(s, o + 9),
    }
}

// The surface GREEN with this compliance.
#[tactic(auto, unfolding(crate::specs::Rows::green_with))]
fn green_with(compliance: f64) -> Surface
    ensures { result ≡ green_with compliance }
{
    Surface {
        compliance,
        ..Surface::green()
    }
}

fn fill_vec(out: &mut [f64], v: DVec3)
    requires { length out.old ≡ 3 }
    ensures { out.new ≡ vec_fields v }
{
    fill(out, &[v.x, v.y, v.z]);
}

#[tactic(auto, using(crate::proofs::Numbers::truth))]
fn fill_truth(out: &mut [f64], b: bool)
    requires { length out.old ≡ 1 }
    ensures { out.new ≡ truth_number b ∷ [] }
{
    fill_one(out, f64::from(b));
}

fn fill_cd_cl(out: &mut [f64], c: CdCl)
    requires { length out.old ≡ 2 }
    ensures { out.new ≡ cd_cl_fields c }
{
    fill(out, &[c.cd, c.cl]);
}

#[tactic(auto, using(crate::proofs::Numbers::truth))]
fn fill_slid(out: &mut [f64], slid: Slid)
    requires { length out.old ≡ 11 }
    ensures { out.new ≡ slid_fields slid }
{
    let p = slid.motion.pos;
    let v = slid.motion.vel;
    let w = slid.motion.spin;
    let rolls = f64::from(slid.rolls);
    let rec = [
        p.x, p.y, p.z, v.x, v.y, v.z, w.x, w.y, w.z, slid.time, rolls,
    ];
    fill(out, &rec);
}

fn fill_aero(out: &mut [f64], a: AeroParams)
    requires { length out.old ≡ 5 }
    ensures { out.new ≡ aero_fields a }
{
    let axis = a.spin_axis;
    fill(out, &[axis.x, axis.y, axis.z, a.spin_rate, a.spin_decay]);
}

fn fill_locked(out: &mut [f64], locked: Locked)
    requires { length out.old ≡ 6 }
    ensures { out.new ≡ locked_fields locked }
{
    let v = locked.vel;
    let w = locked.spin;
    fill(out, &[v.x, v.y, v.z, w.x, w.y, w.z]);
}

// The row over `out` and 0; for a length that is not the one named 100, the exported functions' own answer, with nothing touched. The lengths are numbers: the
// bound of a closure can't name a const parameter.
fn door<F: FnOnce(&[f64], &mut [f64])>(
    n: usize,
    m: usize,
    input: &[f64],
    out: &mut [f64],
    row: F,
) -> u32
    requires { MayRun n m input.now out.old (F.pre row) }
    ensures { (f : List Float → List Float) → Leaves m input.now f (F.post row) → opened result out.new ≡ door_of n m f input.now out.old }
{
    if input.len() != n || out.len() != m {
        return 100;
    }
    row(input, out);
    0
}

// Doors to functions of structs (compare/DOORS.md): 0 with all of `out` written, or 100 with nothing touched for a wrong length.
#[tactic(auto, unfolding(crate::specs::Doors::impact_row))]
#[unsafe(no_mangle)]
pub extern "C" fn probe_impact(input: &[f64], out: &mut [f64]) -> u32
    ensures { opened result out.new ≡ door_of 34 10 impact_row input.now out.old }
{
    door(34, 10, input, out, |input, out| {
        let state = fields::state_at(input, 0);
        let at = sample_at(input, 10);
        let ball = fields::ball_at(input, 22);
        fill_state(out, impact::impact(state, at, ball));
    })
}

#[tactic(auto, unfolding(crate::specs::Doors::contact_step_row))]
#[unsafe(no_mangle)]
pub extern "C" fn probe_contact_step(input: &[f64], out: &mut [f64]) -> u32
    ensures { opened result out.new ≡ door_of 37 12 contact_step_row input.now out.old }
{
    door(37, 12, input, out, |input, out| {
        let state = fields::state_at(input, 0);
        let at = sample_at(input, 10);
        let ball = fields::ball_at(input, 22);
        fill_stepped(
            out,
            rolling::contact_step(state, at, ball, input[34], input[35], input[36]),
        );
    })
}

#[tactic(auto, unfolding(crate::specs::Doors::flight_step_row))]
#[unsafe(no_mangle)]
pub extern "C" fn probe_flight_step(input: &[f64], out: &mut [f64]) -> u32
    ensures { opened result out.new ≡ door_of 24 6 flight_step_row input.now out.old }
{
    door(24, 6, input, out, |input, out| {
        let ball = fields::ball_at(input, 0);
        let aero = AeroParams::from_spin_vector(fields::vec_at(input, 12));
        let start = flight_at(input, 16);
        fill_flight(
            out,
            flight::step(ball, aero, input[15], start, input[22], input[23]),
        );
    })
}

#[tactic(auto, unfolding(crate::specs::Doors::coefficient_at_row))]
#[unsafe(no_mangle)]
pub extern "C" fn probe_coefficient_at(input: &[f64], out: &mut [f64]) -> u32
    ensures { opened result out.new ≡ door_of 3 1 coefficient_at_row input.now out.old }
{
    door(3, 1, input, out, |input, out| {
        let restitution = restitution_of(input[0], input[1]);
        fill_one(out, restitution.coefficient_at(input[2]));
    })
}

#[tactic(auto, using(crate::proofs::Numbers::decay), unfolding(crate::specs::Doors::acceleration_row))]
#[unsafe(no_mangle)]
pub extern "C" fn probe_acceleration(input: &[f64], out: &mut [f64]) -> u32
    ensures { opened result out.new ≡ door_of 20 3 acceleration_row input.now out.old }
{
    door(20, 3, input, out, |input, out| {
        let ball = fields::ball_at(input, 0);
        let vel = fields::vec_at(input, 12);
        let aero = AeroParams {
            spin_axis: fields::vec_at(input, 15),
            spin_rate: input[18],
            spin_decay: 0.04,
        };
        fill_vec(out, ball.acceleration(vel, aero, input[19]));
    })
}

#[tactic(auto, unfolding(crate::specs::Doors::cd_cl_row))]
#[unsafe(no_mangle)]
pub extern "C" fn probe_cd_cl(input: &[f64], out: &mut [f64]) -> u32
    ensures { opened result out.new ≡ door_of 15 2 cd_cl_row input.now out.old }
{
    door(15, 2, input, out, |input, out| {
        let ball = fields::ball_at(input, 0);
        fill_cd_cl(out, ball.cd_cl(input[12], input[13], input[14]));
    })
}

#[tactic(auto, unfolding(crate::specs::Doors::slide_row))]
#[unsafe(no_mangle)]
pub extern "C" fn probe_slide(input: &[f64], out: &mut [f64]) -> u32
    ensures { opened result out.new ≡ door_of 24 11 slide_row input.now out.old }
{
    door(24, 11, input, out, |input, out| {
        let patch = patch_at(input, 0);
        let start = motion_at(input, 12);
        fill_slid(
            out,
            slide::slide(patch, start, input[21], input[22], input[23]),
        );
    })
}

#[tactic(auto, using(number::proofs::Steps::zero), unfolding(crate::specs::Doors::onto_surface_row))]
#[unsafe(no_mangle)]
pub extern "C" fn probe_onto_surface(input: &[f64], out: &mut [f64]) -> u32
    ensures { opened result out.new ≡ door_of 27 10 onto_surface_row input.now out.old }
{
    door(27, 10, input, out, |input, out| {
        let state = fields::state_at(input, 0);
        let at = sample_at(input, 10);
        let prev_normal = fields::vec_at(input, 22);
        let rolling = input[25] != 0.0;
        fill_state(
            out,
            contact::onto_surface(state, at, prev_normal, rolling, input[26]),
        );
    })
}

#[tactic(auto, unfolding(crate::specs::Doors::hermite_row))]
#[unsafe(no_mangle)]
pub extern "C" fn probe_hermite(input: &[f64], out: &mut [f64]) -> u32
    ensures { opened result out.new ≡ door_of 14 6 hermite_row input.now out.old }
{
    door(14, 6, input, out, |input, out| {
        let a = flight_at(input, 0);
        let b = flight_at(input, 6);
        fill_flight(out, flight::hermite(a, b, input[12], input[13]));
    })
}

#[tactic(auto, unfolding(crate::specs::Doors::parabola_row))]
#[unsafe(no_mangle)]
pub extern "C" fn probe_parabola(input: &[f64], out: &mut [f64]) -> u32
    ensures { opened result out.new ≡ door_of 7 6 parabola_row input.now out.old }
{
    door(7, 6, input, out, |input, out| {
        let a = flight_at(input, 0);
        fill_flight(out, flight::parabola(a, input[6]));
    })
}

#[tactic(auto, unfolding(crate::specs::Doors::drop_time_row))]
#[unsafe(no_mangle)]
pub extern "C" fn probe_drop_time(input: &[f64], out: &mut [f64]) -> u32
    ensures { opened result out.new ≡ door_of 2 1 drop_time_row input.now out.old }
{
    door(2, 1, input, out, |input, out| {
        fill_one(out, flight::drop_time(input[0], input[1]));
    })
}

#[tactic(auto, unfolding(crate::specs::Doors::hops_die_out_row))]
#[unsafe(no_mangle)]
pub extern "C" fn probe_hops_die_out(input: &[f64], out: &mut [f64]) -> u32
    ensures { opened result out.new ≡ door_of 46 1 hops_die_out_row input.now out.old }
{
    door(46, 1, input, out, |input, out| {
        let arrival = fields::state_at(input, 0);
        let rebound = fields::state_at(input, 10);
        let next = fields::state_at(input, 20);
        let n = fields::vec_at(input, 30);
        let ball = fields::ball_at(input, 33);
        fill_truth(
            out,
            contact::hops_die_out(arrival, rebound, next, n, ball, input[45]),
        );
    })
}

#[tactic(auto, unfolding(crate::specs::Doors::speed_factor_row))]
#[unsafe(no_mangle)]
pub extern "C" fn probe_speed_factor(input: &[f64], out: &mut [f64]) -> u32
    ensures { opened result out.new ≡ door_of 3 1 speed_factor_row input.now out.old }
{
    door(3, 1, input, out, |input, out| {
        let law = roll_law_of(input[0], input[1]);
        fill_one(out, law.speed_factor(input[2]));
    })
}

#[tactic(auto, unfolding(crate::specs::Doors::contact_angle_row))]
#[unsafe(no_mangle)]
pub extern "C" fn probe_contact_angle(input: &[f64], out: &mut [f64]) -> u32
    ensures { opened result out.new ≡ door_of 3 1 contact_angle_row input.now out.old }
{
    door(3, 1, input, out, |input, out| {
        let surface = green_with(input[0]);
        fill_one(out, surface.contact_angle(input[1], input[2]));
    })
}

#[tactic(auto, unfolding(crate::specs::Doors::from_spin_vector_row))]
#[unsafe(no_mangle)]
pub extern "C" fn probe_from_spin_vector(input: &[f64], out: &mut [f64]) -> u32
    ensures { opened result out.new ≡ door_of 3 5 from_spin_vector_row input.now out.old }
{
    door(3, 5, input, out, |input, out| {
        let omega = fields::vec_at(input, 0);
        fill_aero(out, AeroParams::from_spin_vector(omega));
    })
}

#[tactic(auto, unfolding(crate::specs::Doors::slip_row))]
#[unsafe(no_mangle)]
pub extern "C" fn probe_slip(input: &[f64], out: &mut [f64]) -> u32
    ensures { opened result out.new ≡ door_of 10 3 slip_row input.now out.old }
{
    door(10, 3, input, out, |input, out| {
        let vel = fields::vec_at(input, 0);
        let spin = fields::vec_at(input, 3);
        let n = fields::vec_at(input, 6);
        fill_vec(out, contact::slip(vel, spin, n, input[9]));
    })
}

#[tactic(auto, unfolding(crate::specs::Doors::lock_rolling_row))]
#[unsafe(no_mangle)]
pub extern "C" fn probe_lock_rolling(input: &[f64], out: &mut [f64]) -> u32
    ensures { opened result out.new ≡ door_of 11 6 lock_rolling_row input.now out.old }
{
    door(11, 6, input, out, |input, out| {
        let vel = fields::vec_at(input, 0);
        let spin = fields::vec_at(input, 3);
        let n = fields::vec_at(input, 6);
        fill_locked(
            out,
            contact::lock_rolling(vel, spin, n, input[9], input[10]),
        );
    })
}

#[tactic(auto, unfolding(crate::specs::Doors::saturate_pivot_row))]
#[unsafe(no_mangle)]
pub extern "C" fn probe_saturate_pivot(input: &[f64], out: &mut [f64]) -> u32
    ensures { opened result out.new ≡ door_of 9 3 saturate_pivot_row input.now out.old }
{
    door(9, 3, input, out, |input, out| {
        let start = fields::vec_at(input, 0);
        let end = fields::vec_at(input, 3);
        let n = fields::vec_at(input, 6);
        fill_vec(out, contact::saturate_pivot(start, end, n));
    })
}

#[tactic(auto, unfolding(crate::specs::Doors::tangential_gravity_row))]
#[unsafe(no_mangle)]
pub extern "C" fn probe_tangential_gravity(input: &[f64], out: &mut [f64]) -> u32
    ensures { opened result out.new ≡ door_of 3 3 tangential_gravity_row input.now out.old }
{
    door(3, 3, input, out, |input, out| {
        let n = fields::vec_at(input, 0);
        fill_vec(out, contact::tangential_gravity(n));
    })
}

#[tactic(auto, unfolding(crate::specs::Doors::sample_holds_row))]
#[unsafe(no_mangle)]
pub extern "C" fn probe_sample_holds(input: &[f64], out: &mut [f64]) -> u32
    ensures { opened result out.new ≡ door_of 12 1 sample_holds_row input.now out.old }
{
    door(12, 1, input, out, |input, out| {
        let at = sample_at(input, 0);
        fill_truth(out, contact::sample_holds(at));
    })
}
