// A hop: flight from a rebound until the ball meets the ground again or t_end comes; hop of ground.rs.
#![tactic(auto)]

ghost use Rattle.std.specs.Prelude.{◌≡◌, ◌<◌};
ghost use Rattle.number.specs.Ops.{◌⊕◌};
ghost use Rattle.course.specs.Sheet.{course_of};
ghost use Rattle.tally.specs.Times.{sample_interval};
ghost use Rattle.tally.specs.Inner.{Bounded};
ghost use Rattle.hop.specs.Hop.{fade_factor, spin_after, aero_for, step_arc, step_end, flight};
ghost use Rattle.hop.specs.Inner.{HopPasses, Hops};

use aero::AeroParams;
use arrival::Arc;
use course::Course;
use refusal::Refusal;
use rk4::State;
use state::{BallState, Phase};
use std::ops::ControlFlow;
use tally::{Conditions, Tally};
use vector::DVec3;

// How fast spin fades in the air, a second.
const FADE_RATE: f64 = 0.04;

// Where a hop came to: the ground, or t_end.
#[derive(Clone, Copy)]
pub enum Way {
    Arrived(BallState),
    Late(BallState),
}

// What a hop carries from pass to pass.
#[derive(Clone, Copy)]
pub struct Flight {
    pub state: BallState,
    pub next_sample: f64,
}

// What the second settle multiplies the spin by after a hop step of length h.
#[tactic(auto, unfolding(crate::specs::Hop::fade_factor))]
fn fade_factor(h: f64) -> f64
    ensures { result ≡ fade_factor h }
{
    exponential::exp(-(FADE_RATE * h))
}

// `fading` is a word of the definitions: one run for both settles.
#[tactic(auto, unfolding(crate::specs::Hop::spin_after))]
fn spin_after(fading: bool, h: f64, spin: DVec3) -> DVec3
    ensures { result ≡ spin_after fading h spin }
{
    if fading { spin * fade_factor(h) } else { spin }
}

// Drag and lift of a step: by the spin that it begins with, which is the hop's where the spin is held.
#[tactic(auto, unfolding(crate::specs::Hop::aero_for))]
fn aero_for(fading: bool, aero: AeroParams, spin: DVec3) -> AeroParams
    ensures { result ≡ aero_for fading aero spin }
{
    if fading {
        AeroParams::from_spin_vector(spin)
    } else {
        aero
    }
}

#[tactic(auto, unfolding(crate::specs::Hop::step_arc))]
fn step_arc(c: &Conditions, aero: AeroParams, s: &BallState) -> Arc
    ensures { result ≡ step_arc c.now (aero_for c.now.fading aero) s.now }
{
    let a = State {
        pos: s.pos,
        vel: s.vel,
    };
    let h = number::min(c.physics.dt, c.t_end - s.time);
    let own = aero_for(c.fading, aero, s.spin);
    let b = flight::step(c.ball, own, c.air_density, a, s.time, h);
    Arc {
        air_density: c.air_density,
        a,
        b,
        h,
    }
}

#[tactic(auto, unfolding(crate::specs::Hop::step_end))]
fn step_end(c: &Conditions, arc: &Arc, s: &BallState) -> BallState
    ensures { result ≡ step_end (spin_after c.now.fading) arc.now s.now }
{
    BallState {
        time: s.time + arc.h,
        pos: arc.b.pos,
        vel: arc.b.vel,
        spin: spin_after(c.fading, arc.h, s.spin),
    }
}

// One pass of a hop: it goes on, or ends where the ball meets the ground.
fn hop_step(
    course: &Course,
    points: &mut [f64],
    c: &Conditions,
    aero: AeroParams,
    f: &Flight,
    t: &mut Tally,
) -> Result<ControlFlow<Way, Flight>, Refusal>
    requires steps_bound { t.old.steps < c.now.step_limit }
    requires bounded { Bounded c.now t.old }
    ensures { HopPasses (course_of course.now) c.now aero f.now t.old points.old result t.new points.new }
{
    let arc = step_arc(c, aero, &f.state);
    let end_state = step_end(c, &arc, &f.state);
    t.count_step(0);
    let b = t.test(end_state)?;
    let end = arrival::clear(course, t, b.pos)?;
    let met = arrival::arrive(course, t, &arc, f.state.time, end, f.state.spin)?;
    if let Some(arrival) = met {
        let s = t.test(arrival)?;
        return Ok(ControlFlow::Break(Way::Arrived(s)));
    }
    let due = tally::has_come(b.time, f.next_sample);
    t.push_due(due, course, points, &b, Phase::Hop)?;
    let next_sample = tally::next_after(due, f.next_sample, f.next_sample);
    Ok(ControlFlow::Continue(Flight {
        state: b,
        next_sample,
    }))
}

// The first pass: the next sample point is one interval after the start.
pub fn flight_of(start: &BallState) -> Flight
    ensures { result ≡ flight start.now (start.now.time ⊕ sample_interval) }
{
    Flight {
        state: *start,
        next_sample: start.time + tally::SAMPLE_INTERVAL,
    }
}

// Flight, from what the loop carries until the ball meets the ground again, or t_end comes first. Where the spin is held it is that of the start.
// It comes back with what the loop carries where a step is due that step_limit does not allow. The time and the tally say when the passes end: a range
// would count them again. One loop for this and the ground would be handed the pass, the time and the end as closures, and be longer than both.
pub fn hop(
    course: &Course,
    points: &mut [f64],
    c: &Conditions,
    flight: Flight,
    t: &mut Tally,
) -> Result<ControlFlow<Way, Flight>, Refusal>
    requires { Bounded c.now t.old }
    ensures { Hops (course_of course.now) c.now flight t.old points.old result t.new points.new }
{
    let aero = AeroParams::from_spin_vector(flight.state.spin);
    let mut f = flight;
    loop {
        if tally::has_come(f.state.time, c.t_end) {
            return Ok(ControlFlow::Break(Way::Late(f.state)));
        }
        if t.steps >= c.step_limit {
            return Ok(ControlFlow::Continue(f));
        }
        match hop_step(course, points, c, aero, &f, t)? {
            ControlFlow::Continue(g) => {
                f = g;
            }
            ControlFlow::Break(way) => {
                return Ok(ControlFlow::Break(way));
            }
        }
    }
}
