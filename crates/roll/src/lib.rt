// One pass of a ball on the ground: the ground loop's body in settle of ground.rs, with the tests and the count of 01.
#![tactic(auto)]

ghost use Rattle.std.specs.Prelude.{◌≡◌, ◌<◌};
ghost use Rattle.std.specs.Prelude.{◌&&◌};
ghost use Rattle.vector.specs.Vec.{same_vec, zero3};
ghost use Rattle.contact.specs.Contact.{sample_holds};
ghost use Rattle.course.specs.Sheet.{course_of};
ghost use Rattle.tally.specs.Inner.{Bounded};
ghost use Rattle.roll.specs.Roll.{step_on, point_due, held_of, put_down};
ghost use Rattle.roll.specs.Inner.{RollPasses};

use contact::Normal;
use course::Course;
use refusal::Refusal;
use rolling::Stepped;
use state::{BallState, Phase, Termination};
use std::ops::ControlFlow;
use surface::GroundSample;
use tally::{Conditions, Tally};
use vector::DVec3;

// How a settle that went well ended, and its final state.
#[derive(Clone, Copy)]
pub struct Ending {
    pub how: Termination,
    pub state: BallState,
}

// What the ground loop carries from pass to pass. `last` is the phase of the last step, if there was one.
#[derive(Clone, Copy)]
pub struct Roll {
    pub state: BallState,
    pub at: GroundSample,
    pub next_sample: f64,
    pub last: Option<Phase>,
}

// A contact step of at most dt, and not past t_end.
#[tactic(auto, unfolding(crate::specs::Roll::step_on))]
fn step_on(c: &Conditions, g: &Roll, on: Normal) -> Stepped
    requires { on.given ≡ g.now.at.normal }
    ensures { result ≡ step_on c.now g.now }
{
    let physics = &c.physics;
    let h = number::min(physics.dt, c.t_end - g.state.time);
    rolling::step_along(
        g.state,
        g.at,
        on,
        c.ball,
        h,
        physics.stop_speed,
        physics.roll_threshold,
    )
}

#[tactic(auto, unfolding(crate::specs::Roll::point_due))]
fn point_due(t: f64, next_sample: f64, last: Option<Phase>, phase: Phase) -> bool
    ensures { result ≡ point_due t next_sample last phase }
{
    tally::has_come(t, next_sample) || last != Some(phase)
}

// Whether the ball is at rest on ground that holds it.
#[tactic(auto, using(number::proofs::Steps::steps), unfolding(vector::specs::Vec::same_vec))]
fn rests(s: &BallState, under: &GroundSample) -> bool
    ensures { result ≡ (same_vec s.now.vel zero3 && sample_holds under.now) }
{
    s.vel == DVec3::ZERO && contact::sample_holds(*under)
}

// Whether the ball stopped in a roll and stays where it is.
#[tactic(auto, unfolding(crate::specs::Roll::held_of))]
fn held(s: &Stepped, under: &GroundSample) -> bool
    ensures { result ≡ held_of s.now.phase s.now.state under.now }
{
    s.phase == Phase::Roll && rests(&s.state, under)
}

// The ball after its step, put back onto the ground under it. On level ground it is there already, and nothing is handed over.
#[tactic(auto, unfolding(crate::specs::Roll::put_down, contact::specs::Contact::onto_of))]
fn put_down(c: &Conditions, g: &Roll, on: Normal, s: &Stepped, under: &GroundSample) -> BallState
    requires { on.given ≡ g.now.at.normal }
    ensures { result ≡ put_down c.now g.now s.now.state s.now.rolling under.now }
{
    if contact::is_onto(s.state.pos.y, under.height, under.normal, on.given) {
        return s.state;
    }
    let n = on.next(under.normal);
    contact::put_onto(s.state, *under, n, on, s.rolling, c.ball.radius_m())
}

// One pass. The unit vector along the ground's normal is made once, for the step and after it. `Bounded` speaks of the conditions and the tally
// together, so it is asked, and no type has it.
pub fn ground_step(
    course: &Course,
    points: &mut [f64],
    c: &Conditions,
    g: &Roll,
    t: &mut Tally,
) -> Result<ControlFlow<Ending, Roll>, Refusal>
    requires steps_bound { t.old.steps < c.now.step_limit }
    requires bounded { Bounded c.now t.old }
    ensures { RollPasses (course_of course.now) c.now g.now t.old points.old result t.new points.new }
{
    let on = Normal::new(g.at.normal);
    let s = step_on(c, g, on);
    t.count_step(s.evaluations);
    let due = point_due(g.state.time, g.next_sample, g.last, s.phase);
    t.push_due(due, course, points, &g.state, s.phase)?;
    let under = t.look(course, s.state.pos.x, s.state.pos.z)?;
    let b = t.test(put_down(c, g, on, &s, &under))?;
    if held(&s, &under) {
        t.push_point(course, points, &b, Phase::Roll)?;
        return Ok(ControlFlow::Break(Ending {
            how: Termination::Rest,
            state: b,
        }));
    }
    Ok(ControlFlow::Continue(Roll {
        state: b,
        at: under,
        next_sample: tally::next_after(due, g.next_sample, g.state.time),
        last: Some(s.phase),
    }))
}
