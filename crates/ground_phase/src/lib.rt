// The ground phase: the second loop of settle of ground.rs, with the tests and the count of 01, and the point at t_end.
#![tactic(auto)]

ghost use Rattle.std.specs.Prelude.{◌≡◌};
ghost use Rattle.course.specs.Sheet.{course_of};
ghost use Rattle.tally.specs.Inner.{Bounded};
ghost use Rattle.roll.specs.Roll.{roll_from};
ghost use Rattle.ground_phase.specs.GroundPhase.{last_phase};
ghost use Rattle.ground_phase.specs.Inner.{TimesUp, Grounds};

use course::Course;
use refusal::Refusal;
use roll::{Ending, Roll};
use state::{BallState, Phase, Termination};
use std::ops::ControlFlow;
use surface::GroundSample;
use tally::{Conditions, Tally};

// The phase at t_end: the last step's, or a roll before the first.
#[tactic(auto, unfolding(crate::specs::GroundPhase::last_phase))]
fn last_phase(last: Option<Phase>) -> Phase
    ensures { result ≡ last_phase last }
{
    last.unwrap_or(Phase::Roll)
}

// t_end: the point of the state, which ends the run.
pub fn time_up(
    course: &Course,
    points: &mut [f64],
    t: &mut Tally,
    s: &BallState,
    phase: Phase,
) -> Result<Ending, Refusal>
    ensures { TimesUp (course_of course.now) s.now phase t.old points.old result t.new points.new }
{
    t.push_point(course, points, s, phase)?;
    Ok(Ending {
        how: Termination::MaxTime,
        state: *s,
    })
}

// The first pass: the ball on the sample under it.
pub fn roll_of(s: BallState, at: GroundSample) -> Roll
    ensures { result ≡ roll_from s at }
{
    Roll {
        state: s,
        at,
        next_sample: s.time,
        last: None,
    }
}

// Slides and rolls, from what the loop carries to rest or t_end; or it breaks off where a step is due that step_limit does not allow, and gives
// what the loop carries. As in a hop, the time and the tally say when the passes end, and one loop for both would be longer than the two.
// In a function of its own, its loop and that of the hops have the registers to themselves.
#[inline(never)]
pub fn ground(
    course: &Course,
    points: &mut [f64],
    c: &Conditions,
    roll: Roll,
    t: &mut Tally,
) -> Result<ControlFlow<Ending, Roll>, Refusal>
    requires bounded { Bounded c.now t.old }
    ensures { Grounds (course_of course.now) c.now roll t.old points.old result t.new points.new }
{
    let mut g = roll;
    while !tally::has_come(g.state.time, c.t_end) {
        if t.steps >= c.step_limit {
            return Ok(ControlFlow::Continue(g));
        }
        match roll::ground_step(course, points, c, &g, t)? {
            ControlFlow::Continue(next) => g = next,
            ControlFlow::Break(end) => return Ok(ControlFlow::Break(end)),
        }
    }
    let end = time_up(course, points, t, &g.state, last_phase(g.last))?;
    Ok(ControlFlow::Break(end))
}
