// The train of impacts, and then the ground: the first loop of settle of ground.rs, with the tests and the count of 01.
#![tactic(auto)]

ghost use Rattle.std.specs.Prelude.{◌≡◌, ◌<◌, ◌≤◌};
ghost use Rattle.course.specs.Sheet.{course_of};
ghost use Rattle.train.specs.Inner.{LastImpacts, TrainRuns, is_last};

use course::Course;
use hop::Way;
use refusal::Refusal;
use roll::Ending;
use state::{BallState, Phase, Termination};
use std::ops::ControlFlow;
use strike::Struck;
use tally::{Conditions, Tally};

// Whether this impact rebounds (`hops`, a word of the definitions) and is the last that max_impacts allows, where n went before it.
fn is_last(hops: bool, n: usize, max_impacts: u64) -> bool
    requires { n < 18446744073709551615 }
    ensures { result ≡ is_last hops n max_impacts }
{
    hops && (n as u64) + 1 >= max_impacts
}

// The last impact that max_impacts allows: its contact and its point.
fn last_impact(
    course: &Course,
    contacts: &mut [f64],
    points: &mut [f64],
    state: &BallState,
    hit: &Struck,
    t: &mut Tally,
) -> Result<Ending, Refusal>
    ensures { LastImpacts (course_of course.now) state.now hit.now t.old contacts.old points.old result t.new contacts.new points.new }
{
    t.push_contact(contacts, state, &hit.at, &hit.out)?;
    t.push_point(course, points, &hit.out, Phase::Hop)?;
    Ok(Ending {
        how: Termination::MaxImpacts,
        state: hit.out,
    })
}

// The whole run, which begins its tally anew: `t` is what it has come to, also where it is refused.
pub fn run(
    course: &Course,
    contacts: &mut [f64],
    points: &mut [f64],
    c: &Conditions,
    landing: &BallState,
    t: &mut Tally,
) -> Result<Ending, Refusal>
    requires { c.now.step_limit ≤ 2000000 }
    ensures { TrainRuns (course_of course.now) c.now landing.now contacts.old points.old result t.new contacts.new points.new }
{
    *t = Tally::new(landing);
    let mut state = *landing;
    // Impacts and the hops between them, until the ball drops: no count says beforehand when.
    let at = loop {
        let n = t.contacts;
        let hit = strike::strike(course, c, &state, t)?;
        let hops = strike::rebounds(c, &hit);
        if is_last(hops, n, c.physics.max_impacts) {
            return last_impact(course, contacts, points, &state, &hit, t);
        }
        let flown = strike::fly(course, points, c, hops, &state, &hit, t)?;
        let Some(way) = flown else {
            // Not flown, or discarded: the ball drops to the ground here.
            state = strike::drop_to_ground(contacts, c, &state, &hit, t)?;
            break hit.at;
        };
        t.push_contact(contacts, &state, &hit.at, &hit.out)?;
        match way {
            Way::Arrived(b) => state = b,
            Way::Late(b) => return ground_phase::time_up(course, points, t, &b, Phase::Hop),
        }
    };
    // The ground, from the last sample on.
    let roll = ground_phase::roll_of(state, at);
    match ground_phase::ground(course, points, c, roll, t)? {
        ControlFlow::Break(end) => Ok(end),
        ControlFlow::Continue(_) => Err(Refusal::StepLimit),
    }
}
