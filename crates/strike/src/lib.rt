// One impact of the train of settle of ground.rs: the strike, the rebound that is flown or not, the drop to the ground.
#![tactic(auto)]

ghost use Rattle.std.specs.Prelude.{◌≡◌};
ghost use Rattle.course.specs.Sheet.{course_of};
ghost use Rattle.tally.specs.Inner.{Bounded};
ghost use Rattle.strike.specs.Strike.{rebounds as rebounds_of, dies_out, dropped};
ghost use Rattle.strike.specs.Inner.{Strikes, Flies, Drops};

use aero::G;
use course::Course;
use hop::Way;
use refusal::Refusal;
use state::{BallState, Phase};
use std::ops::ControlFlow;
use surface::GroundSample;
use tally::{Conditions, Tally};

// ---- an impact

// The ground's sample and the state after the impact there.
#[derive(Clone, Copy)]
pub struct Struck {
    pub at: GroundSample,
    pub out: BallState,
}

// Looks at the state's spot, and tests the state after the impact.
pub fn strike(
    course: &Course,
    c: &Conditions,
    state: &BallState,
    t: &mut Tally,
) -> Result<Struck, Refusal>
    ensures { Strikes (course_of course.now) c.now state.now t.old result t.new }
{
    let at = t.look(course, state.pos.x, state.pos.z)?;
    let hit = impact::impact(*state, at, c.ball);
    let out = t.test(hit)?;
    Ok(Struck { at, out })
}

// Whether the ball rebounds above the transition height.
#[tactic(auto, using(number::proofs::Steps::steps), unfolding(crate::specs::Strike::rebounds))]
pub fn rebounds(c: &Conditions, hit: &Struck) -> bool
    ensures { result ≡ rebounds_of c.now hit.now }
{
    let n = hit.at.normal.normalize();
    let v_n = hit.out.vel.dot(n);
    v_n > 0.0 && v_n * v_n >= 2.0 * G * n.y * c.physics.min_hop_height
}

// ---- a rebound: flown and kept, or not flown or discarded

#[tactic(auto, unfolding(crate::specs::Strike::dies_out))]
fn dies_out(c: &Conditions, state: &BallState, hit: &Struck, arrival: &BallState) -> bool
    ensures { result ≡ dies_out c.now state.now hit.now arrival.now }
{
    contact::hops_die_out(
        *state,
        hit.out,
        *arrival,
        hit.at.normal.normalize(),
        c.ball,
        c.physics.min_hop_height,
    )
}

// Where the hop came to; nothing where the ball drops to the ground here, as it does where it doesn't rebound (`hops`, as the definition has it).
pub fn fly(
    course: &Course,
    points: &mut [f64],
    c: &Conditions,
    hops: bool,
    state: &BallState,
    hit: &Struck,
    t: &mut Tally,
) -> Result<Option<Way>, Refusal>
    requires { Bounded c.now t.old }
    ensures { Flies (course_of course.now) c.now hops state.now hit.now t.old points.old result t.new points.new }
{
    if !hops {
        return Ok(None);
    }
    let mark = t.points;
    t.push_point(course, points, &hit.out, Phase::Hop)?;
    match hop::hop(course, points, c, hop::flight_of(&hit.out), t)? {
        ControlFlow::Continue(_) => Err(Refusal::StepLimit),
        ControlFlow::Break(Way::Late(b)) => Ok(Some(Way::Late(b))),
        ControlFlow::Break(Way::Arrived(b)) => {
            if dies_out(c, state, hit, &b) {
                return Ok(Some(Way::Arrived(b)));
            }
            t.truncate(points, mark);
            Ok(None)
        }
    }
}

// ---- the drop to the ground

// The state that slides or rolls away: the normal velocity is dropped, and a slip at or below roll_threshold removed.
#[tactic(auto, unfolding(crate::specs::Strike::dropped))]
fn leave_of(c: &Conditions, hit: &Struck) -> BallState
    ensures { result ≡ dropped c.now hit.now }
{
    let out = &hit.out;
    let n = hit.at.normal.normalize();
    let radius = c.ball.radius_m();
    let vel = out.vel - n * out.vel.dot(n);
    if contact::slip(vel, out.spin, n, radius).length() <= c.physics.roll_threshold {
        let locked = contact::lock_rolling(vel, out.spin, n, radius, c.ball.inertia_factor);
        BallState {
            vel: locked.vel,
            spin: locked.spin,
            ..*out
        }
    } else {
        BallState { vel, ..*out }
    }
}

pub fn drop_to_ground(
    contacts: &mut [f64],
    c: &Conditions,
    state: &BallState,
    hit: &Struck,
    t: &mut Tally,
) -> Result<BallState, Refusal>
    ensures { Drops c.now state.now hit.now t.old contacts.old result t.new contacts.new }
{
    let dropped = leave_of(c, hit);
    let leave = t.test(dropped)?;
    t.push_contact(contacts, state, &hit.at, &leave)?;
    Ok(leave)
}
