// Where a hop step meets the ground: clearance, first_crossing, find_root and hop_arrival of ground.rs, over a settle's tally.
#![tactic(auto)]

ghost use Rattle.std.specs.Prelude.{◌≡◌, ◌+◌, ◌≤◌};
ghost use Rattle.course.specs.Sheet.{course_of};
ghost use Rattle.search.specs.Search.{find_root};
ghost use Rattle.tally.specs.Language.{in_m, evaluate};
ghost use Rattle.arrival.specs.Arrival.{arc_of, clearance_at, advanced, at_start, sub_step, first_crossing, end_value, guess_in, ending_at, crossing_time, placed};
ghost use Rattle.arrival.specs.Inner.{Finds, Clears, Arrives};

use course::Course;
use refusal::Refusal;
use rk4::State;
use search::Bracket;
use state::BallState;
use std::ops::ControlFlow;
use tally::Tally;
use vector::DVec3;

const CROSSING_SUBSTEPS: u32 = 8;

// One step of a hop, of length h from a to b.
#[derive(Clone, Copy)]
pub struct Arc {
    pub air_density: f64,
    pub a: State,
    pub b: State,
    pub h: f64,
}

impl Arc {
    // The state a time tau into the step.
    #[tactic(auto, using(number::proofs::Steps::steps), unfolding(crate::specs::Arrival::arc_of))]
    fn at(&self, tau: f64) -> State
        ensures { result ≡ arc_of self.now tau }
    {
        if self.air_density > 0.0 {
            flight::hermite(self.a, self.b, self.h, tau)
        } else {
            flight::parabola(self.a, tau)
        }
    }

    // The place alone, for a look.
    #[tactic(auto, using(number::proofs::Steps::steps), unfolding(crate::specs::Arrival::arc_of))]
    fn place_at(&self, tau: f64) -> DVec3
        ensures { result ≡ (arc_of self.now tau).pos }
    {
        if self.air_density > 0.0 {
            flight::hermite_place(self.a, self.b, self.h, tau)
        } else {
            flight::parabola_place(self.a, tau)
        }
    }
}

// ---- clearance

// The course, the tally and the arc stay three parameters: a struct that holds them, a `&mut` among them, needs a clause at each function
// that its references stay the same.

// Height of a ball centred at `pos` above the terrain under it.
pub fn clear(course: &Course, t: &mut Tally, pos: DVec3) -> Result<f64, Refusal>
    ensures { Clears (course_of course.now) t.old pos result t.new }
{
    let under = t.look(course, pos.x, pos.z)?;
    Ok(pos.y - under.height)
}

#[tactic(auto, unfolding(crate::specs::Arrival::clearance_at))]
fn clearance_at(course: &Course, tally: &mut Tally, arc: &Arc, tau: f64) -> Result<f64, Refusal>
    ensures { Finds (course_of course.now) (clearance_at arc.now tau) 0 tally.old result tally.new }
{
    clear(course, tally, arc.place_at(tau))
}

// ---- the first crossing

#[tactic(auto, unfolding(crate::specs::Arrival::advanced))]
fn advance(b: Bracket, x: f64, fx: f64) -> Bracket
    ensures { result ≡ advanced b x fx }
{
    Bracket {
        lo: b.hi,
        f_lo: b.f_hi,
        hi: x,
        f_hi: fx,
    }
}

#[tactic(auto, using(number::proofs::Steps::steps), unfolding(crate::specs::Arrival::at_start))]
fn at_start(f0: f64) -> Bracket
    ensures { result ≡ at_start f0 }
{
    Bracket {
        lo: 0.0,
        f_lo: f0,
        hi: 0.0,
        f_hi: f0,
    }
}

// Sub-step i of 8; `f_end` stands in for the clearance at the step's end.
fn sub_step(
    course: &Course,
    tally: &mut Tally,
    arc: &Arc,
    f_end: f64,
    i: u32,
    b: Bracket,
) -> Result<Bracket, Refusal>
    ensures { Finds (course_of course.now) (sub_step (clearance_at arc.now) arc.now.h f_end i b) 0 tally.old result tally.new }
{
    if i == CROSSING_SUBSTEPS {
        return Ok(advance(b, arc.h, f_end));
    }
    let x = arc.h * (i as f64) / 8.0;
    let fx = clearance_at(course, tally, arc, x)?;
    Ok(advance(b, x, fx))
}

// The sub-step with the first crossing, if there is one.
fn first_crossing(
    course: &Course,
    tally: &mut Tally,
    arc: &Arc,
    f0: f64,
    f_end: f64,
) -> Result<Option<Bracket>, Refusal>
    ensures { Finds (course_of course.now) (first_crossing (clearance_at arc.now) arc.now.h f0 f_end) 0 tally.old result tally.new }
{
    let mut b = at_start(f0);
    for i in 1..=CROSSING_SUBSTEPS {
        b = sub_step(course, tally, arc, f_end, i, b)?;
        if b.f_hi <= 0.0 {
            return Ok(Some(b));
        }
    }
    Ok(None)
}

// ---- the root in the bracket

// Each evaluation is counted as it is made, one stopped by its spot's test among them. Room for 200 more is asked here, of the caller and of its caller, and is
// no ghost field of Tally: after the search it need not hold. The slide has this loop too: one for both would be handed the evaluation as a closure that
// looks, counts and may stop, and would have to say of it all that `find_root` says here, so it would be longer than the two.
fn find_root(
    course: &Course,
    tally: &mut Tally,
    arc: &Arc,
    b: Bracket,
    guess: f64,
) -> Result<f64, Refusal>
    requires { tally.old.evaluations + 200 ≤ 18446744073709551615 }
    ensures { Finds (course_of course.now) (find_root in_m (evaluate (clearance_at arc.now)) b guess) 200 tally.old result tally.new }
{
    let mut s = search::start_search(b, guess);
    for _made in 0..search::ROOT_MAX_ITER {
        let x = search::in_bracket(s);
        tally.evaluations += 1;
        let fx = clearance_at(course, tally, arc, x)?;
        match search::narrow(s, x, fx) {
            ControlFlow::Continue(next) => s = next,
            ControlFlow::Break(root) => return Ok(root),
        }
    }
    Ok(s.bracket.hi)
}

// ---- the arrival

// The clearance at the bracket's end: looked at again, and no more than 0, where that is the step's end.
fn end_value(course: &Course, tally: &mut Tally, arc: &Arc, b: Bracket) -> Result<f64, Refusal>
    ensures { Finds (course_of course.now) (end_value arc.now b) 0 tally.old result tally.new }
{
    if b.hi == arc.h {
        let f = clearance_at(course, tally, arc, arc.h)?;
        return Ok(number::min(f, 0.0));
    }
    Ok(b.f_hi)
}

#[tactic(auto, unfolding(crate::specs::Arrival::guess_in))]
fn guess_in(arc: &Arc, b: Bracket, end_height: f64) -> f64
    ensures { result ≡ guess_in arc.now b end_height }
{
    let time = flight::drop_time(arc.a.pos.y - end_height, arc.a.vel.y);
    number::clamp(time, b.lo, b.hi)
}

#[tactic(auto, unfolding(crate::specs::Arrival::ending_at))]
fn ending_at(b: Bracket, f_hi: f64) -> Bracket
    ensures { result ≡ ending_at b f_hi }
{
    Bracket { f_hi, ..b }
}

// The time into the step of the crossing in the bracket.
fn crossing_time(course: &Course, tally: &mut Tally, arc: &Arc, b: Bracket) -> Result<f64, Refusal>
    requires { tally.old.evaluations + 200 ≤ 18446744073709551615 }
    ensures { Finds (course_of course.now) (crossing_time arc.now b) 200 tally.old result tally.new }
{
    let f_hi = end_value(course, tally, arc, b)?;
    let last = arc.place_at(arc.h);
    let end = tally.look(course, last.x, last.z)?;
    let guess = guess_in(arc, b, end.height);
    find_root(course, tally, arc, ending_at(b, f_hi), guess)
}

// The arc's state, put on the ground.
#[tactic(auto, unfolding(crate::specs::Arrival::placed))]
fn place(s: State, time: f64, height: f64, spin: DVec3) -> BallState
    ensures { result ≡ placed s time height spin }
{
    BallState {
        time,
        pos: DVec3 { y: height, ..s.pos },
        vel: s.vel,
        spin,
    }
}

// The arrival in the step, which starts at time t, if the ball meets the ground in it; `end` is the clearance at the step's end.
pub fn arrive(
    course: &Course,
    tally: &mut Tally,
    arc: &Arc,
    t: f64,
    end: f64,
    spin: DVec3,
) -> Result<Option<BallState>, Refusal>
    requires { tally.old.evaluations + 200 ≤ 18446744073709551615 }
    ensures { Arrives (course_of course.now) tally.old arc.now t end spin result tally.new }
{
    let f0 = clearance_at(course, tally, arc, 0.0)?;
    let Some(b) = first_crossing(course, tally, arc, f0, end)? else {
        return Ok(None);
    };
    let tau = crossing_time(course, tally, arc, b)?;
    let s = arc.at(tau);
    let ground = tally.look(course, s.pos.x, s.pos.z)?;
    Ok(Some(place(s, t + tau, ground.height, spin)))
}
