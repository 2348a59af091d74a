// What callers see of a ball that lands: settle, step and impact, with the tests of what is handed in (01).
#![tactic(auto)]

ghost use Rattle.std.specs.Prelude.{◌≡◌, length};
ghost use Rattle.refusal.specs.Refusal.{answer_by, number_of};
ghost use Rattle.ground.specs.Tests.{refusal_of};
ghost use Rattle.ground.specs.Settle.{result_of, told_by, refusal as refusal_r, conditions_of, settle_of};
ghost use Rattle.ground.specs.Told.{record_of};
ghost use Rattle.ground.specs.Inner.{settled_by, after_sheet, ball_and_landing};
ghost use Rattle.ground.specs.Step.{stepped_by, step_made, step_of, struck_by, impact_made, impact_answer};

use aero::BallModel;
use course::Course;
use look::Rect;
use refusal::Refusal;
use roll::Ending;
use sheet::Sheet;
use shot::Shot;
use state::{BallState, Phase, Termination};
use tally::{Conditions, Tally};
use vector::DVec3;

// The first test of a settle that fails.
#[tactic(auto, using(refusal::proofs::Numbers::never_0), unfolding(crate::specs::Tests::refusal_of, crate::specs::Tests::wholes))]
pub fn refusal(sheet: &[u8], shot: &Shot, contacts: usize, points: usize) -> Result<(), Refusal>
    ensures { answer_by result ≡ refusal_of sheet.now shot.now contacts points }
{
    if contacts % tally::CONTACT_WIDTH != 0 || points % tally::POINT_WIDTH != 0 {
        return Err(Refusal::ListLength);
    }
    sheet::check_sheet(sheet)?;
    shot::input_test(shot)
}

// ---- settle

// How a settle ended, or the refusal by which it did not; the counts of its lists, steps and evaluations; the final state; the rectangle of its looks.
#[derive(Clone, Copy)]
pub struct Settled {
    pub outcome: Result<Termination, Refusal>,
    pub contacts: usize,
    pub points: usize,
    pub steps: u64,
    pub evaluations: u64,
    pub rest: BallState,
    pub rect: Rect,
}

// What a refusal hands back: the number, zero counts, an all-zero state and rectangle.
#[tactic(auto, using(number::proofs::Steps::steps))]
pub fn refused(refusal: Refusal) -> Settled
    ensures { told_by result ≡ refusal_r (number_of refusal) }
{
    Settled {
        outcome: Err(refusal),
        contacts: 0,
        points: 0,
        steps: 0,
        evaluations: 0,
        rest: BallState::ZERO,
        rect: Rect::new(),
    }
}

// A settle's result as the line shows it: a number for its answer, whichever it is, and beside it a termination or none.
#[derive(Clone, Copy)]
pub struct Told {
    pub answer: u32,
    pub termination: Option<Termination>,
    pub contacts: usize,
    pub points: usize,
    pub steps: u64,
    pub evaluations: u64,
    pub rest: BallState,
    pub rect: Rect,
}

impl Told {
    // What a refusal hands back, with this number: 0 too, of a call that answers 0 and settles nothing.
    #[tactic(auto, using(number::proofs::Steps::steps))]
    pub fn refused(answer: u32) -> Told
        ensures { record_of result ≡ refusal_r answer }
    {
        Told {
            answer,
            termination: None,
            contacts: 0,
            points: 0,
            steps: 0,
            evaluations: 0,
            rest: BallState::ZERO,
            rect: Rect::new(),
        }
    }
}

impl Settled {
    // With its answer as a number.
    pub fn told(&self) -> Told
        ensures { record_of result ≡ told_by self.now }
    {
        Told {
            answer: refusal::answer(&self.outcome),
            termination: self.outcome.ok(),
            contacts: self.contacts,
            points: self.points,
            steps: self.steps,
            evaluations: self.evaluations,
            rest: self.rest,
            rect: self.rect,
        }
    }
}

// A run's end, or 20 to 23 with the last state that passed its test.
fn report(run: Result<Ending, Refusal>, tally: &Tally) -> Settled
    ensures { told_by result ≡ settled_by run tally.now }
{
    let (outcome, rest) = match run {
        Ok(end) => (Ok(end.how), end.state),
        Err(refusal) => (Err(refusal), tally.good),
    };
    Settled {
        outcome,
        contacts: tally.contacts,
        points: tally.points,
        steps: tally.steps,
        evaluations: tally.evaluations,
        rest,
        rect: tally.rect,
    }
}

#[tactic(auto, unfolding(crate::specs::Settle::conditions_of))]
fn conditions(shot: &Shot) -> Conditions
    ensures { result ≡ conditions_of shot.now }
{
    Conditions {
        physics: shot.physics,
        step_limit: shot.step_limit,
        ball: shot.ball,
        air_density: shot.air_density,
        t_end: shot.landing.time + shot.physics.max_time,
        fading: shot.fading,
    }
}

// The settle of a shot that passed its tests: this is asked, since it speaks of the course, the shot and both lengths.
pub fn settle_with(
    course: &Course,
    shot: &Shot,
    contacts: &mut [f64],
    points: &mut [f64],
) -> Settled
    requires { refusal_of course.now shot.now (length contacts.old) (length points.old) ≡ 0 }
    ensures { result_of (told_by result) contacts.new points.new ≡ settle_of course.now shot.now contacts.old points.old }
{
    records::zero_from(contacts, 0);
    records::zero_from(points, 0);
    let c = conditions(shot);
    let mut tally = Tally::new(&shot.landing);
    let run = train::run(course, contacts, points, &c, &shot.landing, &mut tally);
    report(run, &tally)
}

// From a landing on the course of the sheet to rest, to max_time or to max_impacts.
#[tactic(auto, using(refusal::proofs::Numbers::never_0, crate::specs::Passed::settle_sheet), unfolding(crate::specs::Settle::settle_of))]
pub fn settle(sheet: &[u8], shot: &Shot, contacts: &mut [f64], points: &mut [f64]) -> Settled
    ensures { result_of (told_by result) contacts.new points.new ≡ settle_of sheet.now shot.now contacts.old points.old }
{
    if let Err(refusal) = refusal(sheet, shot, contacts.len(), points.len()) {
        return refused(refusal);
    }
    let mut words = [0u64; index::INDEX_WORDS];
    settle_with(&Course::indexed(sheet, &mut words), shot, contacts, points)
}

// ---- one step, one impact

// The state after a step, and its phase.
#[derive(Clone, Copy)]
pub struct Moved {
    pub state: BallState,
    pub phase: Phase,
}

// The tests of a step but the sheet's. It has three of the tunables, as the Rust's contact_step, so they come as numbers and not as a GroundPhysics.
fn step_test(
    dt: f64,
    stop_speed: f64,
    roll_threshold: f64,
    ball: &BallModel,
    state: &BallState,
) -> Result<(), Refusal>
    ensures { answer_by result ≡ after_sheet dt stop_speed roll_threshold ball.now state.now }
{
    if !shot::step_physics_ok(dt, stop_speed, roll_threshold) {
        return Err(Refusal::Physics);
    }
    ball_and_landing(ball, state)
}

// Both calls end with these tests.
fn ball_and_landing(ball: &BallModel, state: &BallState) -> Result<(), Refusal>
    ensures { answer_by result ≡ ball_and_landing ball.now state.now }
{
    if !shot::ball_ok(*ball) {
        return Err(Refusal::Ball);
    }
    if !shot::landing_ok(*state) {
        return Err(Refusal::Landing);
    }
    Ok(())
}

fn step_made(
    sheet: Sheet,
    dt: f64,
    stop_speed: f64,
    roll_threshold: f64,
    ball: &BallModel,
    state: &BallState,
) -> Result<Moved, Refusal>
    ensures { stepped_by state.now result ≡ step_made sheet.entry dt stop_speed roll_threshold ball.now state.now }
{
    let course = Course::scanned(sheet);
    let mut tally = Tally::new(state);
    let at = tally.look(&course, state.pos.x, state.pos.z)?;
    let moved = rolling::contact_step(*state, at, *ball, dt, stop_speed, roll_threshold);
    let next = moved.state;
    let under = tally.look(&course, next.pos.x, next.pos.z)?;
    let placed = contact::onto_surface(next, under, at.normal, moved.rolling, ball.radius_m());
    let state = tally.test(placed)?;
    Ok(Moved {
        state,
        phase: moved.phase,
    })
}

// One ground step of a ball on the course of the sheet.
#[tactic(auto, using(refusal::proofs::Numbers::never_0), unfolding(crate::specs::Tests::step_test, crate::specs::Step::step_of))]
pub fn step(
    sheet: &[u8],
    dt: f64,
    stop_speed: f64,
    roll_threshold: f64,
    ball: &BallModel,
    state: &BallState,
) -> Result<Moved, Refusal>
    ensures { stepped_by state.now result ≡ step_of sheet.now dt stop_speed roll_threshold ball.now state.now }
{
    let sheet = Sheet::checked(sheet)?;
    step_test(dt, stop_speed, roll_threshold, ball, state)?;
    step_made(sheet, dt, stop_speed, roll_threshold, ball, state)
}

fn impact_made(sheet: Sheet, ball: &BallModel, state: &BallState) -> Result<BallState, Refusal>
    ensures { struck_by state.now result ≡ impact_made sheet.entry ball.now state.now }
{
    let course = Course::scanned(sheet);
    let mut tally = Tally::new(state);
    let at = tally.look(&course, state.pos.x, state.pos.z)?;
    let after = tally.test(impact::impact(*state, at, *ball))?;
    Ok(after)
}

// One impact of a ball on the course of the sheet.
#[tactic(auto, using(refusal::proofs::Numbers::never_0), unfolding(crate::specs::Tests::impact_test, crate::specs::Step::impact_answer))]
pub fn impact(sheet: &[u8], ball: &BallModel, state: &BallState) -> Result<BallState, Refusal>
    ensures { struck_by state.now result ≡ impact_answer sheet.now ball.now state.now }
{
    let sheet = Sheet::checked(sheet)?;
    ball_and_landing(ball, state)?;
    impact_made(sheet, ball, state)
}
