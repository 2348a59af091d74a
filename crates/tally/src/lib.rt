// What a settle carries along, and the words in which it runs: a step, a look, a test, a push (01's terms).
#![tactic(auto)]

ghost use Rattle.std.specs.Prelude.{◌≡◌, ◌+◌, ◌*◌, ◌<◌, ◌≤◌, length};
ghost use Rattle.course.specs.Sheet.{course_of};
ghost use Rattle.records.specs.Records.{Pushes};
ghost use Rattle.tally.specs.Times.{has_come, next_after};
ghost use Rattle.tally.specs.Language.{point_width, contact_width, point_of, contact_of};
ghost use Rattle.tally.specs.Inner.{first_tally, MakesStep, LooksAt, Tests, PushesPoint, PushesIf, PushesContact, Truncates};

use aero::BallModel;
use course::Course;
use look::Rect;
use refusal::Refusal;
use shot::GroundPhysics;
use state::{BallState, Phase};
use surface::GroundSample;

const TIME_EPS: f64 = 1e-9;

// From one sample point to the next.
pub const SAMPLE_INTERVAL: f64 = 0.01;

// The numbers of a point.
pub const POINT_WIDTH: usize = 12;

// The numbers of a contact.
pub const CONTACT_WIDTH: usize = 20;

// What stays the same throughout one settle. Not a Shot beside t_end: the passes have no landing to read.
#[derive(Clone, Copy)]
pub struct Conditions {
    pub physics: GroundPhysics,
    pub step_limit: u64,
    pub ball: BallModel,
    pub air_density: f64,
    pub t_end: f64,
    pub fading: bool,
}

// ---- times

// Whether the time `mark` has come at t: the end's, or a sample point's.
pub fn has_come(t: f64, mark: f64) -> bool
    ensures { result ≡ has_come t mark }
{
    t >= mark - TIME_EPS
}

// The time of the next sample point: one interval past `from` if one was due, else as before.
#[tactic(auto, unfolding(crate::specs::Times::next_after))]
pub fn next_after(due: bool, next: f64, from: f64) -> f64
    ensures { result ≡ next_after due next from }
{
    if due { from + SAMPLE_INTERVAL } else { next }
}

// ---- the records of the two lists

fn write_point(
    points: &mut [f64],
    n: usize,
    s: &BallState,
    phase: Phase,
    height: f64,
) -> Option<usize>
    ensures { Pushes point_width n points.old (point_of s.now phase height) result points.new }
{
    let p = s.pos;
    let rec = [
        s.time,
        p.x,
        p.y,
        p.z,
        s.vel.x,
        s.vel.y,
        s.vel.z,
        s.spin.x,
        s.spin.y,
        s.spin.z,
        f64::from(phase),
        p.y - height,
    ];
    records::push(points, n, &rec)
}

fn write_contact(
    contacts: &mut [f64],
    n: usize,
    arrival: &BallState,
    at: &GroundSample,
    departure: &BallState,
) -> Option<usize>
    ensures { Pushes contact_width n contacts.old (contact_of arrival.now at.now departure.now) result contacts.new }
{
    let rec = [
        arrival.time,
        arrival.pos.x,
        arrival.pos.y,
        arrival.pos.z,
        at.normal.x,
        at.normal.y,
        at.normal.z,
        std::num::nearest_u64_to_f64(at.number),
        arrival.vel.x,
        arrival.vel.y,
        arrival.vel.z,
        departure.vel.x,
        departure.vel.y,
        departure.vel.z,
        arrival.spin.x,
        arrival.spin.y,
        arrival.spin.z,
        departure.spin.x,
        departure.spin.y,
        departure.spin.z,
    ];
    records::push(contacts, n, &rec)
}

// ---- the tally

// The steps made, the evaluations of their root searches, the contacts and points pushed, the last state that passed its test, the rectangle
// of the looks. A word that stops a run gives its refusal: 20 to 22. The lists are lent beside it: as fields they would ask for a clause at each
// function that they are still those that were lent.
#[derive(Clone, Copy)]
pub struct Tally {
    pub steps: u64,
    pub evaluations: u64,
    pub contacts: usize,
    pub points: usize,
    pub good: BallState,
    pub rect: Rect,
}

impl Tally {
    // Before the first look.
    pub fn new(landing: &BallState) -> Tally
        ensures { result ≡ first_tally landing.now }
    {
        Tally {
            steps: 0,
            evaluations: 0,
            contacts: 0,
            points: 0,
            good: *landing,
            rect: Rect::new(),
        }
    }

    // A step was made, and is counted, with the evaluations of its search.
    pub fn count_step(&mut self, evaluations: u64)
        requires { (self.old.steps < 2000000) × ((self.old.evaluations ≤ 200 * self.old.steps) × (evaluations ≤ 200)) }
        ensures { MakesStep self.old evaluations self.new }
    {
        self.steps += 1;
        self.evaluations += evaluations;
    }

    // A look at the spot: the sample there.
    pub fn look(&mut self, course: &Course, x: f64, z: f64) -> Result<GroundSample, Refusal>
        ensures { LooksAt (course_of course.now) self.old x z result self.new }
    {
        course.look(&mut self.rect, x, z).ok_or(Refusal::OutOfRange)
    }

    // The state, which passed its test.
    pub fn test(&mut self, s: BallState) -> Result<BallState, Refusal>
        ensures { Tests self.old s result self.new }
    {
        if !state::state_ok(s) {
            return Err(Refusal::OutOfRange);
        }
        self.good = s;
        Ok(s)
    }

    // A point: its spot is looked at, then it is pushed.
    pub fn push_point(
        &mut self,
        course: &Course,
        points: &mut [f64],
        s: &BallState,
        phase: Phase,
    ) -> Result<(), Refusal>
        ensures { PushesPoint (course_of course.now) self.old points.old s.now phase result self.new points.new }
    {
        let under = self.look(course, s.pos.x, s.pos.z)?;
        let pushed = write_point(points, self.points, s, phase, under.height);
        self.points = pushed.ok_or(Refusal::PointsFull)?;
        Ok(())
    }

    // A point, if it is due: `when due` of the definitions.
    pub fn push_due(
        &mut self,
        due: bool,
        course: &Course,
        points: &mut [f64],
        s: &BallState,
        phase: Phase,
    ) -> Result<(), Refusal>
        ensures { PushesIf (course_of course.now) due self.old points.old s.now phase result self.new points.new }
    {
        if due {
            self.push_point(course, points, s, phase)
        } else {
            Ok(())
        }
    }

    pub fn push_contact(
        &mut self,
        contacts: &mut [f64],
        arrival: &BallState,
        at: &GroundSample,
        departure: &BallState,
    ) -> Result<(), Refusal>
        ensures { PushesContact self.old contacts.old arrival.now at.now departure.now result self.new contacts.new }
    {
        let pushed = write_contact(contacts, self.contacts, arrival, at, departure);
        self.contacts = pushed.ok_or(Refusal::ContactsFull)?;
        Ok(())
    }

    // The points from `mark` on are taken back.
    pub fn truncate(&mut self, points: &mut [f64], mark: usize)
        requires { mark * point_width ≤ length points.old }
        ensures { Truncates self.old points.old mark self.new points.new }
    {
        records::zero_from(points, mark * POINT_WIDTH);
        self.points = mark;
    }
}
