// Where a ball must land fast (02): the first landing of a grid whose run comes to rest near a wanted spot.
#![tactic(auto)]

ghost use Rattle.std.specs.Prelude.{◌≡◌, ◌≤◌, [], ◌∷◌, length};
ghost use Rattle.refusal.specs.Refusal.{answer_by};
ghost use Rattle.ground.specs.Tests.{refusal_of};
ghost use Rattle.aim.specs.Aim.{aim_ok, aim_refusal, with_speeds, shot_from, fits_of, row, rows, aim as given, aim_of};
ghost use Rattle.aim.specs.Inner.{aimed_by, CameToRest, Seeks};
ghost use Rattle.ground.specs.Settle.{told_by};

use course::Course;
use ground::Settled;
use refusal::Refusal;
use shot::Shot;
use state::{BallState, Termination};
use vector::DVec3;

// The wanted resting spot, and how far from it a ball may lie.
#[derive(Clone, Copy)]
pub struct Target {
    pub x: f64,
    pub z: f64,
    pub distance: f64,
}

// The landings to try: the forward speeds 1 to `forward` and, with each, the downward speeds 1 to `downward` (m/s). No part of a Target:
// one landing is tried with a Target alone.
#[derive(Clone, Copy)]
pub struct Grid {
    pub forward: u64,
    pub downward: u64,
}

// A landing and the result of its settle.
#[derive(Clone, Copy)]
pub struct Aimed {
    pub settled: Settled,
    pub landing: BallState,
}

// ---- tests

fn aim_ok(target: &Target, grid: Grid) -> bool
    ensures { result ≡ aim_ok target.now grid.forward grid.downward }
{
    (1 <= grid.forward)
        & (grid.forward <= 32)
        & (1 <= grid.downward)
        & (grid.downward <= 32)
        & number::within(0.0, 10.0, target.distance)
        & number::within(-100000.0, 100000.0, target.x)
        & number::within(-100000.0, 100000.0, target.z)
}

// The first test that fails.
#[tactic(auto, unfolding(crate::specs::Aim::aim_refusal))]
fn aim_refusal(
    sheet: &[u8],
    shot: &Shot,
    target: &Target,
    grid: Grid,
    contacts: usize,
    points: usize,
) -> Result<(), Refusal>
    ensures { answer_by result ≡ aim_refusal sheet.now shot.now target.now grid.forward grid.downward contacts points }
{
    ground::refusal(sheet, shot, contacts, points)?;
    if !aim_ok(target, grid) {
        return Err(Refusal::Aim);
    }
    Ok(())
}

// ---- the grid

// The shot's landing with forward speed i and downward speed j.
fn with_speeds(shot: &Shot, i: u64, j: u64) -> BallState
    ensures { result ≡ with_speeds shot.now.landing i j }
{
    BallState {
        vel: DVec3 {
            x: fields::whole(i),
            y: -fields::whole(j),
            z: 0.0,
        },
        ..shot.landing
    }
}

// The shot from another landing.
fn shot_from(shot: &Shot, landing: BallState) -> Shot
    ensures { result ≡ shot_from shot.now landing }
{
    Shot { landing, ..*shot }
}

// ---- the search

// Whether a run finished, at rest, within the distance of the spot.
fn fits(target: &Target, s: &Settled) -> bool
    ensures { result ≡ fits_of target.now (told_by s.now) }
{
    let d = target.distance;
    let dx = s.rest.pos.x - target.x;
    let dz = s.rest.pos.z - target.z;
    (s.outcome == Ok(Termination::Rest)) & (dx * dx + dz * dz <= d * d)
}

// One landing. That its shot passes the tests is asked, and is no type: it speaks of the course, the shot and both lengths.
fn try_at(
    course: &Course,
    shot: &Shot,
    target: &Target,
    landing: BallState,
    contacts: &mut [f64],
    points: &mut [f64],
) -> Option<Aimed>
    requires { refusal_of course.now (shot_from shot.now landing) (length contacts.old) (length points.old) ≡ 0 }
    ensures { Seeks course.now shot.now target.now (length contacts.old) (length points.old) (landing ∷ []) result contacts.new points.new }
{
    let settled = ground::settle_with(course, &shot_from(shot, landing), contacts, points);
    if fits(target, &settled) {
        return Some(Aimed { settled, landing });
    }
    None
}

// The downward speeds from 1 on, with forward speed i.
fn try_row(
    course: &Course,
    shot: &Shot,
    target: &Target,
    i: u64,
    downward: u64,
    contacts: &mut [f64],
    points: &mut [f64],
) -> Option<Aimed>
    requires { (refusal_of course.now shot.now (length contacts.old) (length points.old) ≡ 0) × (i ≤ 32) × (downward ≤ 32) }
    ensures { Seeks course.now shot.now target.now (length contacts.old) (length points.old) (row shot.now.landing i downward 1) result contacts.new points.new }
{
    for j in 1..=downward {
        let landing = with_speeds(shot, i, j);
        if let Some(found) = try_at(course, shot, target, landing, contacts, points) {
            return Some(found);
        }
    }
    None
}

// The forward speeds from 1 on.
fn try_grid(
    course: &Course,
    shot: &Shot,
    target: &Target,
    grid: Grid,
    contacts: &mut [f64],
    points: &mut [f64],
) -> Option<Aimed>
    requires { (refusal_of course.now shot.now (length contacts.old) (length points.old) ≡ 0) × (grid.forward ≤ 32) × (grid.downward ≤ 32) }
    ensures { Seeks course.now shot.now target.now (length contacts.old) (length points.old) (rows shot.now.landing grid.downward grid.forward 1) result contacts.new points.new }
{
    for i in 1..=grid.forward {
        if let Some(found) = try_row(course, shot, target, i, grid.downward, contacts, points) {
            return Some(found);
        }
    }
    None
}

// The first landing of the grid, by forward and then by downward speed, whose run fits the target, with that run; none where no landing's run does.
pub fn aim(
    sheet: &[u8],
    shot: &Shot,
    target: &Target,
    grid: Grid,
    contacts: &mut [f64],
    points: &mut [f64],
) -> Result<Option<Aimed>, Refusal>
    ensures rests { CameToRest result }
    ensures given { given (aimed_by result) contacts.new points.new ≡ aim_of sheet.now shot.now target.now grid.forward grid.downward contacts.old points.old }
{
    aim_refusal(sheet, shot, target, grid, contacts.len(), points.len())?;
    let mut words = [0u64; index::INDEX_WORDS];
    let course = Course::indexed(sheet, &mut words);
    let Some(found) = try_grid(&course, shot, target, grid, contacts, points) else {
        records::zero_from(contacts, 0);
        records::zero_from(points, 0);
        return Ok(None);
    };
    Ok(Some(found))
}
