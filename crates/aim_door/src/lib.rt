// What the door dimple_aim does but for its result: aim, over the input of the program settle, with the landing as ten doubles.
#![tactic(auto)]

ghost use Rattle.std.specs.Prelude.{◌≡◌, length};
ghost use Rattle.aim.specs.Aim.{aim as given};
ghost use Rattle.aim.specs.Inner.{aimed_by, CameToRest};
ghost use Rattle.aim_door.specs.AimInput.{aim_input_of, found_by, FoundAtRest, into, into_of};

use aim::{Aimed, Grid, Target};
use ground::Settled;
use refusal::Refusal;
use state::BallState;

// 12 for under 240 or over 34,048 bytes; the other answers are aim's.
#[tactic(auto, using(crate::proofs::Sized::too_short, crate::proofs::Sized::too_long))]
fn aim_input(
    input: &[u8],
    target: &Target,
    grid: Grid,
    contacts: &mut [f64],
    points: &mut [f64],
) -> Result<Option<Aimed>, Refusal>
    ensures rests { CameToRest result }
    ensures given { given (aimed_by result) contacts.new points.new ≡ aim_input_of input.now target.now grid.forward grid.downward contacts.old points.old }
{
    let (head, sheet) = input::parts(input)?;
    let shot = input::shot_of(head, false);
    aim::aim(sheet, &shot, target, grid, contacts, points)
}

// The landing that was found; of none all +0.
#[tactic(auto, using(number::proofs::Steps::steps))]
fn landing_of(found: &Result<Option<Aimed>, Refusal>) -> BallState
    ensures { result ≡ (aimed_by found.now).landing }
{
    match found {
        Ok(Some(aimed)) => aimed.landing,
        Ok(None) => BallState::ZERO,
        Err(_) => BallState::ZERO,
    }
}

// Its settle.
fn settled_of(found: &Result<Option<Aimed>, Refusal>) -> Result<Option<Settled>, Refusal>
    ensures rests { CameToRest found.now → FoundAtRest result }
    ensures same { found_by result ≡ (aimed_by found.now).settled }
{
    match found {
        Ok(Some(aimed)) => Ok(Some(aimed.settled)),
        Ok(None) => Ok(None),
        Err(refusal) => Err(*refusal),
    }
}

// Aims, and writes the landing.
pub fn aim_into(
    input: &[u8],
    target: &Target,
    grid: Grid,
    contacts: &mut [f64],
    points: &mut [f64],
    landing: &mut [f64; 10],
) -> Result<Option<Settled>, Refusal>
    ensures rests { FoundAtRest result }
    ensures into { into (found_by result) contacts.new points.new landing.new ≡ into_of (aim_input_of input.now target.now grid.forward grid.downward contacts.old points.old) landing.old }
{
    let found = aim_input(input, target, grid, contacts, points);
    fields::put_state(landing, 0, landing_of(&found));
    settled_of(&found)
}
