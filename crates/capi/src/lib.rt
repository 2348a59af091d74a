// What other languages call. Lengths count doubles, or bytes for a sheet, an input, a page and marks. Every call is taken and answered; 100 and up are
// these functions' own answers.
#![tactic(auto)]

ghost use Rattle.std.specs.Prelude.{◌≡◌, [], ◌∷◌};
ghost use Rattle.ground.specs.Settle.{told_by};
ghost use Rattle.ground.specs.Step.{stepped_by, struck_by};
ghost use Rattle.fields.specs.Fields.{written};
ghost use Rattle.course.specs.Sheet.{height_by};
ghost use Rattle.card.specs.Card.{card_by};
ghost use Rattle.aim_door.specs.AimInput.{found_by};
ghost use Rattle.state.specs.declared.BallState.{BallState};
ghost use Rattle.capi.specs.Doors.{reported, answered as with_answer, stepped, struck, door, settle_door, settle_door_by, settle_door_of, settle_fading_door_of, step_door_of, impact_door_of, height_door_of};
ghost use Rattle.capi.specs.Aims.{aim_door, aim_door_of};
ghost use Rattle.capi.specs.Cards.{card_door, card_door_of};
ghost use Rattle.capi.specs.Listens.{total_fields, listen_door, listen_door_of};
ghost use Rattle.listen.specs.Listen.{heard_by};
ghost use Rattle.layout.specs.Layout.{board_at};
ghost use Rattle.refusal.specs.Refusal.{answer_by};
ghost use Rattle.layout.specs.Sent.{sent_of};
ghost use Rattle.capi.specs.Boards.{sent_by, entered, new_door_of, enter_door_of, place_door_of};
ghost use Rattle.shelf_layout.specs.Doors.{answered, shelf_new_door_of, shelf_save_door_of, shelf_return_door_of, shelf_drop_door_of};

use aim::{Grid, Target};
use board::{Board, Entry};
use card::ShotCard;
use ground::{Moved, Settled};
use listen::Totals;
use refusal::Refusal;
use state::BallState;

// The doubles of a settle's result, and of a step's state and phase.
const RESULT_LENGTH: usize = 20;

const STATE_LENGTH: usize = 11;

// The doubles of a settle's result with a call's answer, if there is room for them.
fn write_result(res: &mut [f64], answer: u32, s: &Settled)
    ensures { res.new ≡ reported (with_answer answer (told_by s.now)) res.old }
{
    if res.len() < RESULT_LENGTH {
        return;
    }
    let pos = s.rest.pos;
    let vel = s.rest.vel;
    let spin = s.rest.spin;
    let rect = s.rect.sides();
    let rec = [
        fields::whole(answer as u64),
        fields::whole(u64::from(state::termination_number(s.outcome.ok()))),
        fields::whole(s.contacts as u64),
        fields::whole(s.points as u64),
        fields::whole(s.steps),
        s.rest.time,
        pos.x,
        pos.y,
        pos.z,
        vel.x,
        vel.y,
        vel.z,
        spin.x,
        spin.y,
        spin.z,
        rect[0],
        rect[1],
        rect[2],
        rect[3],
        fields::whole(s.evaluations),
    ];
    fields::put(res, 0, &rec);
}

// The settle of the input, with the spin held or fading, and its result.
fn settle_into(
    input: &[u8],
    fading: bool,
    contacts: &mut [f64],
    points: &mut [f64],
    res: &mut [f64],
) -> u32
    ensures { settle_door result contacts.new points.new res.new ≡ settle_door_by fading input.now contacts.old points.old res.old }
{
    let s = input::settle_input(input, fading, contacts, points);
    let answer = refusal::answer(&s.outcome);
    write_result(res, answer, &s);
    answer
}

#[unsafe(no_mangle)]
pub extern "C" fn dimple_settle(
    input: &[u8],
    contacts: &mut [f64],
    points: &mut [f64],
    res: &mut [f64],
) -> u32
    ensures { settle_door result contacts.new points.new res.new ≡ settle_door_of input.now contacts.old points.old res.old }
{
    settle_into(input, false, contacts, points, res)
}

#[unsafe(no_mangle)]
pub extern "C" fn dimple_settle_fading(
    input: &[u8],
    contacts: &mut [f64],
    points: &mut [f64],
    res: &mut [f64],
) -> u32
    ensures { settle_door result contacts.new points.new res.new ≡ settle_fading_door_of input.now contacts.old points.old res.old }
{
    settle_into(input, true, contacts, points, res)
}

// The settle's answer, or 30: a number, since it leaves for C.
fn card_answer(card: &ShotCard) -> u32
    ensures { result ≡ (card_by card.now).answer }
{
    match card.printed {
        Ok(()) => refusal::answer(&card.settled.outcome),
        Err(refusal) => u32::from(refusal),
    }
}

#[unsafe(no_mangle)]
pub extern "C" fn dimple_card(
    input: &[u8],
    contacts: &mut [f64],
    points: &mut [f64],
    res: &mut [f64],
    page: &mut [u8],
) -> u32
    ensures { card_door result contacts.new points.new res.new page.new ≡ card_door_of input.now contacts.old points.old res.old page.old }
{
    let card = card::card(input, contacts, points, page);
    let answer = card_answer(&card);
    write_result(res, answer, &card.settled);
    answer
}

// The answer of the settle that was found, 0 where none was: a number, since it leaves for C.
fn aim_answer(found: &Result<Option<Settled>, Refusal>) -> u32
    ensures { result ≡ (found_by found.now).answer }
{
    match found {
        Ok(Some(s)) => refusal::answer(&s.outcome),
        Ok(None) => 0,
        Err(refusal) => u32::from(*refusal),
    }
}

// That settle; of none every number is +0: what a refusal hands back, with another answer written.
fn settled_of(found: &Result<Option<Settled>, Refusal>) -> Settled
    ensures { with_answer (found_by found.now).answer (told_by result) ≡ found_by found.now }
{
    match found {
        Ok(Some(s)) => *s,
        Ok(None) => ground::refused(Refusal::Aim),
        Err(refusal) => ground::refused(*refusal),
    }
}

#[unsafe(no_mangle)]
pub extern "C" fn dimple_aim(
    input: &[u8],
    contacts: &mut [f64],
    points: &mut [f64],
    spot_x: f64,
    spot_z: f64,
    distance: f64,
    forward: u64,
    downward: u64,
    res: &mut [f64],
    landing: &mut [f64],
) -> u32
    ensures { aim_door result contacts.new points.new res.new landing.new ≡ aim_door_of input.now contacts.old points.old spot_x spot_z distance forward downward res.old landing.old }
{
    let Some(landing) = landing.as_mut_array::<10>() else {
        return u32::from(Refusal::LentLength);
    };
    let target = Target {
        x: spot_x,
        z: spot_z,
        distance,
    };
    let grid = Grid { forward, downward };
    let found = aim_door::aim_into(input, &target, grid, contacts, points, landing);
    let answer = aim_answer(&found);
    write_result(res, answer, &settled_of(&found));
    answer
}

// Pairs, heard only, computed only; 0 on a refusal.
fn total_numbers(heard: &Result<Totals, Refusal>) -> [f64; 3]
    ensures { result ≡ total_fields (heard_by heard.now) }
{
    match heard {
        Ok(t) => [
            fields::whole(t.pairs as u64),
            fields::whole(t.heard_only as u64),
            fields::whole(t.computed_only as u64),
        ],
        Err(_) => [fields::whole(0); 3],
    }
}

#[unsafe(no_mangle)]
pub extern "C" fn dimple_listen(
    heard: &[f64],
    contacts: &[f64],
    count: u64,
    tolerance: f64,
    marks: &mut [u8],
    totals: &mut [f64],
) -> u32
    ensures { listen_door result marks.new totals.new ≡ listen_door_of heard.now contacts.now count tolerance marks.old totals.old }
{
    let Some(totals) = totals.as_mut_array::<3>() else {
        return u32::from(Refusal::LentLength);
    };
    let heard = listen::listen(heard, contacts, count, tolerance, marks);
    fields::put(totals, 0, &total_numbers(&heard));
    refusal::answer(&heard)
}

// The new state and its phase; on a refusal the phase alone, 0.
fn write_step(state: &mut [f64; STATE_LENGTH], moved: &Result<Moved, Refusal>)
    ensures { (given : BallState) → door (answer_by moved.now) state.new ≡ stepped (stepped_by given moved.now) state.old }
{
    match moved {
        Ok(m) => {
            let s = m.state;
            let phase = fields::whole(u64::from(u8::from(m.phase)));
            let rec = [
                s.time, s.pos.x, s.pos.y, s.pos.z, s.vel.x, s.vel.y, s.vel.z, s.spin.x, s.spin.y, s
                    .spin
                    .z, phase,
            ];
            fields::put(state, 0, &rec);
        }
        Err(_) => fields::put(state, 10, &[0.0]),
    }
}

#[unsafe(no_mangle)]
pub extern "C" fn dimple_step(sheet: &[u8], physics: &[f64], ball: &[f64], state: &mut [f64]) -> u32
    ensures { door result state.new ≡ step_door_of sheet.now physics.now ball.now state.old }
{
    let Some(physics) = physics.as_array::<3>() else {
        return u32::from(Refusal::LentLength);
    };
    let Some(ball) = ball.as_array::<12>() else {
        return u32::from(Refusal::LentLength);
    };
    let Some(state) = state.as_mut_array() else {
        return u32::from(Refusal::LentLength);
    };
    let s = fields::state_at(state, 0);
    let b = fields::ball_at(ball, 0);
    let moved = ground::step(sheet, physics[0], physics[1], physics[2], &b, &s);
    write_step(state, &moved);
    refusal::answer(&moved)
}

// The new state; on a refusal nothing.
fn write_impact(state: &mut [f64; 10], out: &Result<BallState, Refusal>)
    ensures { (given : BallState) → door (answer_by out.now) state.new ≡ struck (struck_by given out.now) state.old }
{
    match out {
        Ok(after) => fields::put_state(state, 0, *after),
        Err(_) => {}
    }
}

#[unsafe(no_mangle)]
pub extern "C" fn dimple_impact(sheet: &[u8], ball: &[f64], state: &mut [f64]) -> u32
    ensures { door result state.new ≡ impact_door_of sheet.now ball.now state.old }
{
    let Some(ball) = ball.as_array::<12>() else {
        return u32::from(Refusal::LentLength);
    };
    let Some(state) = state.as_mut_array() else {
        return u32::from(Refusal::LentLength);
    };
    let s = fields::state_at(state, 0);
    let b = fields::ball_at(ball, 0);
    let out = ground::impact(sheet, &b, &s);
    write_impact(state, &out);
    refusal::answer(&out)
}

// The height, +0 where there is none.
fn write_height(height: &mut [f64; 1], found: &Result<f64, Refusal>)
    ensures { height.new ≡ written height.old 0 ((height_by found.now).height ∷ []) }
{
    match found {
        Ok(y) => fields::put(height, 0, &[*y]),
        Err(_) => fields::put(height, 0, &[0.0]),
    }
}

#[unsafe(no_mangle)]
pub extern "C" fn dimple_height(sheet: &[u8], x: f64, z: f64, height: &mut [f64]) -> u32
    ensures { door result height.new ≡ height_door_of sheet.now x z height.old }
{
    let Some(height) = height.as_mut_array() else {
        return u32::from(Refusal::LentLength);
    };
    let h = course::height(sheet, x, z);
    write_height(height, &h);
    refusal::answer(&h)
}

// ---- the board, as doubles

// A new board; where the pin is refused, an empty one with its pin at 0.
fn new_in(pin_x: f64, pin_z: f64, board: &mut [f64]) -> Result<(), Refusal>
    ensures { door (answer_by result) board.new ≡ new_door_of pin_x pin_z board.old }
{
    let Some(list) = board.as_mut_array() else {
        return Err(Refusal::LentLength);
    };
    match Board::new(pin_x, pin_z) {
        Ok(b) => {
            layout::write_board(list, &b);
            Ok(())
        }
        Err(refusal) => {
            layout::write_board(list, &Board::empty(0.0, 0.0));
            Err(refusal)
        }
    }
}

#[unsafe(no_mangle)]
pub extern "C" fn dimple_board_new(pin_x: f64, pin_z: f64, board: &mut [f64]) -> u32
    ensures { door result board.new ≡ new_door_of pin_x pin_z board.old }
{
    refusal::answer(&new_in(pin_x, pin_z, board))
}

// An entry as numbers, as dimple_board_enter is handed it.
#[derive(Clone, Copy)]
struct SentEntry {
    bay: u32,
    shot: u32,
    termination: u32,
    contacts: u32,
    x: f64,
    z: f64,
}

// One entry more on a board that the doubles are; NoTermination for a number that is no termination's. Where it is refused, nothing is written.
fn enter_sent(board: &mut [f64; layout::BOARD_LENGTH], sent: SentEntry) -> Result<(), Refusal>
    ensures { door (answer_by result) board.new ≡ entered (sent_of (board_at board.old) (sent_by sent)) board.old }
{
    let termination = layout::end_of(sent.termination)?;
    let mut b = layout::board_at(board);
    b.enter(Entry {
        shot: sent.shot,
        bay: sent.bay,
        termination,
        contacts: sent.contacts,
        x: sent.x,
        z: sent.z,
    })?;
    layout::write_board(board, &b);
    Ok(())
}

// Tests the length and the doubles, and enters.
fn enter_in(board: &mut [f64], sent: SentEntry) -> Result<(), Refusal>
    ensures { door (answer_by result) board.new ≡ enter_door_of board.old (sent_by sent) }
{
    let Some(list) = board.as_mut_array() else {
        return Err(Refusal::LentLength);
    };
    if !layout::board_ok(list) {
        return Err(Refusal::NotHeld);
    }
    enter_sent(list, sent)
}

#[unsafe(no_mangle)]
pub extern "C" fn dimple_board_enter(
    board: &mut [f64],
    bay: u32,
    shot: u32,
    termination: u32,
    contacts: u32,
    x: f64,
    z: f64,
) -> u32
    ensures { door result board.new
        ≡ enter_door_of board.old (record { bay = bay; shot = shot; termination = termination; contacts = contacts; x = x; z = z }) }
{
    let sent = SentEntry {
        bay,
        shot,
        termination,
        contacts,
        x,
        z,
    };
    refusal::answer(&enter_in(board, sent))
}

// The shot's number at the place; 0 where there is none.
fn place_in(board: &[f64], place: u64, shot: &mut [f64]) -> Result<(), Refusal>
    ensures { door (answer_by result) shot.new ≡ place_door_of board.now place shot.old }
{
    let Some(list) = board.as_array() else {
        return Err(Refusal::LentLength);
    };
    let Some(shot) = shot.as_mut_array::<1>() else {
        return Err(Refusal::LentLength);
    };
    if !layout::board_ok(list) {
        return Err(Refusal::NotHeld);
    }
    match layout::board_at(list).place(place as usize) {
        Ok(number) => {
            fields::put(shot, 0, &[fields::whole(number as u64)]);
            Ok(())
        }
        Err(refusal) => {
            fields::put(shot, 0, &[fields::whole(0)]);
            Err(refusal)
        }
    }
}

#[unsafe(no_mangle)]
pub extern "C" fn dimple_board_place(board: &[f64], place: u64, shot: &mut [f64]) -> u32
    ensures { door result shot.new ≡ place_door_of board.now place shot.old }
{
    refusal::answer(&place_in(board, place, shot))
}

// ---- the shelf, as 368 doubles: 16 places of a name's length, its 12 bytes and a state

#[unsafe(no_mangle)]
pub extern "C" fn dimple_shelf_new(shelf: &mut [f64]) -> u32
    ensures { answered result shelf.new ≡ shelf_new_door_of shelf.old }
{
    refusal::answer(&shelf_layout::new_in(shelf))
}

#[unsafe(no_mangle)]
pub extern "C" fn dimple_shelf_save(shelf: &mut [f64], name: &[u8], state: &[f64]) -> u32
    ensures { answered result shelf.new ≡ shelf_save_door_of shelf.old name.now state.now }
{
    refusal::answer(&shelf_layout::save_in(shelf, name, state))
}

#[unsafe(no_mangle)]
pub extern "C" fn dimple_shelf_return(shelf: &[f64], name: &[u8], state: &mut [f64]) -> u32
    ensures { answered result state.new ≡ shelf_return_door_of shelf.now name.now state.old }
{
    refusal::answer(&shelf_layout::return_in(shelf, name, state))
}

#[unsafe(no_mangle)]
pub extern "C" fn dimple_shelf_drop(shelf: &mut [f64], name: &[u8]) -> u32
    ensures { answered result shelf.new ≡ shelf_drop_door_of shelf.old name.now }
{
    refusal::answer(&shelf_layout::drop_in(shelf, name))
}
