// A shelf as 368 doubles, 16 places of 23, and the shelf's functions on such a list.
#![tactic(auto)]

ghost use Rattle.std.specs.Prelude.{◌≡◌, ◌+◌, ◌≤◌, map, length, take};
ghost use Rattle.refusal.specs.Refusal.{answer_by};
ghost use Rattle.fields.specs.Fields.{whole_of};
ghost use Rattle.shelf_layout.specs.Layout.{byte_of, place_at, places_at, shelf_at, are_bytes, names_ok, shelf_ok, place_fields, places_fields, Wrote};
ghost use Rattle.shelf_layout.specs.Doors.{answered, held_of, shelf_new_door_of, shelf_save_door_of, shelf_return_door_of, shelf_drop_door_of};

use fields::{is_whole, nat_of};
use refusal::Refusal;
use shelf::{Place, Shelf};

// The doubles of a place.
const PLACE_LENGTH: usize = 23;
// The doubles of a shelf.
const SHELF_LENGTH: usize = 368;

// A double without its fraction, or 0 where that is no byte.
#[tactic(auto, unfolding(crate::specs::Layout::byte_of))]
fn byte_of(x: f64) -> u8
    ensures { result ≡ byte_of x }
{
    u8::try_from(nat_of(x)).unwrap_or(0)
}

// The 13 bytes of a place's name.
fn name_at(l: &[f64; PLACE_LENGTH]) -> [u8; 13]
    ensures { result ≡ map byte_of (take 13 l.now) }
{
    std::array::from_fn(|i| byte_of(l[i]))
}

fn place_at(l: &[f64; PLACE_LENGTH]) -> Place
    ensures { result ≡ place_at l.now }
{
    Place {
        name: name_at(l),
        state: fields::state_at(l, 13),
    }
}

fn places_at(l: &[f64; SHELF_LENGTH]) -> [Place; 16]
    ensures { result ≡ places_at 16 l.now }
{
    let (held, _) = l.as_chunks::<PLACE_LENGTH>();
    std::array::from_fn(|i| place_at(&held[i]))
}

// Whether the doubles are bytes.
fn are_bytes(l: &[f64]) -> bool
    ensures { result ≡ are_bytes l.now }
{
    l.iter().all(|x| is_whole(*x, 0, 255))
}

fn names_ok(l: &[f64; SHELF_LENGTH]) -> bool
    ensures { result ≡ names_ok 16 l.now }
{
    let (held, _) = l.as_chunks::<PLACE_LENGTH>();
    held.iter().all(|p| are_bytes(&p[..13]))
}

// The shelf that the doubles are.
#[tactic(auto, unfolding(crate::specs::Layout::shelf_ok))]
fn held_in(l: &[f64; SHELF_LENGTH]) -> Result<Shelf, Refusal>
    ensures { result ≡ held_of l.now }
{
    let shelf = Shelf {
        places: places_at(l),
    };
    if names_ok(l) & shelf.is_sound() {
        return Ok(shelf);
    }
    Err(Refusal::NotHeld)
}

fn name_numbers(name: &[u8; 13]) -> [f64; 13]
    ensures { result ≡ map whole_of name.now }
{
    name.map(|b| fields::whole(u64::from(b)))
}

// At an index: the library's as_chunks_mut says nothing of what the list holds afterwards.
fn write_place(out: &mut [f64], at: usize, p: &Place)
    requires { at + 23 ≤ length out.old }
    ensures { Wrote out.old «at» (place_fields p.now) 23 out.new }
{
    fields::put(out, at, &name_numbers(&p.name));
    fields::put_state(out, at + 13, p.state);
}

// Writes a shelf's places over the doubles.
fn write_shelf(out: &mut [f64; SHELF_LENGTH], places: &[Place; 16])
    ensures { out.new ≡ places_fields places.now }
{
    for i in 0..16 {
        write_place(out, PLACE_LENGTH * i, &places[i]);
    }
}

// ---- what capi exports

pub fn new_in(shelf: &mut [f64]) -> Result<(), Refusal>
    ensures { answered (answer_by result) shelf.new ≡ shelf_new_door_of shelf.old }
{
    let Some(list) = shelf.as_mut_array() else {
        return Err(Refusal::LentLength);
    };
    write_shelf(list, &Shelf::new().places);
    Ok(())
}

pub fn save_in(shelf: &mut [f64], name: &[u8], state: &[f64]) -> Result<(), Refusal>
    ensures { answered (answer_by result) shelf.new ≡ shelf_save_door_of shelf.old name.now state.now }
{
    let Some(list) = shelf.as_mut_array() else {
        return Err(Refusal::LentLength);
    };
    if state.len() != 10 {
        return Err(Refusal::LentLength);
    }
    let mut held = held_in(list)?;
    held.save(name, &fields::state_at(state, 0))?;
    write_shelf(list, &held.places);
    Ok(())
}

// The state; +0 in each double where a shelf refuses.
pub fn return_in(shelf: &[f64], name: &[u8], state: &mut [f64]) -> Result<(), Refusal>
    ensures { answered (answer_by result) state.new ≡ shelf_return_door_of shelf.now name.now state.old }
{
    let Some(list) = shelf.as_array() else {
        return Err(Refusal::LentLength);
    };
    if state.len() != 10 {
        return Err(Refusal::LentLength);
    }
    let held = held_in(list)?;
    match held.return_to(name) {
        Ok(s) => {
            fields::put_state(state, 0, s);
            Ok(())
        }
        Err(refusal) => {
            fields::put(state, 0, &[0.0; 10]);
            Err(refusal)
        }
    }
}

pub fn drop_in(shelf: &mut [f64], name: &[u8]) -> Result<(), Refusal>
    ensures { answered (answer_by result) shelf.new ≡ shelf_drop_door_of shelf.old name.now }
{
    let Some(list) = shelf.as_mut_array() else {
        return Err(Refusal::LentLength);
    };
    let mut held = held_in(list)?;
    held.drop(name)?;
    write_shelf(list, &held.places);
    Ok(())
}
