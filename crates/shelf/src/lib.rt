// The shelf: up to 16 states of a ball, kept under names.
#![tactic(auto)]

ghost use Rattle.std.specs.Prelude.{◌≡◌, ◌≤◌, length, position};
ghost use Rattle.refusal.specs.Refusal.{number_of, answer_by};
ghost use Rattle.shelf.specs.Map.{is_letter, letters, name_ok, same};
ghost use Rattle.shelf.specs.Shelf.{packed, empty_place, empty_shelf, has, saved, replaced, kept, save_of, returned_by, return_of, drop_of, padded, sound_name, sound_place, sound};

use refusal::Refusal;
use state::BallState;

// The name of a free place, and no Option: C lends a place as 23 doubles, of which a length of 0 says that it is free.
const FREE: [u8; 13] = [0; 13];

// A place: a name's length and its 12 bytes, those past its length 0, and the state kept under it. A length of 0 is a free place. Arrays, since the
// exported functions have no heap.
#[derive(Clone, Copy)]
pub struct Place {
    pub name: [u8; 13],
    pub state: BallState,
}

#[derive(Clone, Copy)]
pub struct Shelf {
    pub places: [Place; 16],
}

#[tactic(auto, unfolding(crate::specs::Map::is_letter))]
fn is_letter(b: u8) -> bool
    ensures { result ≡ is_letter b }
{
    b.is_ascii_uppercase()
}

fn all_letters(bytes: &[u8]) -> bool
    ensures { result ≡ letters bytes.now }
{
    bytes.iter().all(|b| is_letter(*b))
}

fn all_zero(bytes: &[u8]) -> bool
    ensures { result ≡ padded 0 bytes.now }
{
    bytes.iter().all(|b| *b == 0)
}

// 1 to 12 bytes, each A to Z.
#[tactic(auto, unfolding(crate::specs::Map::name_ok))]
fn name_ok(name: &[u8]) -> bool
    ensures { result ≡ name_ok name.now }
{
    (1 <= name.len()) & (name.len() <= 12) & all_letters(name)
}

// The name as a place holds it.
fn pack(name: &[u8]) -> [u8; 13]
    requires { length name.now ≤ 12 }
    ensures { result ≡ packed name.now }
{
    let mut out = [0u8; 13];
    out[0] = name.len() as u8;
    out[1..name.len() + 1].copy_from_slice(name);
    out
}

fn has_name(p: &Place, name: &[u8; 13]) -> bool
    ensures { result ≡ same p.now.name name.now }
{
    p.name == *name
}

// Whether one of the places holds the name.
fn has(places: &[Place], name: &[u8; 13]) -> bool
    ensures { result ≡ has name.now places.now }
{
    places.iter().any(|p| has_name(p, name))
}

fn empty_place() -> Place
    ensures { result ≡ empty_place }
{
    Place {
        name: FREE,
        state: BallState::ZERO,
    }
}

// A length of at most 12, that many letters, and then 0.
fn name_sound(name: &[u8; 13]) -> bool
    ensures { result ≡ sound_name name.now }
{
    let n = name[0] as usize;
    if n > 12 {
        return false;
    }
    all_letters(&name[1..n + 1]) & all_zero(&name[n + 1..])
}

// Whether a place, with those after it, is one that the shelf's functions leave.
#[tactic(auto, unfolding(crate::specs::Shelf::sound_place))]
fn place_sound(p: &Place, later: &[Place]) -> bool
    ensures { result ≡ sound_place p.now later.now }
{
    if !name_sound(&p.name) {
        return false;
    }
    has_name(p, &FREE) || (state::state_ok(p.state) && !has(later, &p.name))
}

impl Shelf {
    pub fn new() -> Shelf
        ensures { result ≡ empty_shelf }
    {
        Shelf {
            places: [empty_place(); 16],
        }
    }

    // The first place that holds the name.
    fn find(&self, name: &[u8; 13]) -> Option<usize>
        ensures { result ≡ position (λ p. same p.name name.now) self.now.places }
    {
        self.places.iter().position(|p| has_name(p, name))
    }

    // q in the first place that holds the name; where there is none, the refusal.
    fn replace(&mut self, name: &[u8; 13], q: Place, none: Refusal) -> Result<(), Refusal>
        ensures { saved (answer_by result) self.new ≡ replaced self.old name.now q (number_of none) }
    {
        match self.find(name) {
            Some(at) => {
                self.places[at] = q;
                Ok(())
            }
            None => Err(none),
        }
    }

    // The state into the name's place, else into the first free one.
    fn keep(&mut self, name: [u8; 13], state: BallState) -> Result<(), Refusal>
        ensures { saved (answer_by result) self.new ≡ kept self.old name state }
    {
        let place = Place { name, state };
        if has(&self.places, &name) {
            return self.replace(&name, place, Refusal::ShelfFull);
        }
        self.replace(&FREE, place, Refusal::ShelfFull)
    }

    // The state under that name; where it is refused, the shelf is unchanged.
    #[tactic(auto, unfolding(crate::specs::Shelf::save_of))]
    pub fn save(&mut self, name: &[u8], state: &BallState) -> Result<(), Refusal>
        ensures { saved (answer_by result) self.new ≡ save_of self.old name.now state.now }
    {
        if !name_ok(name) {
            return Err(Refusal::Name);
        }
        if !state::state_ok(*state) {
            return Err(Refusal::OutOfRange);
        }
        self.keep(pack(name), *state)
    }

    // The state last saved under that name and not dropped since.
    #[tactic(auto, unfolding(crate::specs::Shelf::return_of))]
    pub fn return_to(&self, name: &[u8]) -> Result<BallState, Refusal>
        ensures { returned_by result ≡ return_of self.now name.now }
    {
        if !name_ok(name) {
            return Err(Refusal::Name);
        }
        match self.find(&pack(name)) {
            Some(at) => Ok(self.places[at].state),
            None => Err(Refusal::NotKept),
        }
    }

    // The name no more; where it is refused, the shelf is unchanged.
    #[tactic(auto, unfolding(crate::specs::Shelf::drop_of))]
    pub fn drop(&mut self, name: &[u8]) -> Result<(), Refusal>
        ensures { saved (answer_by result) self.new ≡ drop_of self.old name.now }
    {
        if !name_ok(name) {
            return Err(Refusal::Name);
        }
        self.replace(&pack(name), empty_place(), Refusal::NotKept)
    }

    // Whether the places are such as these functions leave.
    pub fn is_sound(&self) -> bool
        ensures { result ≡ sound self.now.places }
    {
        let mut rest = &self.places[..];
        // Each place with those after it, as the definition goes along the list: an iterator doesn't hand over the rest, and `all` over indices would count them.
        'places: while let Some((p, later)) = rest.split_first() {
            if !place_sound(p, later) {
                return false;
            }
            rest = later;
        }
        true
    }
}
