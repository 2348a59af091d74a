// The board: the balls of a league ranked by their distance from the pin, those at rest first.
#![tactic(auto)]

ghost use Rattle.std.specs.Prelude.{◌≡◌, ◌<◌, ◌-◌, ◌++◌, length, take, drop, position};
ghost use Rattle.refusal.specs.Refusal.{answer_by};
ghost use Rattle.board.specs.Rules.{key_of, moving, is_before, holds, one, used, answer_of};
ghost use Rattle.board.specs.Board.{listing, answered, new_by, new_of, empty_board, with_entry, enter_of, placed_by, place_of};

use refusal::Refusal;
use state::Termination;

// An entry: a shot's number and its bay, how its run ended, its count of contacts, and where its ball was then.
#[derive(Clone, Copy)]
pub struct Entry {
    pub shot: u32,
    pub bay: u32,
    pub termination: Option<Termination>,
    pub contacts: u32,
    pub x: f64,
    pub z: f64,
}

// The pin, and the first `count` of the entries, in the order of the listing. An array, since the exported functions have no heap.
#[derive(Clone, Copy)]
pub struct Board {
    pub pin_x: f64,
    pub pin_z: f64,
    pub count: usize,
    pub entries: [Entry; 256],
}

// 0 at rest, 1 still moving: a key to sort by, and no code.
#[tactic(auto, unfolding(crate::specs::Rules::moving))]
fn moving(t: Option<Termination>) -> u32
    ensures { result ≡ moving t }
{
    match t {
        Some(Termination::Rest) => 0,
        _ => 1,
    }
}

// Whether a shot number is on the list.
fn holds_shot(listed: &[Entry], shot: u32) -> bool
    ensures { result ≡ holds shot listed.now }
{
    listed.iter().any(|e| e.shot == shot)
}

// How many of the entries are the bay's.
#[tactic(auto, using(crate::proofs::Lists::used_is))]
fn used(listed: &[Entry], bay: u32) -> usize
    ensures { result ≡ used bay listed.now }
{
    listed.iter().filter(|e| e.bay == bay).count()
}

// The last entry in front, and each other one moved on by one place. One by one: the library's `rotate_right` needs C's `memmove`, which no caller of the
// exported functions had to bring.
fn last_to_front(entries: &mut [Entry])
    requires { 0 < length entries.old }
    ensures { entries.new ≡ drop (length entries.old - 1) entries.old ++ take (length entries.old - 1) entries.old }
{
    let last = entries.len() - 1;
    let mut next = entries[last];
    for i in 0..last {
        let moved = entries[i];
        entries[i] = next;
        next = moved;
    }
    entries[last] = next;
}

impl Board {
    // A board with no entry, whatever the pin.
    pub fn empty(pin_x: f64, pin_z: f64) -> Board
        ensures { result ≡ empty_board pin_x pin_z }
    {
        Board {
            pin_x,
            pin_z,
            count: 0,
            entries: [Entry {
                shot: 0,
                bay: 0,
                termination: None,
                contacts: 0,
                x: 0.0,
                z: 0.0,
            }; 256],
        }
    }

    // A board with no entry, unless the pin is beyond 100,000.
    pub fn new(pin_x: f64, pin_z: f64) -> Result<Board, Refusal>
        ensures { new_by result ≡ new_of pin_x pin_z }
    {
        if number::within(-100000.0, 100000.0, pin_x) & number::within(-100000.0, 100000.0, pin_z) {
            return Ok(Board::empty(pin_x, pin_z));
        }
        Err(Refusal::Pin)
    }

    // The entries, in the order of the listing. A Board that these functions did not make may have a count above 256.
    fn listing(&self) -> &[Entry]
        ensures { result.now ≡ listing self.now }
    {
        &self.entries[..self.count.min(256)]
    }

    // dx * dx + dz * dz
    #[tactic(auto, unfolding(crate::specs::Rules::key_of))]
    fn key(&self, e: &Entry) -> f64
        ensures { result ≡ key_of self.now.pin_x self.now.pin_z e.now }
    {
        let dx = e.x - self.pin_x;
        let dz = e.z - self.pin_z;
        dx * dx + dz * dz
    }

    // By what an entry is listed: those at rest first, then the least key, fewer contacts, the lower shot number.
    fn rank(&self, e: &Entry) -> (u32, f64, u32, u32)
        ensures { result ≡ (moving e.now.termination, key_of self.now.pin_x self.now.pin_z e.now, e.now.contacts, e.now.shot) }
    {
        (moving(e.termination), self.key(e), e.contacts, e.shot)
    }

    // Whether e is listed before f: by the order of tuples. No Ord, since keys are doubles.
    #[tactic(auto, unfolding(crate::specs::Rules::is_before, crate::specs::Rules::by_first))]
    fn is_before(&self, e: &Entry, f: &Entry) -> bool
        ensures { result ≡ is_before self.now.pin_x self.now.pin_z e.now f.now }
    {
        self.rank(e) < self.rank(f)
    }

    // The place of the first entry that e is listed before.
    fn first_after(&self, e: &Entry) -> Option<usize>
        ensures { result ≡ position (is_before self.now.pin_x self.now.pin_z e.now) (listing self.now) }
    {
        self.listing().iter().position(|f| self.is_before(e, f))
    }

    // A bay above 7, a spot beyond 1,000,000, a shot number that is there already, a bay that has used its 32 (or a board with no place left, which no
    // calls make).
    fn test(&self, e: &Entry) -> Result<(), Refusal>
        ensures { answer_by result ≡ answer_of (listing self.now) e.now }
    {
        if 7 < e.bay {
            return Err(Refusal::Bay);
        }
        if !(number::within(-1000000.0, 1000000.0, e.x)
            & number::within(-1000000.0, 1000000.0, e.z))
        {
            return Err(Refusal::EntrySpot);
        }
        let listed = self.listing();
        if holds_shot(listed, e.shot) {
            return Err(Refusal::ShotEntered);
        }
        if (32 <= used(listed, e.bay)) | (256 <= listed.len()) {
            return Err(Refusal::BayUsed);
        }
        Ok(())
    }

    // e put into the listing: behind it first, then moved to its place.
    fn insert(&mut self, e: Entry)
        requires { (length (listing self.old) ≡ self.old.count) × (self.old.count < 256) }
        ensures { self.new ≡ with_entry self.old e }
    {
        let count = self.count;
        let at = self.first_after(&e).unwrap_or(count);
        self.entries[count] = e;
        last_to_front(&mut self.entries[at..count + 1]);
        self.count = count + 1;
    }

    // One entry more; where it is turned back, the board is unchanged.
    pub fn enter(&mut self, e: Entry) -> Result<(), Refusal>
        ensures { answered (answer_by result) self.new ≡ enter_of self.old e }
    {
        self.test(&e)?;
        self.insert(e);
        Ok(())
    }

    // The shot number at a place, from 0.
    #[tactic(auto, unfolding(crate::specs::Board::place_of))]
    pub fn place(&self, at: usize) -> Result<u32, Refusal>
        ensures { placed_by result ≡ place_of self.now «at» }
    {
        let e = self.listing().get(at).ok_or(Refusal::NoEntry)?;
        Ok(e.shot)
    }
}
