// A board as doubles: the pin's x and z, the count, then 256 entries, each shot, bay, termination, contacts, x, z.
#![tactic(auto)]

ghost use Rattle.std.specs.Prelude.{◌≡◌, ◌++◌, take};
ghost use Rattle.layout.specs.Layout.{termination_of, least_at, entry_ok, entry_at};
ghost use Rattle.layout.specs.Layout.{entries_ok, entries_at, board_ok, board_at, entry_fields, entries_fields, board_fields};
ghost use Rattle.layout.specs.Sent.{end_of};

use board::{Board, Entry};
use fields::{is_whole, nat_of};
use refusal::Refusal;
use state::Termination;

// The doubles of an entry.
const WIDTH: usize = 6;
// The doubles of a board.
pub const BOARD_LENGTH: usize = 1539;

// The termination of a number in an entry. An Option, since a 0 there is no termination and no error.
#[tactic(auto, unfolding(crate::specs::Layout::termination_of))]
pub fn termination_of(n: u32) -> Option<Termination>
    ensures { result ≡ termination_of n }
{
    match n {
        1 => Some(Termination::Rest),
        2 => Some(Termination::MaxTime),
        3 => Some(Termination::MaxImpacts),
        _ => None,
    }
}

// The termination of a run that ended, as an entry holds it: the Option is never None.
#[tactic(auto, unfolding(crate::specs::Sent::is_end, crate::specs::Layout::termination_of))]
pub fn end_of(n: u32) -> Result<Option<Termination>, Refusal>
    ensures { result ≡ end_of n }
{
    termination_of(n).map(Some).ok_or(Refusal::NoTermination)
}

// The least number of a termination at a place: an entry of the listing has ended, a place past it may be empty.
#[tactic(auto, unfolding(crate::specs::Layout::least_at))]
fn least_at(count: u32, i: usize) -> u32
    ensures { result ≡ least_at count «i» }
{
    u32::from(i < count as usize)
}

// Whether the doubles are an entry's, with a termination from `least` on.
fn entry_ok(e: &[f64; WIDTH], least: u32) -> bool
    ensures { result ≡ entry_ok e.now least 0 }
{
    is_whole(e[0], 0, 4294967295)
        & (is_whole(e[1], 0, 7)
            & (is_whole(e[2], least, 3)
                & (is_whole(e[3], 0, 4294967295)
                    & (number::within(-1000000.0, 1000000.0, e[4])
                        & number::within(-1000000.0, 1000000.0, e[5])))))
}

#[tactic(auto, unfolding(crate::specs::Layout::entry_at))]
fn entry_at(e: &[f64; WIDTH]) -> Entry
    ensures { result ≡ entry_at e.now 0 }
{
    Entry {
        shot: nat_of(e[0]),
        bay: nat_of(e[1]),
        termination: termination_of(nat_of(e[2])),
        contacts: nat_of(e[3]),
        x: e[4],
        z: e[5],
    }
}

fn entries_ok(l: &[f64; BOARD_LENGTH], count: u32) -> bool
    ensures { result ≡ entries_ok l.now count 256 }
{
    let (held, _) = l[3..].as_chunks::<WIDTH>();
    held.iter()
        .enumerate()
        .all(|(i, e)| entry_ok(e, least_at(count, i)))
}

fn entries_at(l: &[f64; BOARD_LENGTH]) -> [Entry; 256]
    ensures { result ≡ entries_at l.now 256 }
{
    let (held, _) = l[3..].as_chunks::<WIDTH>();
    std::array::from_fn(|i| entry_at(&held[i]))
}

// Whether the doubles are a board's.
pub fn board_ok(l: &[f64; BOARD_LENGTH]) -> bool
    ensures { result ≡ board_ok l.now }
{
    number::within(-100000.0, 100000.0, l[0])
        & number::within(-100000.0, 100000.0, l[1])
        & is_whole(l[2], 0, 256)
        & entries_ok(l, nat_of(l[2]))
}

#[tactic(auto, unfolding(crate::specs::Layout::board_at))]
pub fn board_at(l: &[f64; BOARD_LENGTH]) -> Board
    ensures { result ≡ board_at l.now }
{
    Board {
        pin_x: l[0],
        pin_z: l[1],
        count: nat_of(l[2]) as usize,
        entries: entries_at(l),
    }
}

fn entry_numbers(e: &Entry) -> [f64; WIDTH]
    ensures { result ≡ entry_fields e.now }
{
    [
        fields::whole(u64::from(e.shot)),
        fields::whole(u64::from(e.bay)),
        fields::whole(u64::from(state::termination_number(e.termination))),
        fields::whole(u64::from(e.contacts)),
        e.x,
        e.z,
    ]
}

// At an index: the library's as_chunks_mut says nothing of what the list holds afterwards.
fn write_entries(out: &mut [f64; BOARD_LENGTH], entries: &[Entry; 256])
    ensures { out.new ≡ take 3 out.old ++ entries_fields entries.now 256 }
{
    for i in 0..256 {
        fields::put(out, 3 + WIDTH * i, &entry_numbers(&entries[i]));
    }
}

// Writes the board over the doubles.
#[tactic(auto, unfolding(crate::specs::Layout::board_fields, fields::specs::Fields::written))]
pub fn write_board(out: &mut [f64; BOARD_LENGTH], b: &Board)
    ensures { out.new ≡ board_fields b.now }
{
    let head = [b.pin_x, b.pin_z, fields::whole(b.count as u64)];
    fields::put(out, 0, &head);
    write_entries(out, &b.entries);
}
