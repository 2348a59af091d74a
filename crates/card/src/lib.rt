// The printed shot card: a settle, and its contacts as lines of 60 bytes.
#![tactic(auto)]

ghost use Rattle.std.specs.Prelude.{◌≡◌, ◌+◌, ◌*◌, ◌≤◌, length};
ghost use Rattle.ground.specs.Settle.{result_of, told_by};
ghost use Rattle.input.specs.Input.{settle_input_of};
ghost use Rattle.text.specs.Text.{Fills, right_of};
ghost use Rattle.card.specs.Card.{value_of, place_at, heading_line, contact_at, lines_of, carded, card_by, card_of};
ghost use Rattle.card.specs.Inner.{Value, Place, Spot, Printable};

use ground::Settled;
use refusal::Refusal;
use state::Termination;

// k times x, rounded, at the right end of a column of w bytes.
fn put_value(page: &mut [u8], at: usize, w: usize, x: f64, k: u64) -> usize
    requires { (at + w ≤ length page.old) × Value w k x }
    ensures { Fills w page.old at (right_of w (value_of k x)) result page.new }
{
    let n = rounding::rounded(x, k);
    text::put_signed_right(page, at, w, (x < 0.0) & (0 < n), n)
}

// The three columns of a place, the three doubles after index o.
fn put_place(page: &mut [u8], at: usize, contacts: &[f64], o: usize) -> usize
    requires { (at + 42 ≤ length page.old) × Place contacts.now o }
    ensures { Fills 42 page.old at (place_at contacts.now o) result page.new }
{
    let a = put_value(page, at, 14, contacts[o + 1], 100);
    let b = put_value(page, a, 14, contacts[o + 2], 100);
    put_value(page, b, 14, contacts[o + 3], 100)
}

// The line of the contact at index i: its number is i + 1.
fn put_contact(page: &mut [u8], at: usize, contacts: &[f64], i: usize) -> usize
    requires { (at + 60 ≤ length page.old) × Spot contacts.now i }
    ensures { Fills 60 page.old at (contact_at contacts.now i) result page.new }
{
    let o = tally::CONTACT_WIDTH * i;
    let a = text::put_signed_right(page, at, 4, false, i as u64 + 1);
    let b = put_value(page, a, 11, contacts[o], 1000);
    let c = put_place(page, b, contacts, o);
    text::put(page, c, b"  \n")
}

// The lines of the first n contacts: the list that C lends has room for more.
fn put_contacts(page: &mut [u8], at: usize, contacts: &[f64], n: usize) -> usize
    requires { (at + 60 * n ≤ length page.old) × Printable contacts.now n }
    ensures { Fills (60 * n) page.old at (lines_of contacts.now n) result page.new }
{
    let mut here = at;
    for i in 0..n {
        here = put_contact(page, here, contacts, i);
    }
    here
}

// The termination's word, then spaces.
fn put_heading(page: &mut [u8], t: Option<Termination>) -> usize
    requires { 60 ≤ length page.old }
    ensures { Fills 60 page.old 0 (heading_line t) result page.new }
{
    let k = text::put_termination(page, 0, t);
    let j = text::put_blanks(page, k, 59 - k);
    text::put(page, j, b"\n")
}

// A settle, and whether the page had room for its card. Of a run that did not finish nothing is printed.
#[derive(Clone, Copy)]
pub struct ShotCard {
    pub settled: Settled,
    pub printed: Result<(), Refusal>,
}

// Settles the landing that an input holds, and prints a finished run: 30 where the page is too short for it.
pub fn card(input: &[u8], contacts: &mut [f64], points: &mut [f64], page: &mut [u8]) -> ShotCard
    ensures settled { told_by result.settled ≡ (settle_input_of input.now contacts.old points.old).settled }
    ensures card { carded (result_of (card_by result) contacts.new points.new) page.new
        ≡ card_of input.now contacts.old points.old page.old }
{
    let settled = input::settle_input(input, false, contacts, points);
    let Ok(termination) = settled.outcome else {
        return ShotCard {
            settled,
            printed: Ok(()),
        };
    };
    let n = settled.contacts;
    if page.len() < 60 * (1 + n) {
        return ShotCard {
            settled,
            printed: Err(Refusal::PageLength),
        };
    }
    let at = put_heading(page, Some(termination));
    put_contacts(page, at, contacts, n);
    ShotCard {
        settled,
        printed: Ok(()),
    }
}
