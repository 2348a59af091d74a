// The bay's microphones (02): the times heard, held against a run's contact times.
#![tactic(auto)]

ghost use Rattle.std.specs.Prelude.{◌≡◌, ◌+◌, ◌-◌, ◌*◌, ◌≤◌, ◌<◌, length, replicate};
ghost use Rattle.std.proofs.lemmas.List.Edits.{sets};
ghost use Rattle.listen.specs.Listen.{record_width, firsts, contact_times, time_ok, times_ok, contacts_whole, all_times_ok, tolerance_ok, refusal_of};
ghost use Rattle.listen.specs.Listen.{near as near_of, listened, heard_by, listen_of};
ghost use Rattle.refusal.specs.Refusal.{answer_by};
ghost use Rattle.listen.specs.Inner.{front_of, Walked};

use refusal::Refusal;

// The numbers of a contact in a contact list, as the crate tally has it, on which this one doesn't stand.
const CONTACT_WIDTH: usize = 20;

// What one turn of the walk marks, and the byte that stands for it in the mark list.
#[derive(Clone, Copy)]
enum Mark {
    Paired = 0,
    HeardOnly = 1,
    ComputedOnly = 2,
}

// How many pairs, times heard only and contacts computed only there are.
#[derive(Clone, Copy)]
pub struct Totals {
    pub pairs: usize,
    pub heard_only: usize,
    pub computed_only: usize,
}

// ---- tests

fn time_ok(before: f64, x: f64) -> bool
    ensures { result ≡ time_ok before x }
{
    number::within(0.0, 1000000.0, x) & !(x < before)
}

// The first double of each of n records. n stands beside the list, since C lends room for more contacts than there are.
fn times_ok(list: &[f64], width: usize, n: usize) -> bool
    requires { (0 < width) × (n * width ≤ length list.now) }
    ensures { result ≡ times_ok (firsts width n list.now) }
{
    let mut before = 0.0;
    for i in 0..n {
        let x = list[i * width];
        if !time_ok(before, x) {
            return false;
        }
        before = x;
    }
    true
}

fn contacts_whole(len: usize, n: usize) -> bool
    ensures { result ≡ contacts_whole len n }
{
    (len % CONTACT_WIDTH == 0) & (n <= len / CONTACT_WIDTH)
}

fn all_times_ok(heard: &[f64], contacts: &[f64], n: usize) -> bool
    requires { n * record_width ≤ length contacts.now }
    ensures { result ≡ all_times_ok heard.now contacts.now n }
{
    (heard.len() <= 256) & times_ok(heard, 1, heard.len()) & times_ok(contacts, CONTACT_WIDTH, n)
}

fn tolerance_ok(t: f64) -> bool
    ensures { result ≡ tolerance_ok t }
{
    number::within(0.0, 0.1, t)
}

// The first test that fails.
fn test(
    heard: &[f64],
    contacts: &[f64],
    n: usize,
    tolerance: f64,
    room: usize,
) -> Result<(), Refusal>
    ensures { answer_by result ≡ refusal_of heard.now contacts.now n tolerance room }
{
    if !contacts_whole(contacts.len(), n) {
        return Err(Refusal::ListLength);
    }
    if !all_times_ok(heard, contacts, n) {
        return Err(Refusal::Times);
    }
    if !tolerance_ok(tolerance) {
        return Err(Refusal::Tolerance);
    }
    if room < heard.len() + n {
        return Err(Refusal::MarksLength);
    }
    Ok(())
}

// ---- the walk

#[tactic(auto, unfolding(crate::specs::Listen::near))]
fn near(t: f64, h: f64, c: f64) -> bool
    ensures { result ≡ near_of t h c }
{
    number::abs(h - c) <= t
}

// Near fronts are a pair; else the earlier one stands alone.
#[tactic(auto, unfolding(crate::specs::Inner::front_of))]
fn front(t: f64, h: f64, c: f64) -> Mark
    ensures { result ≡ front_of t h c }
{
    if near(t, h, c) {
        return Mark::Paired;
    }
    if h < c {
        return Mark::HeardOnly;
    }
    Mark::ComputedOnly
}

// Marks the heard times and n contacts. A turn moves along one list or both, so no iterator counts them. Returns how many pairs there are.
fn walk(t: f64, heard: &[f64], contacts: &[f64], n: usize, marks: &mut [u8]) -> usize
    requires { (n * record_width ≤ length contacts.now) × (length heard.now + n ≤ length marks.old) }
    ensures { Walked t heard.now (contact_times n contacts.now) marks.old result marks.new }
{
    let behind = heard.len();
    let mut i = 0;
    let mut j = 0;
    let mut pairs = 0;
    while (i < behind) & (j < n) {
        let m = front(t, heard[i], contacts[j * CONTACT_WIDTH]);
        match m {
            Mark::Paired => {
                marks[i] = m as u8;
                marks[behind + j] = m as u8;
                i += 1;
                j += 1;
                pairs += 1;
            }
            Mark::HeardOnly => {
                marks[i] = m as u8;
                i += 1;
            }
            Mark::ComputedOnly => {
                marks[behind + j] = m as u8;
                j += 1;
            }
        }
    }
    marks[i..behind].fill(Mark::HeardOnly as u8);
    marks[behind + j..behind + n].fill(Mark::ComputedOnly as u8);
    pairs
}

// Holds the times heard against the times of the first `count` contacts, within a tolerance, and marks each.
pub fn listen(
    heard: &[f64],
    contacts: &[f64],
    count: u64,
    tolerance: f64,
    marks: &mut [u8],
) -> Result<Totals, Refusal>
    ensures { listened (heard_by result) marks.new ≡ listen_of heard.now contacts.now count tolerance marks.old }
{
    let n = count as usize;
    test(heard, contacts, n, tolerance, marks.len())?;
    let pairs = walk(tolerance, heard, contacts, n, marks);
    Ok(Totals {
        pairs,
        heard_only: heard.len() - pairs,
        computed_only: n - pairs,
    })
}
