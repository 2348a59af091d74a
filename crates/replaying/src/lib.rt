// An entry of the fixed list of the reference's answers (compare/README.md, "The fixed list"): 25 words of 8 bytes, then the input's bytes.
#![tactic(auto)]

ghost use Rattle.std.specs.Prelude.{◌≡◌, ◌+◌, ◌*◌, ◌≤◌, not, ◌&&◌, map, length, ◌==◌, is_nan};
ghost use Rattle.ground.specs.Settle.{told_by};
ghost use Rattle.input.specs.Input.{settle_input_of};
ghost use Rattle.replaying.specs.Replaying.{bits_of, sums_of, count_words, doubles_of, sum_words, holds, no_nan, same_of, replayed_of};

use ground::Settled;

#[derive(Clone, Copy)]
pub enum Replayed {
    Same,
    Differs,
    Damaged,
}

// The words 23 and 24: sums over the bits of every lent double after the call, contacts, then points.
#[derive(Clone, Copy)]
struct Sums {
    a: u64,
    b: u64,
}

// The words from word i on are these.
fn same_words(entry: &[u8], i: usize, words: &[u64]) -> bool
    requires { 8 * (i + length words.now) ≤ length entry.now }
    ensures { result ≡ holds entry.now i words.now }
{
    for (k, w) in words.iter().enumerate() {
        if *w != input::whole(entry, i + k) {
            return false;
        }
    }
    true
}

// The bits of v. Those of a NaN are free, and all ones stand for them; the list holds no NaN.
#[tactic(auto, unfolding(crate::specs::Replaying::bits_of))]
fn bits(v: f64) -> u64
    ensures { result ≡ bits_of v }
{
    if v.is_nan() { u64::MAX } else { v.to_bits() }
}

fn same_double(v: f64, expected: u64) -> bool
    ensures { result ≡ (not (is_nan v) && bits_of v == expected) }
{
    !v.is_nan() & (bits(v) == expected)
}

// The words from word i on are the bits of these doubles, and none is a NaN.
fn same_doubles(entry: &[u8], i: usize, doubles: &[f64]) -> bool
    requires { 8 * (i + length doubles.now) ≤ length entry.now }
    ensures { result ≡ (no_nan doubles.now && holds entry.now i (map bits_of doubles.now)) }
{
    for (k, v) in doubles.iter().enumerate() {
        if !same_double(*v, input::whole(entry, i + k)) {
            return false;
        }
    }
    true
}

// The words 3 to 8.
fn same_counts(head: &[u8; 200], s: &Settled) -> bool
    ensures { result ≡ holds head.now 3 (count_words (told_by s.now)) }
{
    let counts = [
        refusal::answer(&s.outcome) as u64,
        u64::from(state::termination_number(s.outcome.ok())),
        s.contacts as u64,
        s.points as u64,
        s.steps,
        s.evaluations,
    ];
    same_words(head, 3, &counts)
}

// The words 9 to 22: the final state and the rectangle.
fn same_end(head: &[u8; 200], s: &Settled) -> bool
    ensures { result ≡ (no_nan (doubles_of (told_by s.now)) && holds head.now 9 (map bits_of (doubles_of (told_by s.now)))) }
{
    same_doubles(head, 9, &fields::state_numbers(&s.rest)) & same_doubles(head, 19, &s.rect.sides())
}

// For each double of bits w: a = a + w, then b = b + a, both modulo 2^64.
fn add_list(sums: Sums, list: &[f64]) -> Sums
    ensures { result ≡ sums_of sums list.now }
{
    let mut s = sums;
    for v in list {
        s.a = s.a.wrapping_add(bits(*v));
        s.b = s.b.wrapping_add(s.a);
    }
    s
}

// The words 23 and 24.
fn same_lists(head: &[u8; 200], contacts: &[f64], points: &[f64]) -> bool
    ensures { result ≡ holds head.now 23 (sum_words contacts.now points.now) }
{
    let sums = add_list(add_list(Sums { a: 0, b: 0 }, contacts), points);
    same_words(head, 23, &[sums.a, sums.b])
}

// Settles the entry's input with these lists lent, and compares everything that the call gives.
fn gives_same(head: &[u8; 200], input: &[u8], contacts: &mut [f64], points: &mut [f64]) -> bool
    ensures { result ≡ same_of head.now (settle_input_of input.now contacts.old points.old) }
{
    let s = input::settle_input(input, false, contacts, points);
    same_counts(head, &s) & same_end(head, &s) & same_lists(head, contacts, points)
}

// Replays an entry, every lent double 1.0 before the call. An entry lends at most 65 contacts and 641 points.
pub fn replay_entry(entry: &[u8]) -> Replayed
    ensures { result ≡ replayed_of entry.now }
{
    let Some((head, input)) = entry.split_first_chunk::<200>() else {
        return Replayed::Damaged;
    };
    if input::whole(head, 0) != input.len() as u64 {
        return Replayed::Damaged;
    }
    let c = input::whole(head, 1);
    let p = input::whole(head, 2);
    if c > 1300 || p > 7692 {
        return Replayed::Damaged;
    }
    let mut contacts = [1.0; 1300];
    let mut points = [1.0; 7692];
    if gives_same(
        head,
        input,
        &mut contacts[..c as usize],
        &mut points[..p as usize],
    ) {
        Replayed::Same
    } else {
        Replayed::Differs
    }
}
