// The bounded search for a root: ground.rs, fn find_root, without its loop, which stands where the evaluation is known.
#![tactic(auto)]

ghost use Rattle.std.specs.Prelude.{◌≡◌};
ghost use Rattle.search.specs.Search.{start, inside, in_bracket, halved_if, replaced, chord, next_try, onward, narrowed};

use std::ops::ControlFlow;

// The most evaluations of a search.
pub const ROOT_MAX_ITER: u64 = 200;

// Residual accepted by the search.
const ROOT_TOL: f64 = 1e-12;

// Both ends, and the value at each.
#[derive(Clone, Copy)]
pub struct Bracket {
    pub lo: f64,
    pub f_lo: f64,
    pub hi: f64,
    pub f_hi: f64,
}

// An end of a bracket.
#[derive(Clone, Copy, PartialEq, Eq)]
pub enum End {
    Lo,
    Hi,
}

// The bracket, the next place to evaluate, and the end that was replaced last, if any.
#[derive(Clone, Copy)]
pub struct Search {
    pub bracket: Bracket,
    pub x: f64,
    pub side: Option<End>,
}

// The root found, and how many evaluations were made to find it.
#[derive(Clone, Copy)]
pub struct Root {
    pub x: f64,
    pub evaluations: u64,
}

#[tactic(auto, using(number::proofs::Steps::steps), unfolding(crate::specs::Search::start))]
pub fn start_search(b: Bracket, guess: f64) -> Search
    ensures { result ≡ start b guess }
{
    Search {
        bracket: b,
        x: guess,
        side: None,
    }
}

#[tactic(auto, using(number::proofs::Steps::steps), unfolding(crate::specs::Search::in_bracket))]
pub fn in_bracket(s: Search) -> f64
    ensures { result ≡ in_bracket s }
{
    let b = s.bracket;
    if number::within(b.lo, b.hi, s.x) {
        return s.x;
    }
    0.5 * (b.lo + b.hi)
}

#[tactic(auto, using(number::proofs::Steps::steps), unfolding(crate::specs::Search::inside))]
fn is_inside(b: Bracket, x: f64) -> bool
    ensures { result ≡ inside b x }
{
    (b.lo < x) & (x < b.hi)
}

// Halved where the same end is replaced once more (`again`): a value, and no step to choose.
#[tactic(auto, using(number::proofs::Steps::steps), unfolding(crate::specs::Search::halved_if))]
fn halved_if(again: bool, f: f64) -> f64
    ensures { result ≡ halved_if again f }
{
    if again {
        return f * 0.5;
    }
    f
}

#[tactic(auto, using(number::proofs::Steps::steps), unfolding(crate::specs::Search::replaced))]
fn replace_end(s: Search, x: f64, fx: f64) -> Bracket
    ensures { result ≡ replaced s x fx }
{
    let b = s.bracket;
    if fx > 0.0 {
        return Bracket {
            lo: x,
            f_lo: fx,
            hi: b.hi,
            f_hi: halved_if(s.side == Some(End::Lo), b.f_hi),
        };
    }
    Bracket {
        lo: b.lo,
        f_lo: halved_if(s.side == Some(End::Hi), b.f_lo),
        hi: x,
        f_hi: fx,
    }
}

#[tactic(auto, using(number::proofs::Steps::steps), unfolding(crate::specs::Search::chord))]
fn chord_of(b: Bracket) -> f64
    ensures { result ≡ chord b }
{
    if b.f_lo > b.f_hi {
        return b.lo + (b.hi - b.lo) * (b.f_lo / (b.f_lo - b.f_hi));
    }
    0.5 * (b.lo + b.hi)
}

#[tactic(auto, using(number::proofs::Steps::steps), unfolding(crate::specs::Search::next_try))]
fn next_try(b: Bracket) -> f64
    ensures { result ≡ next_try b }
{
    let x = chord_of(b);
    if is_inside(b, x) {
        return x;
    }
    0.5 * (b.lo + b.hi)
}

#[tactic(auto, using(number::proofs::Steps::steps), unfolding(crate::specs::Search::onward))]
fn go_on(b: Bracket, side: End) -> ControlFlow<f64, Search>
    ensures { result ≡ onward b side }
{
    let mid = 0.5 * (b.lo + b.hi);
    if is_inside(b, mid) {
        return ControlFlow::Continue(Search {
            bracket: b,
            x: next_try(b),
            side: Some(side),
        });
    }
    ControlFlow::Break(b.hi)
}

// Goes on with the narrowed search, or ends with the root.
#[tactic(auto, using(number::proofs::Steps::steps), unfolding(crate::specs::Search::narrowed))]
pub fn narrow(s: Search, x: f64, fx: f64) -> ControlFlow<f64, Search>
    ensures { result ≡ narrowed s x fx }
{
    if number::abs(fx) <= ROOT_TOL {
        return ControlFlow::Break(x);
    }
    let b = replace_end(s, x, fx);
    if fx > 0.0 {
        return go_on(b, End::Lo);
    }
    go_on(b, End::Hi)
}
