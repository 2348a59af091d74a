// Looks at a course: the spot's test and the rectangle of the spots looked at (01, "Course sheet").
#![tactic(auto)]

ghost use Rattle.std.specs.Prelude.{◌≡◌, Some};
ghost use Rattle.look.specs.Rect.{lesser, greater, widen, spot_ok, no_rect, rect_of, sides_of};

use std::marker::Model;

// The least and greatest x and z of spots.
#[derive(Clone, Copy)]
struct Sides {
    x_lo: f64,
    x_hi: f64,
    z_lo: f64,
    z_hi: f64,
}

// The least and greatest x and z of the spots looked at so far, if there was one.
#[derive(Clone, Copy)]
pub struct Rect(Option<Sides>);

// Callers see whether there was a look, and four numbers.
impl Model for Rect {
    ghost use Rattle.look.specs.Rect.{Rect, rect_of, sides_if, given_back};

    ghost Value = { Rect };

    ghost view = { λ r. rect_of r.0 };

    ghost inverse = { λ r. record { 0 = sides_if r.seen r } };

    ghost inverse_ok = { λ r h i. record { 0 = given_back r.0 i } };
}

// These two are number's `min` and `max` without their test for a NaN, which no spot has; two functions, since each has its own comparison.
#[tactic(auto, unfolding(crate::specs::Rect::lesser))]
fn lesser_of(a: f64, x: f64) -> f64
    ensures { result ≡ lesser a x }
{
    if x < a { x } else { a }
}

#[tactic(auto, unfolding(crate::specs::Rect::greater))]
fn greater_of(a: f64, x: f64) -> f64
    ensures { result ≡ greater a x }
{
    if a < x { x } else { a }
}

// The sides with a spot in them.
#[tactic(auto, unfolding(crate::specs::Rect::widen, crate::specs::Rect::no_rect))]
fn widened(sides: Option<Sides>, x: f64, z: f64) -> Sides
    ensures { rect_of (Some result) ≡ widen (rect_of sides) x z }
{
    match sides {
        Some(s) => Sides {
            x_lo: lesser_of(s.x_lo, x),
            x_hi: greater_of(s.x_hi, x),
            z_lo: lesser_of(s.z_lo, z),
            z_hi: greater_of(s.z_hi, z),
        },
        None => Sides {
            x_lo: x,
            x_hi: x,
            z_lo: z,
            z_hi: z,
        },
    }
}

// Whether there was a look.
#[tactic(auto, unfolding(crate::specs::Rect::no_rect))]
fn any(sides: Option<Sides>) -> bool
    ensures { result ≡ (rect_of sides).seen }
{
    match sides {
        Some(_) => true,
        None => false,
    }
}

// The four numbers: with no look they are +0.
fn numbers(sides: Option<Sides>) -> [f64; 4]
    ensures { result ≡ sides_of (rect_of sides) }
{
    match sides {
        Some(s) => [s.x_lo, s.x_hi, s.z_lo, s.z_hi],
        None => [0.0, 0.0, 0.0, 0.0],
    }
}

impl Rect {
    // Before the first look.
    #[tactic(auto, unfolding(crate::specs::Rect::no_rect))]
    pub fn new() -> Rect
        ensures { result ≡ no_rect }
    {
        Rect(None)
    }

    // A spot is looked at.
    pub fn widen(&mut self, x: f64, z: f64)
        ensures { self.new ≡ widen self.old x z }
    {
        self.0 = Some(widened(self.0, x, z));
    }

    // Whether a spot was looked at.
    pub fn seen(&self) -> bool
        ensures { result ≡ self.now.seen }
    {
        any(self.0)
    }

    // The least and greatest x, then the least and greatest z.
    pub fn sides(&self) -> [f64; 4]
        ensures { result ≡ sides_of self.now }
    {
        numbers(self.0)
    }
}

#[tactic(auto, unfolding(crate::specs::Rect::spot_ok))]
pub fn spot_ok(x: f64, z: f64) -> bool
    ensures { result ≡ spot_ok x z }
{
    state::coord_ok(x) && state::coord_ok(z)
}
