// The course sheet (01, "Course sheet"): its numbers, read from bytes, and the tests 1 to 3.
#![tactic(auto)]

ghost use Rattle.std.specs.Prelude.{◌≡◌, true, not, ℕ, ◌+◌, ◌*◌, ◌≤◌, ◌<◌, length, T, IfOk};
ghost use Rattle.std.specs.Float.{binary64};
ghost use Rattle.std.specs.Float.Ieee.{nan_bits};
ghost use Rattle.sheet.specs.Sheet.{surfaces, field, real, header_ok, restitution_ok, law_ok, surface_ok, edges_ok, patch_ok, all, answer_of, patches, Accepted, restitution_of, law_of, surface_of};
ghost use Rattle.sheet.specs.Accepted.{Header};
ghost use Rattle.refusal.specs.Refusal.{answer_by};

use refusal::Refusal;
use std::marker::Model;
use surface::{Restitution, RollLaw, Surface};

// Field j of record i. The tests read records before there is a Sheet, so the readers ask for room.
pub fn whole(s: &[u8], i: usize, j: usize) -> u64
    requires { (80 + 64 * i ≤ length s.now) × (j < 8) }
    ensures { result ≡ field s.now i j }
{
    octets::word(s, 16 + 8 * (8 * i + j))
}

// The same, as a double.
pub fn double(s: &[u8], i: usize, j: usize) -> f64
    requires { (80 + 64 * i ≤ length s.now) × (j < 8) }
    ensures { result ≡ real s.now i j }
{
    octets::double_at(s, 16 + 8 * (8 * i + j))
}

// A field that is known to be no NaN.
fn number(s: &[u8], i: usize, j: usize) -> f64
    requires field { (80 + 64 * i ≤ length s.now) × (j < 8) }
    requires number { T (not (nan_bits binary64 (field s.now i j))) }
    ensures { result ≡ real s.now i j }
{
    f64::from_bits(whole(s, i, j))
}

#[tactic(auto, unfolding(crate::specs::Sheet::header_ok))]
fn header_ok(sheet: &[u8]) -> bool
    ensures answer { result ≡ header_ok sheet.now }
    ensures passed { result ≡ true → Header sheet.now }
{
    if sheet.len() < 16 {
        return false;
    }
    let s = octets::half(sheet, 0) as u64;
    let at = octets::half(sheet, 4) as u64;
    let p = octets::half(sheet, 8) as u64;
    let to = octets::half(sheet, 12) as u64;
    (1 <= s)
        & (s <= 16)
        & (at == 16)
        & (p <= 512)
        & (to == 16 + 64 * s)
        & ((sheet.len() as u64) == 16 + 64 * (s + p))
}

#[tactic(auto, unfolding(crate::specs::Sheet::restitution_ok), using(crate::specs::Consts::c0, crate::specs::Consts::c1))]
fn restitution_ok(kind: u64, e: f64) -> bool
    ensures { result ≡ restitution_ok kind e }
{
    match kind {
        0 => number::within(0.0, 1.0, e),
        1 => true,
        _ => false,
    }
}

#[tactic(auto, unfolding(crate::specs::Sheet::law_ok), using(crate::specs::Consts::c001, crate::specs::Consts::c1000))]
fn law_ok(law: u64, v_ref: f64) -> bool
    ensures { result ≡ law_ok law v_ref }
{
    match law {
        0 => true,
        1 | 2 => number::within(0.01, 1000.0, v_ref),
        _ => false,
    }
}

// The restitution of a kind that passed its test. A look reads a surface of a sheet that was tested once; one function for test and value would test at each look.
#[tactic(auto, unfolding(crate::specs::Sheet::restitution_of))]
fn restitution_of(kind: u64, e: f64) -> Restitution
    ensures { result ≡ restitution_of kind e }
{
    match kind {
        0 => Restitution::Constant(e),
        _ => Restitution::Penner2002,
    }
}

// The roll law of a number that passed its test; apart from it as the restitution is.
#[tactic(auto, unfolding(crate::specs::Sheet::law_of))]
fn law_of(law: u64, v_ref: f64) -> RollLaw
    ensures { result ≡ law_of law v_ref }
{
    match law {
        0 => RollLaw::Constant,
        1 => RollLaw::Quadratic { v_ref },
        _ => RollLaw::Exponential { v_ref },
    }
}

// All tests of a record are made: one branch costs less than six.
#[tactic(auto, unfolding(crate::specs::Sheet::surface_ok), using(crate::specs::Consts::c0, crate::specs::Consts::c1, crate::specs::Consts::c10))]
fn surface_ok(sheet: &[u8], i: usize) -> bool
    requires { 80 + 64 * i ≤ length sheet.now }
    ensures { result ≡ surface_ok sheet.now i }
{
    restitution_ok(whole(sheet, i, 0), double(sheet, i, 1))
        & number::within(0.0, 10.0, double(sheet, i, 2))
        & number::within(0.0, 10.0, double(sheet, i, 3))
        & law_ok(whole(sheet, i, 4), double(sheet, i, 5))
        & number::within(0.0, 10.0, double(sheet, i, 6))
        & number::within(0.0, 1.0, double(sheet, i, 7))
}

#[tactic(auto, unfolding(crate::specs::Sheet::edges_ok), using(crate::specs::Consts::c100000))]
fn edges_ok(lo: f64, hi: f64) -> bool
    ensures { result ≡ edges_ok lo hi }
{
    number::within(-100000.0, 100000.0, lo) & number::within(-100000.0, 100000.0, hi) & (lo <= hi)
}

#[tactic(auto, unfolding(crate::specs::Sheet::patch_ok), using(crate::specs::Consts::c1000, crate::specs::Consts::c4))]
fn patch_ok(sheet: &[u8], i: usize, count: u64) -> bool
    requires { (80 + 64 * i ≤ length sheet.now) × (count ≡ surfaces sheet.now) }
    ensures { result ≡ patch_ok sheet.now i }
{
    edges_ok(double(sheet, i, 0), double(sheet, i, 1))
        & edges_ok(double(sheet, i, 2), double(sheet, i, 3))
        & number::within(-1000.0, 1000.0, double(sheet, i, 4))
        & number::within(-4.0, 4.0, double(sheet, i, 5))
        & number::within(-4.0, 4.0, double(sheet, i, 6))
        & (whole(sheet, i, 7) < count)
}

fn surfaces_ok(sheet: &[u8], end: usize) -> bool
    requires { 16 + 64 * end ≤ length sheet.now }
    ensures { result ≡ all (surface_ok sheet.now) end 0 }
{
    (0..end).all(|i| surface_ok(sheet, i))
}

fn patches_ok(sheet: &[u8], count: usize, n: usize) -> bool
    requires { (16 + 64 * (count + n) ≤ length sheet.now) × (count ≡ surfaces sheet.now) }
    ensures { result ≡ all (patch_ok sheet.now) n count }
{
    (count..count + n).all(|i| patch_ok(sheet, i, count as u64))
}

// Whether the sheet passes the tests 1 to 3; if not, the first that it fails.
#[tactic(auto, unfolding(crate::specs::Sheet::answer_of))]
pub fn check_sheet(sheet: &[u8]) -> Result<(), Refusal>
    ensures { answer_by result ≡ answer_of sheet.now }
{
    if !header_ok(sheet) {
        return Err(Refusal::SheetHeader);
    }
    let count = octets::half(sheet, 0) as usize;
    let n = octets::half(sheet, 8) as usize;
    if !surfaces_ok(sheet, count) {
        return Err(Refusal::SheetSurface);
    }
    if !patches_ok(sheet, count, n) {
        return Err(Refusal::SheetPatch);
    }
    Ok(())
}

// An accepted sheet. Contracts see its bytes.
#[derive(Drop)]
pub struct Sheet<'a> {
    bytes: &'a [u8],
    surface_count: usize,
    patch_count: usize,
}

impl<'a> Model for Sheet<'a> {
    ghost use Rattle.std.specs.Prelude.{ℕ, List};
    ghost use Rattle.sheet.specs.Accepted.{Held};

    ghost Value = { List ℕ };

    ghost view = { λ a. a.bytes.now };

    ghost invariant = { λ a. Held a.bytes.now a.surface_count a.patch_count };
}

impl<'a> Sheet<'a> {
    // The sheet of these bytes, or the first of the tests 1 to 3 that they fail.
    pub fn checked(bytes: &'a [u8]) -> Result<Self, Refusal>
        ensures answer { answer_by result ≡ answer_of bytes.now }
        ensures sheet { IfOk result (λ s. s ≡ bytes.now) }
    {
        check_sheet(bytes)?;
        Ok(Sheet::accepted(bytes))
    }

    // Of bytes that passed the tests 1 to 3. A settle and an aim make the tests with those of their other arguments, and the course once all have passed.
    pub fn accepted(bytes: &'a [u8]) -> Self
        requires { Accepted bytes.now }
        ensures { result ≡ bytes.now }
    {
        Sheet {
            bytes,
            surface_count: octets::half(bytes, 0) as usize,
            patch_count: octets::half(bytes, 8) as usize,
        }
    }

    // How many surfaces there are.
    pub fn surfaces(&self) -> usize
        ensures count { result ≡ surfaces self.now }
        ensures accepted { Accepted self.now }
        ensures few { (1 ≤ result) × (result ≤ 16) }
    {
        self.surface_count
    }

    // How many patches there are: they are the records from `surfaces` on.
    pub fn patches(&self) -> usize
        ensures count { result ≡ patches self.now }
        ensures accepted { Accepted self.now }
        ensures few { result ≤ 512 }
    {
        self.patch_count
    }

    // A number of the patch that is record i: an edge, the height or a slope. That record i is a patch is asked here, and in the crates index and course: it
    // speaks of the sheet and of i.
    pub fn patch_number(&self, i: usize, j: usize) -> f64
        requires patch { (surfaces self.now ≤ i) × (i < surfaces self.now + patches self.now) }
        requires number { j < 7 }
        ensures { result ≡ real self.now i j }
    {
        number(self.bytes, i, j)
    }

    // The number of the surface of the patch that is record i.
    pub fn patch_surface(&self, i: usize) -> usize
        requires patch { (surfaces self.now ≤ i) × (i < surfaces self.now + patches self.now) }
        ensures number { result ≡ field self.now i 7 }
        ensures below { result < surfaces self.now }
    {
        whole(self.bytes, i, 7) as usize
    }

    // Surface i, as held in memory.
    #[tactic(auto, unfolding(crate::specs::Sheet::surface_of))]
    pub fn surface(&self, i: usize) -> Surface
        requires { i < surfaces self.now }
        ensures { result ≡ surface_of self.now i }
    {
        Surface {
            restitution: restitution_of(whole(self.bytes, i, 0), double(self.bytes, i, 1)),
            mu_slide: number(self.bytes, i, 2),
            mu_roll: number(self.bytes, i, 3),
            roll_law: law_of(whole(self.bytes, i, 4), double(self.bytes, i, 5)),
            compliance: number(self.bytes, i, 6),
            pivot: number(self.bytes, i, 7),
        }
    }
}
