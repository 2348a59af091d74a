// The course: what a look at a spot finds on an accepted sheet, looks that widen a rectangle, and the height at a spot (01, "Course sheet").
#![tactic(auto)]

ghost use Rattle.std.specs.Prelude.{◌≡◌, ◌+◌, ◌<◌, ◌≤◌};
ghost use Rattle.refusal.specs.Refusal.{answer_by};
ghost use Rattle.look.specs.Tree.{exec, did, look_tree};
ghost use Rattle.course.specs.Index.{FindsPatch};
ghost use Rattle.course.specs.Sheet.{surfaces, patches, patch_sample, plain_sample, course_of, height_by, height_of, Accepted};

use index::INDEX_WORDS;
use look::Rect;
use refusal::Refusal;
use sheet::Sheet;
use std::marker::Model;
use surface::GroundSample;
use vector::DVec3;

// The words of an index.
pub type Words = [u64; INDEX_WORDS];

// What the patch that is record i gives at the spot.
#[tactic(auto, unfolding(sheet::specs::Sheet::patch_sample))]
fn patch_sample(sheet: &Sheet, i: usize, x: f64, z: f64) -> GroundSample
    requires { (surfaces sheet.now ≤ i) × (i < surfaces sheet.now + patches sheet.now) }
    ensures { result ≡ patch_sample sheet.now x z i }
{
    let number = sheet.patch_surface(i);
    let a = sheet.patch_number(i, 5);
    let b = sheet.patch_number(i, 6);
    GroundSample {
        height: (sheet.patch_number(i, 4) + a * x) + b * z,
        normal: DVec3 {
            x: -a,
            y: 1.0,
            z: -b,
        },
        surface: sheet.surface(number),
        number: number as u64,
    }
}

// What is where no patch is.
#[tactic(auto, unfolding(sheet::specs::Sheet::plain_sample))]
fn plain_sample(sheet: &Sheet) -> GroundSample
    requires { 0 < surfaces sheet.now }
    ensures { result ≡ plain_sample sheet.now }
{
    GroundSample {
        height: 0.0,
        normal: DVec3 {
            x: 0.0,
            y: 1.0,
            z: 0.0,
        },
        surface: sheet.surface(0),
        number: 0,
    }
}

// What the course gives at the spot, where the first patch with the spot in it is known.
#[tactic(auto, unfolding(sheet::specs::Sheet::course_of))]
fn sample_of(sheet: &Sheet, found: Option<usize>, x: f64, z: f64) -> GroundSample
    requires { FindsPatch sheet.now x z found }
    ensures { result ≡ course_of sheet.now x z }
{
    // For the proof: what the sheet's type knows, that there is a surface.
    let _count = sheet.surfaces();
    match found {
        Some(i) => patch_sample(sheet, i, x, z),
        None => plain_sample(sheet),
    }
}

// An accepted sheet, and its index if it has one: without it a look tries each patch.
#[derive(Drop)]
pub struct Course<'a> {
    sheet: Sheet<'a>,
    index: Option<&'a Words>,
}

// Callers see the sheet's bytes.
impl<'a> Model for Course<'a> {
    ghost use Rattle.std.specs.Prelude.{ℕ, List};
    ghost use Rattle.std.specs.Option.{ForSome};
    ghost use Rattle.course.specs.Index.{Ready};

    ghost Value = { List ℕ };

    ghost view = { λ c. c.sheet };

    ghost invariant = { λ c. ForSome c.index (λ i. Ready c.sheet i.now) };
}

impl<'a> Course<'a> {
    // With an index, made in the given words. Of bytes that passed the tests 1 to 3: a settle makes them with the others.
    pub fn indexed(bytes: &'a [u8], words: &'a mut Words) -> Course<'a>
        requires { Accepted bytes.now }
        ensures { result ≡ bytes.now }
    {
        let sheet = Sheet::accepted(bytes);
        index::make_index(&sheet, words);
        Course {
            sheet,
            index: Some(words),
        }
    }

    // With no index, for a call that makes one or two looks.
    pub fn scanned(sheet: Sheet<'a>) -> Course<'a>
        ensures { result ≡ sheet.entry }
    {
        Course { sheet, index: None }
    }

    // The first patch with the spot in it, by the index or by trying each.
    fn find(&self, x: f64, z: f64) -> Option<usize>
        ensures { FindsPatch self.now x z result }
    {
        match self.index {
            Some(index) => index::find(&self.sheet, index, x, z),
            None => index::find_patch(&self.sheet, x, z),
        }
    }

    fn sample(&self, x: f64, z: f64) -> GroundSample
        ensures { result ≡ course_of self.now x z }
    {
        sample_of(&self.sheet, self.find(x, z), x, z)
    }

    // A look: the spot is tested, and one that passes widens the rectangle. x and z are two numbers, as in the Rust's `sample`: a spot of its own would
    // be made at each look and taken apart at once.
    pub fn look(&self, rect: &mut Rect, x: f64, z: f64) -> Option<GroundSample>
        ensures { did result rect.new ≡ exec (course_of self.now) rect.old (look_tree x z) }
    {
        if !look::spot_ok(x, z) {
            return None;
        }
        rect.widen(x, z);
        Some(self.sample(x, z))
    }
}

// The height at a spot, or the first test that fails.
#[tactic(auto, unfolding(crate::specs::Sheet::height_of))]
pub fn height(bytes: &[u8], x: f64, z: f64) -> Result<f64, Refusal>
    ensures { height_by result ≡ height_of bytes.now x z }
{
    let sheet = Sheet::checked(bytes)?;
    if !look::spot_ok(x, z) {
        return Err(Refusal::HeightSpot);
    }
    Ok(Course::scanned(sheet).sample(x, z).height)
}
