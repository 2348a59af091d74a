// Which listed patch a spot is in: by trying each, or by an index of the patches.
#![tactic(auto)]

ghost use Rattle.std.specs.Prelude.{◌≡◌, true, not, T, ℕ, ◌+◌, ◌-◌, ◌*◌, ◌≤◌, ◌<◌, min, slice_index};
ghost use Rattle.std.specs.Float.{binary64};
ghost use Rattle.std.specs.Float.Ieee.{nan_bits};
ghost use Rattle.sheet.specs.Sheet.{covers, surfaces, patches};
ghost use Rattle.index.specs.Index.{few, Marks, reaches, cut, bits_of, spread_of, cuts_in, SameCuts, strip_of, is_guessed, Indexed, Row, Ready, Finds, FindsPatch, axis_number};
ghost use Rattle.index.specs.Index.{edge, in_box, encloses, block, Around, Numbers, Boxed, with_box, SameElsewhere};

use sheet::Sheet;

// Up to as many patches, six blocks of eight, have boxes and no marks: docs/SPEED.md has the measurement.
const FEW: usize = 48;

// The words of an index: 256 of marks, and 34 cuts as bits. Where there are few patches, the first 24 are the edges of six boxes, as bits. One array
// and no struct of two: the definitions of the index speak of one list, which a Model would have to put together again.
pub const INDEX_WORDS: usize = 290;

// The axis along which columns or rows are numbered.
#[derive(Clone, Copy)]
enum Axis {
    X = 0,
    Z = 1,
}

impl Axis {
    fn number(self) -> usize
        ensures number { result ≡ axis_number self }
        ensures few { result < 2 }
    {
        self as usize
    }
}

// Whether the spot is in the patch that is record i.
#[tactic(auto, unfolding(sheet::specs::Sheet::covers))]
fn spot_in(sheet: &Sheet, i: usize, x: f64, z: f64) -> bool
    requires { (surfaces sheet.now ≤ i) × (i < surfaces sheet.now + patches sheet.now) }
    ensures { result ≡ covers sheet.now x z i }
{
    let x_lo = sheet.patch_number(i, 0);
    let x_hi = sheet.patch_number(i, 1);
    let z_lo = sheet.patch_number(i, 2);
    let z_hi = sheet.patch_number(i, 3);
    number::within(x_lo, x_hi, x) & number::within(z_lo, z_hi, z)
}

// The first of the records from `from` to before `end` with the spot in it: each is tried. A `find` over the range takes an eighth more instructions
// for each.
fn find_between(sheet: &Sheet, from: usize, end: usize, x: f64, z: f64) -> Option<usize>
    requires records { (surfaces sheet.now ≤ from) × (end ≤ surfaces sheet.now + patches sheet.now) }
    requires order { from ≤ end }
    ensures { Finds (covers sheet.now x z) (end - from) from result }
{
    for i in from..end {
        if spot_in(sheet, i, x, z) {
            return Some(i);
        }
    }
    None
}

// The first patch with the spot in it: all are tried.
pub fn find_patch(sheet: &Sheet, x: f64, z: f64) -> Option<usize>
    ensures { FindsPatch sheet.now x z result }
{
    let from = sheet.surfaces();
    find_between(sheet, from, from + sheet.patches(), x, z)
}

// Where block b of eight patches begins.
fn block_start(sheet: &Sheet, b: usize) -> usize
    requires { b ≤ 6 }
    ensures { result ≡ block sheet.now b }
{
    sheet.surfaces() + (8 * b).min(sheet.patches())
}

// An edge of a box: a word that is known to be no NaN.
fn edge_at(index: &[u64; INDEX_WORDS], k: usize) -> f64
    requires word { k < 24 }
    requires number { T (not (nan_bits binary64 (slice_index index.now k))) }
    ensures { result ≡ edge index.now k }
{
    f64::from_bits(index[k])
}

// Whether the spot is in the box of block b.
#[tactic(auto, unfolding(crate::specs::Index::in_box))]
fn in_box(index: &[u64; INDEX_WORDS], b: usize, x: f64, z: f64) -> bool
    requires block { b < 6 }
    requires numbers { Numbers index.now b }
    ensures { result ≡ in_box index.now b x z }
{
    let in_x = number::within(edge_at(index, 4 * b), edge_at(index, 4 * b + 1), x);
    let in_z = number::within(edge_at(index, 4 * b + 2), edge_at(index, 4 * b + 3), z);
    in_x & in_z
}

// The first patch with the spot in it, where there are few: a block is passed over if the spot is not in its box.
fn find_boxed(sheet: &Sheet, index: &[u64; INDEX_WORDS], x: f64, z: f64) -> Option<usize>
    requires few { patches sheet.now ≤ few }
    requires boxes { Boxed sheet.now index.now }
    ensures { FindsPatch sheet.now x z result }
{
    // Not by `block_start`, with which a look takes more instructions.
    let count = sheet.surfaces();
    let n = sheet.patches();
    for b in 0..n.div_ceil(8) {
        if !in_box(index, b, x, z) {
            continue;
        }
        let from = count + 8 * b;
        let end = (from + 8).min(count + n);
        if let Some(i) = find_between(sheet, from, end, x, z) {
            return Some(i);
        }
    }
    None
}

// The bits of the records from `from` to before `end` that reach into lo to hi along the axis: bit k is that of from + k.
fn mark(sheet: &Sheet, axis: Axis, lo: f64, hi: f64, from: usize, end: usize) -> u64
    requires records { (surfaces sheet.now ≤ from) × (end ≤ surfaces sheet.now + patches sheet.now) }
    requires few { (from ≤ end) × (end ≤ from + 64) }
    ensures { Marks (reaches sheet.now (axis_number axis) lo hi) result (end - from) from }
{
    let d = axis.number();
    let mut m = 0u64;
    for j in (from..end).rev() {
        let reaches = (lo <= sheet.patch_number(j, 2 * d + 1))
            & (sheet.patch_number(j, 2 * d) <= hi);
        m = m * 2 + u64::from(reaches);
    }
    m
}

// The first of the records from `from` to before `end` with the spot in it, where each with the spot in it has its bit set in `mask`.
fn first_marked(sheet: &Sheet, mask: u64, from: usize, end: usize, x: f64, z: f64) -> Option<usize>
    requires records { (surfaces sheet.now ≤ from) × (end ≤ surfaces sheet.now + patches sheet.now) }
    requires few { (from ≤ end) × (end ≤ from + 64) }
    requires marks { Marks (covers sheet.now x z) mask (end - from) from }
    ensures { Finds (covers sheet.now x z) (end - from) from result }
{
    let mut m = mask;
    let mut j = from;
    // From set bit to set bit; a `for` would test all 64.
    while m != 0 {
        let t = u64::trailing_zeros(m) as usize;
        if end - j <= t {
            return None;
        }
        j += t;
        m = m >> t;
        if spot_in(sheet, j, x, z) {
            return Some(j);
        }
        m = m / 2;
        j += 1;
    }
    None
}

// Where word w of the marks begins.
fn word_start(sheet: &Sheet, w: usize) -> usize
    requires { w ≤ 8 }
    ensures { result ≡ surfaces sheet.now + min (64 * w) (patches sheet.now) }
{
    sheet.surfaces() + (64 * w).min(sheet.patches())
}

fn cut_at(index: &[u64; INDEX_WORDS], j: usize) -> f64
    requires { j < 34 }
    ensures { result ≡ cut index.now j }
{
    octets::float_of(index[256 + j])
}

// A column or a row whose cuts are likely to have x between them.
fn strip_of(index: &[u64; INDEX_WORDS], axis: Axis, x: f64) -> usize
    ensures few { result < 16 }
    ensures strip { result ≡ strip_of index.now (axis_number axis) x }
{
    let d = axis.number();
    let mut c = 0;
    for k in (0..4usize).rev() {
        let step = 1usize << k;
        if cut_at(index, 17 * d + c + step) <= x {
            c += step;
        }
    }
    c
}

// Whether a look at the spot needs no scan: the column and the row that are guessed have the spot. How often that is, is not proved: `compare speed` counts it.
#[tactic(auto, unfolding(crate::specs::Index::is_guessed))]
pub fn is_guessed(index: &[u64; INDEX_WORDS], x: f64, z: f64) -> bool
    ensures { result ≡ is_guessed index.now x z }
{
    let c = strip_of(index, Axis::X, x);
    let e = strip_of(index, Axis::Z, z);
    let in_column = number::within(cut_at(index, c), cut_at(index, c + 1), x);
    let in_row = number::within(cut_at(index, 17 + e), cut_at(index, 17 + e + 1), z);
    in_column & in_row
}

// The first patch with the spot in it, by the words of marks that begin at p and at q.
fn find_marked(
    sheet: &Sheet,
    index: &[u64; INDEX_WORDS],
    p: usize,
    q: usize,
    x: f64,
    z: f64,
) -> Option<usize>
    requires words { (p ≤ 248) × (q ≤ 248) }
    requires row { Row sheet.now (covers sheet.now x z) index.now p × Row sheet.now (covers sheet.now x z) index.now q }
    ensures { FindsPatch sheet.now x z result }
{
    for w in 0..sheet.patches().div_ceil(64) {
        let from = word_start(sheet, w);
        let end = word_start(sheet, w + 1);
        if let Some(i) = first_marked(sheet, index[p + w] & index[q + w], from, end, x, z) {
            return Some(i);
        }
    }
    None
}

// The same by the index. Where the spot is not in the column or the row that was guessed, all patches are tried.
fn find_indexed(sheet: &Sheet, index: &[u64; INDEX_WORDS], x: f64, z: f64) -> Option<usize>
    requires { Indexed sheet.now index.now }
    ensures { FindsPatch sheet.now x z result }
{
    let c = strip_of(index, Axis::X, x);
    if !number::within(cut_at(index, c), cut_at(index, c + 1), x) {
        return find_patch(sheet, x, z);
    }
    let e = strip_of(index, Axis::Z, z);
    if !number::within(cut_at(index, 17 + e), cut_at(index, 17 + e + 1), z) {
        return find_patch(sheet, x, z);
    }
    find_marked(sheet, index, 8 * c, 128 + 8 * e, x, z)
}

// The first patch with the spot in it.
pub fn find(sheet: &Sheet, index: &[u64; INDEX_WORDS], x: f64, z: f64) -> Option<usize>
    requires { Ready sheet.now index.now }
    ensures { FindsPatch sheet.now x z result }
{
    if sheet.patches() <= FEW {
        find_boxed(sheet, index, x, z)
    } else {
        find_indexed(sheet, index, x, z)
    }
}

// The words of marks of every column and row, by the cuts that are there.
fn fill_marks(sheet: &Sheet, index: &mut [u64; INDEX_WORDS])
    ensures marks { Indexed sheet.now index.new }
    ensures cuts { SameCuts index.new index.old }
{
    for k in 0..256 {
        let axis = if k < 128 { Axis::X } else { Axis::Z };
        let c = 17 * (k / 128) + k / 8 % 16;
        let lo = cut_at(index, c);
        let hi = cut_at(index, c + 1);
        let from = word_start(sheet, k % 8);
        let end = word_start(sheet, k % 8 + 1);
        index[k] = mark(sheet, axis, lo, hi, from, end);
    }
}

// The bits of a double; 0 for a NaN, since a word of the index holds some number in any case.
#[tactic(auto, unfolding(crate::specs::Index::bits_of))]
fn bits_of(x: f64) -> u64
    ensures bits { result ≡ bits_of x }
    ensures number { T (not (nan_bits binary64 result)) }
{
    if x == x { f64::to_bits(x) } else { 0 }
}

// Writes 17 cuts, evenly over the edges along one axis. No look depends on them: it tests that the spot is between its two.
fn spread(sheet: &Sheet, axis: Axis, index: &mut [u64; INDEX_WORDS])
    ensures { index.new ≡ spread_of sheet.now (axis_number axis) index.old }
{
    let d = axis.number();
    let count = sheet.surfaces();
    let mut lo = 1000000.0;
    let mut hi = -1000000.0;
    for i in count..count + sheet.patches() {
        lo = number::min(lo, sheet.patch_number(i, 2 * d));
        hi = number::max(hi, sheet.patch_number(i, 2 * d + 1));
    }
    let step = (hi - lo) / 16.0;
    let b = 256 + 17 * d;
    let mut at = lo;
    index[b] = bits_of(-1000000.0);
    for k in 1..16 {
        at = at + step;
        index[b + k] = bits_of(at);
    }
    index[b + 16] = bits_of(1000000.0);
}

// The edges of a box.
#[derive(Clone, Copy)]
struct Edges {
    x_lo: f64,
    x_hi: f64,
    z_lo: f64,
    z_hi: f64,
}

// The smallest rectangle around the patches that are the records from `from` to before `end`. No look depends on it: `is_around` tests what was
// written.
fn box_of_block(sheet: &Sheet, from: usize, end: usize) -> Edges
    requires { (surfaces sheet.now ≤ from) × (end ≤ surfaces sheet.now + patches sheet.now) }
{
    let mut edges = Edges {
        x_lo: f64::INFINITY,
        x_hi: f64::NEG_INFINITY,
        z_lo: f64::INFINITY,
        z_hi: f64::NEG_INFINITY,
    };
    for j in from..end {
        edges = Edges {
            x_lo: number::min(edges.x_lo, sheet.patch_number(j, 0)),
            x_hi: number::max(edges.x_hi, sheet.patch_number(j, 1)),
            z_lo: number::min(edges.z_lo, sheet.patch_number(j, 2)),
            z_hi: number::max(edges.z_hi, sheet.patch_number(j, 3)),
        };
    }
    edges
}

// Writes the box of block b.
#[tactic(auto, unfolding(crate::specs::Index::with_box))]
fn write_edges(index: &mut [u64; INDEX_WORDS], b: usize, edges: Edges)
    requires { b < 6 }
    ensures written { index.new ≡ with_box index.old b edges }
    ensures numbers { Numbers index.new b }
{
    index[4 * b] = bits_of(edges.x_lo);
    index[4 * b + 1] = bits_of(edges.x_hi);
    index[4 * b + 2] = bits_of(edges.z_lo);
    index[4 * b + 3] = bits_of(edges.z_hi);
}

// Whether the patch that is record i lies in the box of block b.
#[tactic(auto, unfolding(crate::specs::Index::encloses))]
fn encloses(sheet: &Sheet, index: &[u64; INDEX_WORDS], b: usize, i: usize) -> bool
    requires block { b < 6 }
    requires numbers { Numbers index.now b }
    requires record { (surfaces sheet.now ≤ i) × (i < surfaces sheet.now + patches sheet.now) }
    ensures { result ≡ encloses sheet.now index.now b i }
{
    (edge_at(index, 4 * b) <= sheet.patch_number(i, 0))
        & (sheet.patch_number(i, 1) <= edge_at(index, 4 * b + 1))
        & (edge_at(index, 4 * b + 2) <= sheet.patch_number(i, 2))
        & (sheet.patch_number(i, 3) <= edge_at(index, 4 * b + 3))
}

// Whether each patch from record `from` to before `end` lies in the box of block b.
fn is_around(sheet: &Sheet, index: &[u64; INDEX_WORDS], b: usize, from: usize, end: usize) -> bool
    requires block { b < 6 }
    requires numbers { Numbers index.now b }
    requires records { (surfaces sheet.now ≤ from) × (end ≤ surfaces sheet.now + patches sheet.now) }
    ensures { result ≡ true → Around sheet.now index.now b from end }
{
    for k in from..end {
        if !encloses(sheet, index, b, k) {
            return false;
        }
    }
    true
}

// The box of block b: the smallest rectangle around its patches. If that failed the test, every spot would be in the box, and each patch tried.
fn make_box(sheet: &Sheet, index: &mut [u64; INDEX_WORDS], b: usize)
    requires { b < 6 }
    ensures around { Around sheet.now index.new b (block sheet.now b) (block sheet.now (b + 1)) }
    ensures numbers { Numbers index.new b }
    ensures elsewhere { SameElsewhere index.new index.old b }
{
    let from = block_start(sheet, b);
    let end = block_start(sheet, b + 1);
    write_edges(index, b, box_of_block(sheet, from, end));
    if !is_around(sheet, index, b, from, end) {
        let everywhere = Edges {
            x_lo: f64::NEG_INFINITY,
            x_hi: f64::INFINITY,
            z_lo: f64::NEG_INFINITY,
            z_hi: f64::INFINITY,
        };
        write_edges(index, b, everywhere);
    }
}

// The boxes of few patches.
fn fill_boxes(sheet: &Sheet, index: &mut [u64; INDEX_WORDS])
    ensures boxes { Boxed sheet.now index.new }
    ensures cuts { SameCuts index.new index.old }
{
    for b in 0..6 {
        make_box(sheet, index, b);
    }
}

// Makes the index of an accepted sheet. Few patches have boxes alone.
pub fn make_index(sheet: &Sheet, index: &mut [u64; INDEX_WORDS])
    ensures ready { Ready sheet.now index.new }
    ensures cuts { SameCuts index.new (cuts_in sheet.now index.old) }
{
    if sheet.patches() <= FEW {
        fill_boxes(sheet, index);
        return;
    }
    spread(sheet, Axis::X, index);
    spread(sheet, Axis::Z, index);
    fill_marks(sheet, index);
}
