// Bytes written at a place: a word, a number in decimal, a word or a number right-aligned in a column, the word of a termination.
#![tactic(auto)]

ghost use Rattle.std.specs.Prelude.{◌≡◌, ◌+◌, ◌≤◌, length};
ghost use Rattle.text.specs.Text.{Adds, Puts, Fills, blanks, decimal_of, signed_of, right_of, word_of};

use state::Termination;

// Writes the word from `at` on, and gives the place after it. The page and the place stay two: a struct with a lent page in it would need a clause at
// each function that its page is still the one that was lent.
pub fn put(out: &mut [u8], at: usize, word: &[u8]) -> usize
    requires { at + length word.now ≤ length out.old }
    ensures { Adds out.old at word.now result out.new }
{
    let end = at + word.len();
    out[at..end].copy_from_slice(word);
    end
}

// Writes n in decimal. Its digits stand in an array: what prints asks for no memory.
pub fn put_number(out: &mut [u8], at: usize, n: u64) -> usize
    requires { at + 20 ≤ length out.old }
    ensures { Puts 20 out.old at (decimal_of n) result out.new }
{
    let mut digits = [0u8; 20];
    let k = io::decimal(n, &mut digits);
    put(out, at, &digits[..k])
}

// The word of a termination, `-` where there is none. Not Display: it writes into a page that is lent, at a place.
pub fn put_termination(out: &mut [u8], at: usize, t: Option<Termination>) -> usize
    requires { at + 7 ≤ length out.old }
    ensures { Puts 7 out.old at (word_of t) result out.new }
{
    let Some(ended) = t else {
        return put(out, at, b"-");
    };
    match ended {
        Termination::Rest => put(out, at, b"rest"),
        Termination::MaxTime => put(out, at, b"time"),
        Termination::MaxImpacts => put(out, at, b"impacts"),
    }
}

// Writes n spaces.
pub fn put_blanks(out: &mut [u8], at: usize, n: usize) -> usize
    requires { at + n ≤ length out.old }
    ensures { Fills n out.old at (blanks n) result out.new }
{
    let end = at + n;
    out[at..end].fill(b' ');
    end
}

// Writes the word at the right end of a column of w bytes, after spaces.
pub fn put_right(out: &mut [u8], at: usize, w: usize, word: &[u8]) -> usize
    requires { (at + w ≤ length out.old) × (length word.now ≤ w) }
    ensures { Fills w out.old at (right_of w word.now) result out.new }
{
    let k = put_blanks(out, at, w - word.len());
    put(out, k, word)
}

// Writes n in decimal, after a minus sign if `minus`: the card has a sign and a whole number, of which an i64 would be made only to be taken apart here.
pub fn put_signed(out: &mut [u8; 21], minus: bool, n: u64) -> usize
    ensures { Puts 21 out.old 0 (signed_of minus n) result out.new }
{
    if minus {
        let k = put(out, 0, b"-");
        return put_number(out, k, n);
    }
    put_number(out, 0, n)
}

// The same, at the right end of a column of w bytes.
pub fn put_signed_right(out: &mut [u8], at: usize, w: usize, minus: bool, n: u64) -> usize
    requires { (at + w ≤ length out.old) × (length (signed_of minus n) ≤ w) }
    ensures { Fills w out.old at (right_of w (signed_of minus n)) result out.new }
{
    let mut word = [0u8; 21];
    let k = put_signed(&mut word, minus, n);
    put_right(out, at, w, &word[..k])
}
