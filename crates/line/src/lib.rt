// The line that the program settle prints: `answer N`, and from accepted input also the termination and the three counts.
#![tactic(auto)]

ghost use Rattle.std.specs.Prelude.{◌≡◌, ◌+◌, ◌≤◌, ◌++◌, length};
ghost use Rattle.text.specs.Text.{Puts, decimal_of};
ghost use Rattle.ground.specs.Told.{record_of};
ghost use Rattle.line.specs.Line.{counts_of, shown_of, wrote, written_line};

use ground::Told;

// Writes the word, then n in decimal.
fn put_count(out: &mut [u8], at: usize, word: &[u8], n: u64) -> usize
    requires { at + (length word.now + 20) ≤ length out.old }
    ensures { Puts (length word.now + 20) out.old at (word.now ++ decimal_of n) result out.new }
{
    let k = text::put(out, at, word);
    text::put_number(out, k, n)
}

fn put_counts(out: &mut [u8], at: usize, contacts: u64, points: u64, steps: u64) -> usize
    requires { at + 85 ≤ length out.old }
    ensures { Puts 85 out.old at (counts_of contacts points steps) result out.new }
{
    let a = put_count(out, at, b" contacts ", contacts);
    let b = put_count(out, a, b" points ", points);
    put_count(out, b, b" steps ", steps)
}

// Writes the whole line of a settle's result.
fn put_told(out: &mut [u8], s: &Told) -> usize
    requires { 128 ≤ length out.old }
    ensures { Puts 128 out.old 0 (shown_of (record_of s.now)) result out.new }
{
    let a = put_count(out, 0, b"answer ", s.answer as u64);
    // 1 to 12, as 01 has them: calls that make no run.
    if (1 <= s.answer) & (s.answer <= 12) {
        return text::put(out, a, b"\n");
    }
    let b = text::put(out, a, b" ");
    let c = text::put_termination(out, b, s.termination);
    let d = put_counts(out, c, s.contacts as u64, s.points as u64, s.steps);
    text::put(out, d, b"\n")
}

// The same into an array; the count is the line's length.
pub fn write_line(s: &Told, out: &mut [u8; 128]) -> usize
    ensures { wrote result out.new ≡ written_line (shown_of (record_of s.now)) out.old }
{
    put_told(out, s)
}
