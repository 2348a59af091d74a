// Reads an input from standard input, settles it and writes its line.
#![tactic(auto)]

ghost use Rattle.std.specs.Prelude.{◌≡◌};
ghost use Rattle.input.specs.Input.{program_of};
ghost use Rattle.line.specs.Line.{shown_of, wrote, written_line};

// Settles the input with 64 contacts and 640 points lent, and writes the line of its result; the count is the line's length.
fn write_answer(input: &[u8], out: &mut [u8; 128]) -> usize
    ensures { wrote result out.new ≡ written_line (shown_of (program_of input.now)) out.old }
{
    let mut contacts = [0.0; 64 * tally::CONTACT_WIDTH];
    let mut points = [0.0; 640 * tally::POINT_WIDTH];
    let s = input::settle_input(input, false, &mut contacts, &mut points);
    line::write_line(&s.told(), out)
}

fn main() {
    // An array, one byte longer than the longest input: no settle can fail for want of memory.
    let mut input = [0u8; 34049];
    let n = io::read_full(0, &mut input);
    let mut out = [0u8; 128];
    let k = write_answer(&input[..n], &mut out);
    io::write_all(1, &out[..k]);
}
