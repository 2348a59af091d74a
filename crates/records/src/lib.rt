// Records of one width in a lent list of doubles: the pushed records from the front, then +0.
#![tactic(auto)]

ghost use Rattle.std.specs.Prelude.{◌≡◌, ◌<◌, ◌/◌, length};
ghost use Rattle.records.specs.Records.{zeroed, Pushes};

// Writes +0 from an index on.
pub fn zero_from(list: &mut [f64], from: usize)
    ensures { list.new ≡ zeroed list.old from }
{
    if from < list.len() {
        list[from..].fill(0.0);
    }
}

// Writes the record after n others (C lends room for more), if there is room for it: the number of records now, or none.
pub fn push(list: &mut [f64], n: usize, rec: &[f64]) -> Option<usize>
    requires { 0 < length rec.now }
    ensures { Pushes (length rec.now) n list.old rec.now result list.new }
{
    let w = rec.len();
    if n >= list.len() / w {
        return None;
    }
    let at = n * w;
    // A copy_from_slice reads the record in pairs just after its numbers were written one by one, and waits for them: a push takes 6 ns more.
    for (i, x) in rec.iter().enumerate() {
        list[at + i] = *x;
    }
    Some(n + 1)
}
