// Replays the fixed list of the reference's answers (compare/README.md, "The fixed list") and prints how many entries differ.
#![tactic(auto)]

ghost use Rattle.std.specs.Prelude.{◌≡◌, ◌+◌, ◌<◌, ◌≤◌, length, IfOk};

use replaying::Replayed;
use std::fs::File;
use std::io::Read;
use std::{fs, io};

// Reads until the buffer is full or the file ends, and gives how many bytes it put at the start.
fn read_full(file: &mut File, buf: &mut [u8]) -> io::Result<usize>
    ensures { IfOk result (λ n. n ≤ length buf.new) }
{
    let mut done = 0;
    // The loop counts the bytes that came: std's `read_exact` says little of the buffer after an Err.
    while done < buf.len() {
        let n = file.read(&mut buf[done..])?;
        if n == 0 {
            break;
        }
        done += n;
    }
    Ok(done)
}

// Fills the entry from the file and replays it.
fn replay_next(file: &mut File, entry: &mut [u8]) -> io::Result<Replayed> {
    let got = read_full(file, entry)?;
    if got != entry.len() {
        return Ok(Replayed::Damaged);
    }
    Ok(replaying::replay_entry(entry))
}

// Reads an entry's length, then the entry.
fn next_entry(file: &mut File) -> io::Result<Replayed> {
    let mut head = [0u8; 8];
    if read_full(file, &mut head)? != 8 {
        return Ok(Replayed::Damaged);
    }
    let length = octets::word(&head, 0);
    if length > 65536 {
        return Ok(Replayed::Damaged);
    }
    let n = length as usize;
    // An array of the greatest length: no replay can fail for want of memory.
    let mut space = [0u8; 65536];
    replay_next(file, &mut space[..n])
}

fn print_differs(rt: &HostRuntime, number: u64) -> io::Result<()> {
    println!(rt; "entry {number} differs")
}

fn print_damaged(rt: &HostRuntime, number: u64) -> io::Result<()> {
    println!(rt; "the file is damaged at entry {number}")
}

fn print_counts(rt: &HostRuntime, replayed: u64, differ: u64) -> io::Result<()> {
    println!(rt; "{replayed} replayed, {differ} differ")
}

// One more entry that differs: of the first ten the number is printed.
fn one_more(rt: &HostRuntime, number: u64, differ: u64) -> io::Result<u64>
    requires { differ < 18446744073709551615 }
    ensures { IfOk result (λ n. n ≡ differ + 1) }
{
    if differ < 10 {
        print_differs(rt, number)?;
    }
    Ok(differ + 1)
}

fn replay_all(rt: &HostRuntime, file: &mut File, count: u64) -> io::Result<()> {
    let mut differ = 0;
    for number in 0..count {
        match next_entry(file)? {
            Replayed::Same => {}
            Replayed::Differs => differ = one_more(rt, number, differ)?,
            Replayed::Damaged => return print_damaged(rt, number),
        }
    }
    let mut more = [0u8; 1];
    if read_full(file, &mut more)? != 0 {
        return print_damaged(rt, count);
    }
    print_counts(rt, count, differ)
}

fn main(rt: HostRuntime) -> io::Result<()> {
    let mut file = fs::open(&rt, "replay.bin")?;
    let mut head = [0u8; 8];
    if read_full(&mut file, &mut head)? == 8 {
        replay_all(&rt, &mut file, octets::word(&head, 0))
    } else {
        print_damaged(&rt, 0)
    }
}
