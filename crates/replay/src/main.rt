// Replays recorded answers of the Rust. Each argument names a file; for each it prints how many calls agreed,
// and the first that did not; last whether all agreed.
//
// A file is records, one after another, each of a list that the Rust ran on a fresh board with the timer enable given
// (16 or more is not sound). Numbers are big-endian, a width is in bytes: timer enable 1; length of the list 2, of the
// answer buffer 2; calls done 2, list bytes used 2, answer bytes 2, refusal 1; the list; the answers. rust/oracle has
// the program that records.
//
// Call 0 stands for a record or a file that cannot be read; crates/recording says when a list and a call agree.
#![tactic(auto)]

ghost use Rattle.std.specs.Prelude.{◌≤◌, length, IfSome};

use recording::Record;
use recording::tally::{Disagreement, Tally};
use std::env::{Env, FillError};
use std::fs::File;
use std::io::Result;
use std::rt::Files;

// The longest file.
const FILE_LIMIT: usize = 65535;

// The longest name of a file.
const NAME_LIMIT: usize = 4096;

// The tally of a file's bytes.
fn replay(s: &[u8]) -> Tally {
    let mut t = Tally::default();
    let mut left = s;
    while !left.is_empty() {
        let Some((next, rest)) = Record::first(left) else {
            return t.joined(Tally::unreadable());
        };
        t = t.joined(next.tally());
        left = rest;
    }
    t
}

// Prints how many calls agreed.
fn print_counts(rt: &impl Print, title: &[u8], t: Tally) -> Result<()> {
    rt.write_all(title)?;
    let Tally {
        lists,
        calls,
        agreed,
        ..
    } = t;
    println!(rt; ": {agreed} of {calls} calls agree, in lists: {lists}")
}

// Prints the first that did not agree.
fn print_first(rt: &impl Print, first: Disagreement) -> Result<()> {
    let Disagreement { list, call } = first;
    println!(rt; "the first that does not agree: list {list}, call {call}")
}

// The tally of a file; none where it cannot be read. A name is text, and a file of another name cannot be read.
fn replay_file(rt: &impl Files, name: &[u8]) -> Option<Tally> {
    let path = str::from_utf8(name).ok()?;
    let mut file = File::open(rt, path).ok()?;
    let mut bytes = [0u8; FILE_LIMIT + 1];
    let n = input::read_all(&mut file, &mut bytes).ok()?;
    if FILE_LIMIT < n {
        return None;
    }
    Some(replay(&bytes[..n]))
}

// An argument, put into a buffer; none where there is no such argument. Of one that is longer than the buffer it gives
// the empty name, which no file has.
fn argument<'a>(rt: &impl Env, i: usize, buf: &'a mut [u8]) -> Option<&'a [u8]>
    ensures { IfSome result (λ name. length name.now ≤ length buf.old) }
{
    match rt.arg(i, buf) {
        Ok(n) => Some(&buf[..n]),
        Err(FillError::TooLong) => Some(&[]),
        Err(FillError::NotPresent) => None,
    }
}

// The tally of the file that an argument names, printed; none where there is no such argument.
fn replay_argument(rt: &(impl Env + Files + Print), i: usize) -> Result<Option<Tally>> {
    let mut buf = [0u8; NAME_LIMIT];
    let Some(name) = argument(rt, i, &mut buf) else {
        return Ok(None);
    };
    let t = replay_file(rt, name).unwrap_or(Tally::unreadable());
    print_counts(rt, name, t)?;
    if let Some(first) = t.first {
        print_first(rt, first)?;
    }
    Ok(Some(t))
}

// The tally of every file that an argument names.
fn replay_all(rt: &(impl Env + Files + Print)) -> Result<Tally> {
    let mut t = Tally::default();
    for i in 1..usize::MAX {
        match replay_argument(rt, i)? {
            Some(next) => t = t.joined(next),
            None => break,
        }
    }
    Ok(t)
}

fn main(rt: HostRuntime) -> Result<()> {
    let t = replay_all(&rt)?;
    match t.first {
        None => print_counts(&rt, b"all agree", t),
        Some(_) => print_counts(&rt, b"NOT ALL AGREE", t),
    }
}
