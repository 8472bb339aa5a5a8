// A record of the Rust's answers: its numbers, the run of its list, and whether the run agrees with it.
#![tactic(auto)]

ghost use Rattle.std.specs.Prelude.{◌≡◌, ◌+◌, ◌≤◌, length, take, drop, MatchOption};
ghost use Rattle.std.specs.Bool.{Decides};
ghost use Rattle.wide.specs.Fields.{be_at};
ghost use Rattle.list.specs.Run.{run_of, over};
ghost use Rattle.recording.specs.Record.{start_of, results_of, header_at, Fits, Agrees};

use board::{Board, refusal};
use list::Counts;
use listing::first_record;
use wide::fields::get;

pub mod tally;

// Bytes of a record before its list.
pub const RECORD_HEADER_LENGTH: usize = 12;

// The longest answer buffer.
pub const BUFFER_LIMIT: usize = 32768;

// A run's results without the board and the answers.
#[derive(Clone, Copy, PartialEq, Eq)]
pub struct Results {
    pub done: Counts,
    pub refusal: u8,
}

// The numbers of a record: the starting board's timer enable, the lengths of the list and of the answer buffer, and
// the results.
#[derive(Clone, Copy)]
pub struct Header {
    pub enable: u8,
    pub list: usize,
    pub buffer: usize,
    pub results: Results,
}

// A record: its numbers, its list and its answers.
#[derive(Clone, Copy)]
pub struct Record<'a> {
    pub header: Header,
    pub list: &'a [u8],
    pub answers: &'a [u8],
}

// The number in two bytes.
fn number_at(s: &[u8], at: usize) -> usize
    requires { at + 2 ≤ length s.now }
    ensures { result ≡ be_at s.now at 2 }
{
    get(s, at, 2) as usize
}

// The numbers of the record at an index.
#[tactic(auto, unfolding(crate::specs::Record::header_at))]
pub fn header_at(s: &[u8], at: usize) -> Header
    requires { at + 12 ≤ length s.now }
    ensures { result ≡ header_at s.now at }
{
    Header {
        enable: s[at],
        list: number_at(s, at + 1),
        buffer: number_at(s, at + 3),
        results: Results {
            done: Counts {
                calls: number_at(s, at + 5),
                used: number_at(s, at + 7),
                written: number_at(s, at + 9),
            },
            refusal: s[at + 11],
        },
    }
}

// Whether a record lies within `room` bytes from its first on, and its buffer is not too long.
pub fn fits(h: Header, room: usize) -> bool
    requires { 12 ≤ room }
    ensures { Decides result (Fits h room) }
{
    let rest = room - RECORD_HEADER_LENGTH;
    h.list <= rest && h.results.done.written <= rest - h.list && h.buffer <= BUFFER_LIMIT
}

// The fresh board with a timer enable.
#[tactic(auto, unfolding(crate::specs::Record::start_of))]
fn start(enable: u8) -> Board
    ensures { result ≡ start_of enable }
{
    Board {
        timer_enable: enable,
        ..Board::fresh()
    }
}

// Runs a list on that board.
fn replayed(enable: u8, list: &[u8], answers: &mut [u8]) -> Results
    ensures { (result ≡ results_of
        (run_of (start_of enable) list.now (length answers.old)).outcome)
        × (answers.new ≡ over
        (run_of (start_of enable) list.now (length answers.old)).answers
        answers.old) }
{
    let r = list::run(start(enable), list, answers);
    Results {
        done: r.done,
        refusal: refusal::code(r.end),
    }
}

// Whether a buffer holds answers from its first byte, then old bytes.
fn holds(buffer: &[u8], answers: &[u8], old: &[u8]) -> bool
    requires { length old.now ≡ length buffer.now }
    ensures { Decides result (buffer.now ≡ over answers.now old.now) }
{
    match buffer.strip_prefix(answers) {
        Some(rest) => rest == &old[answers.len()..],
        None => false,
    }
}

impl<'a> Record<'a> {
    // The record that some bytes begin with, and the bytes behind it; none where they begin with no record that fits.
    pub fn first(s: &'a [u8]) -> Option<(Record<'a>, &'a [u8])>
        ensures { MatchOption result (12 ≤ length s.now → Fits (header_at s.now 0) (length s.now) → ⊥)
            (λ r. (12 ≤ length s.now)
            × Fits (header_at s.now 0) (length s.now)
            × (r.0.header ≡ header_at s.now 0)
            × (r.0.list.now ≡ take r.0.header.list (drop 12 s.now))
            × (r.0.answers.now ≡ take r.0.header.results.done.written (drop (12 + r.0.header.list) s.now))
            × (r.1.now ≡ drop (12 + (r.0.header.list + r.0.header.results.done.written)) s.now)) }
    {
        if s.len() < RECORD_HEADER_LENGTH {
            return None;
        }
        let header = header_at(s, 0);
        if !fits(header, s.len()) {
            return None;
        }
        let (list, rest) = s[RECORD_HEADER_LENGTH..].split_at(header.list);
        let (answers, rest) = rest.split_at(header.results.done.written);
        let made = Record {
            header,
            list,
            answers,
        };
        Some((made, rest))
    }

    // Whether the run of a record gives the recorded results, and in the buffer the recorded answers, then old bytes.
    pub fn agrees(self, buffer: &mut [u8], old: &[u8]) -> bool
        requires { length old.now ≡ length buffer.old }
        ensures { Decides result (Agrees self.entry.header self.entry.list.now self.entry.answers.now buffer.old
            old.now) }
    {
        let r = replayed(self.header.enable, self.list, buffer);
        r == self.header.results && holds(buffer, self.answers, old)
    }
}

// How many recorded answers, header and value, a buffer holds at their place, up to the first that it does not hold.
pub fn leading(answers: &[u8], buffer: &[u8]) -> usize {
    let mut n = 0;
    let mut left = answers;
    let mut held = buffer;
    while let Some((record, rest)) = first_record(left) {
        let Some(more) = held.strip_prefix(record) else {
            break;
        };
        n += 1;
        left = rest;
        held = more;
    }
    n
}
