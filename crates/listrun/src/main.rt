// Reads a call list from standard input, runs it over a fresh board, and prints each answer's tag and value in
// hexadecimal; last the calls done, the refusal and the list bytes used, in decimal. Where the input cannot be read it
// prints nothing but a message on standard error, and where the output cannot be written it prints such a message. In
// both cases it ends with exit status 1.
#![tactic(auto)]

ghost use Rattle.std.specs.Prelude.{◌≡◌, ◌+◌, ◌*◌, ◌≤◌, length, take};
ghost use Rattle.io.specs.Counts.{IsPrefixLen};
ghost use Rattle.board.specs.Fields.{fresh_board};
ghost use Rattle.list.specs.Run.{run_of};
ghost use Rattle.listing.specs.Listing.{with_text};
ghost use Rattle.listrun.specs.Printed.{listed, printed_of};

use board::{Board, refusal};
use std::io::Error;
use std::process::ExitCode;

// The longest list, and the answer buffer.
const LIST_LIMIT: usize = 32768;

const ANSWER_ROOM: usize = 32768;

// The longest listing: twice the answers and 67 bytes.
const TEXT_ROOM: usize = 2 * ANSWER_ROOM + 67;

// Runs a list over a fresh board, and writes the listing at the start of a buffer, as much of it as fits. Gives the
// listing's length.
#[tactic(auto, using(crate::proofs::Texts::written_fits, crate::proofs::Texts::written_long, crate::proofs::Texts::listed_is))]
fn run_list(list: &[u8], answers: &mut [u8], text: &mut [u8]) -> usize
    ensures value { result ≡ length (listed (run_of fresh_board list.now (length answers.old))) }
    ensures text_after { text.new
        ≡ with_text (listed (run_of fresh_board list.now (length answers.old))) text.old }
    ensures upper_bound { result ≤ 2 * length answers.old + 67 }
{
    let r = list::run(Board::fresh(), list, answers);
    let done = r.done;
    listing::listing(
        &answers[..done.written],
        done.calls,
        refusal::code(r.end),
        done.used,
        text,
    )
}

// What is printed for a list, written at the start of a buffer. A listing has at most two characters for each answer
// byte, and 67: the buffer has room for all of it.
fn print_list<'a>(
    list: &[u8],
    answers: &mut [u8; ANSWER_ROOM],
    text: &'a mut [u8; TEXT_ROOM],
) -> &'a [u8]
    ensures { result.now ≡ printed_of list.now }
{
    let length = if LIST_LIMIT < list.len() {
        listing::put_text(b"too long\n", text)
    } else {
        run_list(list, answers, text)
    };
    &text[..length]
}

// Says on standard error which stream failed and why. Gives the exit status that tells it, which a program that cannot
// write there has too.
fn failed(rt: &impl Eprint, stream: &str, error: Error) -> ExitCode {
    let _ = eprintln!(rt; "listrun: {stream}: {error}");
    ExitCode::FAILURE
}

fn main(rt: HostRuntime) -> ExitCode {
    // one byte more than the longest list, to find a longer one
    let mut list = [0u8; LIST_LIMIT + 1];
    let n = match input::read_all(&mut rt.stdin(), &mut list) {
        Ok(n) => n,
        Err(error) => return failed(&rt, "standard input", error),
    };
    let mut answers = [0u8; ANSWER_ROOM];
    let mut text = [0u8; TEXT_ROOM];
    match rt.write_all(print_list(&list[..n], &mut answers, &mut text)) {
        Ok(()) => ExitCode::SUCCESS,
        Err(error) => failed(&rt, "standard output", error),
    }
}
