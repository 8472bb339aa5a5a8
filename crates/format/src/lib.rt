// The bytes of the call list, big-endian: the first call of a list is decoded, and the record of an answer written.
#![tactic(auto)]

ghost use Rattle.std.specs.Prelude.{◌≡◌, [], ◌∷◌, ◌+◌, ◌≤◌, ◌<◌, length};
ghost use Rattle.std.proofs.lemmas.List.Edits.{sets};
ghost use Rattle.wide.specs.Number.{value_of};
ghost use Rattle.wide.specs.Fields.{be};
ghost use Rattle.format.specs.Format.{value_bytes};
ghost use Rattle.format.specs.Tags.{tag_number};
ghost use Rattle.format.specs.CodeDecode.{lengths_of, decoded, decoded_of, names_call, named_at};
ghost use Rattle.format.specs.CodeAnswers.{header_bytes, header_of, wides};
ghost use Rattle.format.specs.declared.Undecoded.TheVariants.{Refused};

mod calls;
pub mod tag;

use crate::calls::Front;
use crate::tag::Tag;
use board::calls::{Call, DeadlineGiven, Skip};
use board::refusal::Refusal;
use channel::Cycles;
use controller::IrqOutput;
use wide::fields;
use wide::number::Wide;

// Bytes of a tag and a length.
pub const HEADER_LENGTH: usize = 3;

// Bytes of a count.
pub const COUNT_LENGTH: usize = 16;

// The members of an answer. The last three have those of a deadline, a skip and an output as numbers, which may be any:
// present, D and the 64-bit deadline; the cycles passed and the line; valid and the number.
#[derive(Clone, Copy)]
pub enum Answer {
    Empty,
    Byte(u8),
    Deadline(Option<DeadlineGiven>),
    Skip(Skip),
    Output(IrqOutput),
    DeadlineMembers(u8, Wide, u64),
    SkipMembers(u64, u8),
    Pair(u8, u8),
}

// What follows from a tag, which may be any byte: whether there is a call with it, and the lengths of the call's value
// and answer, 0 where there is none.
#[derive(Clone, Copy)]
pub struct Lengths {
    pub known: bool,
    pub value: usize,
    pub answer: usize,
}

fn row(tag: Tag) -> Lengths
    ensures { result ≡ lengths_of (tag_number tag) }
{
    Lengths {
        known: true,
        value: tag.value_length(),
        answer: tag.answer_length(),
    }
}

pub fn lengths_of(tag: u8) -> Lengths
    ensures { result ≡ lengths_of tag }
{
    match tag {
        1 => row(Tag::HostTime),
        2 => row(Tag::Read),
        3 => row(Tag::Write),
        4 => row(Tag::Advance),
        5 => row(Tag::Deadline),
        6 => row(Tag::Skip),
        7 => row(Tag::Source),
        8 => row(Tag::ControllerRead),
        9 => row(Tag::ControllerWrite),
        10 => row(Tag::Output),
        _ => Lengths {
            known: false,
            value: 0,
            answer: 0,
        },
    }
}

// Why the first call of a list is not carried out, as far as only the list's bytes and the room for the answer decide
// it: a skip's own refusal depends on the board and is not included.
#[derive(Clone, Copy)]
pub enum Undecoded {
    // It is refused.
    Refused(Refusal),
    // The answer of this call, which has no members, has no room: a skip's own refusal comes first.
    NoRoom(Call),
}

impl From<Refusal> for Undecoded {
    ghost from_gives = { λ refusal r. r ≡ Refused refusal };

    fn from(refusal: Refusal) -> Undecoded {
        Undecoded::Refused(refusal)
    }
}

// Decodes the first call of a list, with this room for its answer.
pub fn decode(rest: &[u8], room: usize) -> Result<Call, Undecoded>
    ensures value { decoded result ≡ decoded_of rest.now room }
    ensures named { names_call result ≡ named_at rest.now (decoded_of rest.now room) }
{
    if rest.len() < HEADER_LENGTH {
        return Err(Undecoded::Refused(Refusal::HeaderCut));
    }
    let front = Front { rest, room };
    // the byte itself, because a test of the tag behind one of the byte costs each call instructions
    match rest[0] {
        1 => front.host_time(),
        2 => front.read(),
        3 => front.write(),
        4 => front.advance(),
        5 => front.bare(Tag::Deadline, Call::Deadline),
        6 => front.bare(Tag::Skip, Call::Skip),
        7 => front.source(),
        8 => front.controller_read(),
        9 => front.controller_write(),
        10 => front.bare(Tag::Output, Call::Output),
        _ => Err(Undecoded::Refused(Refusal::TagUnknown)),
    }
}

// ---- answers

#[tactic(auto, unfolding(crate::specs::Format::value_bytes, crate::specs::Format::members_bytes))]
fn put_byte(buf: &mut [u8], at: usize, value: u8)
    requires { at + 1 ≤ length buf.old }
    ensures { buf.new ≡ sets buf.old at (value_bytes (Answer.Byte value)) }
{
    fields::put(buf, at, u64::from(value), 1);
}

fn put_deadline_members(buf: &mut [u8], at: usize, present: u8, exact: Wide, word: u64)
    requires { at + 25 ≤ length buf.old }
    ensures { buf.new ≡ sets buf.old at (value_bytes (Answer.DeadlineMembers present exact word)) }
{
    fields::put(buf, at, u64::from(present), 1);
    fields::put_wide(buf, at + 1, exact);
    fields::put(buf, at + 17, word, 8);
}

fn put_deadline(buf: &mut [u8], at: usize, given: Option<DeadlineGiven>)
    requires { at + 25 ≤ length buf.old }
    ensures { buf.new ≡ sets buf.old at (value_bytes (Answer.Deadline given)) }
{
    let zero = Wide::from(0);
    let deadline = given.unwrap_or(DeadlineGiven {
        exact: zero,
        word: Cycles(0),
    });
    let exact = deadline.exact;
    let word = deadline.word;
    put_deadline_members(buf, at, u8::from(given.is_some()), exact, word.0);
}

fn put_skip_members(buf: &mut [u8], at: usize, passed: u64, line: u8)
    requires { at + 9 ≤ length buf.old }
    ensures { buf.new ≡ sets buf.old at (value_bytes (Answer.SkipMembers passed line)) }
{
    fields::put(buf, at, passed, 8);
    fields::put(buf, at + 8, u64::from(line), 1);
}

fn put_skip(buf: &mut [u8], at: usize, skip: Skip)
    requires { at + 9 ≤ length buf.old }
    ensures { buf.new ≡ sets buf.old at (value_bytes (Answer.Skip skip)) }
{
    put_skip_members(buf, at, skip.passed.0, u8::from(skip.line));
}

fn put_pair(buf: &mut [u8], at: usize, a: u8, b: u8)
    requires { at + 2 ≤ length buf.old }
    ensures { buf.new ≡ sets buf.old at (value_bytes (Answer.Pair a b)) }
{
    fields::put(buf, at, u64::from(a), 1);
    fields::put(buf, at + 1, u64::from(b), 1);
}

fn put_output(buf: &mut [u8], at: usize, output: IrqOutput)
    requires { at + 2 ≤ length buf.old }
    ensures { buf.new ≡ sets buf.old at (value_bytes (Answer.Output output)) }
{
    put_pair(buf, at, u8::from(output.valid), output.number.0);
}

// Writes four counts of 0 from index at on.
pub fn put_no_counts(buf: &mut [u8], at: usize)
    requires { at + 64 ≤ length buf.old }
    ensures { buf.new ≡ sets buf.old at (wides (0 ∷ 0 ∷ 0 ∷ 0 ∷ [])) }
{
    let none = Wide::from(0);
    fields::put_wide(buf, at, none);
    fields::put_wide(buf, at + COUNT_LENGTH, none);
    fields::put_wide(buf, at + 2 * COUNT_LENGTH, none);
    fields::put_wide(buf, at + 3 * COUNT_LENGTH, none);
}

// Writes a count over a count of 0. The high word is written only where it is not 0, for a count of 2^64.
pub fn put_count(buf: &mut [u8], at: usize, count: Wide)
    requires { (at + 16 ≤ length buf.old) × (sets buf.old at (be 16 0) ≡ buf.old) }
    ensures { buf.new ≡ sets buf.old at (be 16 (value_of count)) }
{
    fields::put(buf, at + 8, count.low, 8);
    if count.high != 0 {
        fields::put(buf, at, count.high, 8);
    }
}

// Writes an answer's members from index at on.
#[tactic(auto, unfolding(crate::specs::Format::value_bytes, crate::specs::Format::members_bytes))]
pub fn put_value(buf: &mut [u8], at: usize, answer: Answer)
    requires { at + length (value_bytes answer) ≤ length buf.old }
    ensures { buf.new ≡ sets buf.old at (value_bytes answer) }
{
    match answer {
        Answer::Empty => {}
        Answer::Byte(value) => put_byte(buf, at, value),
        Answer::Deadline(given) => put_deadline(buf, at, given),
        Answer::Skip(skip) => put_skip(buf, at, skip),
        Answer::Output(output) => put_output(buf, at, output),
        Answer::DeadlineMembers(present, exact, word) => {
            put_deadline_members(buf, at, present, exact, word)
        }
        Answer::SkipMembers(passed, line) => put_skip_members(buf, at, passed, line),
        Answer::Pair(a, b) => put_pair(buf, at, a, b),
    }
}

// Writes the tag and the length of a record from index at on.
#[tactic(auto, using(crate::proofs::Frames::sets_be))]
pub fn put_header(buf: &mut [u8], at: usize, tag: u8, size: usize)
    requires { at + 3 ≤ length buf.old }
    ensures { buf.new ≡ sets buf.old at (header_bytes tag size) }
{
    fields::put(buf, at, u64::from(tag), 1);
    fields::put(buf, at + 1, size as u64, 2);
}

// Writes those of the answer of a call of this tag.
pub fn put_header_of(buf: &mut [u8], at: usize, tag: Tag)
    requires { at + 3 ≤ length buf.old }
    ensures { buf.new ≡ sets buf.old at (header_of (tag_number tag)) }
{
    put_header(buf, at, tag.number(), tag.answer_length());
}
