// The steps of one call of a run on a sound board: its refusal where the board decides it; what a call that changes at
// most host time or the controller changes and answers; and the records of the other calls' answers.
#![tactic(auto)]

ghost use Rattle.std.specs.Prelude.{◌≡◌, true, false, [], ◌∷◌, ◌+◌, ◌*◌, ◌≤◌, ◌<◌, length};
ghost use Rattle.std.proofs.lemmas.List.Edits.{sets};
ghost use Rattle.wide.specs.Bits.{flag_of};
ghost use Rattle.wide.specs.Number.{value_of};
ghost use Rattle.wide.specs.Fields.{be};
ghost use Rattle.board.specs.Board.{sound};
ghost use Rattle.format.specs.Format.{answer_bytes, value_bytes, record_of};
ghost use Rattle.board.specs.Refusals.{refusal_number};
ghost use Rattle.format.specs.Codec.{tag_of};
ghost use Rattle.format.specs.Tags.{tag_number};
ghost use Rattle.format.specs.CodeAnswers.{as_numbers};
ghost use Rattle.format.specs.CodeDecode.{decoded, first_refusal};
ghost use Rattle.steps.specs.CodeSteps.{StepIs, SkipIs, Changed, other_call, counts, pass_call};
ghost use Rattle.steps.specs.CodeSteps.{begun_put, count_put, passed_put, other_put};

use board::Board;
use board::calls::{Call, Skip};
use board::refusal::Refusal;
use channel::Cycles;
use clock::HostTime;
use controller::{IrqController, SourceNumber};
use format::tag::Tag;
use format::{Answer, Undecoded};
use regmap::Registers;
use wide::fields;
use wide::number::Wide;

// The calls in which cycles pass: an advance, whose compare points are counted, and a skip, whose are not.
#[derive(Clone, Copy)]
pub enum Passing {
    Advance,
    Skip,
}

// What a run does with the next call of its list, where the call is not refused.
#[derive(Clone, Copy)]
pub enum Step {
    // An offset.
    Read(u32),
    // A byte and an offset.
    Write(u8, u32),
    // Cycles pass.
    Pass(Passing, Cycles),
    // Nanoseconds and seconds.
    HostTime(u32, u64),
    // A skip that makes no advance.
    Stay,
    Deadline,
    Source(u8, u8),
    ControllerRead(u32),
    ControllerWrite(u8, u32),
    Output,
    // A refusal by its number. `step_of` answers one as an `Err` and never gives this; to the functions below it is as
    // `Stay`.
    Refused(u8),
}

// Host time and controller after a call that changes at most these, and its answer.
#[derive(Clone, Copy)]
pub struct Changes {
    pub host: HostTime,
    pub controller: IrqController,
    pub answer: Answer,
}

// Where the counts begin in the record of an advance, after the header and the line; and where the line is in that of a
// skip, after the header and the cycles passed.
const COUNTS: usize = format::HEADER_LENGTH + 1;

const SKIP_LINE: usize = format::HEADER_LENGTH + 8;

// ---- the step

// The refusal of a call that its bytes or the room refuse: a skip's own comes before the room's.
fn first_refusal(board: Board, front: Undecoded) -> Refusal
    requires { sound board ≡ true }
    ensures { refusal_number result ≡ first_refusal board (decoded (Err front)) }
{
    match front {
        Undecoded::Refused(refusal) => refusal,
        Undecoded::NoRoom(Call::Skip) => match board.skip_length() {
            Err(own) => own,
            Ok(cycles) => Refusal::BufferShort,
        },
        Undecoded::NoRoom(_) => Refusal::BufferShort,
    }
}

// A skip: refused, an advance, or none.
fn skip_step(board: Board) -> Result<Step, Refusal>
    requires { sound board ≡ true }
    ensures { SkipIs board result }
{
    match board.skip_length()? {
        Some(cycles) => Ok(Step::Pass(Passing::Skip, cycles)),
        None => Ok(Step::Stay),
    }
}

// The step of the first call in `rest`, with this room for its answer.
pub fn step_of(board: Board, rest: &[u8], room: usize) -> Result<Step, Refusal>
    requires { sound board ≡ true }
    ensures { StepIs board rest.now room result }
{
    let call = match format::decode(rest, room) {
        Ok(call) => call,
        Err(front) => return Err(first_refusal(board, front)),
    };
    match call {
        Call::HostTime(nanoseconds, seconds) => Ok(Step::HostTime(nanoseconds, seconds)),
        Call::Read(address) => Ok(Step::Read(u32::from(address) + Registers::BASE)),
        Call::Write(byte, address) => Ok(Step::Write(byte, u32::from(address) + Registers::BASE)),
        Call::Advance(cycles) => Ok(Step::Pass(Passing::Advance, cycles)),
        Call::Deadline => Ok(Step::Deadline),
        Call::Skip => skip_step(board),
        Call::Source(number, level) => Ok(Step::Source(number, level)),
        Call::ControllerRead(address) => Ok(Step::ControllerRead(address)),
        Call::ControllerWrite(byte, address) => Ok(Step::ControllerWrite(byte, address)),
        Call::Output => Ok(Step::Output),
    }
}

// ---- the calls that change at most host time or the controller

// Host time, controller and answer after such a step.
#[tactic(auto, unfolding(format::specs::Format::value_bytes, format::specs::Format::members_bytes))]
pub fn changes_of(board: Board, step: Step) -> Changes
    requires { sound board ≡ true }
    ensures changed { Changed step board result }
    ensures typed { as_numbers result.answer ≡ false }
{
    let clock = board.clock;
    let host = clock.host;
    let controller = board.controller;
    match step {
        Step::HostTime(nanoseconds, seconds) => Changes {
            host: HostTime {
                seconds,
                nanoseconds,
            },
            controller,
            answer: Answer::Empty,
        },
        Step::Source(number, level) => Changes {
            host,
            controller: controller::with_source(controller, SourceNumber(number), level == 1),
            answer: Answer::Empty,
        },
        Step::ControllerRead(address) => Changes {
            host,
            controller,
            answer: Answer::Byte(controller::read_of(controller, address)),
        },
        Step::ControllerWrite(byte, address) => Changes {
            host,
            controller: controller::written(controller, address, byte),
            answer: Answer::Empty,
        },
        Step::Output => Changes {
            host,
            controller,
            answer: Answer::Output(controller::output_of(controller)),
        },
        Step::Deadline => Changes {
            host,
            controller,
            answer: Answer::Deadline(board.deadline_members()),
        },
        _ => Changes {
            host,
            controller,
            answer: Answer::Skip(Skip {
                passed: Cycles(0),
                line: controller::level_of(controller, Board::LINE_SOURCE),
            }),
        },
    }
}

// The tag of such a step's call.
pub fn tag_of(step: Step) -> Tag
    ensures { tag_number result ≡ tag_of (other_call step) }
{
    match step {
        Step::HostTime(nanoseconds, seconds) => Tag::HostTime,
        Step::Deadline => Tag::Deadline,
        Step::Source(number, level) => Tag::Source,
        Step::ControllerRead(address) => Tag::ControllerRead,
        Step::ControllerWrite(byte, address) => Tag::ControllerWrite,
        Step::Output => Tag::Output,
        _ => Tag::Skip,
    }
}

impl Passing {
    // The tag of its call.
    pub fn tag(self) -> Tag
        ensures { tag_number result ≡ tag_of (pass_call (counts self) 0) }
    {
        match self {
            Passing::Advance => Tag::Advance,
            Passing::Skip => Tag::Skip,
        }
    }
}

// ---- records, from index at on

// Writes the record of a read.
pub fn put_byte(buf: &mut [u8], at: usize, byte: u8)
    requires { at + 4 ≤ length buf.old }
    ensures { buf.new ≡ sets buf.old at (record_of 2 (answer_bytes 2 (byte ∷ []))) }
{
    format::put_header_of(buf, at, Tag::Read);
    fields::put(buf, at + format::HEADER_LENGTH, u64::from(byte), 1);
}

// Writes, before the cycles pass, the counts of an advance as 0, or the cycles of a skip.
#[tactic(auto, unfolding(crate::specs::CodeSteps::begun_put))]
pub fn put_begun(buf: &mut [u8], at: usize, passing: Passing, cycles: Cycles)
    requires { (counts passing ≡ true → at + 68 ≤ length buf.old) × (at + 12 ≤ length buf.old) }
    ensures { buf.new ≡ begun_put (counts passing) cycles.0 at buf.old }
{
    match passing {
        Passing::Advance => format::put_no_counts(buf, at + COUNTS),
        Passing::Skip => fields::put(buf, at + format::HEADER_LENGTH, cycles.0, 8),
    }
}

// Writes how many compare points channel i met in an advance, over its count of 0; a skip has no counts.
#[tactic(auto, unfolding(crate::specs::CodeSteps::count_put))]
pub fn put_points(buf: &mut [u8], at: usize, passing: Passing, i: usize, points: Wide)
    requires { (i < 4) × (counts passing ≡ true → (at + 68 ≤ length buf.old)
        × (sets buf.old (at + 4 + 16 * i) (be 16 0) ≡ buf.old)) }
    ensures { buf.new ≡ count_put (counts passing) at i (value_of points) buf.old }
{
    match passing {
        Passing::Advance => format::put_count(buf, at + COUNTS + format::COUNT_LENGTH * i, points),
        Passing::Skip => {}
    }
}

// Writes, after the cycles have passed, the header and the line.
#[tactic(auto, unfolding(crate::specs::CodeSteps::passed_put))]
pub fn put_passed(buf: &mut [u8], at: usize, passing: Passing, line: bool)
    requires { at + 12 ≤ length buf.old }
    ensures { buf.new ≡ passed_put (counts passing) (flag_of line) at buf.old }
{
    match passing {
        Passing::Advance => {
            format::put_header_of(buf, at, Tag::Advance);
            fields::put(buf, at + format::HEADER_LENGTH, u64::from(line), 1);
        }
        Passing::Skip => {
            format::put_header_of(buf, at, Tag::Skip);
            fields::put(buf, at + SKIP_LINE, u64::from(line), 1);
        }
    }
}

// Writes the record of another call, by its changes.
pub fn put_other(buf: &mut [u8], at: usize, step: Step, changes: Changes)
    requires { at + 3 + length (value_bytes changes.answer) ≤ length buf.old }
    ensures { buf.new
        ≡ other_put (tag_of (other_call step)) at (value_bytes changes.answer) buf.old }
{
    let answer = changes.answer;
    format::put_header_of(buf, at, tag_of(step));
    format::put_value(buf, at + format::HEADER_LENGTH, answer);
}
