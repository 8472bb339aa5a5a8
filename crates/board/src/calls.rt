// The calls, and the direct calls except read and write. Each direct call tests soundness first, then its own refusal.
// A refused call returns the board given.
ghost use Rattle.std.specs.Prelude.{◌≡◌, true, Err};
ghost use Rattle.board.specs.Board.{BoardFits, sound, exact_deadline};
ghost use Rattle.board.specs.Calls.{refusal_of, answer_of, advance_by, host_time_to};
ghost use Rattle.board.specs.Calls.{host_time_refusal, address_refusal, advanced_board, skip_length, source_refusal};
ghost use Rattle.board.specs.Answers.{answered, no_members, byte_members, advance_members, deadline_members};
ghost use Rattle.board.specs.Answers.{skip_members, output_members};
ghost use Rattle.board.specs.CodeCalls.{deadline_given, length_given, matches_given};
ghost use Rattle.board.specs.Demand.{DeadlinePromise, SkipPromise};
ghost use Rattle.board.specs.Refusals.{refusal_code};

use crate::Board;
use crate::channels::advance_all;
use crate::refusal::Refusal;
use channel::Cycles;
use clock::{Clock, HostTime};
use controller::{IrqOutput, SourceNumber};
use wide::number::Wide;

// A call, with its members. The smaller of two members comes first, which is faster to decode.
#[derive(Clone, Copy)]
pub enum Call {
    // nanoseconds, seconds
    HostTime(u32, u64),
    // an address
    Read(u16),
    // a byte and an address
    Write(u8, u16),
    Advance(Cycles),
    Deadline,
    Skip,
    // a source and its level
    Source(u8, u8),
    // an address of the controller
    ControllerRead(u32),
    // a byte and an address of the controller
    ControllerWrite(u8, u32),
    Output,
}

// What a direct call answers: the board after it, and the members of its answer, `()` where it has none. A refused
// call answers its refusal, and the board given.
#[derive(Clone, Copy)]
pub struct Answered<T> {
    pub board: Board,
    pub answer: Result<T, Refusal>,
}

// The line, and the compare points that each channel met, channel 0 first.
#[derive(Clone, Copy)]
pub struct Advance {
    pub line: bool,
    pub matches: [Wide; 4],
}

// A deadline: the exact one, and the smaller of it and the largest word.
#[derive(Clone, Copy)]
pub struct DeadlineGiven {
    pub exact: Wide,
    pub word: Cycles,
}

// The cycles that a skip passed, and the line.
#[derive(Clone, Copy)]
pub struct Skip {
    pub passed: Cycles,
    pub line: bool,
}

// The board after an advance, and the compare points that each channel met.
#[derive(Clone, Copy)]
struct Moved {
    board: Board,
    matches: [Wide; 4],
}

impl Board {
    // Addresses of registers are below this.
    pub const ADDRESSES: u16 = 0x380;

    // ---- what a call computes of a sound board

    fn advanced(mut self, cycles: Cycles) -> Moved
        requires { sound self ≡ true }
        ensures { (result.board ≡ advanced_board cycles.0 self)
            × (result.matches ≡ matches_given self.timer_enable cycles.0 self.timers) }
    {
        let moved = advance_all(self.timers, self.timer_enable, cycles);
        let timers = moved.timers;
        let matches = moved.matches;
        self.timers = timers;
        self.clock = self.clock.advance(cycles);
        Moved {
            board: self.wired(),
            matches,
        }
    }

    // The members of the deadline's answer, or none without a deadline.
    #[tactic(auto, using(wide::proofs::Forms::value_wide))]
    pub fn deadline_members(self) -> Option<DeadlineGiven>
        requires { sound self ≡ true }
        ensures { result ≡ deadline_given (exact_deadline self) }
    {
        let Some(exact) = self.exact_deadline() else {
            return None;
        };
        Some(DeadlineGiven {
            exact,
            word: Cycles(exact.capped()),
        })
    }

    // The cycles of a skip's advance: those of the deadline, or none with the line high or no deadline. A deadline
    // above the largest word is refused. On a sound board the level of source 3 is the line.
    #[tactic(auto, using(crate::proofs::Soundness::sound_line, wide::proofs::TwoWords::at_most_is))]
    pub fn skip_length(self) -> Result<Option<Cycles>, Refusal>
        requires { sound self ≡ true }
        ensures { result ≡ length_given (skip_length self) }
    {
        if controller::level_of(self.controller, Self::LINE_SOURCE) {
            return Ok(None);
        }
        let Some(exact) = self.exact_deadline() else {
            return Ok(None);
        };
        if exact <= Wide::from(u64::MAX) {
            return Ok(Some(Cycles(exact.capped())));
        }
        Err(Refusal::DeadlineTooLarge)
    }

    // ---- the calls

    // A board that is not sound is refused, before the call's own refusal. The contract also says that every field is
    // within its width, which the promise of the deadline needs.
    pub fn check_sound(self) -> Result<(), Refusal>
        ensures refused { refusal_code result ≡ refusal_of self 0 }
        ensures fits { BoardFits self }
    {
        if self.sound() {
            return Ok(());
        }
        Err(Refusal::NotSound)
    }

    // The answer of a call that is refused on this board.
    pub fn refused<T>(self, refusal: Refusal) -> Answered<T>
        ensures { result ≡ record { board = self; answer = Err refusal } }
    {
        Answered {
            board: self,
            answer: Err(refusal),
        }
    }

    #[tactic(auto, using(crate::proofs::Answers::answer_laws))]
    pub fn host_time(self, host: HostTime) -> Answered<()>
        ensures { answered no_members result ≡ answer_of (host_time_to host) self }
    {
        if let Err(refusal) = self.check_sound().and(check_host_time(host)) {
            return self.refused(refusal);
        }
        Answered {
            board: self.with_clock(self.clock.with_host(host)).wired(),
            answer: Ok(()),
        }
    }

    #[tactic(auto, using(crate::proofs::Answers::advance_laws), unfolding(crate::specs::Calls::advanced_board))]
    pub fn advance(self, cycles: Cycles) -> Answered<Advance>
        ensures { answered advance_members result ≡ answer_of (advance_by cycles.0) self }
    {
        if let Err(refusal) = self.check_sound() {
            return self.refused(refusal);
        }
        let moved = self.advanced(cycles);
        let board = moved.board;
        let line = board.line();
        let matches = moved.matches;
        Answered {
            board,
            answer: Ok(Advance { line, matches }),
        }
    }

    // The deadline, with its promise.
    pub fn deadline(self) -> Answered<Option<DeadlineGiven>>
        ensures value { answered deadline_members result ≡ answer_of Call.Deadline self }
        ensures promise { DeadlinePromise self (answered deadline_members result) }
    {
        if let Err(refusal) = self.check_sound() {
            return self.refused(refusal);
        }
        Answered {
            board: self,
            answer: Ok(self.deadline_members()),
        }
    }

    // A skip, with its promise.
    pub fn skip(self) -> Answered<Skip>
        ensures value { answered skip_members result ≡ answer_of Call.Skip self }
        ensures skip_promise { SkipPromise self (answered skip_members result) }
    {
        if let Err(refusal) = self.check_sound() {
            return self.refused(refusal);
        }
        match self.skip_length() {
            Ok(Some(passed)) => {
                let board = self.advanced(passed).board;
                let line = board.line();
                Answered {
                    board,
                    answer: Ok(Skip { passed, line }),
                }
            }
            Ok(None) => Answered {
                board: self,
                answer: Ok(Skip {
                    passed: Cycles(0),
                    line: self.line(),
                }),
            },
            Err(refusal) => self.refused(refusal),
        }
    }

    #[tactic(auto, using(crate::proofs::Answers::answer_laws))]
    pub fn source(self, number: SourceNumber, level: u8) -> Answered<()>
        ensures { answered no_members result ≡ answer_of (Call.Source number.0 level) self }
    {
        if let Err(refusal) = self.check_sound().and(check_source(number, level)) {
            return self.refused(refusal);
        }
        let set = controller::with_source(self.controller, number, level == 1);
        Answered {
            board: self.with_controller(set).wired(),
            answer: Ok(()),
        }
    }

    #[tactic(auto, using(crate::proofs::Answers::answer_laws))]
    pub fn controller_read(self, address: u32) -> Answered<u8>
        ensures { answered byte_members result ≡ answer_of (Call.ControllerRead address) self }
    {
        if let Err(refusal) = self.check_sound() {
            return self.refused(refusal);
        }
        Answered {
            board: self,
            answer: Ok(controller::read_of(self.controller, address)),
        }
    }

    #[tactic(auto, using(crate::proofs::Answers::answer_laws))]
    pub fn controller_write(self, address: u32, value: u8) -> Answered<()>
        ensures { answered no_members result ≡ answer_of (Call.ControllerWrite value address) self }
    {
        if let Err(refusal) = self.check_sound() {
            return self.refused(refusal);
        }
        let set = controller::written(self.controller, address, value);
        Answered {
            board: self.with_controller(set).wired(),
            answer: Ok(()),
        }
    }

    #[tactic(auto, using(crate::proofs::Answers::answer_laws))]
    pub fn output(self) -> Answered<IrqOutput>
        ensures { answered output_members result ≡ answer_of Call.Output self }
    {
        if let Err(refusal) = self.check_sound() {
            return self.refused(refusal);
        }
        Answered {
            board: self,
            answer: Ok(controller::output_of(self.controller)),
        }
    }
}

// A host-time call's own refusal.
#[tactic(auto, unfolding(crate::specs::Calls::host_time_refusal))]
pub fn check_host_time(host: HostTime) -> Result<(), Refusal>
    ensures { refusal_code result ≡ host_time_refusal host }
{
    if Clock::NANOS_PER_SECOND <= host.nanoseconds {
        return Err(Refusal::NanosecondsTooLarge);
    }
    Ok(())
}

// A read's or a write's own refusal, by its address.
#[tactic(auto, unfolding(crate::specs::Calls::address_refusal))]
pub fn check_address(address: u16) -> Result<(), Refusal>
    ensures { refusal_code result ≡ address_refusal address }
{
    if Board::ADDRESSES <= address {
        return Err(Refusal::AddressTooLarge);
    }
    Ok(())
}

// A source call's own refusal.
#[tactic(auto, unfolding(crate::specs::Calls::source_refusal))]
pub fn check_source(number: SourceNumber, level: u8) -> Result<(), Refusal>
    ensures { refusal_code result ≡ source_refusal number.0 level }
{
    if 15 < number.0 {
        return Err(Refusal::SourceTooLarge);
    }
    if number == Board::LINE_SOURCE {
        return Err(Refusal::SourceOfLine);
    }
    if 1 < level {
        return Err(Refusal::LevelTooLarge);
    }
    Ok(())
}
