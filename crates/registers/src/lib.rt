// The board's registers, as functions on the board: the direct calls read and write. Each tests soundness first, and a
// refused call returns the board given.
#![tactic(auto)]

ghost use Rattle.std.specs.Prelude.{◌≡◌};
ghost use Rattle.board.specs.Calls.{answer_of};
ghost use Rattle.board.specs.Answers.{answered, no_members, byte_members};
ghost use Rattle.registers.specs.CodeReads.{after_reading};

use crate::reads::{LatchedReading, channel_index, reading_at};
use crate::writes::written_at;
use board::Board;
use board::calls::{Answered, Call, check_address};
use regmap::Registers;

pub mod reads;
pub mod writes;

// The board with a reading's latches and flags.
fn after_reading(board: Board, reading: LatchedReading) -> Board
    ensures { result ≡ after_reading reading board }
{
    let latches = reading.latches;
    let mut after = board.with_latches(latches);
    after.clock.alarm.pending = reading.plain.pending;
    after.clock.alarm.armed = reading.plain.armed;
    after
}

// The byte read at an address. It is refused for a board that is not sound, then for an address from 0x380 on.
pub fn read(board: Board, address: u16) -> Answered<u8>
    ensures { answered byte_members result ≡ answer_of (Call.Read address) board }
{
    if let Err(refusal) = board.check_sound().and(check_address(address)) {
        return board.refused(refusal);
    }
    let offset = u32::from(address) + Registers::BASE;
    let timer = board.timers[channel_index(offset)];
    let reading = reading_at(board, timer, offset);
    Answered {
        board: after_reading(board, reading).wired(),
        answer: Ok(reading.plain.byte),
    }
}

// The board after a byte is written at an address. It is refused as `read` is.
pub fn write(board: Board, address: u16, value: u8) -> Answered<()>
    ensures { answered no_members result ≡ answer_of (Call.Write value address) board }
{
    if let Err(refusal) = board.check_sound().and(check_address(address)) {
        return board.refused(refusal);
    }
    Answered {
        board: written_at(board, u32::from(address) + Registers::BASE, value).wired(),
        answer: Ok(()),
    }
}
