// Writes of a byte: the part of a board that a byte written at an offset changes, and that part after it.
ghost use Rattle.std.specs.Prelude.{◌≡◌, ◌%◌};
ghost use Rattle.channel.specs.Registers.{byte_written};
ghost use Rattle.clock.specs.Clock.{rate_of};
ghost use Rattle.clock.specs.Registers.{merge_byte};
ghost use Rattle.clock.specs.Sound.{Timed};
ghost use Rattle.board.specs.Registers.{Inside, channel_blocks, register_of, byte_of, place_of};
ghost use Rattle.board.specs.RegisterWrites.{clock_written, written_at};
ghost use Rattle.registers.specs.CodeWrites.{part_of, at_control};

use board::Board;
use channel::HardwareTimer;
use clock::Clock;
use regmap::Registers;
use regmap::fields::{channel_at, channel_of, place_of};
use regmap::writes::{acknowledged, clock_written};

// The part of a board that a byte written at an offset changes.
#[derive(Clone, Copy)]
pub enum WritePart {
    Nothing,
    // timer enable
    Enable,
    // the channels' pending
    Acknowledge,
    Clock,
    // one channel
    Channel,
}

#[tactic(auto, using(std::proofs::lemmas::Bool::Decides::nat_tests), unfolding(crate::specs::CodeWrites::part_of))]
pub fn part_at(offset: u32) -> WritePart
    ensures { result ≡ part_of offset }
{
    match offset {
        Registers::TIMER_ENABLE..=Registers::TIMER_ENABLE_LAST => WritePart::Enable,
        Registers::TIMER_ACK_LAST => WritePart::Acknowledge,
        Registers::RTC_CTRL..=Registers::RTC_ACK_LAST => WritePart::Clock,
        Registers::TIMER_CHANNEL_BASE..=Registers::TIMER_CHANNEL_LAST => WritePart::Channel,
        _ => WritePart::Nothing,
    }
}

// Whether the offset is in a channel's control register, the only one of its registers that can move the line.
pub fn at_control(offset: u32) -> bool
    requires { Inside channel_blocks offset }
    ensures { result ≡ at_control offset }
{
    place_of(offset) < 4
}

// ---- the parts

pub fn enable_after(timer_enable: u8, offset: u32, value: u8) -> u8
    ensures { result ≡ merge_byte (byte_of offset) value timer_enable % 16 }
{
    let byte = (offset % 4) as usize;
    let merged = wide::fields::with_byte(u64::from(timer_enable), 3 - byte, value);
    (merged % u64::from(Board::TIMER_ENABLE_VALUES)) as u8
}

pub fn clock_after(clock: Clock, offset: u32, value: u8) -> Clock
    requires { Timed (rate_of clock) clock }
    ensures { result ≡ clock_written (register_of offset) (byte_of offset) value clock }
{
    clock_written(clock, offset / 4 * 4, (offset % 4) as usize, value)
}

pub fn timer_after(timer: HardwareTimer, offset: u32, value: u8) -> HardwareTimer
    requires { Inside channel_blocks offset }
    ensures { result ≡ byte_written (register_of (place_of offset)) (byte_of offset) value timer }
{
    timer.write_byte(place_of(offset) / 4 * 4, (offset % 4) as usize, value)
}

// ---- the board

// The board after a byte is written at an offset.
pub(crate) fn written_at(board: Board, offset: u32, value: u8) -> Board
    requires { Timed (rate_of board.clock) board.clock }
    ensures { result ≡ written_at offset value board }
{
    match part_at(offset) {
        WritePart::Nothing => board,
        WritePart::Enable => {
            board.with_timer_enable(enable_after(board.timer_enable, offset, value))
        }
        WritePart::Acknowledge => board.with_timers(acknowledged(board.timers, value)),
        WritePart::Clock => board.with_clock(clock_after(board.clock, offset, value)),
        WritePart::Channel => {
            let number = channel_of(offset);
            let timer = channel_at(board, number);
            board.with_channel(number, timer_after(timer, offset, value))
        }
    }
}
