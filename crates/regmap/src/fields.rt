// The byte of a register's word, and the channel and the place in its block that an offset names.
ghost use Rattle.std.specs.Prelude.{◌≡◌, ◌<◌};
ghost use Rattle.board.specs.Fields.{channel_at};
ghost use Rattle.board.specs.Registers.{Inside, channel_blocks, byte_of_word, channel_of, place_of};

use crate::Registers;
use board::Board;
use channel::{ChannelNumber, HardwareTimer};

// Byte `byte` of a register's word, 0 the most significant.
pub fn byte_of_word(word: u32, byte: u32) -> u8
    requires { byte < 4 }
    ensures { result ≡ byte_of_word byte word }
{
    wide::fields::byte_above(u64::from(word), (3 - byte) as usize)
}

// The channel whose block has an offset.
pub fn channel_of(offset: u32) -> ChannelNumber
    requires { Inside channel_blocks offset }
    ensures { (result.0 ≡ channel_of offset) × (result.0 < 4) }
{
    ChannelNumber(
        ((offset - Registers::TIMER_CHANNEL_BASE) / Registers::TIMER_CHANNEL_STRIDE) as u8,
    )
}

// The offset within that block.
pub fn place_of(offset: u32) -> u32
    requires { Inside channel_blocks offset }
    ensures { result ≡ place_of offset }
{
    (offset - Registers::TIMER_CHANNEL_BASE) % Registers::TIMER_CHANNEL_STRIDE
}

// A board's channel.
pub fn channel_at(board: Board, number: ChannelNumber) -> HardwareTimer
    requires { number.0 < 4 }
    ensures { result ≡ channel_at number.0 board }
{
    board.timers[usize::from(number.0)]
}
