// What a byte written to a register does.
ghost use Rattle.std.specs.Prelude.{◌≡◌, ◌<◌};
ghost use Rattle.clock.specs.Clock.{rate_of};
ghost use Rattle.clock.specs.Sound.{Timed};
ghost use Rattle.board.specs.RegisterWrites.{cleared_by, acknowledged, clock_written};

use crate::Registers;
use channel::{ChannelNumber, HardwareTimer};
use clock::Clock;

// The channel with pending cleared where `clear` is set.
fn cleared_by(mut timer: HardwareTimer, clear: bool) -> HardwareTimer
    ensures { result ≡ cleared_by clear timer }
{
    if clear {
        timer.pending = false;
    }
    timer
}

// The channels, with pending cleared in each whose bit is set in the byte.
pub fn acknowledged(timers: [HardwareTimer; 4], value: u8) -> [HardwareTimer; 4]
    ensures { result ≡ acknowledged value timers }
{
    let mut out = timers;
    for (i, t) in out.iter_mut().enumerate() {
        *t = cleared_by(*t, ChannelNumber(i as u8).selected(value));
    }
    out
}

// The clock after byte `byte` of one of its registers is written, 0 the most significant.
#[tactic(auto, unfolding(board::specs::RegisterWrites::clock_written))]
pub fn clock_written(clock: Clock, register: u32, byte: usize, value: u8) -> Clock
    requires { (byte < 4) × Timed (rate_of clock) clock }
    ensures { result ≡ clock_written register byte value clock }
{
    let low = byte + 4;
    match register {
        Registers::RTC_CTRL => clock.write_control(byte, value),
        Registers::RTC_SECONDS_LO => clock.write_seconds(low, value),
        Registers::RTC_SECONDS_HI => clock.write_seconds(byte, value),
        Registers::RTC_ALARM_LO => clock.write_alarm(low, value),
        Registers::RTC_ALARM_HI => clock.write_alarm(byte, value),
        Registers::RTC_IRQ_CTRL => clock.write_alarm_enable(byte, value),
        Registers::RTC_ACK => clock.acknowledge(byte, value),
        _ => clock,
    }
}
