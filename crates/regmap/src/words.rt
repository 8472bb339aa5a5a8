// The words that the timers' and the clock's registers read as.
ghost use Rattle.std.specs.Prelude.{◌≡◌};
ghost use Rattle.clock.specs.Clock.{rate_of};
ghost use Rattle.clock.specs.Sound.{Timed};
ghost use Rattle.board.specs.RegisterWords.{pending_word, timer_word, clock_word};

use crate::Registers;
use channel::HardwareTimer;
use clock::Clock;
use wide::words::{high, low};

// What TIMER_ID reads as.
const ID: u32 = 0x5154_0001;

// The word of TIMER_PENDING: a bit for each channel, channel 0's the lowest.
fn timer_pending(timers: [HardwareTimer; 4]) -> u32
    ensures { result ≡ pending_word timers }
{
    let mut word = 0;
    for (i, t) in timers.iter().enumerate() {
        word += u32::from(t.pending) << i;
    }
    word
}

// The word of a register that all channels share.
#[tactic(auto, unfolding(board::specs::RegisterWords::timer_word))]
pub fn timer_word(timers: [HardwareTimer; 4], timer_enable: u8, register: u32) -> u32
    ensures { result ≡ timer_word register timer_enable timers }
{
    match register {
        Registers::TIMER_ID => ID,
        Registers::TIMER_ENABLE => u32::from(timer_enable),
        Registers::TIMER_PENDING => timer_pending(timers),
        _ => 0,
    }
}

// The word of a register of the clock.
#[tactic(auto, unfolding(board::specs::RegisterWords::clock_word))]
pub fn clock_word(clock: Clock, register: u32) -> u32
    requires { Timed (rate_of clock) clock }
    ensures { result ≡ clock_word register clock }
{
    let alarm = clock.alarm;
    match register {
        Registers::RTC_CTRL => u32::from(clock.control),
        Registers::RTC_STATUS => alarm.status(),
        Registers::RTC_SECONDS_LO => low(clock.time_seconds()),
        Registers::RTC_SECONDS_HI => high(clock.time_seconds()),
        Registers::RTC_SUBSEC => clock.time_nanoseconds(),
        Registers::RTC_ALARM_LO => low(alarm.seconds),
        Registers::RTC_ALARM_HI => high(alarm.seconds),
        Registers::RTC_IRQ_CTRL => u32::from(alarm.enable),
        _ => 0,
    }
}
