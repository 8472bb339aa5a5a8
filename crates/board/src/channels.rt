// The four channels together: loops that apply a channel's operation to each, or join what each answers.
ghost use Rattle.std.specs.Prelude.{◌≡◌, true};
ghost use Rattle.wide.specs.Deadline.{number_of};
ghost use Rattle.board.specs.Channels.{advanced_all, soonest_of, any_line, all_sound};
ghost use Rattle.board.specs.CodeCalls.{matches_given};

use crate::Board;
use channel::{ChannelNumber, Cycles, HardwareTimer};
use wide::deadline::sooner;
use wide::number::Wide;

pub fn all_sound(timers: &[HardwareTimer; 4]) -> bool
    ensures { result ≡ all_sound timers.now }
{
    let mut all = true;
    for t in timers {
        all &= t.sound();
    }
    all
}

pub fn any_asserted(timers: &[HardwareTimer; 4]) -> bool
    ensures { result ≡ any_line timers.now }
{
    let mut any = false;
    for t in timers {
        any |= t.asserted();
    }
    any
}

pub fn soonest(timers: &[HardwareTimer; 4], timer_enable: u8) -> Option<Wide>
    requires { all_sound timers.now ≡ true }
    ensures { number_of result ≡ soonest_of timer_enable timers.now }
{
    let mut soonest = None;
    for (i, t) in timers.iter().enumerate() {
        let selected = ChannelNumber(i as u8).selected(timer_enable);
        soonest = sooner(soonest, t.cycles_until_match(selected));
    }
    soonest
}

// The channels after an advance, and the compare points that each met.
#[derive(Clone, Copy)]
pub struct AdvancedChannels {
    pub timers: [HardwareTimer; 4],
    pub matches: [Wide; 4],
}

pub fn advance_all(timers: [HardwareTimer; 4], timer_enable: u8, cycles: Cycles) -> AdvancedChannels
    requires { all_sound timers ≡ true }
    ensures { (result.timers ≡ advanced_all timer_enable cycles.0 timers)
        × (result.matches ≡ matches_given timer_enable cycles.0 timers) }
{
    let mut out = timers;
    let mut matches = [Wide::from(0); 4];
    for i in 0..Board::CHANNELS {
        let selected = ChannelNumber(i as u8).selected(timer_enable);
        let after = out[i].advance_cycles(selected, cycles);
        out[i] = after.timer;
        matches[i] = after.matches;
    }
    AdvancedChannels {
        timers: out,
        matches,
    }
}
