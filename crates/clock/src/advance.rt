// The alarm check, and an advance of the clock.
ghost use Rattle.std.specs.Prelude.{◌≡◌, true, ◌+◌, ◌/◌, ◌%◌};
ghost use Rattle.clock.specs.Clock.{rate_of, alarm_reached, check_alarm, moved_time};
ghost use Rattle.clock.specs.Clock.{polled, end_advance, advance_clock};
ghost use Rattle.clock.specs.Sound.{Timed};
ghost use Rattle.clock.specs.CodeTime.{is_period};

use crate::rates::{Periods, divided};
use crate::{Alarm, Clock, from_host, has_bit, own_time};
use channel::Cycles;

// The whole periods in `part` and the cycles together, and the remainder. Their sum may exceed a word, so it is formed
// only where the cycles are fewer than a period.
fn elapsed(part: u32, cycles: Cycles, period: u64) -> Periods
    requires { is_period period ≡ true }
    ensures { (result.whole ≡ (part + cycles.0) / period) × (result.rest ≡ (part + cycles.0) % period) }
{
    let c = cycles.0;
    // Cycles that stay within the period need no division.
    if c < period {
        let sum = part as u64 + c;
        if sum < period {
            return Periods {
                whole: 0,
                rest: sum,
            };
        }
    }
    let a = divided(c, period);
    let b = divided(part as u64 + a.rest, period);
    Periods {
        whole: a.whole + b.whole,
        rest: b.rest,
    }
}

impl Clock {
    #[tactic(auto, unfolding(crate::specs::Clock::alarm_reached))]
    fn alarm_reached(self) -> bool
        requires { Timed (rate_of self) self }
        ensures { result ≡ alarm_reached (rate_of self) self }
    {
        // The time is computed only where an alarm waits for it.
        let waits = has_bit(self.control, Self::ENABLE) & self.alarm.armed & !self.alarm.pending;
        waits && self.alarm.seconds <= self.time_seconds()
    }

    #[tactic(auto, unfolding(crate::specs::Clock::check_alarm))]
    pub fn check_alarm(self) -> Self
        requires { Timed (rate_of self) self }
        ensures { result ≡ check_alarm (rate_of self) self }
    {
        if self.alarm_reached() {
            return self.with_alarm(Alarm {
                pending: true,
                armed: false,
                ..self.alarm
            });
        }
        self
    }

    #[tactic(auto, unfolding(crate::specs::Clock::moved_time))]
    fn moved_time(self, cycles: Cycles) -> Self
        requires { Timed (rate_of self) self }
        ensures { result ≡ moved_time (rate_of self) cycles.0 self }
    {
        if own_time(self.control) & (0 < cycles.0) {
            let e = elapsed(self.subsecond, cycles, self.rate());
            return match self.seconds.checked_add(e.whole) {
                Some(seconds) => self.with_time(seconds, e.rest as u32),
                None => self.with_time(u64::MAX, 0),
            };
        }
        self
    }

    // The end of an advance on a clock that runs from host time and waits for its alarm.
    #[tactic(auto, using(crate::proofs::Branches::poll_short, crate::proofs::Branches::poll_rest))]
    fn polled(self, cycles: Cycles) -> Self
        requires { Timed (rate_of self) self }
        ensures { result ≡ polled (rate_of self) (self.poll + cycles.0) self }
    {
        let e = elapsed(self.poll, cycles, self.poll_limit());
        let k = self.with_poll(e.rest as u32);
        if e.whole == 0 {
            return k;
        }
        k.check_alarm()
    }

    #[tactic(auto, unfolding(crate::specs::Clock::end_advance))]
    fn end_advance(self, cycles: Cycles) -> Self
        requires { Timed (rate_of self) self }
        ensures { result ≡ end_advance (rate_of self) cycles.0 self }
    {
        let waits = self.alarm.armed & !self.alarm.pending & (0 < cycles.0);
        if from_host(self.control) & waits {
            return self.polled(cycles);
        }
        self.with_poll(0).check_alarm()
    }

    #[tactic(auto, unfolding(crate::specs::Clock::advance_clock))]
    pub fn advance(self, cycles: Cycles) -> Self
        requires { Timed (rate_of self) self }
        ensures { result ≡ advance_clock (rate_of self) cycles.0 self }
    {
        self.moved_time(cycles).end_advance(cycles).rebuilt()
    }
}
