// The clock's time in seconds and nanoseconds.
ghost use Rattle.std.specs.Prelude.{◌≡◌, ◌+◌, ◌-◌, ◌<◌, ltb};
ghost use Rattle.clock.specs.Clock.{rate_of, nanos_per_second, host_nanoseconds, shifted};
ghost use Rattle.clock.specs.Clock.{own_nanoseconds, time_of, time_seconds};
ghost use Rattle.clock.specs.Registers.{signed_difference, time_nanoseconds};
ghost use Rattle.clock.specs.Sound.{Timed};

use crate::rates::divided;
use crate::{Clock, HostTime, Offset, from_host};
use wide::number::Wide;

// A length of time.
#[derive(Clone, Copy, PartialEq, Eq, PartialOrd, Ord)]
pub struct Duration {
    pub seconds: u64,
    pub nanoseconds: u32,
    pub ghost small: { nanoseconds < nanos_per_second },
}

// A time, whose seconds may exceed a word.
#[derive(Clone, Copy)]
pub struct Time {
    pub seconds: Wide,
    pub nanoseconds: u32,
    pub ghost small: { nanoseconds < nanos_per_second },
}

impl Duration {
    ghost use Rattle.clock.specs.CodeTime.{duration_of, moment_of};

    // The difference, or 0 where it is negative.
    fn minus(self, other: Duration) -> Self
        ensures { duration_of result ≡ duration_of self - duration_of other }
    {
        let s = self.seconds;
        let n = self.nanoseconds;
        let t = other.seconds;
        let m = other.nanoseconds;
        if self < other {
            return Duration {
                seconds: 0,
                nanoseconds: 0,
            };
        }
        if n < m {
            return Duration {
                seconds: s - t - 1,
                nanoseconds: n + Clock::NANOS_PER_SECOND - m,
            };
        }
        Duration {
            seconds: s - t,
            nanoseconds: n - m,
        }
    }

    fn plus(self, other: Duration) -> Time
        ensures { moment_of result ≡ duration_of self + duration_of other }
    {
        let n = self.nanoseconds + other.nanoseconds;
        let whole = Wide::from(self.seconds).sum(Wide::from(other.seconds));
        let carry = Wide::from((n / Clock::NANOS_PER_SECOND) as u64);
        Time {
            seconds: whole.sum(carry),
            nanoseconds: n % Clock::NANOS_PER_SECOND,
        }
    }

    // The offset from host time to this time. 0 is not negative.
    pub(crate) fn since(self, host: HostTime) -> Offset
        requires { host.nanoseconds < nanos_per_second }
        ensures { result ≡ signed_difference (duration_of self) (host_nanoseconds host) }
    {
        let other = host.duration();
        let negative = self < other;
        let by = if negative {
            other.minus(self)
        } else {
            self.minus(other)
        };
        Offset {
            negative,
            seconds: by.seconds,
            nanoseconds: by.nanoseconds,
        }
    }

    fn time(self) -> Time
        ensures { moment_of result ≡ duration_of self }
    {
        Time {
            seconds: Wide::from(self.seconds),
            nanoseconds: self.nanoseconds,
        }
    }
}

impl HostTime {
    ghost use Rattle.clock.specs.CodeTime.{duration_of, moment_of};

    fn duration(self) -> Duration
        requires { self.nanoseconds < nanos_per_second }
        ensures { duration_of result ≡ host_nanoseconds self }
    {
        Duration {
            seconds: self.seconds,
            nanoseconds: self.nanoseconds,
        }
    }

    // Host time plus the offset, but never below 0.
    #[tactic(auto, unfolding(crate::specs::Clock::shifted))]
    fn shifted(self, offset: Offset) -> Time
        requires { (self.nanoseconds < nanos_per_second) × (offset.nanoseconds < nanos_per_second) }
        ensures { moment_of result ≡ shifted self offset }
    {
        let host = self.duration();
        let by = Duration {
            seconds: offset.seconds,
            nanoseconds: offset.nanoseconds,
        };
        if offset.negative {
            return host.minus(by).time();
        }
        host.plus(by)
    }
}

impl Clock {
    ghost use Rattle.clock.specs.CodeTime.{duration_of, moment_of};

    // The clock's own time, from seconds and subsecond.
    #[tactic(auto, unfolding(crate::specs::Clock::own_nanoseconds))]
    pub(crate) fn own_duration(self) -> Duration
        requires { Timed (rate_of self) self }
        ensures { duration_of result ≡ own_nanoseconds (rate_of self) self }
    {
        let cycles = self.subsecond as u64;
        let part = divided(cycles * Clock::NANOS_PER_SECOND as u64, self.rate());
        Duration {
            seconds: self.seconds,
            nanoseconds: part.whole as u32,
        }
    }

    #[tactic(auto, unfolding(crate::specs::Clock::time_of))]
    pub(crate) fn time(self) -> Time
        requires { Timed (rate_of self) self }
        ensures { moment_of result ≡ time_of (rate_of self) self }
    {
        if from_host(self.control) {
            return self.host.shifted(self.offset);
        }
        self.own_duration().time()
    }

    #[tactic(auto, unfolding(crate::specs::Clock::time_seconds))]
    pub fn time_seconds(self) -> u64
        requires { Timed (rate_of self) self }
        ensures { result ≡ time_seconds (rate_of self) self }
    {
        self.time().seconds.capped()
    }

    #[tactic(auto, unfolding(crate::specs::Registers::time_nanoseconds))]
    pub fn time_nanoseconds(self) -> u32
        requires { Timed (rate_of self) self }
        ensures { result ≡ time_nanoseconds (rate_of self) self }
    {
        self.time().nanoseconds
    }
}
