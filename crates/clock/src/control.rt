// Changes of the clock's control, which keep its time.
ghost use Rattle.std.specs.Prelude.{◌≡◌, true, ◌<◌};
ghost use Rattle.clock.specs.Clock.{rate_of, nanos_per_second};
ghost use Rattle.clock.specs.Registers.{own_time_set, set_time, takes_own, time_kept, change_control, write_control};
ghost use Rattle.clock.specs.Sound.{sound_rate, Timed};
ghost use Rattle.clock.specs.CodeTime.{moment_of};

use crate::time::Time;
use crate::{Clock, Shadow, from_host, has_bit};

// Whether the change from old to new sets seconds and subsecond.
fn takes_own(new: u8, old: u8) -> bool
    ensures { result ≡ takes_own new old }
{
    let realtime = has_bit(new, Clock::REALTIME);
    if has_bit(new, Clock::ENABLE) {
        return !realtime & has_bit(old, Clock::REALTIME);
    }
    has_bit(old, Clock::ENABLE)
}

impl Clock {
    // Sets seconds, subsecond and the shadow's value.
    fn own_time_set(self, seconds: u64, subsecond: u32) -> Self
        ensures { result ≡ own_time_set seconds subsecond self }
    {
        let k = self.with_time(seconds, subsecond);
        k.with_shadow(Shadow {
            value: seconds,
            ..self.shadow
        })
    }

    #[tactic(auto, unfolding(crate::specs::Registers::set_time))]
    fn set_time(self, time: Time) -> Self
        requires { sound_rate (rate_of self) ≡ true }
        ensures { result ≡ set_time (rate_of self) (moment_of time) self }
    {
        let n = time.nanoseconds as u64;
        let high = time.seconds.high;
        let low = time.seconds.low;
        if high == 0 {
            return self.own_time_set(
                low,
                (n * self.rate() / Self::NANOS_PER_SECOND as u64) as u32,
            );
        }
        self.own_time_set(u64::MAX, 0)
    }

    // Keeps the clock's time where the new control reads it: in the offset, or in seconds and subsecond.
    #[tactic(auto, unfolding(crate::specs::Registers::time_kept))]
    fn time_kept(self, new: u8) -> Self
        requires { Timed (rate_of self) self }
        ensures { result ≡ time_kept (rate_of self) new self }
    {
        let old = self.control;
        if from_host(new) & !from_host(old) {
            return self.with_offset(self.own_duration().since(self.host));
        }
        if takes_own(new, old) {
            return self.set_time(self.time());
        }
        self
    }

    #[tactic(auto, unfolding(crate::specs::Registers::change_control))]
    fn change_control(self, new: u8) -> Self
        requires { Timed (rate_of self) self }
        ensures { result ≡ change_control (rate_of self) new self }
    {
        self.time_kept(new).with_control(new).check_alarm()
    }

    // The clock after byte `byte` of the control register is written, 0 the most significant.
    #[tactic(auto, unfolding(crate::specs::Registers::write_control))]
    pub fn write_control(self, byte: usize, value: u8) -> Self
        requires { (byte < 4) × Timed (rate_of self) self }
        ensures { result ≡ write_control (rate_of self) byte value self }
    {
        let merged = wide::fields::with_byte(self.control as u64, 3 - byte, value);
        self.change_control((merged % Self::CONTROL_VALUES as u64) as u8)
    }
}
