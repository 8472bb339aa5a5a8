// Whether the clock holds the board's line high, and the clock's deadline.
ghost use Rattle.std.specs.Prelude.{◌≡◌, ◌<◌};
ghost use Rattle.wide.specs.Deadline.{number_of};
ghost use Rattle.clock.specs.Clock.{rate_of};
ghost use Rattle.clock.specs.Deadline.{clock_line, awaited, clock_deadline};

use crate::{Alarm, Clock, has_bit, own_time};
use wide::number::Wide;

impl Clock {
    // Whether the alarm is pending and enabled.
    pub fn line(self) -> bool
        ensures { result ≡ clock_line self }
    {
        self.alarm.pending & has_bit(self.alarm.enable, Alarm::IRQ_ENABLE)
    }

    // Whether cycles will bring the alarm's interrupt.
    fn awaited(self) -> bool
        ensures { result ≡ awaited self }
    {
        let waits = self.alarm.armed & !self.alarm.pending;
        own_time(self.control) & has_bit(self.alarm.enable, Alarm::IRQ_ENABLE) & waits
    }

    // The cycles until the alarm's interrupt, or none.
    #[tactic(auto, using(crate::proofs::Branches::second_ahead), unfolding(crate::specs::Deadline::clock_deadline))]
    pub fn deadline(self) -> Option<Wide>
        requires { self.subsecond < rate_of self }
        ensures { number_of result ≡ clock_deadline (rate_of self) self }
    {
        let alarm = self.alarm.seconds;
        let seconds = self.seconds;
        let subsecond = self.subsecond as u64;
        if self.awaited() {
            if alarm <= seconds {
                return Some(Wide::from(1));
            }
            let whole = Wide::product(alarm - seconds, self.rate());
            return Some(whole.difference(Wide::from(subsecond)));
        }
        None
    }
}
