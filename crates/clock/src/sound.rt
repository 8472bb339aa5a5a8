// The clock's clauses of a sound board. Sound is document 01's term.
ghost use Rattle.std.specs.Prelude.{◌≡◌};
ghost use Rattle.clock.specs.Clock.{rate_of};
ghost use Rattle.clock.specs.Sound.{sound_offset, sound_alarm, sound_fields, alarm_ahead, sound_clock};

use crate::{Alarm, Clock, Offset, Shadow, own_time};

impl Offset {
    #[tactic(auto, unfolding(crate::specs::Sound::sound_offset))]
    fn sound(self) -> bool
        ensures { result ≡ sound_offset self }
    {
        let zero = (self.seconds == 0) & (self.nanoseconds == 0);
        (self.nanoseconds < Clock::NANOS_PER_SECOND) & !(self.negative & zero)
    }
}

impl Alarm {
    #[tactic(auto, unfolding(crate::specs::Sound::sound_alarm))]
    fn sound(self) -> bool
        ensures { result ≡ sound_alarm self }
    {
        (self.enable < Self::ENABLE_VALUES) & !(self.pending & self.armed)
    }
}

impl Clock {
    #[tactic(auto, unfolding(crate::specs::Sound::sound_fields))]
    fn sound_parts(self) -> bool
        ensures { result ≡ sound_fields (rate_of self) self }
    {
        (self.control < Self::CONTROL_VALUES)
            & ((self.subsecond as u64) < self.rate())
            & self.offset.sound()
            & self.alarm.sound()
            & (self.shadow.mask < Shadow::FULL)
            & ((self.poll as u64) < self.poll_limit())
            & (self.alarm_shadow.mask < Shadow::FULL)
            & (self.host.nanoseconds < Self::NANOS_PER_SECOND)
    }

    #[tactic(auto, unfolding(crate::specs::Sound::alarm_ahead))]
    fn alarm_ahead(self) -> bool
        ensures { result ≡ alarm_ahead self }
    {
        !(self.alarm.armed & own_time(self.control)) | (self.seconds < self.alarm.seconds)
    }

    #[tactic(auto, unfolding(crate::specs::Sound::sound_clock))]
    pub fn sound(self) -> bool
        ensures { result ≡ sound_clock (rate_of self) self }
    {
        self.sound_parts() & self.alarm_ahead()
    }
}
