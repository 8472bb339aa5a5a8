// Bytes written to the clock's seconds, alarm and interrupt registers, and the word that the status register reads as.
ghost use Rattle.std.specs.Prelude.{◌≡◌, ◌<◌};
ghost use Rattle.clock.specs.Clock.{rate_of};
ghost use Rattle.clock.specs.Registers.{marked, shadow_byte, offset_for, commit_seconds};
ghost use Rattle.clock.specs.Registers.{write_seconds, commit_alarm, write_alarm};
ghost use Rattle.clock.specs.Registers.{write_alarm_enable, acknowledge, status_word};
ghost use Rattle.clock.specs.Sound.{Timed};

use crate::time::Duration;
use crate::{Alarm, Clock, Shadow, from_host, has_bit};

// The mask with the bit of a byte set.
#[tactic(auto, unfolding(crate::specs::Registers::marked))]
fn marked(mask: u8, byte: usize) -> u8
    requires { byte < 8 }
    ensures { result ≡ marked byte mask }
{
    let unit = 1u8 << byte;
    if has_bit(mask, unit) {
        return mask;
    }
    mask + unit
}

impl Shadow {
    // The shadow after byte `byte` of the eight is written, 0 the most significant.
    #[tactic(auto, unfolding(crate::specs::Registers::shadow_byte))]
    fn with_byte(self, byte: usize, value: u8) -> Self
        requires { byte < 8 }
        ensures { result ≡ shadow_byte byte value self }
    {
        Shadow {
            value: wide::fields::with_byte(self.value, 7 - byte, value),
            mask: marked(self.mask, byte),
        }
    }
}

impl Clock {
    // Where the clock runs from host time, sets the offset that makes the time this many seconds.
    #[tactic(auto, unfolding(crate::specs::Registers::offset_for))]
    fn offset_for(self, seconds: u64) -> Self
        requires { Timed (rate_of self) self }
        ensures { result ≡ offset_for seconds self }
    {
        if from_host(self.control) {
            let set = Duration {
                seconds,
                nanoseconds: 0,
            };
            return self.with_offset(set.since(self.host));
        }
        self
    }

    #[tactic(auto, unfolding(crate::specs::Registers::commit_seconds))]
    fn commit_seconds(self, shadow: Shadow) -> Self
        requires { Timed (rate_of self) self }
        ensures { result ≡ commit_seconds (rate_of self) shadow self }
    {
        let value = shadow.value;
        let k = self.offset_for(value).with_time(value, 0);
        k.with_shadow(Shadow { value, mask: 0 }).check_alarm()
    }

    // The clock after byte `byte` of seconds is written, 0 the most significant. Without set enable nothing changes.
    #[tactic(auto, unfolding(crate::specs::Registers::write_seconds))]
    pub fn write_seconds(self, byte: usize, value: u8) -> Self
        requires { (byte < 8) × Timed (rate_of self) self }
        ensures { result ≡ write_seconds (rate_of self) byte value self }
    {
        if has_bit(self.control, Self::SET_ENABLE) {
            let s = self.shadow.with_byte(byte, value);
            if s.mask == Shadow::FULL {
                return self.commit_seconds(s);
            }
            return self.with_shadow(s);
        }
        self
    }

    #[tactic(auto, unfolding(crate::specs::Registers::commit_alarm))]
    fn commit_alarm(self, shadow: Shadow) -> Self
        requires { Timed (rate_of self) self }
        ensures { result ≡ commit_alarm (rate_of self) shadow self }
    {
        let value = shadow.value;
        let k = self.with_alarm(Alarm {
            seconds: value,
            pending: false,
            armed: true,
            ..self.alarm
        });
        k.with_alarm_shadow(Shadow { value, mask: 0 }).check_alarm()
    }

    // The clock after byte `byte` of the alarm is written, 0 the most significant.
    #[tactic(auto, unfolding(crate::specs::Registers::write_alarm))]
    pub fn write_alarm(self, byte: usize, value: u8) -> Self
        requires { (byte < 8) × Timed (rate_of self) self }
        ensures { result ≡ write_alarm (rate_of self) byte value self }
    {
        let s = self.alarm_shadow.with_byte(byte, value);
        if s.mask == Shadow::FULL {
            return self.commit_alarm(s);
        }
        self.with_alarm_shadow(s)
    }

    // The clock after byte `byte` of the alarm's interrupt control is written, 0 the most significant.
    #[tactic(auto, unfolding(crate::specs::Registers::write_alarm_enable))]
    pub fn write_alarm_enable(self, byte: usize, value: u8) -> Self
        requires { byte < 4 }
        ensures { result ≡ write_alarm_enable byte value self }
    {
        let merged = wide::fields::with_byte(self.alarm.enable as u64, 3 - byte, value);
        self.with_alarm(Alarm {
            enable: (merged % Alarm::ENABLE_VALUES as u64) as u8,
            ..self.alarm
        })
    }

    // The clock after byte `byte` of the acknowledge register is written, 0 the most significant.
    #[tactic(auto, unfolding(crate::specs::Registers::acknowledge))]
    pub fn acknowledge(self, byte: usize, value: u8) -> Self
        ensures { result ≡ acknowledge byte value self }
    {
        if (byte == Alarm::ACK_BYTE) & has_bit(value, Alarm::ACK) {
            return self.with_alarm(Alarm {
                pending: false,
                ..self.alarm
            });
        }
        self
    }
}

impl Alarm {
    // The word of the status register: pending in bit 0, armed in bit 1.
    pub fn status(self) -> u32
        ensures { result ≡ status_word self }
    {
        u32::from(self.pending) + 2 * u32::from(self.armed)
    }
}
