// The words that a channel's registers read as, and what a byte written to them does. The module is not named
// `registers`: `rt try` refuses a program that uses the crate of that name where a module has the name too.
ghost use Rattle.std.specs.Prelude.{◌≡◌, ◌+◌, ◌*◌, ◌<◌};
ghost use Rattle.wide.specs.Bits.{flag_of};
ghost use Rattle.wide.specs.Fields.{with_byte};
ghost use Rattle.channel.specs.Channel.{enabled_of, with_counter, with_reload};
ghost use Rattle.channel.specs.Registers.{word_of, control_written, compare_written, prescaler_written, byte_written};

use crate::HardwareTimer;
use wide::words::{high, low};

impl HardwareTimer {
    // Offsets of the registers in the channel's block.
    pub const CTRL: u32 = 0x00;

    pub const STATUS: u32 = 0x04;

    pub const COUNT_LO: u32 = 0x08;

    pub const COUNT_HI: u32 = 0x0C;

    pub const COMPARE_LO: u32 = 0x10;

    pub const COMPARE_HI: u32 = 0x14;

    pub const RELOAD_LO: u32 = 0x18;

    pub const RELOAD_HI: u32 = 0x1C;

    pub const PRESCALER: u32 = 0x20;

    fn status(self) -> u32
        ensures { result ≡ flag_of (enabled_of self.control) + 2 * flag_of self.pending }
    {
        u32::from(self.enabled()) + 2 * u32::from(self.pending)
    }

    // The word of the register at an offset in the channel's block, 0 where there is none.
    #[tactic(auto, unfolding(crate::specs::Registers::word_of))]
    pub fn read_word(self, register: u32) -> u32
        ensures { result ≡ word_of register self }
    {
        match register {
            Self::CTRL => self.control as u32,
            Self::STATUS => self.status(),
            Self::COUNT_LO => low(self.counter),
            Self::COUNT_HI => high(self.counter),
            Self::COMPARE_LO => low(self.compare),
            Self::COMPARE_HI => high(self.compare),
            Self::RELOAD_LO => low(self.reload),
            Self::RELOAD_HI => high(self.reload),
            Self::PRESCALER => self.prescaler,
            _ => 0,
        }
    }

    #[tactic(auto, unfolding(crate::specs::Registers::control_written))]
    fn write_control(mut self, word: u64) -> Self
        ensures { result ≡ control_written word self }
    {
        self.control = (word % Self::RESET) as u8;
        if word / Self::RESET % 2 == 1 {
            self.counter = 0;
            self.phase = 0;
            self.pending = false;
            self.armed = true;
        }
        self
    }

    // Writes the byte of the counter that has `below` bytes below it. The next three functions do so for their fields.
    fn write_counter(mut self, below: usize, value: u8) -> Self
        requires { below < 8 }
        ensures { result ≡ with_counter (with_byte below value self.counter) self }
    {
        self.counter = wide::fields::with_byte(self.counter, below, value);
        self
    }

    fn write_compare(mut self, below: usize, value: u8) -> Self
        requires { below < 8 }
        ensures { result ≡ compare_written (with_byte below value self.compare) self }
    {
        self.compare = wide::fields::with_byte(self.compare, below, value);
        self.armed = true;
        self
    }

    fn write_reload(mut self, below: usize, value: u8) -> Self
        requires { below < 8 }
        ensures { result ≡ with_reload (with_byte below value self.reload) self }
    {
        self.reload = wide::fields::with_byte(self.reload, below, value);
        self
    }

    #[tactic(auto, using(wide::proofs::BigEndian::with_byte_fits))]
    fn write_prescaler(mut self, below: usize, value: u8) -> Self
        requires { below < 4 }
        ensures { result ≡ prescaler_written (with_byte below value self.prescaler) self }
    {
        self.prescaler = wide::fields::with_byte(self.prescaler as u64, below, value) as u32;
        self.phase = 0;
        self
    }

    // The channel after a byte is written to the register at an offset in its block. Byte 0 is the most significant.
    #[tactic(auto, unfolding(crate::specs::Registers::byte_written))]
    pub fn write_byte(self, register: u32, byte: usize, value: u8) -> Self
        requires { byte < 4 }
        ensures { result ≡ byte_written register byte value self }
    {
        let low = 3 - byte;
        let high = 7 - byte;
        match register {
            Self::CTRL => self.write_control(wide::fields::with_byte(
                self.control as u64,
                low,
                value,
            )),
            Self::COUNT_LO => self.write_counter(low, value),
            Self::COUNT_HI => self.write_counter(high, value),
            Self::COMPARE_LO => self.write_compare(low, value),
            Self::COMPARE_HI => self.write_compare(high, value),
            Self::RELOAD_LO => self.write_reload(low, value),
            Self::RELOAD_HI => self.write_reload(high, value),
            Self::PRESCALER => self.write_prescaler(low, value),
            _ => self,
        }
    }
}
