// A timer channel of the board. Cycles become ticks at its prescaler, and ticks reach its counter.
#![tactic(auto)]

ghost use Rattle.std.specs.Prelude.{◌≡◌};
ghost use Rattle.wide.specs.Bits.{bit};
ghost use Rattle.channel.specs.Channel.{fresh_timer, mode_of, mode_number, enabled_of, irq_enabled_of, line_of};
ghost use Rattle.channel.specs.Channel.{sound_timer, TimerFits};

use wide::number::Wide;

mod deadline;
mod modes;
mod prescaler;
mod timer_registers;

// Cycles of the master clock. Only a channel's prescaler converts them to ticks.
#[derive(Clone, Copy)]
pub struct Cycles(pub u64);

// Ticks of a channel, which its prescaler gives.
#[derive(Clone, Copy)]
pub struct Ticks(pub u64);

// A channel after an advance, and how many compare points the advance met, at most 2^64.
#[derive(Clone, Copy)]
pub struct Advanced {
    pub timer: HardwareTimer,
    pub matches: Wide,
}

// A channel's number on the board, 0 to 3.
#[derive(Clone, Copy)]
pub struct ChannelNumber(pub u8);

impl ChannelNumber {
    // Timer enable is a byte: no channel from this number on has a bit in it.
    const TIMER_ENABLE_BITS: u8 = 8;

    // The channel's bit in timer enable.
    pub fn selected(self, timer_enable: u8) -> bool
        ensures { result ≡ bit self.0 timer_enable }
    {
        self.0 < Self::TIMER_ENABLE_BITS && (timer_enable >> self.0) % 2 == 1
    }
}

// A channel's fields. The small ones come first, which leaves the least padding.
#[derive(Clone, Copy)]
pub struct HardwareTimer {
    pub control: u8,
    pub pending: bool,
    pub armed: bool,
    pub prescaler: u32,
    // The cycles since the last tick.
    pub phase: u32,
    pub counter: u64,
    pub compare: u64,
    pub reload: u64,
}

// What ticks do to a channel, by bits 0 and 1 of its control. An idle one they leave as it is.
#[derive(Clone, Copy)]
pub enum Mode {
    OneShot,
    Periodic,
    FreeRunning,
    Idle,
}

impl HardwareTimer {
    // Control has the mode in bits 0 and 1, enable in bit 2 and interrupt enable in bit 3. The mode is the remainder by
    // MODES; ENABLE and IRQ_ENABLE are the values of their bits.
    const MODES: u8 = 4;

    const ENABLE: u8 = 4;

    const IRQ_ENABLE: u8 = 8;

    const CONTROL_VALUES: u8 = 16;

    // The bit of a written control word that resets the channel. The bits below it are control.
    const RESET: u64 = 16;

    // A channel of the fresh board.
    pub fn fresh() -> Self
        ensures { result ≡ fresh_timer }
    {
        HardwareTimer {
            control: 0,
            pending: false,
            armed: false,
            prescaler: 0,
            phase: 0,
            counter: 0,
            compare: 0,
            reload: 0,
        }
    }

    // The same channel, built field by field. A copy of the whole struct copies its padding too; this does not.
    fn rebuilt(self) -> Self
        ensures { result ≡ self }
    {
        HardwareTimer {
            control: self.control,
            pending: self.pending,
            armed: self.armed,
            prescaler: self.prescaler,
            phase: self.phase,
            counter: self.counter,
            compare: self.compare,
            reload: self.reload,
        }
    }

    // The channel's mode, from control.
    pub fn mode(self) -> Mode
        ensures { mode_number result ≡ mode_of self.control }
    {
        match self.control % Self::MODES {
            0 => Mode::OneShot,
            1 => Mode::Periodic,
            2 => Mode::FreeRunning,
            _ => Mode::Idle,
        }
    }

    #[tactic(auto, unfolding(crate::specs::Channel::enabled_of))]
    pub fn enabled(self) -> bool
        ensures { result ≡ enabled_of self.control }
    {
        self.control / Self::ENABLE % 2 == 1
    }

    #[tactic(auto, unfolding(crate::specs::Channel::irq_enabled_of))]
    pub fn irq_enabled(self) -> bool
        ensures { result ≡ irq_enabled_of self.control }
    {
        self.control / Self::IRQ_ENABLE % 2 == 1
    }

    // Whether the channel holds the line high.
    #[tactic(auto, unfolding(crate::specs::Channel::line_of))]
    pub fn asserted(self) -> bool
        ensures { result ≡ line_of self }
    {
        self.pending && self.irq_enabled()
    }

    // Whether the channel is sound. The contract also says that every field is within its width, which the deadline's
    // laws need.
    #[tactic(auto, using(crate::proofs::Prescaling::at_most_is), unfolding(crate::specs::Channel::sound_timer))]
    pub fn sound(self) -> bool
        ensures { (result ≡ sound_timer self) × TimerFits self }
    {
        (self.control < Self::CONTROL_VALUES) & (self.phase <= self.prescaler)
    }
}
