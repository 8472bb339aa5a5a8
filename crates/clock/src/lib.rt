// The board's clock: its time from cycles or from host time, its alarm, and the bytes of its registers.
#![tactic(auto)]

ghost use Rattle.std.specs.Prelude.{◌≡◌, ◌<◌, ◌/◌, ◌%◌, eqb};
ghost use Rattle.clock.specs.Fields.{with_control, with_time, with_offset, with_alarm, with_shadow};
ghost use Rattle.clock.specs.Fields.{with_poll, with_alarm_shadow, with_host};
ghost use Rattle.clock.specs.Fields.{fresh_clock_at};
ghost use Rattle.clock.specs.Clock.{rate_of, poll_limit, from_host, own_time};

pub mod advance;
pub mod clock_registers;
pub mod control;
pub mod deadline;
pub mod rates;
pub mod sound;
pub mod time;

// The offset that is added to host time, as sign and magnitude.
#[derive(Clone, Copy)]
pub struct Offset {
    pub negative: bool,
    pub seconds: u64,
    pub nanoseconds: u32,
}

#[derive(Clone, Copy)]
pub struct Alarm {
    pub enable: u8,
    pub seconds: u64,
    pub pending: bool,
    pub armed: bool,
}

// The bytes written to a register of eight bytes and not yet committed. The mask has a bit for each.
#[derive(Clone, Copy)]
pub struct Shadow {
    pub value: u64,
    pub mask: u8,
}

#[derive(Clone, Copy)]
pub struct HostTime {
    pub seconds: u64,
    pub nanoseconds: u32,
}

#[derive(Clone, Copy)]
pub struct Clock {
    // Cycles a second.
    pub rate: u32,
    pub control: u8,
    pub seconds: u64,
    pub subsecond: u32,
    pub offset: Offset,
    pub alarm: Alarm,
    pub shadow: Shadow,
    pub poll: u32,
    pub alarm_shadow: Shadow,
    pub host: HostTime,
}

// Whether the bit of n whose value is `unit` is set.
fn has_bit(n: u8, unit: u8) -> bool
    requires { 0 < unit }
    ensures { result ≡ eqb (n / unit % 2) 1 }
{
    n / unit % 2 == 1
}

// Whether a clock with this control runs from host time.
pub fn from_host(control: u8) -> bool
    ensures { result ≡ from_host control }
{
    has_bit(control, Clock::ENABLE) & has_bit(control, Clock::REALTIME)
}

// Whether cycles move a clock with this control.
fn own_time(control: u8) -> bool
    ensures { result ≡ own_time control }
{
    has_bit(control, Clock::ENABLE) & !has_bit(control, Clock::REALTIME)
}

impl Alarm {
    // The bit of the alarm's enable.
    const IRQ_ENABLE: u8 = 1;

    // Enable has only that bit, and so this many values.
    const ENABLE_VALUES: u8 = 2;

    // The byte of the acknowledge register, 0 the most significant, and the bit in it that clears pending.
    const ACK_BYTE: usize = 3;

    const ACK: u8 = 1;
}

impl Shadow {
    // The mask with all eight bytes written.
    const FULL: u8 = 255;
}

impl Clock {
    // Cycles a second: of a clock without a given rate, and the two other rates of a sound board.
    pub const RATE: u32 = 48_000_000;

    pub const RATE_12_MHZ: u32 = 12_000_000;

    pub const RATE_1_MHZ: u32 = 1_000_000;

    // Alarm checks in a second of a clock that runs from host time.
    pub const POLLS_PER_SECOND: u64 = 1_000;

    pub const NANOS_PER_SECOND: u32 = 1_000_000_000;

    // Bits of control.
    pub const ENABLE: u8 = 1;

    pub const SET_ENABLE: u8 = 2;

    pub const REALTIME: u8 = 4;

    // Control has those three bits, and so this many values.
    pub const CONTROL_VALUES: u8 = 8;

    // The clock of a fresh board at a rate.
    pub fn fresh_at(rate: u32) -> Self
        ensures { result ≡ fresh_clock_at rate }
    {
        Clock {
            rate,
            control: Self::ENABLE,
            seconds: 0,
            subsecond: 0,
            offset: Offset {
                negative: false,
                seconds: 0,
                nanoseconds: 0,
            },
            alarm: Alarm {
                enable: 0,
                seconds: 0,
                pending: false,
                armed: false,
            },
            shadow: Shadow { value: 0, mask: 0 },
            poll: 0,
            alarm_shadow: Shadow { value: 0, mask: 0 },
            host: HostTime {
                seconds: 0,
                nanoseconds: 0,
            },
        }
    }

    // This clock's cycles a second.
    pub fn rate(self) -> u64
        ensures { result ≡ rate_of self }
    {
        self.rate as u64
    }

    // The cycles between two alarm checks of this clock, while it runs from host time.
    fn poll_limit(self) -> u64
        ensures { result ≡ poll_limit (rate_of self) }
    {
        self.rate() / Self::POLLS_PER_SECOND
    }

    // The same clock, built field by field. A copy of the whole struct copies its padding too; this does not.
    fn rebuilt(self) -> Self
        ensures { result ≡ self }
    {
        let offset = self.offset;
        let alarm = self.alarm;
        let shadow = self.shadow;
        let alarm_shadow = self.alarm_shadow;
        let host = self.host;
        Clock {
            rate: self.rate,
            control: self.control,
            seconds: self.seconds,
            subsecond: self.subsecond,
            offset: Offset {
                negative: offset.negative,
                seconds: offset.seconds,
                nanoseconds: offset.nanoseconds,
            },
            alarm: Alarm {
                enable: alarm.enable,
                seconds: alarm.seconds,
                pending: alarm.pending,
                armed: alarm.armed,
            },
            shadow: Shadow {
                value: shadow.value,
                mask: shadow.mask,
            },
            poll: self.poll,
            alarm_shadow: Shadow {
                value: alarm_shadow.value,
                mask: alarm_shadow.mask,
            },
            host: HostTime {
                seconds: host.seconds,
                nanoseconds: host.nanoseconds,
            },
        }
    }

    pub fn with_host(mut self, host: HostTime) -> Self
        ensures { result ≡ with_host host self }
    {
        self.host = host;
        self
    }

    fn with_alarm(mut self, alarm: Alarm) -> Self
        ensures { result ≡ with_alarm alarm self }
    {
        self.alarm = alarm;
        self
    }

    fn with_control(mut self, control: u8) -> Self
        ensures { result ≡ with_control control self }
    {
        self.control = control;
        self
    }

    fn with_time(mut self, seconds: u64, subsecond: u32) -> Self
        ensures { result ≡ with_time seconds subsecond self }
    {
        self.seconds = seconds;
        self.subsecond = subsecond;
        self
    }

    fn with_offset(mut self, offset: Offset) -> Self
        ensures { result ≡ with_offset offset self }
    {
        self.offset = offset;
        self
    }

    fn with_shadow(mut self, shadow: Shadow) -> Self
        ensures { result ≡ with_shadow shadow self }
    {
        self.shadow = shadow;
        self
    }

    fn with_poll(mut self, poll: u32) -> Self
        ensures { result ≡ with_poll poll self }
    {
        self.poll = poll;
        self
    }

    fn with_alarm_shadow(mut self, shadow: Shadow) -> Self
        ensures { result ≡ with_alarm_shadow shadow self }
    {
        self.alarm_shadow = shadow;
        self
    }
}
