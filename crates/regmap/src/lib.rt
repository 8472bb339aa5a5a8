// The registers at their offsets: where they are, the words that they read as, and what a byte written does.
#![tactic(auto)]

pub mod fields;
pub mod words;
pub mod writes;

// Offsets of the registers outside the channels' blocks, and of those blocks. A name that ends in LAST is the offset of
// the last byte of a register, or of those blocks.
#[derive(Clone, Copy)]
pub struct Registers;

impl Registers {
    // The offset of address 0.
    pub const BASE: u32 = 0x180;

    pub const TIMER_ID: u32 = 0x180;

    pub const TIMER_ENABLE: u32 = 0x184;

    pub const TIMER_ENABLE_LAST: u32 = Self::TIMER_ENABLE + 3;

    pub const TIMER_PENDING: u32 = 0x188;

    pub const TIMER_ACK: u32 = 0x18C;

    pub const TIMER_ACK_LAST: u32 = Self::TIMER_ACK + 3;

    pub const RTC_CTRL: u32 = 0x200;

    pub const RTC_STATUS: u32 = 0x204;

    pub const RTC_SECONDS_LO: u32 = 0x208;

    pub const RTC_SECONDS_LO_LAST: u32 = Self::RTC_SECONDS_LO + 3;

    pub const RTC_SECONDS_HI: u32 = 0x20C;

    pub const RTC_SECONDS_HI_LAST: u32 = Self::RTC_SECONDS_HI + 3;

    pub const RTC_SUBSEC: u32 = 0x210;

    pub const RTC_ALARM_LO: u32 = 0x214;

    pub const RTC_ALARM_HI: u32 = 0x218;

    pub const RTC_IRQ_CTRL: u32 = 0x21C;

    pub const RTC_ACK: u32 = 0x220;

    pub const RTC_ACK_LAST: u32 = Self::RTC_ACK + 3;

    pub const TIMER_CHANNEL_BASE: u32 = 0x400;

    // The distance from a channel's block to the next.
    pub const TIMER_CHANNEL_STRIDE: u32 = 0x40;

    pub const TIMER_CHANNELS: usize = 4;

    pub const TIMER_CHANNEL_LAST: u32 = Self::TIMER_CHANNEL_BASE
        + Self::TIMER_CHANNELS as u32 * Self::TIMER_CHANNEL_STRIDE
        - 1;
}
