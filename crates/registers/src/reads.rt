// Reads of a byte, with the latches: what a read answers and what it stores.
ghost use Rattle.std.specs.Prelude.{◌≡◌, true, ◌<◌};
ghost use Rattle.clock.specs.Clock.{rate_of};
ghost use Rattle.clock.specs.Sound.{Timed};
ghost use Rattle.board.specs.Fields.{channel_at};
ghost use Rattle.board.specs.Registers.{in_channels, register_of};
ghost use Rattle.board.specs.RegisterWords.{timer_word};
ghost use Rattle.registers.specs.CodeReads.{channel_index, at_count_low, at_count_high, with_count, count_filled};
ghost use Rattle.registers.specs.CodeReads.{count_serving, serving, count_freed, latch_freed, freed_at};
ghost use Rattle.registers.specs.CodeReads.{word_at, reading_of, offset_reading, plain_at};

use board::{Board, CountLatch, Latches};
use channel::HardwareTimer;
use clock::Clock;
use regmap::Registers;
use regmap::fields::{byte_of_word, channel_of, place_of};
use regmap::words::{clock_word, timer_word};
use wide::words::{high, low};

// What a read gives and stores that leaves the latches unchanged: the byte, the alarm's two flags, and whether its
// alarm check set pending.
#[derive(Clone, Copy)]
pub struct PlainReading {
    pub byte: u8,
    pub pending: bool,
    pub armed: bool,
    pub rose: bool,
}

// The same for every read, with the latches after it. They come first, so that no padding is copied with them.
#[derive(Clone, Copy)]
pub struct LatchedReading {
    pub latches: Latches,
    pub plain: PlainReading,
}

// ---- where the offset is

fn in_channels(offset: u32) -> bool
    ensures { result ≡ in_channels offset }
{
    (Registers::TIMER_CHANNEL_BASE <= offset) & (offset <= Registers::TIMER_CHANNEL_LAST)
}

// The number of the channel in whose block the offset is, 0 elsewhere.
#[tactic(auto, using(regmap::proofs::Ranges::bounds), unfolding(crate::specs::CodeReads::channel_index))]
pub fn channel_index(offset: u32) -> usize
    ensures { (result ≡ channel_index offset) × (result < 4) }
{
    if in_channels(offset) {
        return usize::from(channel_of(offset).0);
    }
    0
}

// Whether the offset is byte 0 of a count's low word.
#[tactic(auto, using(regmap::proofs::Ranges::bounds), unfolding(crate::specs::CodeReads::at_count_low))]
fn at_count_low(offset: u32) -> bool
    ensures { result ≡ at_count_low offset }
{
    in_channels(offset) && place_of(offset) == HardwareTimer::COUNT_LO
}

// Whether the offset is in a count's high word.
#[tactic(auto, using(regmap::proofs::Ranges::bounds), unfolding(crate::specs::CodeReads::at_count_high))]
fn at_count_high(offset: u32) -> bool
    ensures { result ≡ at_count_high offset }
{
    in_channels(offset) && place_of(offset) / 4 * 4 == HardwareTimer::COUNT_HI
}

// ---- the latches

fn with_count(mut latches: Latches, index: usize, latch: Option<u32>) -> Latches
    requires { index < 4 }
    ensures { result ≡ with_count index latch latches }
{
    latches.counts[index] = CountLatch { high: latch };
    latches
}

// Byte 0 of a count's low word fills the latch of its high word.
#[tactic(auto, unfolding(crate::specs::CodeReads::count_filled))]
fn count_filled(latches: Latches, counter: u64, offset: u32) -> Latches
    ensures { result ≡ count_filled offset counter latches }
{
    if at_count_low(offset) {
        return with_count(latches, channel_index(offset), Some(high(counter)));
    }
    latches
}

// The latch of a count that serves an offset.
#[tactic(auto, unfolding(crate::specs::CodeReads::count_serving))]
fn count_serving(latches: Latches, offset: u32) -> Option<u32>
    ensures { result ≡ count_serving offset latches }
{
    if at_count_high(offset) {
        return latches.counts[channel_index(offset)].high;
    }
    None
}

// The latch that serves an offset; elsewhere an empty one.
#[tactic(auto, using(std::proofs::lemmas::Bool::Decides::nat_tests), unfolding(crate::specs::CodeReads::serving))]
fn serving(latches: Latches, offset: u32) -> Option<u32>
    ensures { result ≡ serving offset latches }
{
    match offset {
        Registers::RTC_SECONDS_LO..=Registers::RTC_SECONDS_LO_LAST => latches.low,
        Registers::RTC_SECONDS_HI..=Registers::RTC_SECONDS_HI_LAST => latches.high,
        _ => count_serving(latches, offset),
    }
}

// The latches with the latch of a count that serves an offset empty.
#[tactic(auto, unfolding(crate::specs::CodeReads::count_freed))]
fn count_freed(latches: Latches, offset: u32) -> Latches
    ensures { result ≡ count_freed offset latches }
{
    if at_count_high(offset) {
        return with_count(latches, channel_index(offset), None);
    }
    latches
}

// The latches with the one that serves an offset empty.
#[tactic(auto, using(std::proofs::lemmas::Bool::Decides::nat_tests), unfolding(crate::specs::CodeReads::latch_freed))]
fn latch_freed(latches: Latches, offset: u32) -> Latches
    ensures { result ≡ latch_freed offset latches }
{
    match offset {
        Registers::RTC_SECONDS_LO..=Registers::RTC_SECONDS_LO_LAST => Latches {
            low: None,
            ..latches
        },
        Registers::RTC_SECONDS_HI..=Registers::RTC_SECONDS_HI_LAST => Latches {
            high: None,
            ..latches
        },
        _ => count_freed(latches, offset),
    }
}

// The latches after a read that one of them served: it is empty after byte 3.
#[tactic(auto, unfolding(crate::specs::CodeReads::freed_at))]
fn freed_at(latches: Latches, offset: u32) -> Latches
    ensures { result ≡ freed_at offset latches }
{
    if offset % 4 == 3 {
        return latch_freed(latches, offset);
    }
    latches
}

// ---- the reading

// The word of the register at an offset.
#[tactic(auto, using(std::proofs::lemmas::Bool::Decides::nat_tests), unfolding(crate::specs::CodeReads::word_at))]
fn word_at(timer: HardwareTimer, clock: Clock, shared: u32, offset: u32) -> u32
    requires { Timed (rate_of clock) clock }
    ensures { result ≡ word_at timer clock shared offset }
{
    match offset {
        Registers::TIMER_ID..=Registers::TIMER_ACK_LAST => shared,
        Registers::RTC_CTRL..=Registers::RTC_ACK_LAST => clock_word(clock, offset / 4 * 4),
        Registers::TIMER_CHANNEL_BASE..=Registers::TIMER_CHANNEL_LAST => {
            timer.read_word(place_of(offset) / 4 * 4)
        }
        _ => 0,
    }
}

// The word of the register at an offset where all channels share it, else 0.
fn shared_at(timers: [HardwareTimer; 4], timer_enable: u8, offset: u32) -> u32
    ensures { result ≡ timer_word (register_of offset) timer_enable timers }
{
    timer_word(timers, timer_enable, offset / 4 * 4)
}

// A read at an offset. `timer` is the channel of its index, `shared` the word of the register that all channels share.
// The alarm check comes ahead of a read that no latch serves.
fn reading_of(
    timer: HardwareTimer,
    shared: u32,
    clock: Clock,
    latches: Latches,
    offset: u32,
) -> LatchedReading
    requires { Timed (rate_of clock) clock }
    ensures { result ≡ reading_of timer shared clock latches offset }
{
    if offset == Registers::RTC_SECONDS_LO {
        // byte 0 of the clock's low seconds fills both of the clock's latches, and the low word's serves this read
        let seconds = clock.time_seconds();
        let word = low(seconds);
        return LatchedReading {
            latches: Latches {
                low: Some(word),
                high: Some(high(seconds)),
                ..latches
            },
            plain: PlainReading {
                byte: byte_of_word(word, 0),
                pending: clock.alarm.pending,
                armed: clock.alarm.armed,
                rose: false,
            },
        };
    }
    let Some(word) = serving(latches, offset) else {
        let checked = clock.check_alarm();
        let word = word_at(timer, checked, shared, offset);
        let pending = checked.alarm.pending;
        return LatchedReading {
            latches: count_filled(latches, timer.counter, offset),
            plain: PlainReading {
                byte: byte_of_word(word, offset % 4),
                pending,
                armed: checked.alarm.armed,
                rose: pending != clock.alarm.pending,
            },
        };
    };
    LatchedReading {
        latches: freed_at(latches, offset),
        plain: PlainReading {
            byte: byte_of_word(word, offset % 4),
            pending: clock.alarm.pending,
            armed: clock.alarm.armed,
            rose: false,
        },
    }
}

// A read at an offset; `timer` is the channel of its index.
pub fn reading_at(board: Board, timer: HardwareTimer, offset: u32) -> LatchedReading
    requires { Timed (rate_of board.clock) board.clock × (timer ≡ channel_at (channel_index offset) board) }
    ensures { result ≡ offset_reading offset board }
{
    let shared = shared_at(board.timers, board.timer_enable, offset);
    reading_of(timer, shared, board.clock, board.latches, offset)
}

// ---- without the latches

// Whether the offset is in a channel's register whose reads neither fill a latch nor use one.
#[tactic(auto, using(regmap::proofs::Ranges::bounds), unfolding(crate::specs::CodeReads::plain_at))]
pub fn plain(offset: u32) -> bool
    ensures { result ≡ plain_at offset }
{
    if in_channels(offset) {
        let register = place_of(offset) / 4 * 4;
        return (register != HardwareTimer::COUNT_LO) & (register != HardwareTimer::COUNT_HI);
    }
    false
}

// A read of such a register; `timer` is the channel of the offset's index.
pub fn plain_at(board: Board, timer: HardwareTimer, offset: u32) -> PlainReading
    requires { (plain_at offset ≡ true) × Timed (rate_of board.clock) board.clock
        × (timer ≡ channel_at (channel_index offset) board) }
    ensures { result ≡ (offset_reading offset board).plain }
{
    let checked = board.clock.check_alarm();
    let word = timer.read_word(place_of(offset) / 4 * 4);
    let pending = checked.alarm.pending;
    PlainReading {
        byte: byte_of_word(word, offset % 4),
        pending,
        armed: checked.alarm.armed,
        rose: pending != board.clock.alarm.pending,
    }
}
