// Reads the board from the bytes of an image, field by field, where each field is where it must be.
ghost use Rattle.std.specs.Prelude.{◌≡◌, cond, ◌||◌, ◌+◌, ◌≤◌, Some, None, length, get_or, eqb};
ghost use Rattle.image.specs.CodeTables.{clock_at, latches_at, controller_at, members_in};
ghost use Rattle.parking.specs.CodeReads.{held_flags, six_hold0};
ghost use Rattle.image.specs.Image.{channel_field, clock_field, latches_field, controller_field, rate_field};
ghost use Rattle.image.specs.Image.{field_length, image_length, formed, field_at, flag_is, board_from};
ghost use Rattle.image.specs.Image.{timer_from, clock_from, latch_from, latches_from, empties_hold0, controller_from};
ghost use Rattle.image.specs.declared.Form.TheVariants.{Old};
ghost use Rattle.parking.specs.Parking.{said, empties_in};

use board::{Board, CountLatch, Latches};
use channel::HardwareTimer;
use clock::{Alarm, Clock, HostTime, Offset, Shadow};
use controller::IrqController;
use image::{
    CHANNEL, CHANNEL_SIZE, CLOCK, CLOCK_AT, CONTROLLER, CONTROLLER_AT, LATCHES, LATCHES_AT, RATE,
};

// The latches of their field, and whether those that are empty hold 0.
#[derive(Clone, Copy)]
struct LatchesSaid {
    empties_hold_0: bool,
    latches: Latches,
}

// The board of an image, and whether its empty latches hold 0.
#[derive(Clone, Copy)]
pub struct BoardSaid {
    pub empties_hold_0: bool,
    pub board: Board,
}

// A channel, where its field is formed at an index.
fn channel_at(image: &[u8], at: usize) -> Option<HardwareTimer>
    requires { at + field_length channel_field ≤ length image.now }
    ensures { result
        ≡ cond (field_at image.now at channel_field)
        (Some (timer_from (members_in channel_field image.now at))) None }
{
    let members = CHANNEL.get(image, at)?;
    let flags = (members[6] <= 1) & (members[7] <= 1);
    if !flags {
        return None;
    }
    Some(HardwareTimer {
        control: members[0] as u8,
        counter: members[1],
        compare: members[2],
        reload: members[3],
        prescaler: members[4] as u32,
        phase: members[5] as u32,
        pending: members[6] == 1,
        armed: members[7] == 1,
    })
}

// Timer enable and the clock, at a rate, where their field is formed.
fn clock_in(rate: u32, image: &[u8]) -> Option<(u8, Clock)>
    requires { latches_at ≤ length image.now }
    ensures { result
        ≡ cond (field_at image.now clock_at clock_field)
        (Some (
          get_or (members_in clock_field image.now clock_at) 0 0,
          clock_from rate (members_in clock_field image.now clock_at),
        )) None }
{
    let members = CLOCK.get(image, CLOCK_AT)?;
    let flags = (members[4] <= 1) & (members[9] <= 1) & (members[10] <= 1);
    if !flags {
        return None;
    }
    let clock = Clock {
        rate,
        control: members[1] as u8,
        seconds: members[2],
        subsecond: members[3] as u32,
        offset: Offset {
            negative: members[4] == 1,
            seconds: members[5],
            nanoseconds: members[6] as u32,
        },
        alarm: Alarm {
            enable: members[7] as u8,
            seconds: members[8],
            pending: members[9] == 1,
            armed: members[10] == 1,
        },
        shadow: Shadow {
            value: members[11],
            mask: members[12] as u8,
        },
        poll: members[13] as u32,
        alarm_shadow: Shadow {
            value: members[14],
            mask: members[15] as u8,
        },
        host: HostTime {
            seconds: members[16],
            nanoseconds: members[17] as u32,
        },
    };
    Some((members[0] as u8, clock))
}

// The latch of a held flag and a value.
fn latch_from(held: u64, value: u32) -> Option<u32>
    ensures { result ≡ latch_from held value }
{
    (held == 1).then_some(value)
}

// Whether 'an empty latch holds 0', for a held flag and a value.
fn empty_holds_0(held: u64, value: u64) -> bool
    ensures { result ≡ (flag_is held || eqb value 0) }
{
    (held == 1) | (value == 0)
}

// Whether none of the held flags is above 1.
fn held_flags(members: &[u64; 12]) -> bool
    ensures { result ≡ held_flags members.now }
{
    (members[0] <= 1)
        & (members[2] <= 1)
        & (members[4] <= 1)
        & (members[6] <= 1)
        & (members[8] <= 1)
        & (members[10] <= 1)
}

// Whether each empty latch holds 0.
fn empties_hold_0(members: &[u64; 12]) -> bool
    ensures { result ≡ six_hold0 members.now }
{
    empty_holds_0(members[0], members[1])
        & empty_holds_0(members[2], members[3])
        & empty_holds_0(members[4], members[5])
        & empty_holds_0(members[6], members[7])
        & empty_holds_0(members[8], members[9])
        & empty_holds_0(members[10], members[11])
}

// The latches, where their field is formed.
fn latches_in(image: &[u8]) -> Option<LatchesSaid>
    requires { controller_at ≤ length image.now }
    ensures { result
        ≡ cond (field_at image.now latches_at latches_field)
        (Some (record {
          empties_hold_0 = empties_hold0 (members_in latches_field image.now latches_at);
          latches = latches_from (members_in latches_field image.now latches_at);
        })) None }
{
    let members = LATCHES.get(image, LATCHES_AT)?;
    if !held_flags(&members) {
        return None;
    }
    let counts = [
        CountLatch {
            high: latch_from(members[0], members[1] as u32),
        },
        CountLatch {
            high: latch_from(members[2], members[3] as u32),
        },
        CountLatch {
            high: latch_from(members[4], members[5] as u32),
        },
        CountLatch {
            high: latch_from(members[6], members[7] as u32),
        },
    ];
    let low = latch_from(members[8], members[9] as u32);
    let high = latch_from(members[10], members[11] as u32);
    Some(LatchesSaid {
        empties_hold_0: empties_hold_0(&members),
        latches: Latches { counts, low, high },
    })
}

// The controller, where its field is formed.
fn controller_in(image: &[u8]) -> Option<IrqController>
    requires { image_length Old ≤ length image.now }
    ensures { result
        ≡ cond (field_at image.now controller_at controller_field)
        (Some (controller_from (members_in controller_field image.now controller_at))) None }
{
    let members = CONTROLLER.get(image, CONTROLLER_AT)?;
    Some(IrqController {
        pending: members[0] as u16,
        enable: members[1] as u16,
        levels: members[2] as u16,
    })
}

// The rate, where the field that the new form begins with is formed.
pub fn rate_in(image: &[u8]) -> Option<u32>
    requires { field_length rate_field ≤ length image.now }
    ensures { result
        ≡ cond (field_at image.now 0 rate_field)
        (Some (get_or (members_in rate_field image.now 0) 0 0)) None }
{
    let members = RATE.get(image, 0)?;
    Some(members[0] as u32)
}

// The board of an image in the old form, at a rate, where every field is formed.
pub fn board_in(rate: u32, image: &[u8]) -> Option<BoardSaid>
    requires { length image.now ≡ image_length Old }
    ensures { result
        ≡ cond (formed Old image.now)
        (Some (record {
          empties_hold_0 = empties_in Old image.now;
          board = board_from rate (said Old image.now);
        })) None }
{
    let a = channel_at(image, 0)?;
    let b = channel_at(image, CHANNEL_SIZE)?;
    let c = channel_at(image, 2 * CHANNEL_SIZE)?;
    let d = channel_at(image, 3 * CHANNEL_SIZE)?;
    let (timer_enable, clock) = clock_in(rate, image)?;
    let said = latches_in(image)?;
    let controller = controller_in(image)?;
    let latches = said.latches;
    Some(BoardSaid {
        empties_hold_0: said.empties_hold_0,
        board: Board {
            timers: [a, b, c, d],
            timer_enable,
            clock,
            latches,
            controller,
        },
    })
}
