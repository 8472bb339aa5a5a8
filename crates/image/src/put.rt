// The bytes of a board's image, field by field.
ghost use Rattle.std.specs.Prelude.{◌≡◌, true, [], ◌∷◌, ◌+◌, ◌≤◌, length};
ghost use Rattle.std.proofs.lemmas.List.Edits.{sets};
ghost use Rattle.format.specs.Format.{sum, members_bytes, record_of};
ghost use Rattle.image.specs.CodeTables.{up_to_eight, channels_bytes, clock_at, latches_at, controller_at};
ghost use Rattle.image.specs.CodeTables.{front_bytes, front_length};
ghost use Rattle.image.specs.Image.{channel_field, clock_field, latches_field, controller_field, rate_field};
ghost use Rattle.image.specs.Image.{timer_members, clock_members, latches_members, controller_members};
ghost use Rattle.image.specs.Image.{field_length, image_length, field_bytes, image_of};
ghost use Rattle.image.specs.declared.Form.TheVariants.{Old};

use crate::{
    CHANNEL, CHANNEL_SIZE, CLOCK, CLOCK_AT, CONTROLLER, CONTROLLER_AT, Form, LATCHES, LATCHES_AT,
    RATE, RATE_SIZE, Shape,
};
use board::{Board, CountLatch};
use channel::HardwareTimer;
use clock::Clock;
use controller::IrqController;
use format::HEADER_LENGTH;
use wide::fields;

// Writes members one after another, each in its width.
fn put_members(buf: &mut [u8], at: usize, widths: &[usize], members: &[u64])
    requires { (up_to_eight widths.now ≡ true) × ((length members.now ≡ length widths.now)
        × (at + sum widths.now ≤ length buf.old)) }
    ensures { buf.new ≡ sets buf.old at (members_bytes widths.now members.now) }
{
    let mut p = at;
    for (width, member) in widths.iter().zip(members) {
        fields::put(buf, p, *member, *width);
        p += *width;
    }
}

impl<const N: usize> Shape<N> {
    // Writes the field: its tag, the length of its members, and its members.
    fn put(&self, buf: &mut [u8], at: usize, members: &[u64; N])
        requires { at + 3 + self.now.size ≤ length buf.old }
        ensures { buf.new ≡ sets buf.old at
            (record_of self.now.tag (members_bytes self.now.widths members.now)) }
    {
        fields::put(buf, at, u64::from(self.tag), 1);
        fields::put(buf, at + 1, self.size as u64, 2);
        put_members(buf, at + HEADER_LENGTH, &self.widths, members);
    }
}

// Writes a channel's field at an index.
#[tactic(auto, unfolding(crate::specs::Image::field_bytes))]
fn put_channel(buf: &mut [u8], at: usize, timer: HardwareTimer)
    requires { at + field_length channel_field ≤ length buf.old }
    ensures { buf.new ≡ sets buf.old at (field_bytes channel_field (timer_members timer)) }
{
    let members = [
        u64::from(timer.control),
        timer.counter,
        timer.compare,
        timer.reload,
        u64::from(timer.prescaler),
        u64::from(timer.phase),
        u64::from(timer.pending),
        u64::from(timer.armed),
    ];
    CHANNEL.put(buf, at, &members);
}

// Writes the field of timer enable and the clock.
#[tactic(auto, unfolding(crate::specs::Image::field_bytes))]
fn put_clock(buf: &mut [u8], timer_enable: u8, clock: Clock)
    requires { latches_at ≤ length buf.old }
    ensures { buf.new
        ≡ sets buf.old clock_at (field_bytes clock_field (clock_members timer_enable clock)) }
{
    let members = [
        u64::from(timer_enable),
        u64::from(clock.control),
        clock.seconds,
        u64::from(clock.subsecond),
        u64::from(clock.offset.negative),
        clock.offset.seconds,
        u64::from(clock.offset.nanoseconds),
        u64::from(clock.alarm.enable),
        clock.alarm.seconds,
        u64::from(clock.alarm.pending),
        u64::from(clock.alarm.armed),
        clock.shadow.value,
        u64::from(clock.shadow.mask),
        u64::from(clock.poll),
        clock.alarm_shadow.value,
        u64::from(clock.alarm_shadow.mask),
        clock.host.seconds,
        u64::from(clock.host.nanoseconds),
    ];
    CLOCK.put(buf, CLOCK_AT, &members);
}

// Writes the latches' field: the count latches, and the clock's low and high latch.
fn put_latches(buf: &mut [u8], counts: [CountLatch; 4], low: Option<u32>, high: Option<u32>)
    requires { controller_at ≤ length buf.old }
    ensures { buf.new ≡ sets buf.old latches_at
        (field_bytes latches_field (latches_members (record { counts = counts; low = low; high = high }))) }
{
    let [a, b, c, d] = counts;
    let members = [
        u64::from(a.high.is_some()),
        u64::from(a.high.unwrap_or(0)),
        u64::from(b.high.is_some()),
        u64::from(b.high.unwrap_or(0)),
        u64::from(c.high.is_some()),
        u64::from(c.high.unwrap_or(0)),
        u64::from(d.high.is_some()),
        u64::from(d.high.unwrap_or(0)),
        u64::from(low.is_some()),
        u64::from(low.unwrap_or(0)),
        u64::from(high.is_some()),
        u64::from(high.unwrap_or(0)),
    ];
    LATCHES.put(buf, LATCHES_AT, &members);
}

// Writes the controller's field.
#[tactic(auto, unfolding(crate::specs::Image::field_bytes))]
fn put_controller(buf: &mut [u8], controller: IrqController)
    requires { image_length Old ≤ length buf.old }
    ensures { buf.new
        ≡ sets buf.old controller_at (field_bytes controller_field (controller_members controller)) }
{
    let members = [
        u64::from(controller.pending),
        u64::from(controller.enable),
        u64::from(controller.levels),
    ];
    CONTROLLER.put(buf, CONTROLLER_AT, &members);
}

// Writes the fields of the channels.
fn put_channels(buf: &mut [u8], timers: &[HardwareTimer; 4])
    requires { clock_at ≤ length buf.old }
    ensures { buf.new ≡ sets buf.old 0 (channels_bytes timers.now) }
{
    for (i, timer) in timers.iter().enumerate() {
        put_channel(buf, i * CHANNEL_SIZE, *timer);
    }
}

// Writes the image of a board in the old form.
fn put_old(buf: &mut [u8], board: Board)
    requires { image_length Old ≤ length buf.old }
    ensures { buf.new ≡ sets buf.old 0 (image_of Old board) }
{
    put_channels(buf, &board.timers);
    let clock = board.clock;
    put_clock(buf, board.timer_enable, clock);
    let latches = board.latches;
    let counts = latches.counts;
    let low = latches.low;
    let high = latches.high;
    put_latches(buf, counts, low, high);
    let controller = board.controller;
    put_controller(buf, controller);
}

// Writes the field that the new form begins with.
#[tactic(auto, unfolding(crate::specs::Image::field_bytes))]
fn put_rate(buf: &mut [u8], rate: u32)
    requires { field_length rate_field ≤ length buf.old }
    ensures { buf.new ≡ sets buf.old 0 (field_bytes rate_field (rate ∷ [])) }
{
    let members = [u64::from(rate)];
    RATE.put(buf, 0, &members);
}

// Writes what comes ahead of S-1's fields in a form, at a rate, and gives its length.
fn put_front(buf: &mut [u8], form: Form, rate: u32) -> usize
    requires { front_length form ≤ length buf.old }
    ensures value { result ≡ front_length form }
    ensures buf_after { buf.new ≡ sets buf.old 0 (front_bytes form rate) }
{
    match form {
        Form::Old => 0,
        Form::New => {
            put_rate(buf, rate);
            RATE_SIZE
        }
    }
}

// Writes the image of a board in a form, from the buffer's first byte on. `put_old` writes S-1's fields for both forms.
pub fn put_image(buf: &mut [u8], form: Form, board: Board)
    requires { image_length form ≤ length buf.old }
    ensures { buf.new ≡ sets buf.old 0 (image_of form board) }
{
    let at = put_front(buf, form, board.clock.rate);
    put_old(&mut buf[at..], board);
}
