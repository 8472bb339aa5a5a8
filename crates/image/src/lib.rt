// The image of a board: the bytes of its fields, put into a buffer, and the members of a field read from bytes.
#![tactic(auto)]

ghost use Rattle.std.specs.Prelude.{◌≡◌, true};
ghost use Rattle.format.specs.Format.{sum};
ghost use Rattle.image.specs.CodeTables.{up_to_eight};
ghost use Rattle.image.specs.Image.{image_length};

use board::Board;
use format::HEADER_LENGTH;

pub mod get;
pub mod put;

// The forms of an image: S-1's, which has no rate, and S-8's, which begins with it.
#[derive(Clone, Copy)]
pub enum Form {
    Old,
    New,
}

// What a field of an image looks like: its tag, the bytes of its members, and the width of each member.
#[derive(Clone, Copy)]
pub struct Shape<const N: usize> {
    pub tag: u8,
    pub size: usize,
    pub widths: [usize; N],
    ghost narrow: { up_to_eight widths ≡ true },
    ghost whole: { size ≡ sum widths },
}

pub const CHANNEL: Shape<8> = Shape {
    tag: 0x20,
    size: 35,
    widths: [1, 8, 8, 8, 4, 4, 1, 1],
};

pub const CLOCK: Shape<18> = Shape {
    tag: 0x21,
    size: 72,
    widths: [1, 1, 8, 4, 1, 8, 4, 1, 8, 1, 1, 8, 1, 4, 8, 1, 8, 4],
};

pub const LATCHES: Shape<12> = Shape {
    tag: 0x22,
    size: 30,
    widths: [1, 4, 1, 4, 1, 4, 1, 4, 1, 4, 1, 4],
};

pub const CONTROLLER: Shape<3> = Shape {
    tag: 0x23,
    size: 6,
    widths: [2, 2, 2],
};

pub const RATE: Shape<1> = Shape {
    tag: 0x24,
    size: 4,
    widths: [4],
};

// The bytes of a channel's field, where S-1's other fields begin in the old form, and where that form ends.
pub const CHANNEL_SIZE: usize = HEADER_LENGTH + CHANNEL.size;

pub const CLOCK_AT: usize = Board::CHANNELS * CHANNEL_SIZE;

pub const LATCHES_AT: usize = CLOCK_AT + HEADER_LENGTH + CLOCK.size;

pub const CONTROLLER_AT: usize = LATCHES_AT + HEADER_LENGTH + LATCHES.size;

pub const OLD_LENGTH: usize = CONTROLLER_AT + HEADER_LENGTH + CONTROLLER.size;

// Where they begin in the new form, after the rate's field, and where that form ends.
pub const RATE_SIZE: usize = HEADER_LENGTH + RATE.size;

pub const NEW_LENGTH: usize = RATE_SIZE + OLD_LENGTH;

// The number of bytes of an image.
pub fn image_length(form: Form) -> usize
    ensures { result ≡ image_length form }
{
    match form {
        Form::Old => OLD_LENGTH,
        Form::New => NEW_LENGTH,
    }
}
