// The calls of a list by their tags, and how long their values and answers are.
ghost use Rattle.std.specs.Prelude.{◌≡◌, ◌+◌, ◌<◌};
ghost use Rattle.format.specs.Format.{value_length, answer_length, header_length};
ghost use Rattle.format.specs.Tags.{tag_number};

use crate::HEADER_LENGTH;

#[derive(Clone, Copy)]
pub enum Tag {
    HostTime = 1,
    Read = 2,
    Write = 3,
    Advance = 4,
    Deadline = 5,
    Skip = 6,
    Source = 7,
    ControllerRead = 8,
    ControllerWrite = 9,
    Output = 10,
}

impl Tag {
    pub fn number(self) -> u8
        ensures { result ≡ tag_number self }
    {
        self as u8
    }

    // The bytes of a call's value and of its answer.
    fn lengths(self) -> (usize, usize)
        ensures { (result.0 ≡ value_length (tag_number self)) × (result.1 ≡ answer_length (tag_number self)) }
    {
        match self {
            Tag::HostTime => (12, 0),
            Tag::Read => (2, 1),
            Tag::Write => (3, 0),
            Tag::Advance => (8, 65),
            Tag::Deadline => (0, 25),
            Tag::Skip => (0, 9),
            Tag::Source => (2, 0),
            Tag::ControllerRead => (4, 1),
            Tag::ControllerWrite => (5, 0),
            Tag::Output => (0, 2),
        }
    }

    // The bytes of a call's value.
    pub fn value_length(self) -> usize
        ensures { (result ≡ value_length (tag_number self)) × (result < 256) }
    {
        self.lengths().0
    }

    // The bytes of its answer.
    pub fn answer_length(self) -> usize
        ensures { (result ≡ answer_length (tag_number self)) × (result < 256) }
    {
        self.lengths().1
    }

    // The list bytes that a call uses.
    pub fn call_length(self) -> usize
        ensures { result ≡ header_length + value_length (tag_number self) }
    {
        HEADER_LENGTH + self.value_length()
    }

    // The bytes of the record of its answer.
    pub fn record_length(self) -> usize
        ensures { result ≡ header_length + answer_length (tag_number self) }
    {
        HEADER_LENGTH + self.answer_length()
    }
}
