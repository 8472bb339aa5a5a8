// Why a call, a list, an image or a preview is refused.
ghost use Rattle.std.specs.Prelude.{◌≡◌};
ghost use Rattle.board.specs.Refusals.{refusal_number, refusal_code};

// Each case with its number: 1 to 11 are document 01's, 12 is S-1's, 13 S-2's, 14 S-6's, 15 S-7's and 16 S-8's.
#[derive(Clone, Copy, PartialEq, Eq)]
pub enum Refusal {
    NotSound = 1,
    HeaderCut = 2,
    TagUnknown = 3,
    LengthWrong = 4,
    ValueCut = 5,
    AddressTooLarge = 6,
    NanosecondsTooLarge = 7,
    SourceTooLarge = 8,
    SourceOfLine = 9,
    LevelTooLarge = 10,
    // An answer longer than the buffer's rest, or a buffer too short for an image or for the totals of a preview.
    BufferShort = 11,
    ImageMalformed = 12,
    DeadlineTooLarge = 13,
    ClockInRealtime = 14,
    AnotherRate = 15,
    RateNeedsNewForm = 16,
}

impl Refusal {
    pub fn number(self) -> u8
        ensures { result ≡ refusal_number self }
    {
        self as u8
    }
}

// The number of the refusal, 0 where there is none.
pub fn code<T: Copy>(outcome: Result<T, Refusal>) -> u8
    ensures { result ≡ refusal_code outcome }
{
    match outcome {
        Ok(_) => 0,
        Err(refusal) => refusal.number(),
    }
}
