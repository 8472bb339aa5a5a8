// The board: four channels, the clock, the latches of its registers and the controller, by value.
#![tactic(auto)]

ghost use Rattle.std.specs.Prelude.{◌≡◌};
ghost use Rattle.board.specs.Fields.{fresh_board_at, fresh_board};
ghost use Rattle.board.specs.Calls.{fresh_of};
ghost use Rattle.board.specs.Answers.{answered, no_members};

use crate::calls::Answered;
use crate::refusal::Refusal;
use channel::HardwareTimer;
use clock::Clock;
use clock::rates::sound_rate;
use controller::{IrqController, SourceNumber};

pub mod calls;
mod channels;
mod deadline;
mod fields;
mod line;
pub mod refusal;
mod sound;

// The latch of a channel's high count word. A latch is a word of a register pair that is held for the next reads, or
// none.
#[derive(Clone, Copy)]
pub struct CountLatch {
    pub high: Option<u32>,
}

#[derive(Clone, Copy)]
pub struct Latches {
    pub counts: [CountLatch; 4],
    // The clock's seconds.
    pub low: Option<u32>,
    pub high: Option<u32>,
}

#[derive(Clone, Copy)]
pub struct Board {
    pub timers: [HardwareTimer; 4],
    pub timer_enable: u8,
    pub clock: Clock,
    pub latches: Latches,
    pub controller: IrqController,
}

impl Board {
    // Cycles a second of a board without a given rate.
    pub const RATE: u32 = Clock::RATE;

    // The number of channels.
    pub const CHANNELS: usize = 4;

    // Timer enable has a bit for each channel, and so this many values.
    pub const TIMER_ENABLE_VALUES: u8 = 16;

    // The controller's source that is set to the line.
    pub const LINE_SOURCE: SourceNumber = SourceNumber(3);

    // The fresh board without a given rate: everything zero except clock control 1 and the rate.
    pub fn fresh() -> Self
        ensures { result ≡ fresh_board }
    {
        Self::fresh_with(Self::RATE)
    }

    // A fresh board at a rate. A rate that no sound board has is refused, and the board is then that of `fresh`.
    #[tactic(auto, unfolding(crate::specs::Calls::fresh_of))]
    pub fn fresh_at(rate: u32) -> Answered<()>
        ensures { answered no_members result ≡ fresh_of rate }
    {
        if sound_rate(rate) {
            return Answered {
                board: Self::fresh_with(rate),
                answer: Ok(()),
            };
        }
        Answered {
            board: Self::fresh(),
            answer: Err(Refusal::AnotherRate),
        }
    }

    // A fresh board with any number as its rate.
    fn fresh_with(rate: u32) -> Self
        ensures { result ≡ fresh_board_at rate }
    {
        Board {
            timers: [HardwareTimer::fresh(); Self::CHANNELS],
            timer_enable: 0,
            clock: Clock::fresh_at(rate),
            latches: Latches {
                counts: [CountLatch { high: None }; Self::CHANNELS],
                low: None,
                high: None,
            },
            controller: IrqController::new(),
        }
    }
}
