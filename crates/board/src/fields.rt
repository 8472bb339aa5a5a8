// A board with one of its fields changed.
ghost use Rattle.std.specs.Prelude.{◌≡◌, ◌<◌};
ghost use Rattle.board.specs.Fields.{with_timers, with_timer_enable, with_clock, with_latches, with_controller};
ghost use Rattle.board.specs.Fields.{with_channel};

use crate::{Board, Latches};
use channel::{ChannelNumber, HardwareTimer};
use clock::Clock;
use controller::IrqController;

impl Board {
    pub fn with_timers(mut self, timers: [HardwareTimer; 4]) -> Self
        ensures { result ≡ with_timers timers self }
    {
        self.timers = timers;
        self
    }

    pub fn with_timer_enable(mut self, timer_enable: u8) -> Self
        ensures { result ≡ with_timer_enable timer_enable self }
    {
        self.timer_enable = timer_enable;
        self
    }

    pub fn with_clock(mut self, clock: Clock) -> Self
        ensures { result ≡ with_clock clock self }
    {
        self.clock = clock;
        self
    }

    pub fn with_latches(mut self, latches: Latches) -> Self
        ensures { result ≡ with_latches latches self }
    {
        self.latches = latches;
        self
    }

    pub(crate) fn with_controller(mut self, controller: IrqController) -> Self
        ensures { result ≡ with_controller controller self }
    {
        self.controller = controller;
        self
    }

    pub fn with_channel(mut self, number: ChannelNumber, timer: HardwareTimer) -> Self
        requires { number.0 < 4 }
        ensures { result ≡ with_channel number.0 timer self }
    {
        self.timers[usize::from(number.0)] = timer;
        self
    }
}
