// The board's exact deadline: the smallest of the channels' and the clock's.
ghost use Rattle.std.specs.Prelude.{◌≡◌, true};
ghost use Rattle.wide.specs.Deadline.{number_of};
ghost use Rattle.board.specs.Board.{sound, exact_deadline};

use crate::Board;
use crate::channels::soonest;
use wide::deadline::sooner;
use wide::number::Wide;

impl Board {
    pub fn exact_deadline(self) -> Option<Wide>
        requires { sound self ≡ true }
        ensures { number_of result ≡ exact_deadline self }
    {
        sooner(
            soonest(&self.timers, self.timer_enable),
            self.clock.deadline(),
        )
    }
}
