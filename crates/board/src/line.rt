// The board's line, and source 3 of the controller, which is set to it.
ghost use Rattle.std.specs.Prelude.{◌≡◌};
ghost use Rattle.controller.specs.Controller.{source_set};
ghost use Rattle.board.specs.Board.{line, wired};

use crate::Board;
use crate::channels::any_asserted;
use controller::IrqController;

impl Board {
    // Whether the line is high.
    #[tactic(auto, unfolding(crate::specs::Board::line))]
    pub fn line(self) -> bool
        ensures { result ≡ line self }
    {
        any_asserted(&self.timers) | self.clock.line()
    }

    // The controller with source 3 set to `line`.
    pub fn controller_wired(self, line: bool) -> IrqController
        ensures { result ≡ source_set self.controller 3 line }
    {
        controller::with_source(self.controller, Self::LINE_SOURCE, line)
    }

    // The end of an accepted call: source 3 is set to the line.
    #[tactic(auto, unfolding(crate::specs::Board::wired))]
    pub fn wired(self) -> Self
        ensures { result ≡ wired self }
    {
        let set = self.controller_wired(self.line());
        self.with_controller(set)
    }
}
