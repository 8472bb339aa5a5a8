// Whether a board is sound. The code's empty latch has no value, so the clause about empty latches always holds.
ghost use Rattle.std.specs.Prelude.{◌≡◌};
ghost use Rattle.board.specs.Board.{BoardFits, sound_parts, sound};

use crate::Board;
use crate::channels::all_sound;
use clock::rates::sound_rate;

impl Board {
    #[tactic(auto, using(crate::proofs::Soundness::latches_sound), unfolding(crate::specs::Board::sound_parts))]
    fn sound_parts(self) -> bool
        ensures { result ≡ sound_parts self }
    {
        all_sound(&self.timers)
            & (self.timer_enable < Self::TIMER_ENABLE_VALUES)
            & sound_rate(self.clock.rate)
            & self.clock.sound()
    }

    // Whether the board is sound. The contract also says that every field is within its width, which the promise of the
    // deadline needs.
    pub fn sound(self) -> bool
        ensures { (result ≡ sound self) × BoardFits self }
    {
        let level = controller::level_of(self.controller, Self::LINE_SOURCE);
        self.sound_parts() & (level == self.line())
    }
}
