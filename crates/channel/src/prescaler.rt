// The prescaler: the only place where cycles become ticks.
ghost use Rattle.std.specs.Prelude.{◌≡◌, ◌≤◌};
ghost use Rattle.wide.specs.Number.{value_of};
ghost use Rattle.channel.specs.Prescaler.{ticks_of, phase_after, runs, advanced};
ghost use Rattle.channel.specs.Matches.{matches_of};

use crate::{Advanced, Cycles, HardwareTimer, Ticks};

// The ticks that a number of cycles gives, and the phase after them.
#[derive(Clone, Copy)]
struct Scaled {
    ticks: Ticks,
    phase: u32,
}

impl HardwareTimer {
    // With prescaler 0 each cycle is a tick: nothing is added or divided, and phase becomes 0, whatever it was.
    fn scale_by_one(self, cycles: Cycles) -> Scaled
        requires { self.prescaler ≡ 0 }
        ensures { (result.ticks.0 ≡ cycles.0) × (result.phase ≡ phase_after cycles.0 self) }
    {
        Scaled {
            ticks: Ticks(cycles.0),
            phase: 0,
        }
    }

    // S-5: prescaler 0 comes first. With another prescaler the cycles up to the first tick are taken off and the rest
    // is divided, so that no sum is larger than a word and no number of two words is divided.
    #[tactic(auto, using(crate::proofs::Prescaling::later_is))]
    fn scale(self, cycles: Cycles) -> Scaled
        requires { self.phase ≤ self.prescaler }
        ensures { (result.ticks.0 ≡ ticks_of cycles.0 self) × (result.phase ≡ phase_after cycles.0 self) }
    {
        let prescaler = self.prescaler;
        if prescaler == 0 {
            return self.scale_by_one(cycles);
        }
        let phase = self.phase;
        let c = cycles.0;
        let v = prescaler as u64 + 1;
        let first = v - phase as u64;
        if c < first {
            return Scaled {
                ticks: Ticks(0),
                phase: phase + c as u32,
            };
        }
        let rest = c - first;
        Scaled {
            ticks: Ticks(rest / v + 1),
            phase: (rest % v) as u32,
        }
    }

    // Whether cycles move the channel, whose bit in timer enable is `selected`.
    pub fn runs(self, selected: bool) -> bool
        ensures { result ≡ runs selected self }
    {
        self.enabled() && selected
    }

    // The channel after the cycles, before `advance_cycles` rebuilds it field by field.
    #[tactic(auto, using(crate::proofs::Counting::run_laws), unfolding(crate::specs::Prescaler::advanced))]
    fn advanced(self, selected: bool, cycles: Cycles) -> Advanced
        requires { self.phase ≤ self.prescaler }
        ensures { (result.timer ≡ advanced selected cycles.0 self)
            × (value_of result.matches ≡ matches_of selected cycles.0 self) }
    {
        if !self.runs(selected) {
            return self.unmet();
        }
        let s = self.scale(cycles);
        let mut h = self;
        h.phase = s.phase;
        h.advance(s.ticks)
    }

    // The channel after the cycles, and the compare points that it met. Its bit in timer enable is `selected`.
    pub fn advance_cycles(self, selected: bool, cycles: Cycles) -> Advanced
        requires { self.phase ≤ self.prescaler }
        ensures { (result.timer ≡ advanced selected cycles.0 self)
            × (value_of result.matches ≡ matches_of selected cycles.0 self) }
    {
        let a = self.advanced(selected, cycles);
        Advanced {
            timer: a.timer.rebuilt(),
            matches: a.matches,
        }
    }
}
