// A channel's deadline: the exact number of cycles until it gives an interrupt. Ticks to go are held as one less than
// their number, which can be 2^64 and would not fit in a word.
ghost use Rattle.std.specs.Prelude.{◌≡◌, ◌+◌, ◌-◌, ◌*◌, ◌≤◌, if◌then◌else◌};
ghost use Rattle.std.proofs.Math.Option.{none, some};
ghost use Rattle.wide.specs.Number.{value_of};
ghost use Rattle.wide.specs.Deadline.{number_of};
ghost use Rattle.channel.specs.Channel.{mode_of, divisor};
ghost use Rattle.channel.specs.Modes.{distance};
ghost use Rattle.channel.specs.Deadline.{ticks_up, ticks_to_go, to_go_of, waiting, deadline_of};

use crate::{HardwareTimer, Mode, Ticks};
use wide::number::Wide;

// The ticks to the compare point in modes 0 and 1; 1 where the counter has reached it.
fn ticks_up(counter: u64, compare: u64) -> Ticks
    ensures { result.0 + 1 ≡ ticks_up counter compare }
{
    if counter < compare {
        Ticks(compare - counter - 1)
    } else {
        Ticks(0)
    }
}

// The ticks to the compare point in mode 2, where the counter wraps; none where the channel is not armed.
#[tactic(auto, using(crate::proofs::Distances::one_after_is))]
fn ticks_round(counter: u64, compare: u64, armed: bool) -> Option<Ticks>
    ensures { to_go_of result ≡ (if armed then some (distance counter compare) else none) }
{
    if armed {
        let difference = compare.wrapping_sub(counter);
        Some(Ticks(difference.wrapping_sub(1)))
    } else {
        None
    }
}

impl HardwareTimer {
    #[tactic(auto, unfolding(crate::specs::Deadline::ticks_to_go))]
    fn ticks_to_go(self) -> Option<Ticks>
        ensures { to_go_of result ≡ ticks_to_go (mode_of self.control) self.counter self.compare self.armed }
    {
        let counter = self.counter;
        let compare = self.compare;
        match self.mode() {
            Mode::OneShot | Mode::Periodic => Some(ticks_up(counter, compare)),
            Mode::FreeRunning => ticks_round(counter, compare, self.armed),
            Mode::Idle => None,
        }
    }

    // The cycles that n + 1 ticks take, from the channel's phase on.
    fn cycles_of(self, n: Ticks) -> Wide
        requires { self.phase ≤ self.prescaler }
        ensures { value_of result ≡ divisor self - self.phase + n.0 * divisor self }
    {
        let phase = self.phase;
        let prescaler = self.prescaler;
        let v = prescaler as u64 + 1;
        let first = Wide::from(v - phase as u64);
        first.sum(Wide::product(n.0, v))
    }

    // Whether the channel runs with interrupt enable and is not pending. Its bit in timer enable is `selected`.
    fn waits(self, selected: bool) -> bool
        ensures { result ≡ waiting selected self }
    {
        self.runs(selected) & self.irq_enabled() & !self.pending
    }

    // The exact deadline of the channel, whose bit in timer enable is `selected`.
    #[tactic(auto, unfolding(crate::specs::Deadline::deadline_of))]
    pub fn cycles_until_match(self, selected: bool) -> Option<Wide>
        requires { self.phase ≤ self.prescaler }
        ensures { number_of result ≡ deadline_of selected self }
    {
        if !self.waits(selected) {
            return None;
        }
        let n = self.ticks_to_go()?;
        Some(self.cycles_of(n))
    }
}
