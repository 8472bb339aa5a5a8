// What ticks do to a channel in each of its modes.
ghost use Rattle.std.specs.Prelude.{◌≡◌, ◌+◌, ◌≤◌, nat_le};
ghost use Rattle.wide.specs.Number.{value_of};
ghost use Rattle.channel.specs.Channel.{mode_of, set_pending, clear_enable};
ghost use Rattle.channel.specs.Matches.{points_met, matches_in};
ghost use Rattle.channel.specs.Modes.{one_shot, reloaded, matched, periodic, distance, free_running, ticked};

use crate::{Advanced, HardwareTimer, Mode, Ticks};
use wide::number::Wide;

impl HardwareTimer {
    // The channel with pending set and enable cleared. Enable is the bit between mode and interrupt enable.
    #[tactic(auto, unfolding(crate::specs::Channel::disabled))]
    fn fired(mut self) -> Self
        ensures { result ≡ clear_enable (set_pending self) }
    {
        let control = self.control;
        self.pending = true;
        self.control = control / Self::IRQ_ENABLE * Self::IRQ_ENABLE + control % Self::MODES;
        self
    }

    // The channel as it is, with no compare point met.
    pub fn unmet(self) -> Advanced
        ensures { (result.timer ≡ self) × (value_of result.matches ≡ 0) }
    {
        Advanced {
            timer: self,
            matches: Wide::from(0),
        }
    }

    // The channel as it is, with one compare point met, and one more for each period past it.
    fn met(self, periods: u64) -> Advanced
        ensures { (result.timer ≡ self) × (value_of result.matches ≡ periods + 1) }
    {
        Advanced {
            timer: self,
            matches: Wide::from(periods).sum(Wide::from(1)),
        }
    }

    #[tactic(auto, using(crate::proofs::Counting::one_shot_laws), unfolding(crate::specs::Modes::one_shot))]
    fn advance_one_shot(mut self, ticks: Ticks) -> Advanced
        ensures { (result.timer ≡ one_shot ticks.0 self)
            × (value_of result.matches ≡ matches_in 0 (one_shot ticks.0) self) }
    {
        let counter = self.counter;
        let compare = self.compare;
        let t = ticks.0;
        if compare <= counter {
            return self.fired().met(0);
        }
        if compare - counter <= t {
            self.counter = compare;
            return self.fired().met(0);
        }
        self.counter = counter + t;
        self.unmet()
    }

    // A periodic channel at its compare point or past it. The periods passed are counter − compare divided by reload;
    // the next point lies ahead of the counter by reload less the remainder.
    fn reloaded(mut self) -> Advanced
        requires { self.compare ≤ self.counter }
        ensures { (result.timer ≡ reloaded self) × (value_of result.matches ≡ points_met 1 self.counter self) }
    {
        let counter = self.counter;
        let compare = self.compare;
        let reload = self.reload;
        if reload == 0 {
            return self.fired().met(0);
        }
        let past = counter - compare;
        let periods = past / reload;
        let gap = reload - past % reload;
        let Some(next) = counter.checked_add(gap) else {
            return self.fired().met(periods);
        };
        self.compare = next;
        self.pending = true;
        self.met(periods)
    }

    #[tactic(auto, using(crate::proofs::Counting::matched_laws), unfolding(crate::specs::Modes::matched))]
    fn matched(self) -> Advanced
        ensures { (result.timer ≡ matched self) × (value_of result.matches ≡ matches_in 1 matched self) }
    {
        let counter = self.counter;
        let compare = self.compare;
        if compare <= counter {
            self.reloaded()
        } else {
            self.unmet()
        }
    }

    #[tactic(auto, using(crate::proofs::Counting::periodic_matches), unfolding(crate::specs::Modes::periodic))]
    fn advance_periodic(mut self, ticks: Ticks) -> Advanced
        ensures { (result.timer ≡ periodic ticks.0 self)
            × (value_of result.matches ≡ matches_in 1 (periodic ticks.0) self) }
    {
        self.counter = self.counter.saturating_add(ticks.0);
        self.matched()
    }

    // Whether the ticks reach the compare point. A distance of 0 means 2^64, which no number of ticks reaches.
    #[tactic(auto, using(crate::proofs::Distances::reaches_is))]
    fn reaches(self, ticks: Ticks) -> bool
        ensures { result ≡ nat_le (distance self.counter self.compare) ticks.0 }
    {
        let distance = self.compare.wrapping_sub(self.counter);
        (distance != 0) & (distance <= ticks.0)
    }

    #[tactic(auto, using(crate::proofs::Counting::free_laws), unfolding(crate::specs::Modes::free_running))]
    fn advance_free_running(mut self, ticks: Ticks) -> Advanced
        ensures { (result.timer ≡ free_running ticks.0 self)
            × (value_of result.matches ≡ matches_in 2 (free_running ticks.0) self) }
    {
        let hit = self.armed & self.reaches(ticks);
        self.counter = self.counter.wrapping_add(ticks.0);
        if hit {
            self.pending = true;
            self.armed = false;
            return self.met(0);
        }
        self.unmet()
    }

    #[tactic(auto, using(crate::proofs::Counting::no_ticks), unfolding(crate::specs::Modes::ticked))]
    pub fn advance(self, ticks: Ticks) -> Advanced
        ensures { (result.timer ≡ ticked ticks.0 self)
            × (value_of result.matches ≡ matches_in (mode_of self.control) (ticked ticks.0) self) }
    {
        if ticks.0 == 0 {
            return self.unmet();
        }
        match self.mode() {
            Mode::OneShot => self.advance_one_shot(ticks),
            Mode::Periodic => self.advance_periodic(ticks),
            Mode::FreeRunning => self.advance_free_running(ticks),
            Mode::Idle => self.unmet(),
        }
    }
}
