// The rates of a sound board, and numbers divided by their periods.
ghost use Rattle.std.specs.Prelude.{◌≡◌, true, ◌/◌, ◌%◌, ◌<◌};
ghost use Rattle.clock.specs.Sound.{sound_rate};
ghost use Rattle.clock.specs.CodeTime.{is_period};

use crate::Clock;

// The periods of a sound board in cycles: a second, and the time between two polls, at each rate.
const SECOND_48_MHZ: u64 = Clock::RATE as u64;

const SECOND_12_MHZ: u64 = Clock::RATE_12_MHZ as u64;

const SECOND_1_MHZ: u64 = Clock::RATE_1_MHZ as u64;

const POLL_48_MHZ: u64 = SECOND_48_MHZ / Clock::POLLS_PER_SECOND;

const POLL_12_MHZ: u64 = SECOND_12_MHZ / Clock::POLLS_PER_SECOND;

const POLL_1_MHZ: u64 = SECOND_1_MHZ / Clock::POLLS_PER_SECOND;

// Whether a sound board may have this rate.
#[tactic(auto, unfolding(crate::specs::Sound::sound_rate))]
pub fn sound_rate(rate: u32) -> bool
    ensures { result ≡ sound_rate rate }
{
    (rate == Clock::RATE_1_MHZ) | (rate == Clock::RATE_12_MHZ) | (rate == Clock::RATE)
}

// Whole periods, and the remainder.
#[derive(Clone, Copy)]
pub(crate) struct Periods {
    pub(crate) whole: u64,
    pub(crate) rest: u64,
}

fn by_period(n: u64, period: u64) -> Periods
    requires { 0 < period }
    ensures { (result.whole ≡ n / period) × (result.rest ≡ n % period) }
{
    Periods {
        whole: n / period,
        rest: n % period,
    }
}

// A number divided by a period of a sound board. Each arm divides by a constant.
pub(crate) fn divided(n: u64, period: u64) -> Periods
    requires { is_period period ≡ true }
    ensures { (result.whole ≡ n / period) × (result.rest ≡ n % period) }
{
    match period {
        SECOND_48_MHZ => by_period(n, SECOND_48_MHZ),
        SECOND_12_MHZ => by_period(n, SECOND_12_MHZ),
        SECOND_1_MHZ => by_period(n, SECOND_1_MHZ),
        POLL_48_MHZ => by_period(n, POLL_48_MHZ),
        POLL_12_MHZ => by_period(n, POLL_12_MHZ),
        _ => by_period(n, POLL_1_MHZ),
    }
}
