// The dispatcher of S-3, above the controller: it serves the enabled pending sources in turn, while the controller's
// own output stays lowest first. One turn takes a controller and the number that the turn before left, and gives the
// controller after, the source served and the number to remember, by the rule of specs/Dispatcher.antt.
#![tactic(auto)]

ghost use Rattle.std.specs.Prelude.{◌≡◌, ◌<◌};
ghost use Rattle.dispatcher.specs.Dispatcher.{fresh_number, number_read, next_after, dispatched};

use controller::{IrqController, IrqOutput, SourceNumber};

// The highest source's number. A fresh dispatcher remembers it, and a number above it is read as it.
const HIGHEST: u8 = 15;

// What one turn gives: the controller after, the source that was served or that there was none, and the number to
// remember.
#[derive(Clone, Copy)]
pub struct Dispatched {
    pub controller: IrqController,
    pub served: IrqOutput,
    pub remembered: SourceNumber,
}

// The number that a fresh dispatcher remembers.
pub fn fresh_number() -> SourceNumber
    ensures { result.0 ≡ fresh_number }
{
    SourceNumber(HIGHEST)
}

// A remembered number as it is read: one above 15 as 15.
fn number_read(last: SourceNumber) -> SourceNumber
    ensures { result.0 ≡ number_read last.0 }
{
    last.min(SourceNumber(HIGHEST))
}

// The next enabled pending source after `last`, going round: the lowest of those above it, or, where there is none
// above, the lowest of all. Each is one count of trailing zeros, in `output_of`.
fn next_after(controller: IrqController, last: SourceNumber) -> IrqOutput
    requires { last.0 < 16 }
    ensures { result ≡ next_after last.0 controller }
{
    let up_to_last = 0xFFFFu16 >> (HIGHEST - last.0);
    let above = controller::output_of(controller::without_pending(controller, up_to_last));
    if above.valid {
        return above;
    }
    controller::output_of(controller)
}

// One turn. The pending bit of the source served is cleared, and nothing else. Where none is enabled and pending, the
// controller stays, and the number to remember is the one that it was given, read as 15 where it is above 15.
#[tactic(auto, using(crate::proofs::Turn::turn_laws), unfolding(crate::specs::Dispatcher::turn))]
pub fn dispatch(controller: IrqController, last: SourceNumber) -> Dispatched
    ensures { result ≡ dispatched controller last.0 }
{
    let remembered = number_read(last);
    let next = next_after(controller, remembered);
    if !next.valid {
        return Dispatched {
            controller,
            served: next,
            remembered,
        };
    }
    let source = next.number;
    let cleared = controller::without_pending(controller, 1u16 << source.0);
    Dispatched {
        controller: cleared,
        served: next,
        remembered: source,
    }
}
