// The controller's operations, every one of irqc.rs, on its three words packed into a number: pending from bit 32 on,
// enable from bit 16 on, levels from bit 0 on. And the turns of the dispatcher above it.
ghost use Rattle.std.specs.Prelude.{◌≡◌};
ghost use Rattle.controller.specs.Controller.{fresh, reset_of, pending_of, enable_mask_of, enable_mask_set, source_set};
ghost use Rattle.controller.specs.Controller.{source_levels_set, pending_cleared, output_of, controller_read};
ghost use Rattle.controller.specs.Controller.{controller_written};
ghost use Rattle.controller.specs.Controller.{mmio_size};
ghost use Rattle.dispatcher.specs.Dispatcher.{fresh_number, dispatched};
ghost use Rattle.pec.specs.Packed.{controller_of, packed, packed_output};

use controller::{IrqController, IrqOutput, SourceNumber};

// The controller of a number; its bits from 48 on are ignored.
fn unpack(word: u64) -> IrqController
    ensures { result ≡ controller_of word }
{
    IrqController {
        pending: (word / 0x1_0000_0000 % 0x1_0000) as u16,
        enable: (word / 0x1_0000 % 0x1_0000) as u16,
        levels: (word % 0x1_0000) as u16,
    }
}

// The number of a controller.
fn pack(controller: IrqController) -> u64
    ensures { result ≡ packed controller }
{
    (u64::from(controller.pending) * 0x1_0000 + u64::from(controller.enable)) * 0x1_0000
        + u64::from(controller.levels)
}

// The number of an output: valid in bit 8, the source's number below.
fn pack_output(output: IrqOutput) -> u16
    ensures { result ≡ packed_output output }
{
    if output.valid {
        return 0x100 + u16::from(output.number.0);
    }
    u16::from(output.number.0)
}

// `new`
#[unsafe(no_mangle)]
pub extern "C" fn pec_irqc_new() -> u64
    ensures { result ≡ packed fresh }
{
    pack(IrqController::new())
}

// `reset`
#[unsafe(no_mangle)]
pub extern "C" fn pec_irqc_reset(word: u64) -> u64
    ensures { result ≡ packed (reset_of (controller_of word)) }
{
    pack(controller::all_clear(unpack(word)))
}

// `pending`
#[unsafe(no_mangle)]
pub extern "C" fn pec_irqc_pending(word: u64) -> u16
    ensures { result ≡ pending_of (controller_of word) }
{
    controller::pending_of(unpack(word))
}

// `enable_mask`
#[unsafe(no_mangle)]
pub extern "C" fn pec_irqc_enable_mask(word: u64) -> u16
    ensures { result ≡ enable_mask_of (controller_of word) }
{
    controller::enable_mask_of(unpack(word))
}

// `set_enable_mask`
#[unsafe(no_mangle)]
pub extern "C" fn pec_irqc_set_enable_mask(word: u64, mask: u16) -> u64
    ensures { result ≡ packed (enable_mask_set (controller_of word) mask) }
{
    pack(controller::with_enable_mask(unpack(word), mask))
}

// `set_source`
#[unsafe(no_mangle)]
pub extern "C" fn pec_irqc_set_source(word: u64, number: u8, level: bool) -> u64
    ensures { result ≡ packed (source_set (controller_of word) number level) }
{
    pack(controller::with_source(unpack(word), SourceNumber(number), level))
}

// `set_source_levels`
#[unsafe(no_mangle)]
pub extern "C" fn pec_irqc_set_source_levels(word: u64, mask: u16, levels: u16) -> u64
    ensures { result ≡ packed (source_levels_set (controller_of word) mask levels) }
{
    pack(controller::with_source_levels(unpack(word), mask, levels))
}

// `clear_pending`
#[unsafe(no_mangle)]
pub extern "C" fn pec_irqc_clear_pending(word: u64, mask: u16) -> u64
    ensures { result ≡ packed (pending_cleared (controller_of word) mask) }
{
    pack(controller::without_pending(unpack(word), mask))
}

// `irq_output`
#[unsafe(no_mangle)]
pub extern "C" fn pec_irqc_output(word: u64) -> u16
    ensures { result ≡ packed_output (output_of (controller_of word)) }
{
    pack_output(controller::output_of(unpack(word)))
}

// `read`
#[unsafe(no_mangle)]
pub extern "C" fn pec_irqc_read(word: u64, address: u32) -> u8
    ensures { result ≡ controller_read (controller_of word) address }
{
    controller::read_of(unpack(word), address)
}

// `debug_read`, which in the Rust answers `Some` of this byte at every address.
#[unsafe(no_mangle)]
pub extern "C" fn pec_irqc_debug_read(word: u64, address: u32) -> u8
    ensures { result ≡ controller_read (controller_of word) address }
{
    controller::debug_read_of(unpack(word), address)
}

// `write`
#[unsafe(no_mangle)]
pub extern "C" fn pec_irqc_write(word: u64, address: u32, value: u8) -> u64
    ensures { result ≡ packed (controller_written (controller_of word) address value) }
{
    pack(controller::written(unpack(word), address, value))
}

// `size`
#[unsafe(no_mangle)]
pub extern "C" fn pec_irqc_size(word: u64) -> u32
    ensures { result ≡ mmio_size (controller_of word) }
{
    controller::size_of(unpack(word))
}

// The number that a fresh dispatcher remembers.
#[unsafe(no_mangle)]
pub extern "C" fn pec_irqc_dispatch_new() -> u8
    ensures { result ≡ fresh_number }
{
    dispatcher::fresh_number().0
}

// One turn of the dispatcher, of a controller and the number that the turn before left. Gives the controller after, the
// number to remember, and as its result the source that was served, as `pec_irqc_output` gives one. Where none is
// served, the number to remember is the one that it was given, read as 15 where it is above 15.
#[unsafe(no_mangle)]
pub extern "C" fn pec_irqc_dispatch(
    word: u64,
    last: u8,
    after: &mut u64,
    remembered: &mut u8,
) -> u16
    ensures value { result ≡ packed_output (dispatched (controller_of word) last).served }
    ensures after_after { after.new ≡ packed (dispatched (controller_of word) last).controller }
    ensures remembered_after { remembered.new ≡ (dispatched (controller_of word) last).remembered.0 }
{
    let turn = dispatcher::dispatch(unpack(word), SourceNumber(last));
    let controller = turn.controller;
    let served = turn.served;
    *after = pack(controller);
    *remembered = turn.remembered.0;
    pack_output(served)
}
