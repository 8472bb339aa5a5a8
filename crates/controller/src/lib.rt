// The interrupt controller of irqc.rs, by value: it latches the rising edges of sixteen sources, and presents the
// lowest source that is pending and enabled. Each operation states its whole result by a rule of
// specs/Controller.antt. A function is named by what it answers; the comment above it has the Rust's name. The methods
// that lend a controller are in lent.rt.
#![tactic(auto)]

ghost use Rattle.std.specs.Prelude.{◌≡◌, true, false, cond, ◌+◌, ◌*◌, ◌/◌, ◌%◌, ◌<◌, eqb};
ghost use Rattle.wide.specs.Bits.{bit};
ghost use Rattle.controller.specs.Bits.{with_bit, without};
ghost use Rattle.controller.specs.Controller.{fresh, reset_of, pending_of, enable_mask_of, enable_mask_set};
ghost use Rattle.controller.specs.Controller.{source_set, masked_source_set, source_levels_set, pending_cleared};
ghost use Rattle.controller.specs.Controller.{output_of, controller_read, controller_written, mmio_size};

mod lent;

// The number of a source. It is a type of its own, so that no channel number is passed for it.
#[derive(Clone, Copy, PartialEq, Eq, PartialOrd, Ord)]
pub struct SourceNumber(pub u8);

// Whether a source is presented to the CPU, and which.
#[derive(Clone, Copy)]
pub struct IrqOutput {
    pub valid: bool,
    pub number: SourceNumber,
}

// One bit for each source: the requests that are latched, the sources that are enabled, and the levels last set.
#[derive(Clone, Copy)]
pub struct IrqController {
    pub pending: u16,
    pub enable: u16,
    pub levels: u16,
}

impl IrqController {
    pub const MMIO_SIZE: u32 = 0x10;

    // A register has two bytes, the most significant one first.
    pub const REG_PENDING: u32 = 0x00;

    pub const REG_PENDING_LOW: u32 = 0x01;

    pub const REG_ENABLE: u32 = 0x04;

    pub const REG_ENABLE_LOW: u32 = 0x05;

    pub const SOURCE_COUNT: u8 = 16;

    pub fn new() -> Self
        ensures { result ≡ fresh }
    {
        Self {
            pending: 0,
            enable: 0,
            levels: 0,
        }
    }
}

// `reset`: all latched and configured state is cleared.
pub fn all_clear(controller: IrqController) -> IrqController
    ensures { result ≡ reset_of controller }
{
    IrqController::new()
}

// `pending`
pub fn pending_of(controller: IrqController) -> u16
    ensures { result ≡ pending_of controller }
{
    controller.pending
}

// `enable_mask`
pub fn enable_mask_of(controller: IrqController) -> u16
    ensures { result ≡ enable_mask_of controller }
{
    controller.enable
}

// `set_enable_mask`
pub fn with_enable_mask(controller: IrqController, mask: u16) -> IrqController
    ensures { result ≡ enable_mask_set controller mask }
{
    IrqController {
        enable: mask,
        ..controller
    }
}

#[tactic(auto, using(crate::proofs::Bits::shifted, crate::proofs::Bits::bit_test))]
fn bit_is_set(word: u16, number: u8) -> bool
    requires { number < 16 }
    ensures { result ≡ bit number word }
{
    word & (1u16 << number) != 0
}

#[tactic(auto, using(crate::proofs::Bits::shifted, crate::proofs::Bits::or_bit))]
fn with_bit_set(word: u16, number: u8) -> u16
    requires { number < 16 }
    ensures { result ≡ with_bit number true word }
{
    word | (1u16 << number)
}

fn with_bit_cleared(word: u16, number: u8) -> u16
    requires { number < 16 }
    ensures { result ≡ with_bit number false word }
{
    word & !(1u16 << number)
}

// `set_source`: one source's level is set. Only a rise latches pending.
#[tactic(auto, using(crate::proofs::Laws::steady), unfolding(crate::specs::Controller::source_set))]
pub fn with_source(controller: IrqController, number: SourceNumber, level: bool) -> IrqController
    ensures { result ≡ source_set controller number.0 level }
{
    let source = number.0;
    let pending = controller.pending;
    let levels = controller.levels;
    if IrqController::SOURCE_COUNT <= source {
        return controller;
    }
    if !level {
        return IrqController {
            levels: with_bit_cleared(levels, source),
            ..controller
        };
    }
    // a level that is high already latches nothing
    if bit_is_set(levels, source) {
        return controller;
    }
    IrqController {
        pending: with_bit_set(pending, source),
        levels: with_bit_set(levels, source),
        ..controller
    }
}

// One source of `set_source_levels`: its level is set where its bit of the mask is set.
#[tactic(auto, unfolding(crate::specs::Controller::masked_source_set))]
fn with_masked_source(
    controller: IrqController,
    number: SourceNumber,
    mask: u16,
    levels: u16,
) -> IrqController
    requires { number.0 < 16 }
    ensures { result ≡ masked_source_set controller number.0 mask levels }
{
    let source = number.0;
    if bit_is_set(mask, source) {
        with_source(controller, number, bit_is_set(levels, source))
    } else {
        controller
    }
}

// Every source of `changed` is set to its bit of `levels`, one after another.
#[tactic(auto, unfolding(crate::specs::Controller::masked_sources_set, crate::specs::Controller::source_levels_set))]
fn with_changed_source_levels(controller: IrqController, changed: u16, levels: u16) -> IrqController
    ensures { result ≡ source_levels_set controller changed levels }
{
    let mut next = controller;
    for number in 0..IrqController::SOURCE_COUNT {
        next = with_masked_source(next, SourceNumber(number), changed, levels);
    }
    next
}

// `set_source_levels`: every source of the mask is set to its bit of `levels`; one whose level stays is passed over.
#[tactic(auto, using(crate::proofs::Sources::none_changed, crate::proofs::Sources::only_changed))]
pub fn with_source_levels(controller: IrqController, mask: u16, levels: u16) -> IrqController
    ensures { result ≡ source_levels_set controller mask levels }
{
    let old = controller.levels;
    let masked = levels & mask;
    let changed = (old ^ masked) & mask;
    if changed == 0 {
        return controller;
    }
    with_changed_source_levels(controller, changed, masked)
}

fn bits_cleared(word: u16, mask: u16) -> u16
    ensures { result ≡ without 16 word mask }
{
    word & !mask
}

// `clear_pending`: the pending bits that are set in the mask are cleared.
#[tactic(auto, unfolding(crate::specs::Controller::pending_cleared))]
pub fn without_pending(controller: IrqController, mask: u16) -> IrqController
    ensures { result ≡ pending_cleared controller mask }
{
    let pending = controller.pending;
    IrqController {
        pending: bits_cleared(pending, mask),
        ..controller
    }
}

// The level that a source was last set to; false for a number that no source has.
pub fn level_of(controller: IrqController, number: SourceNumber) -> bool
    ensures { result ≡ bit number.0 controller.levels }
{
    number.0 < IrqController::SOURCE_COUNT && bit_is_set(controller.levels, number.0)
}

// `irq_output`: the lowest source that is pending and enabled.
pub fn output_of(controller: IrqController) -> IrqOutput
    ensures { result ≡ output_of controller }
{
    let pending = controller.pending;
    let enable = controller.enable;
    let lowest = (pending & enable).trailing_zeros();
    match lowest {
        0..=15 => IrqOutput {
            valid: true,
            number: SourceNumber(lowest as u8),
        },
        _ => IrqOutput {
            valid: false,
            number: SourceNumber(0),
        },
    }
}

// The byte of a register's word at an address, the most significant one first.
fn byte_at(word: u16, address: u32) -> u8
    ensures { result ≡ cond (eqb (address % 2) 0) (word / 256) (word % 256) }
{
    if address % 2 == 0 {
        (word >> 8) as u8
    } else {
        (word % 256) as u8
    }
}

// `read`
#[tactic(auto, unfolding(crate::specs::Controller::controller_read))]
pub fn read_of(controller: IrqController, address: u32) -> u8
    ensures { result ≡ controller_read controller address }
{
    let pending = controller.pending;
    let enable = controller.enable;
    match address {
        IrqController::REG_PENDING..=IrqController::REG_PENDING_LOW => byte_at(pending, address),
        IrqController::REG_ENABLE..=IrqController::REG_ENABLE_LOW => byte_at(enable, address),
        _ => 0,
    }
}

// `debug_read`, which in the Rust answers `Some` of this byte at every address.
pub fn debug_read_of(controller: IrqController, address: u32) -> u8
    ensures { result ≡ controller_read controller address }
{
    read_of(controller, address)
}

#[tactic(auto, using(crate::proofs::Registers::high_byte))]
fn with_high_byte(word: u16, value: u8) -> u16
    ensures { result ≡ value * 256 + word % 256 }
{
    (word & 0x00FF) | (value as u16) << 8
}

#[tactic(auto, using(crate::proofs::Registers::low_byte))]
fn with_low_byte(word: u16, value: u8) -> u16
    ensures { result ≡ word / 256 * 256 + value }
{
    (word & 0xFF00) | value as u16
}

// `write`: a byte written to pending clears the bits that are set in it, and one written to enable replaces its byte.
#[tactic(auto, unfolding(crate::specs::Controller::controller_written))]
pub fn written(controller: IrqController, address: u32, value: u8) -> IrqController
    ensures { result ≡ controller_written controller address value }
{
    let enable = controller.enable;
    match address {
        IrqController::REG_PENDING => without_pending(controller, (value as u16) << 8),
        IrqController::REG_PENDING_LOW => without_pending(controller, value as u16),
        IrqController::REG_ENABLE => with_enable_mask(controller, with_high_byte(enable, value)),
        IrqController::REG_ENABLE_LOW => with_enable_mask(controller, with_low_byte(enable, value)),
        _ => controller,
    }
}

// `size`
pub fn size_of(controller: IrqController) -> u32
    ensures { result ≡ mmio_size controller }
{
    IrqController::MMIO_SIZE
}
