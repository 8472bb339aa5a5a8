// The methods of irqc.rs, which lend the controller: `&mut self` alters the caller's own in place, `&self` only reads
// it. Each calls one by-value function of lib.rt, and states the whole controller at exit, or its answer, by that
// function's rule.
ghost use Rattle.std.specs.Prelude.{◌≡◌};
ghost use Rattle.controller.specs.Controller.{reset_of, pending_of, enable_mask_of, enable_mask_set, source_set};
ghost use Rattle.controller.specs.Controller.{source_levels_set, pending_cleared, output_of, controller_read};
ghost use Rattle.controller.specs.Controller.{controller_written, mmio_size};

use crate::{
    IrqController, IrqOutput, SourceNumber, all_clear, debug_read_of, enable_mask_of, output_of,
    pending_of, read_of, size_of, with_enable_mask, with_source, with_source_levels,
    without_pending, written,
};

impl IrqController {
    pub fn reset(&mut self)
        ensures { self.new ≡ reset_of self.old }
    {
        *self = all_clear(*self);
    }

    pub fn pending(&self) -> u16
        ensures { result ≡ pending_of self.now }
    {
        pending_of(*self)
    }

    pub fn enable_mask(&self) -> u16
        ensures { result ≡ enable_mask_of self.now }
    {
        enable_mask_of(*self)
    }

    pub fn set_enable_mask(&mut self, mask: u16)
        ensures { self.new ≡ enable_mask_set self.old mask }
    {
        *self = with_enable_mask(*self, mask);
    }

    pub fn set_source(&mut self, number: SourceNumber, level: bool)
        ensures { self.new ≡ source_set self.old number.0 level }
    {
        *self = with_source(*self, number, level);
    }

    pub fn set_source_levels(&mut self, mask: u16, levels: u16)
        ensures { self.new ≡ source_levels_set self.old mask levels }
    {
        *self = with_source_levels(*self, mask, levels);
    }

    pub fn clear_pending(&mut self, mask: u16)
        ensures { self.new ≡ pending_cleared self.old mask }
    {
        *self = without_pending(*self, mask);
    }

    pub fn irq_output(&self) -> IrqOutput
        ensures { result ≡ output_of self.now }
    {
        output_of(*self)
    }

    // `Device` has `&mut self` here and in `read`; the controller does not change. The Rust answers `Some` of the byte.
    pub fn debug_read(&mut self, address: u32) -> u8
        ensures { (result ≡ controller_read self.old address) × (self.new ≡ self.old) }
    {
        debug_read_of(*self, address)
    }

    pub fn read(&mut self, address: u32) -> u8
        ensures { (result ≡ controller_read self.old address) × (self.new ≡ self.old) }
    {
        read_of(*self, address)
    }

    pub fn write(&mut self, address: u32, value: u8)
        ensures { self.new ≡ controller_written self.old address value }
    {
        *self = written(*self, address, value);
    }

    pub fn size(&self) -> u32
        ensures { result ≡ mmio_size self.now }
    {
        size_of(*self)
    }
}
