// Lends a controller to its methods, one after another, and prints what it then presents: whether there is a source,
// and its number. A write that fails ends the program with its error.
#![tactic(auto)]

ghost use Rattle.std.specs.Prelude.{◌≡◌};
ghost use Rattle.irq.specs.Presented.{presented_by};

use controller::{IrqController, IrqOutput};
use std::io::{self, Write};

// What is presented once the sources of `raised` have risen, those of `mask` are enabled, and the byte at `address` is
// read and written back.
fn presented(raised: u16, mask: u16, address: u32) -> IrqOutput
    ensures { result ≡ presented_by raised mask address }
{
    let mut controller = IrqController::new();
    controller.set_source_levels(raised, raised);
    controller.set_enable_mask(mask);
    let byte = controller.read(address);
    controller.write(address, byte);
    controller.irq_output()
}

fn print_output(rt: &impl Print, output: IrqOutput) -> io::Result<()> {
    let mut out = io::writer(rt);
    out.write_all(if output.valid { b"1 " } else { b"0 " })?;
    writeln!(out, "{}", output.number.0)
}

// Sources 9 and 5 have risen.
fn print_presented(rt: &impl Print, mask: u16, address: u32) -> io::Result<()> {
    print_output(rt, presented(0x0220, mask, address))
}

fn main(rt: HostRuntime) -> io::Result<()> {
    // no register is there, so nothing is acknowledged
    let nowhere = 0x02;
    print_presented(&rt, 0x0200, nowhere)?;
    print_presented(&rt, 0x0220, nowhere)?;
    // source 5 is acknowledged
    print_presented(&rt, 0x0220, IrqController::REG_PENDING_LOW)?;
    print_presented(&rt, 0x0020, IrqController::REG_PENDING_LOW)
}
