//! Looks at a kernel, by calls that only read.

ghost use Rattle.std.specs.Prelude.{◌<◌};
ghost use Rattle.running_kernel.specs.Views.{IsRunning};
ghost use Rattle.vino_top.specs.Bounds.{IsSessionWithin};

use crate::slow::Slow;
use graft_loader::Images;
use graft_points::Policy;
use kernel_core::{Kernel, RowPlace};
use kernel_model::NoMemory;
use lab_levels::{PROCESSES, REGISTERS, View};
use ram_space::Ram;
use std::alloc::Global;
use vino_base::Disk;
use vino_top::AllCalls;

/// The most rows that a kernel has.
const MOST_ROWS: u32 = 1478;

/// Nothing is seen of a kernel that isn't booted.
pub(crate) fn view_of<B: Policy, D: Disk + Drop>(
    alloc: Global,
    slow: &Slow<B, D>,
) -> Result<View, NoMemory>
    requires within { IsSessionWithin (D.seen slow.now.disk).size slow.now.session }
{
    let mut view = View::new(alloc);
    if slow.session.booted {
        see_rows(&mut view, &slow.session.kernel)?;
        see_registers(&mut view, &slow.session.kernel)?;
    }
    Ok(view)
}

/// Sees the rows of a kernel.
fn see_rows<B: Policy>(view: &mut View, kernel: &Kernel<AllCalls, B>) -> Result<(), NoMemory>
    requires running { IsRunning kernel.now.running }
{
    let mut at = RowPlace::first();
    for _ in 0..MOST_ROWS {
        match kernel.next_row(&mut at) {
            Some(row) => view.add_row(row)?,
            None => return Ok(()),
        }
    }
    Ok(())
}

/// Sees the registers of each process's innermost level; zeros where it has none.
fn see_registers<B: Policy>(view: &mut View, kernel: &Kernel<AllCalls, B>) -> Result<(), NoMemory>
    requires running { IsRunning kernel.now.running }
{
    for p in 0..PROCESSES {
        for i in 0..REGISTERS {
            view.add_register(kernel.innermost_register(p, i).unwrap_or(0))?;
        }
    }
    Ok(())
}

/// The kernel's memory.
pub(crate) fn memory_of<'a, B: Policy, D: Disk + Drop>(slow: &'a Slow<B, D>) -> &'a Ram {
    &slow.session.kernel.running.store.ram
}

/// The images of the kernel.
pub(crate) fn images_of<'a, B: Policy, D: Disk + Drop>(slow: &'a Slow<B, D>) -> &'a Images {
    &slow.session.kernel.running.images
}
