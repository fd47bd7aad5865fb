//! Executing an instance.

ghost use Rattle.std.specs.Prelude.{◌≡◌};
ghost use Rattle.ep_library.specs.Arguments.{instance_in};
ghost use Rattle.ep_library.specs.Executing.{named, Executes, Tries};

use crate::codes::taking_status;
use crate::instance::Instance;
use crate::making::{instance_in, instance_out};
use crate::status::{DONE, NO_REPLICA, OUT_OF_RANGE};
use ep_base::InstanceId;
use ep_embedded::{Hosted, TakingFault};
use ep_handle::Handle;
use std::alloc::Global;
use std::mem;

/// Reports the instance that the fault names, if it names one.
fn report_named(fault: &TakingFault, waits_for: &mut Instance)
    ensures { waits_for.new ≡ named fault.now waits_for.old }
{
    match fault {
        TakingFault::Lent => {}
        TakingFault::Refused(refusal) => {
            if let Some(instance) = refusal.instance() {
                *waits_for = instance_out(instance);
            }
        }
    }
}

/// The replica executes the instance.
fn tries(hosted: &mut Hosted, instance: InstanceId, waits_for: &mut Instance) -> u8
    ensures { Tries result hosted.old instance waits_for.old hosted.new waits_for.new }
{
    match hosted.execute(instance) {
        Ok(()) => DONE,
        Err(fault) => {
            report_named(&fault, waits_for);
            taking_status(fault)
        }
    }
}

/// Executes the instance, and before it all that it depends on. EP_NO_REPLICA, EP_LENT, EP_MEMORY; EP_OUT_OF_RANGE: there is no such instance; EP_NOT_COMMITTED: `waits_for`
/// becomes the least instance that it waits for and that isn't committed here; EP_STAMP_FULL.
#[unsafe(no_mangle)]
pub extern "C" fn ep_execute(
    alloc: Global,
    handle: &mut Handle,
    instance: Instance,
    waits_for: &mut Instance,
) -> u8
    ensures { Executes result handle.old.value instance waits_for.old handle.new.value waits_for.new }
{
    let Some(instance) = instance_in(instance) else {
        return OUT_OF_RANGE;
    };
    let held = mem::replace(handle, Handle::empty());
    match held.into_box(alloc) {
        None => NO_REPLICA,
        Some(mut hosted) => {
            let status = tries(&mut hosted, instance, waits_for);
            *handle = Handle::of(hosted);
            status
        }
    }
}
