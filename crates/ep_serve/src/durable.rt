//! What a node took, put on its disk.

ghost use Rattle.std.specs.Prelude.{◌≡◌, false, OnOk, IfErr};
ghost use Rattle.ep_base.specs.Devices.{FailsAsReported};
ghost use Rattle.ep_node.specs.Nodes.{IsQuiet};
ghost use Rattle.ep_serve.specs.Lasting.{GoesOn, IsKept, StaysKnown};
ghost use Rattle.ep_serve.specs.Serving.{is_log_failed, IsEarly, Names};

use crate::serve_fault::ServeFault;
use ep_device::Device;
use ep_node::Node;

/// Writes what the node took to its disk, and returns when it is there: from then on no crash takes it.
pub(crate) fn put_on_disk<D: Device>(node: &mut Node<D>) -> Result<(), ServeFault>
    requires { node.old.closed ≡ false }
    ensures replica { node.new.replica ≡ node.old.replica }
    ensures own { node.new.digest ≡ node.old.digest }
    ensures quiet { OnOk result (IsQuiet node.new) }
    ensures kept { OnOk result (IsKept node.old.digest D.seen D.moment D.left_since node.old.device node.new.device node.old.replica) }
    ensures known { OnOk result (StaysKnown D.seen node.old.device node.new.device) }
    ensures onward { GoesOn node.old.digest D.seen D.moment D.left_since node.old.device node.new.device node.old.replica node.old.synced }
    ensures err { IfErr result IsEarly }
    ensures log_cause { FailsAsReported is_log_failed result (D.has_failed node.old.device) (D.has_failed node.new.device) }
    ensures log_why { IfErr result (λ fault. Names fault (D.why node.new.device)) }
{
    node.sync()?;
    node.is_at_rest();
    Ok(())
}
