//! What is asked for, as bytes.

ghost use Rattle.std.specs.Prelude.{◌≡◌, ◌≤◌, ◌+◌, ◌*◌, ◌++◌, ◌∷◌, length};
ghost use Rattle.std.specs.Vec.{vec_capacity, vec_len};
ghost use Rattle.ep_patience.specs.OpenBytes.{asked_bytes, instance_bytes, remedy_bytes};

use crate::remedy::Remedy;
use ep_base::InstanceId;

/// Writes an event: its kind, and its instance.
fn write_event(reported: &mut Vec<u8>, kind: u8, instance: InstanceId)
    requires { vec_len reported.old + 4 ≤ vec_capacity reported.old }
    ensures items { reported.new.items ≡ reported.old.items ++ kind ∷ instance_bytes instance }
    ensures room { vec_capacity reported.new ≡ vec_capacity reported.old }
    ensures len { vec_len reported.new ≡ vec_len reported.old + 4 }
{
    let number = instance.number();
    reported.push_reserved(kind);
    reported.push_reserved(instance.replica().index());
    reported.push_reserved((number / 256) as u8);
    reported.push_reserved((number % 256) as u8);
}

/// Writes what is asked for, for which there is room.
fn write_remedy(reported: &mut Vec<u8>, remedy: &Remedy)
    requires { vec_len reported.old + 4 ≤ vec_capacity reported.old }
    ensures items { reported.new.items ≡ reported.old.items ++ remedy_bytes remedy.now }
    ensures room { vec_capacity reported.new ≡ vec_capacity reported.old }
    ensures len { vec_len reported.new ≡ vec_len reported.old + 4 }
{
    match remedy {
        Remedy::GiveUp(instance) => write_event(reported, 3, *instance),
        Remedy::Recover(instance) => write_event(reported, 4, *instance),
    }
}

/// Writes all that is asked for.
pub(crate) fn write_asked(reported: &mut Vec<u8>, asked: &[Remedy])
    requires { vec_len reported.old + 4 * length asked.now ≤ vec_capacity reported.old }
    ensures { reported.new.items ≡ reported.old.items ++ asked_bytes asked.now }
{
    for remedy in asked {
        write_remedy(reported, remedy);
    }
}
