//! What a version has. A replica of that version takes no other events.

ghost use Rattle.std.specs.Prelude.{◌≡◌, ◌&&◌, None, Some, IfErr, OnOk};
ghost use Rattle.ep_base.specs.Versions.{knows, names};
ghost use Rattle.ep_frame.specs.Meaning.{version_at};
ghost use Rattle.ep_journal.specs.Events.{IsReadable, lacking, numbered_in, spelled_in};

use crate::event::Event;
use crate::step_fault::StepFault;
use ep_base::{Command, InstanceId, ReplicaId, Version};

/// Whether a replica of this version has what the event speaks of: `OtherVersion` for a frame of another version, `OtherGeneration` for one of
/// its version and another generation, `OutOfRange` for a command or an instance's number that the version lacks, and for a spared replica that is named.
#[inline(always)]
pub(crate) fn check_version(version: Version, event: &Event) -> Result<(), StepFault>
    ensures ok { OnOk result (lacking version event.now ≡ None) }
    ensures err { IfErr result (λ fault. lacking version event.now ≡ Some fault) }
    ensures readable { IsReadable event.now }
{
    event.is_readable();
    match event {
        Event::Propose {
            client: _,
            request: _,
            command,
            seen: _,
            spared,
        } => {
            if !has_request(version, command, *spared) {
                return Err(StepFault::OutOfRange);
            }
            Ok(())
        }
        Event::Handle(frame) => check_spelled(frame.version(), version),
        Event::GiveUp(instance) | Event::Recover(instance) | Event::Execute(instance) => {
            check_numbered(version, *instance)
        }
    }
}

#[inline(always)]
fn has_request(version: Version, command: &Command, spared: Option<ReplicaId>) -> bool
    ensures { result ≡ (knows version command.now && names version spared) }
{
    version.knows(command) && version.names(spared)
}

#[inline(always)]
fn check_spelled(spelled: Version, version: Version) -> Result<(), StepFault>
    ensures ok { OnOk result (spelled_in spelled version ≡ None) }
    ensures err { IfErr result (λ fault. spelled_in spelled version ≡ Some fault) }
{
    if spelled.number() != version.number() {
        return Err(StepFault::OtherVersion);
    }
    if spelled.generation() != version.generation() {
        return Err(StepFault::OtherGeneration);
    }
    Ok(())
}

#[inline(always)]
fn check_numbered(version: Version, instance: InstanceId) -> Result<(), StepFault>
    ensures ok { OnOk result (numbered_in version instance ≡ None) }
    ensures err { IfErr result (λ fault. numbered_in version instance ≡ Some fault) }
{
    if instance.number() > version.highest_number() {
        return Err(StepFault::OutOfRange);
    }
    Ok(())
}
