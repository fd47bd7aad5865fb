//! The replicas that have to be heard.

ghost use Rattle.std.specs.Prelude.{◌≡◌, ◌≤◌, ◌<◌, ◌+◌, ◌++◌, OnOk, decimal};
ghost use Rattle.ep_ending.specs.Lines.{between_text, names_text};
ghost use Rattle.ep_laws.specs.Named.{name};

use ep_base::{ReplicaId, Size};
use ep_report::{Part, push_parts};
use std::alloc::AllocError;

/// The replica at this place among those that aren't the leader.
fn name(leader: ReplicaId, place: u8) -> u8
    requires { place ≤ 3 }
    ensures { result ≡ name leader place }
{
    if place < leader.index() {
        place
    } else {
        place + 1
    }
}

/// What stands before the replica at this place.
fn between(cluster: Size, place: u8) -> &'static [u8]
    ensures { result.now ≡ between_text cluster place }
{
    if place == 0 {
        b""
    } else if place == cluster.faults() {
        b" and "
    } else {
        b", "
    }
}

/// Appends the replica at this place.
fn push_name(
    text: &mut Vec<u8>,
    cluster: Size,
    leader: ReplicaId,
    place: u8,
) -> Result<(), AllocError>
    requires { place ≤ 3 }
    ensures { OnOk result (text.new.items ≡ text.old.items ++ (between_text cluster place ++ decimal (name leader place))) }
{
    push_parts(
        text,
        &[
            Part::Text(between(cluster, place)),
            Part::Number(name(leader, place) as u64),
        ],
    )
}

/// Appends the f+1 replicas that have to be heard, for an instance of this leader.
pub(crate) fn push_names(
    text: &mut Vec<u8>,
    cluster: Size,
    leader: ReplicaId,
) -> Result<(), AllocError>
    ensures { OnOk result (text.new.items ≡ text.old.items ++ names_text cluster leader (cluster + 1)) }
{
    for place in 0..cluster.faults() + 1 {
        push_name(text, cluster, leader, place)?;
    }
    Ok(())
}
