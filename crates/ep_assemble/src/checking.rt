//! Whether journals are those of one cluster, one for each replica.

ghost use Rattle.std.specs.Prelude.{◌≡◌, ◌<◌, ◌≤◌, ◌↔◌, ℕ, true, IfErr, OnOk, MatchOption, All};
ghost use Rattle.ep_base.specs.Quorums.{size};
ghost use Rattle.ep_assemble.specs.Clusters.{IsMember, IsMiscounted, IsNotOne, IsOther, count_of};

use crate::collect_fault::CollectFault;
use ep_base::{ReplicaId, Size, Version};
use ep_journal::{Journal, Opening};

/// The place of the first journal that isn't one of this cluster's.
pub(crate) fn other_place(
    version: Version,
    opening: &Opening,
    cluster: Size,
    journals: &[Journal],
) -> Option<usize>
    ensures { MatchOption result (All (IsMember version opening.now cluster) journals.now) (λ place. IsOther place version opening.now cluster journals.now) }
{
    for (place, journal) in journals.iter().enumerate() {
        if !is_member(version, opening, cluster, journal) {
            return Some(place);
        }
    }
    None
}

/// Whether the journal is one of this cluster's.
fn is_member(version: Version, opening: &Opening, cluster: Size, journal: &Journal) -> bool
    ensures { (result ≡ true) ↔ IsMember version opening.now cluster journal.now }
{
    let _ = journal.entries();
    journal.version() == version
        && journal.size() == cluster
        && journal.me().index() < cluster.count()
        && journal.opening().is_same(opening)
}

/// Looks whether each replica has one journal.
pub(crate) fn check_counts(cluster: Size, journals: &[Journal]) -> Result<(), CollectFault>
    ensures once { OnOk result ((r : ℕ) → r < size cluster → count_of r journals.now ≡ 1) }
    ensures other { IfErr result (λ e. IsMiscounted e cluster journals.now) }
{
    for index in 0..cluster.count() {
        check_count(replica_of(index), journals)?;
    }
    Ok(())
}

/// Looks whether the replica has one journal.
fn check_count(replica: ReplicaId, journals: &[Journal]) -> Result<(), CollectFault>
    ensures once { OnOk result (count_of replica journals.now ≡ 1) }
    ensures other { IfErr result (λ e. IsNotOne e replica journals.now) }
{
    match count(replica, journals) {
        0 => Err(CollectFault::Missing(replica)),
        1 => Ok(()),
        _ => Err(CollectFault::Twice(replica)),
    }
}

/// How many of the journals are the replica's.
fn count(replica: ReplicaId, journals: &[Journal]) -> usize
    ensures { result ≡ count_of replica journals.now }
{
    journals.iter().filter(|j| j.me() == replica).count()
}

fn replica_of(index: u8) -> ReplicaId
    requires { index ≤ 6 }
    ensures { result ≡ index }
{
    match ReplicaId::new(index) {
        Ok(replica) => replica,
        Err(_) => unreachable!(),
    }
}
