//! Journals, collected.

ghost use Rattle.std.specs.Prelude.{◌≡◌, ◌<◌, ◌↔◌, ℕ, IfOk, IfErr, IsOk};
ghost use Rattle.ep_base.specs.declared.version.Version.{Version};
ghost use Rattle.ep_journal.specs.Openings.{Opening};
ghost use Rattle.ep_assemble.specs.Clusters.{AreOfOne, Collects, IsRefused};

use crate::checking::{check_counts, other_place};
use crate::collect_fault::CollectFault;
use crate::ordering::put_in_order;
use ep_base::Size;
use ep_journal::{Journal, Journals};

/// The journals of one cluster, in any order, as the cluster's; the first fault where they aren't one for each replica of one
/// cluster, of one version and with one opening.
pub fn collect(journals: Vec<Journal>) -> Result<Journals, CollectFault>
    ensures collects { IfOk result (λ j. Collects journals.items j) }
    ensures refused { IfErr result (λ e. IsRefused e journals.items) }
    ensures exact { IsOk result ↔ ((v : Version) × (o : Opening) × (f : ℕ) × AreOfOne v o f journals.items) }
{
    let mut journals = journals;
    let cluster = cluster_of(&journals)?;
    put_in_order(cluster, &mut journals);
    match Journals::new(journals) {
        Ok(journals) => Ok(journals),
        Err(_) => unreachable!(),
    }
}

/// The size of the cluster whose journals these are.
fn cluster_of(journals: &[Journal]) -> Result<Size, CollectFault>
    ensures of_one { IfOk result (λ f. (v : Version) × (o : Opening) × AreOfOne v o f journals.now) }
    ensures refused { IfErr result (λ e. IsRefused e journals.now) }
{
    let Some(first) = journals.first() else {
        return Err(CollectFault::NoJournal);
    };
    let version = first.version();
    let cluster = first.size();
    if let Some(place) = other_place(version, first.opening(), cluster, journals) {
        return Err(CollectFault::OtherCluster(place));
    }
    check_counts(cluster, journals)?;
    Ok(cluster)
}
