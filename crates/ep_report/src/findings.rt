//! What an audit that accepts found.

use crate::life::Life;
use ep_audit::Happening;
use ep_base::{Decree, InstanceId};
use ep_rules::Receipt;

/// What an audit that accepts found, each list in the order in which it is printed.
#[derive(Clone, Copy)]
pub struct Findings<'a> {
    /// In version 3 its generation; none in versions 1 and 2.
    pub life: Option<&'a Life<'a>>,
    /// The committed instances with their decrees.
    pub committed: &'a [(InstanceId, Decree)],
    /// The history.
    pub history: &'a [Happening],
    /// The receipts.
    pub receipts: &'a [Receipt],
}
