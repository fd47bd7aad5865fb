//! What becomes of a record.

use ep_base::{Ballot, Decree};

/// What becomes of an instance's record.
#[derive(Drop)]
pub enum Recorded {
    /// It stays as it is.
    Stays,
    /// The replica joins the ballot; its last vote stays.
    Joins(Ballot),
    /// It pre-accepts the decree at the ballot.
    PreAccepts(Ballot, Decree),
    /// It accepts the decree at the ballot.
    Accepts(Ballot, Decree),
    /// It commits the decree; both ballots stay.
    Commits(Decree),
    /// It commits what it voted for last; both ballots stay.
    Settles,
}
