//! Replays of scripts: a script's lines are played in a world, one after another.
//!
//! `ep_main` calls `replay`. It numbers each client's requests, hands in the greatest stamp that the client was answered, gives
//! messages by their numbers, and lists what was refused. What it leaves, the audit accepts: that is in its contract.
//! `ep_trace` calls `play`, which leaves the world, and each event that was tried with what came of it.
//!
//! Start with `player.rt`, then specs/Replays.antt (what each line plays), specs/Clients.antt, and `heads.rt` (what a script's
//! head makes of a world before any line).
//!
//! All of it is the meaning of a script, as docs/CLI.md, sections 4.3 and 4.4, reports it; the protocol is in
//! `ep_world` and below.
#![tactic(auto)]

mod causes;
mod clients;
mod ended;
mod given;
mod heads;
mod outcome;
mod player;
mod replayed;
mod tried;

pub use clients::{Client, Clients};
pub use ended::Ended;
pub use heads::{beginning_of, begun};
pub use outcome::Outcome;
pub use player::{play, replay};
pub use replayed::Replayed;
pub use tried::Tried;
