//! Hosts: replicas that several threads run. There are two, and both leave journals that the audit judges.
//!
//! In a `LockHost` the replicas stand behind locks, each with an inbox of frames. `submit` and `direct` ask a replica for an event, `pump`
//! hands it a frame of its inbox and lets it execute, `outcome` and `receipts_after` say what came of it, and `finish` audits what
//! the threads left. Start with specs/Tending.antt and `tending.rt`, which say exactly what one pump does to a replica, then
//! specs/Asking.antt, which says what a call gives, and `lock_host.rt`.
//! A replica behind a lock is what its journal leaves, and starts as all of its host do, by its type (`HostReplica`, `Start`), whatever threads do. Its
//! inboxes are as large as the type says (`HostSender`). An inbox holds frames of versions that replicas are of, by the type of its items, in one order (specs/Inboxes.antt). No lock of a replica is held while frames are sent. Whether the journals fit
//! together no lock knows: `finish` asks the audit. What a replica sends and receives by is a `Sender` behind a lock of its own: the weather of its
//! frames, an outlet for each replica of the cluster, which puts, counts and holds them, and the port to its own inbox (specs/Outboxes.antt).
//!
//! The nodes of a ring host own their replicas and the ends of their rings; there is no lock, and no turn waits. `RingHost::new` makes the nodes,
//! `section` gives each of them its turns in a thread of its own, `settle` gives turns in rounds, and `finish` audits the nodes. Start with
//! specs/Turns.antt (one turn, exactly), specs/Turned.antt and specs/Follows.antt (turns, and what they leave) and specs/Host.antt (the nodes of one host), then
//! `ring_node.rt`. What a node put into a ring is a frame out of an entry of its journal, and what it handled it took from one of its rings,
//! by its type; its rings hold frames of such versions alone. Both ends of all rings together then say that all that was handled was sent, in its order, so
//! `finish` never finds a fault; `section` and `settle` say it of the nodes that they hand back.
//!
//! A node, or a replica behind its lock, may have a weather (specs/Weathers.antt): frames for a peer are counted, and those that it names are
//! dropped, held or put twice (specs/Fates.antt). What is held is put once the host releases it (specs/Setting.antt).
//!
//! No clause says that a thread gets on.
#![tactic(auto)]

mod account;
mod act;
mod acting;
mod delivery;
mod finished;
mod finishing;
mod frames_out;
mod gate;
mod gate_unpassed;
mod hand;
mod held_frames;
mod host_fault;
mod host_frame;
mod host_replica;
mod host_sender;
mod inbox;
mod link;
mod lock_host;
mod outlet;
mod outlets;
mod port;
mod putting;
mod ring_finishing;
mod ring_host;
mod ring_node;
mod running;
mod seat;
mod second;
pub mod sections;
mod sender;
mod setting;
mod settling;
mod start;
mod task;
mod tended;
mod tending;
mod threads;
mod turn;
mod weather;
mod weather_kind;

pub use account::are_accepted;
pub use act::Act;
pub use finished::Finished;
pub use gate::Gate;
pub use gate_unpassed::GateUnpassed;
pub use host_fault::HostFault;
pub use host_frame::none_is_refused_for_its_version;
pub use lock_host::LockHost;
pub use port::Port;
pub use ring_finishing::{finish, finish_with};
pub use ring_host::RingHost;
pub use ring_node::RingNode;
pub use seat::ReplicaCell;
pub use second::Second;
pub use settling::settle;
pub use start::Start;
pub use task::Task;
pub use tended::Tended;
pub use tending::tend;
pub use threads::section;
pub use turn::Turn;
pub use weather::{Weather, own_of};
pub use weather_kind::WeatherKind;
