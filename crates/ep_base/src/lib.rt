//! Names, commands, attributes and messages of a replicated key-value core, and the devices that programs read from and write to.
//!
//! Every other crate calls this one. It is plain data with ranges: whoever holds a `Seq`, an `InstanceId` or a `Key` knows
//! that it is in range, and contracts see it as a number or a list of bytes.
//!
//! Start with `command.rt` (what a replica may be asked, and which two commands interfere), `decree.rt` (what replicas vote
//! on) and `message.rt`. `Source` and `Sink` are how crates read and write without knowing what.
//!
//! `version.rt` alone says what each version of the formats has room for.
//!
//! specs/Instances.antt and specs/Ballots.antt alone say how instances and ballots are packed into numbers. After a change
//! of a public type or clause here all crates are proved anew.
#![tactic(auto)]

mod attrs;
mod ballot;
mod command;
mod command_fault;
mod command_view;
mod comparison;
mod decree;
mod deps;
mod fail_at;
mod generation;
mod instance_id;
mod interference;
mod items;
mod key;
mod merging;
mod message;
mod message_view;
mod noted;
mod op;
mod out_of_range;
mod read_failed;
mod replica_id;
mod reply;
mod reply_values;
mod rising_list;
mod seq;
mod sink;
mod size;
mod source;
mod stamp;
mod value;
mod version;
mod version_kind;
mod vote;
mod write_failed;

pub use attrs::Attrs;
pub use ballot::Ballot;
pub use command::{Command, parts_law};
pub use command_fault::CommandFault;
pub use command_view::{CommandView, Touching};
pub use comparison::is_comparison;
pub use decree::Decree;
pub use deps::Deps;
pub use fail_at::FailAt;
pub use generation::Generation;
pub use instance_id::InstanceId;
pub use interference::{footprint_law, interference_law, interferes};
pub use items::{ItemView, Items, MOST_KEYS, MOST_REPORTED, is_tx};
pub use key::Key;
pub use merging::merged;
pub use message::Message;
pub use message_view::MessageView;
pub use noted::Noted;
pub use op::Op;
pub use out_of_range::OutOfRange;
pub use read_failed::ReadFailed;
pub use replica_id::ReplicaId;
pub use reply::{Answer, Reply};
pub use reply_values::ReplyValues;
pub use rising_list::RisingList;
pub use seq::Seq;
pub use sink::Sink;
pub use size::{BadSize, Size, fast_member, may_be_spared, spared_by, usually_spared};
pub use source::Source;
pub use stamp::Stamp;
pub use value::Value;
pub use version::Version;
pub use version_kind::VersionKind;
pub use vote::{Vote, VoteStatus};
pub use write_failed::WriteFailed;
