//! A world of replicas, which plays any list of events: whatever messages are lost, repeated or reordered, what it leaves is a run.
//!
//! `ep_replay` plays scripts in a `World`. Its `play` carries the first half of the headline in its contract: agreement,
//! permanence, validity and dependency, of the world left, whatever was played and whatever `play` answers.
//!
//! Start with `world.rt`, then specs/Played.antt (what a world is seen as), specs/Playing.antt (one event, several) and
//! specs/Safe.antt (what then holds).
//!
//! A `World` is a run by its type: only `advance.rt` adds a step, and it notes its place and its messages in the same call.
#![tactic(auto)]

mod advance;
mod notes;
mod place;
mod refused;
mod replicas;
mod world;
mod world_event;

pub use place::Place;
pub use refused::Refused;
pub use world::World;
pub use world_event::WorldEvent;
