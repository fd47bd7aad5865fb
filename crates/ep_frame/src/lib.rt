//! Frames: messages as bytes that are checked once, borrowed views of them, and writing them.
//!
//! `ep_journal` writes and reads every frame by this crate; a program that carries frames asks `Frame` for the receiver.
//! It keeps to docs/FORMATS.md, section 1: bytes that spell a message spell one, and other bytes have a first fault.
//!
//! Start with `frame.rt` (what is known to be a frame), `view.rt` (reading) and `writing.rt`. specs/Spelling.antt says which
//! bytes spell which message, specs/Faults.antt the faults in their order.
//!
//! A field's place is in specs/Fields.antt, `layout.rt` and `frame_field.rt`. Another kind of message or a wider field is
//! another version of the format, and `one_spelling` has to hold of it too.
#![tactic(auto)]

mod deps_view;
mod fault;
mod field_name;
mod frame;
mod frame_field;
mod frame_mut;
mod handled;
mod header;
mod instance_message;
mod kind;
mod laws;
mod layout;
mod made;
mod numbers;
mod origin;
mod round;
mod view;
mod writing;

pub use deps_view::{DepsIter, DepsView};
pub use fault::FrameFault;
pub use field_name::FieldName;
pub use frame::Frame;
pub use frame_field::{FrameField, field_at};
pub use frame_mut::{FrameMut, OriginMut};
pub use header::Header;
pub use instance_message::InstanceMessage;
pub use kind::Kind;
pub use laws::one_spelling;
pub use numbers::{u8_at, u16_at, u32_at, u64_at};
pub use origin::Origin;
pub use round::Round;
pub use view::FrameView;
pub use writing::{write, write_each, write_said};
