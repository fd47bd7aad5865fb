//! Frames, as a host reads them that passes them on.

ghost use Rattle.std.specs.Prelude.{◌≡◌, ◌≤◌, ◌+◌, true, length};
ghost use Rattle.ep_frame.specs.Fields.{header_at, number_at};
ghost use Rattle.ep_library.specs.Framing.{head_at, head_of, is_third, ReportsHead};

use crate::frame_head::FrameHead;
use crate::status::{BAD_FRAME, DONE};
use ep_frame::{u8_at, u16_at, u32_at};

/// How many bytes the header of version 3 has.
const HEADER_LEN: usize = 48;

/// Whether the bytes begin as a frame of version 3 does.
fn is_third(bytes: &[u8]) -> bool
    requires { 48 ≤ length bytes.now }
    ensures { result ≡ is_third bytes.now }
{
    u16_at(bytes, 0) == 0x4550 && u8_at(bytes, 2) == 3
}

/// What the places of version 3 have is what the header says: a law, which costs nothing to call.
#[tactic(auto, using(crate::proofs::Heads::is_header_s))]
fn is_header_s(bytes: &[u8])
    requires { is_third bytes.now ≡ true }
    ensures { head_of (header_at bytes.now) ≡ head_at bytes.now }
{}

/// Where the command's body begins.
fn body_place(bytes: &[u8]) -> u32
    requires { 48 ≤ length bytes.now }
    ensures { result ≡ 48 + number_at 35 1 bytes.now + number_at 36 2 bytes.now }
{
    let first = u32::from(u8_at(bytes, 35));
    let second = u32::from(u16_at(bytes, 36));
    48 + first + second
}

/// What stands at the places of version 3.
fn head_in(bytes: &[u8]) -> FrameHead
    requires { 48 ≤ length bytes.now }
    ensures { result ≡ head_at bytes.now }
{
    FrameHead {
        entry: u32_at(bytes, 8),
        generation: u32_at(bytes, 40),
        body_at: body_place(bytes),
        body_len: u32_at(bytes, 44),
        number: u16_at(bytes, 21),
        ballot: u16_at(bytes, 23),
        dependencies: u16_at(bytes, 38),
        replica: u8_at(bytes, 20),
        from: u8_at(bytes, 4),
        to: u8_at(bytes, 5),
        kind: u8_at(bytes, 3),
        op: u8_at(bytes, 34),
    }
}

/// Says what the header of a frame says, by its first 48 bytes. Of these no more is looked at than that the frame is
/// of version 3: a host that passes frames on needs to know what goes by, and ep_handle judges them. EP_BAD_FRAME:
/// there are fewer than 48, or they begin as no frame of version 3 does.
#[unsafe(no_mangle)]
pub extern "C" fn ep_frame_head(frame: &[u8], head: &mut FrameHead) -> u8
    ensures { ReportsHead result frame.now head.old head.new }
{
    if frame.len() < HEADER_LEN {
        return BAD_FRAME;
    }
    if !is_third(frame) {
        return BAD_FRAME;
    }
    is_header_s(frame);
    *head = head_in(frame);
    DONE
}
