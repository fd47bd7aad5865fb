//! A frame whose origin can be written.

ghost use Rattle.std.specs.Prelude.{◌≡◌, ◌≢◌, ◌≤◌, ◌++◌, ◌↔◌, IsTrue, Ok, Err, IfOk, MatchResult, length, take, drop};
ghost use Rattle.ep_frame.specs.Faults.{fault_of};
ghost use Rattle.ep_frame.specs.Fields.{number_at};
ghost use Rattle.ep_frame.specs.Origins.{origin_bytes, OriginFits, KeepsMessage};

use crate::fault::FrameFault;
use crate::numbers::u8_at;
use crate::origin::Origin;
use crate::view::check_frame;
use ep_base::ReplicaId;

/// The front of a frame, its first 20 bytes, of which the origin, those from place 5 on, can be written.
#[derive(Drop)]
pub struct OriginMut<'a> {
    front: &'a mut [u8],
}

/// A frame whose origin can be written while its body is read.
#[derive(Drop)]
pub struct FrameMut<'a> {
    /// The frame's bytes up to place 20.
    pub origin: OriginMut<'a>,
    /// The frame's bytes from place 20 on.
    pub body: &'a [u8],
}

#[tactic(auto, unfolding(crate::specs::Fields::number_bytes))]
pub(crate) fn origin_array(origin: Origin) -> [u8; 15]
    requires { 1 ≤ origin.entry }
    ensures bytes { result ≡ origin_bytes origin }
    ensures in_range { OriginFits origin }
{
    let to = origin.to.index();
    let out = origin.out.to_be_bytes();
    let entry = origin.entry.to_be_bytes();
    let stamp = origin.stamp.ticks().to_be_bytes();
    [
        to, out[0], out[1], entry[0], entry[1], entry[2], entry[3], stamp[0], stamp[1], stamp[2],
        stamp[3], stamp[4], stamp[5], stamp[6], stamp[7],
    ]
}

fn write_origin(front: &mut [u8], origin: Origin)
    requires long { length front.old ≡ 20 }
    requires entry { 1 ≤ origin.entry }
    ensures written { front.new ≡ take 5 front.old ++ origin_bytes origin }
    ensures in_range { OriginFits origin }
{
    front[5..20].copy_from_slice(&origin_array(origin));
}

impl OriginMut<'_> {
    /// Whether the frame is from this replica.
    pub fn is_from(&self, replica: ReplicaId) -> bool
        requires { length self.now.front.now ≡ 20 }
        ensures { IsTrue result ↔ (replica ≡ number_at 4 1 self.now.front.now) }
    {
        replica.index() == u8_at(self.front, 4)
    }

    /// Writes the origin in place of the one that is there.
    ///
    /// The caller sees to what the types leave open: the receiver is another replica than the sender, and entries are
    /// numbered from 1.
    pub fn set(&mut self, origin: Origin)
        requires long { length self.old.front.now ≡ 20 }
        requires apart { origin.to ≢ number_at 4 1 self.old.front.now }
        requires entry { 1 ≤ origin.entry }
        ensures same_reference { self.new.front.ghost_name ≡ self.old.front.ghost_name }
        ensures written { self.new.front.now ≡ take 5 self.old.front.now ++ origin_bytes origin }
        // Whatever the frame's body is, the sender and the message stay.
        ensures message { KeepsMessage self.old.front.now self.new.front.now origin }
    {
        write_origin(self.front, origin);
    }
}

impl<'a> FrameMut<'a> {
    /// The frame that the bytes are; otherwise the first fault from left to right.
    pub fn split(bytes: &'a mut [u8]) -> Result<FrameMut<'a>, FrameFault>
        ensures exact { MatchResult result (λ f. fault_of bytes.old ≡ Ok tt) (λ f. fault_of bytes.old ≡ Err f) }
        ensures origin { IfOk result (λ f. f.origin.front.now ≡ take 20 bytes.old) }
        ensures long { IfOk result (λ f. length f.origin.front.now ≡ 20) }
        ensures body { IfOk result (λ f. f.body.now ≡ drop 20 bytes.old) }
    {
        check_frame(bytes)?;
        let (front, body) = bytes.split_at_mut(20);
        Ok(FrameMut {
            origin: OriginMut { front },
            body,
        })
    }
}
