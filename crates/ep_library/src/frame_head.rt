//! A part of a frame's header.

/// A part of the header of a frame of version 3 (docs/FORMATS.md, section 1.2).
#[repr(C)]
#[derive(Clone, Copy)]
pub struct FrameHead {
    /// The entry of its sender that it is of.
    pub entry: u32,
    /// The generation.
    pub generation: u32,
    /// At which of the frame's bytes the body of its command begins, behind both keys: a seal's value is there.
    pub body_at: u32,
    /// How many bytes the body has; 0 where there is none.
    pub body_len: u32,
    /// The number of its instance.
    pub number: u16,
    /// The counter of its ballot; 0 of a Commit.
    pub ballot: u16,
    /// How many dependencies it has.
    pub dependencies: u16,
    /// The replica that leads the instance.
    pub replica: u8,
    /// The replica that sent it.
    pub from: u8,
    /// The replica that it is for.
    pub to: u8,
    /// 1: PreAccept; 2: its answer; 3: Accept; 4: its answer; 5: Commit; 6: Prepare; 7: its answer; 8: a refusal.
    pub kind: u8,
    /// The op of its command, 1 to 10 (9 is a seal); 0 where it has none.
    pub op: u8,
}
