//! What a start is asked for.

/// What a replica's start on its folder is asked for.
#[repr(C)]
#[derive(Clone, Copy)]
pub struct StartWish {
    /// Of 3: of which generation the opening is; else ignored.
    pub generation: u32,
    /// 1: to go on with what is there; 2: to begin generation 1, of a replica that is new; 3: to take the opening of a
    /// generation, which a peer has, or which was made as the one before was closed.
    pub kind: u8,
    /// Of 2 and 3: 0 if the opening's bytes aren't those of the newest one in the folder; else ignored.
    pub is_same: u8,
}
