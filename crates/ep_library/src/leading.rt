//! How far an instance is led.

/// How far a replica leads an instance.
#[repr(C)]
#[derive(Clone, Copy)]
pub struct Leading {
    /// 1: it waits for the answers to its proposal; 2: for votes on what it has chosen; 3: it recovers the instance.
    pub phase: u8,
    /// How many others have answered.
    pub answers: u8,
}
