//! Instances, as C has them.

/// An instance, which is a place for one command.
#[repr(C)]
#[derive(Clone, Copy)]
pub struct Instance {
    /// Its number among those of its leader, from 1 to 9,000, in version 2 to 2,000.
    pub number: u16,
    /// The replica that leads it, from 0.
    pub replica: u8,
}
