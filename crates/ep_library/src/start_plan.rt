//! How a replica starts.

/// How a replica starts.
#[repr(C)]
#[derive(Clone, Copy)]
pub struct StartPlan {
    /// In which generation.
    pub generation: u32,
    /// 1: its opening is written into its place first; else 0.
    pub writes: u8,
    /// 1: its log is begun, since there is none; 2: it is gone on with, or begun where there is none; 3: it is gone on
    /// with.
    pub log: u8,
}
