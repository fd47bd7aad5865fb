//! What an audit says.

/// What an audit says.
#[derive(Drop)]
pub struct Judgement {
    /// Whether it accepts.
    pub is_accepted: bool,
    /// Its report.
    pub text: Vec<u8>,
}
