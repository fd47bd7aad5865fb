//! What a crash may leave.

use std::marker::Model;

/// A content that a crash may leave: these bytes, and behind them nothing, or, where it is open, any bytes.
#[derive(Drop)]
pub struct CrashContent {
    pub(crate) start: Vec<u8>,
    pub(crate) is_open: bool,
}

impl Model for CrashContent {
    ghost use Rattle.ep_device.specs.Left.{Content};

    ghost Value = { Content };

    ghost view = { λ o. record { start = o.start.items; is_open = o.is_open } };
}
