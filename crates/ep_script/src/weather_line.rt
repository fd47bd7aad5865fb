//! Lines of a section's weather.

ghost use Rattle.std.specs.Prelude.{◌≡◌};
ghost use Rattle.ep_script.specs.Frames.{frame_of};

use crate::weather_word::WeatherWord;
use ep_base::ReplicaId;

/// What becomes of one frame: the `count`-th, from 1, of those that `from` puts for `to` in the section.
#[derive(Clone, Copy, Debug, PartialEq, Eq)]
pub struct WeatherLine {
    pub kind: WeatherWord,
    pub from: ReplicaId,
    pub to: ReplicaId,
    pub count: u32,
}

impl WeatherLine {
    /// The frame: its sender, its receiver and its count.
    pub(crate) fn frame(&self) -> (u8, u8, u32)
        ensures { result ≡ frame_of self.now }
    {
        (self.from.index(), self.to.index(), self.count)
    }
}
