//! What is to become of which frame.

ghost use Rattle.std.specs.Prelude.{◌≡◌, ℕ, ◌<◌, length, slice_index_or, IsTrue, IsFalse, IfOk, All};
ghost use Rattle.ep_host.specs.Weathers.{is_held_for, kind_at, own_of, NameOne, IsFrameIn, IsWeather, IsWeatherAt};
ghost use Rattle.ep_host.specs.declared.weather.Weather.{Weather as Named};

use crate::weather_kind::WeatherKind;
use ep_base::{ReplicaId, Size};
use std::alloc::{AllocError, Global};

/// What is to become of one frame: the one that this replica puts for that one as its `count`-th, from 1, since the weather was set.
#[derive(Clone, Copy, Debug, PartialEq, Eq)]
pub struct Weather {
    pub from: ReplicaId,
    pub to: ReplicaId,
    pub count: u32,
    pub kind: WeatherKind,
}

impl Weather {
    /// Whether it is a frame for the replica of this number, and to be held.
    pub fn is_held_for(&self, to: usize) -> bool
        ensures { result ≡ is_held_for to self.now }
    {
        self.to.index() as usize == to && self.kind == WeatherKind::Hold
    }
}

/// What is to become of the frame for this peer that is counted as this one.
pub fn kind_at(weather: &[Weather], peer: ReplicaId, count: u64) -> Option<WeatherKind>
    ensures { result ≡ kind_at weather.now peer count }
{
    for it in weather {
        if it.to == peer && u64::from(it.count) == count {
            return Some(it.kind);
        }
    }
    None
}

/// Those of frames that this replica puts, in order.
pub fn own_of(alloc: Global, me: ReplicaId, weather: &[Weather]) -> Result<Vec<Weather>, AllocError>
    ensures { IfOk result (λ own. own.items ≡ own_of me weather.now) }
{
    let mut own = Vec::new(alloc);
    for it in weather {
        if it.from == me {
            own.push(*it)?;
        }
    }
    Ok(own)
}

/// Whether it names a frame that a replica of the cluster puts for another one.
fn is_frame_in(cluster: Size, it: &Weather) -> bool
    ensures yes { IsTrue result → IsFrameIn cluster it.now }
    ensures no { IsFalse result → IsFrameIn cluster it.now → ⊥ }
{
    let count = cluster.count();
    it.from.index() < count && it.to.index() < count && it.from != it.to && it.count > 0
}

/// Whether both name one frame.
fn name_one(a: &Weather, b: &Weather) -> bool
    ensures yes { IsTrue result → NameOne a.now b.now }
    ensures no { IsFalse result → NameOne a.now b.now → ⊥ }
{
    a.from == b.from && a.to == b.to && a.count == b.count
}

/// Whether one of these names this one's frame.
fn is_named(weather: &[Weather], it: &Weather) -> bool
    ensures yes { IsTrue result → (j : ℕ) × (j < length weather.now) × ((d : Named) → NameOne (slice_index_or weather.now j d) it.now) }
    ensures no { IsFalse result → (j : ℕ) (d : Named) → j < length weather.now → NameOne (slice_index_or weather.now j d) it.now → ⊥ }
{
    for other in weather {
        if name_one(other, it) {
            return true;
        }
    }
    false
}

/// Whether each names a frame of the cluster, and no two name one.
pub fn is_weather(cluster: Size, weather: &[Weather]) -> bool
    ensures yes { IsTrue result → IsWeather cluster weather.now }
    ensures no { IsFalse result → IsWeather cluster weather.now → ⊥ }
{
    for (place, it) in weather.iter().enumerate() {
        if !is_frame_in(cluster, it) || is_named(&weather[..place], it) {
            return false;
        }
    }
    true
}

/// Whether each is of a frame that this replica puts.
fn are_own(me: ReplicaId, weather: &[Weather]) -> bool
    ensures yes { IsTrue result → All (λ (w : Named). w.from ≡ me) weather.now }
    ensures no { IsFalse result → All (λ (w : Named). w.from ≡ me) weather.now → ⊥ }
{
    for it in weather {
        if it.from != me {
            return false;
        }
    }
    true
}

/// Whether it is a weather of frames that this replica puts.
pub fn is_weather_at(cluster: Size, me: ReplicaId, weather: &[Weather]) -> bool
    ensures yes { IsTrue result → IsWeatherAt cluster me weather.now }
    ensures no { IsFalse result → IsWeatherAt cluster me weather.now → ⊥ }
{
    are_own(me, weather) && is_weather(cluster, weather)
}
