//! How the weather of nodes with rings is set.

ghost use Rattle.std.specs.Prelude.{◌≡◌, ◌<◌, length, ℕ, OnOk};
ghost use Rattle.ep_host.specs.Host.{IsHost};
ghost use Rattle.ep_host.specs.Pointwise.{Each};
ghost use Rattle.ep_host.specs.Setting.{SetsWeatherAt};
ghost use Rattle.ep_host.specs.Weathers.{IsWeather, own_of};
ghost use Rattle.ep_script.specs.Fits.{FitsSection};
ghost use Rattle.ep_run.specs.Weathers.{weather_in, SetsOwn};

use crate::weather::{want_of_memory, weather_in};
use ep_host::{RingHost, RingNode, Weather, own_of};
use ep_script::ScriptSection;
use std::alloc::{AllocError, Global};

/// Sets the weather of the node at this place: what is its own of this.
fn set_own(
    alloc: Global,
    nodes: &mut [RingNode],
    place: usize,
    weather: &[Weather],
) -> Result<(), AllocError>
    requires within { place < length nodes.old }
    requires host { (f : ℕ) × IsHost f nodes.old × IsWeather f weather.now }
    ensures set { OnOk result (SetsWeatherAt place (own_of place weather.now) nodes.old nodes.new) }
    ensures host { (f : ℕ) → IsHost f nodes.old → IsHost f nodes.new }
{
    let me = nodes[place].replica().me();
    let own = own_of(alloc, me, weather)?;
    match RingHost::set_weather_at(nodes, place, &own) {
        Ok(()) => Ok(()),
        Err(fault) => Err(want_of_memory(fault)),
    }
}

/// Sets the weather of each node: what is its own of the section's.
pub(crate) fn set_weather(
    alloc: Global,
    nodes: &mut [RingNode],
    section: &ScriptSection,
) -> Result<(), AllocError>
    requires fits { FitsSection (length nodes.old) section.now }
    requires host { (f : ℕ) × IsHost f nodes.old }
    ensures set { OnOk result (Each (SetsOwn (weather_in section.now.weather)) nodes.old nodes.new) }
    ensures host { (f : ℕ) → IsHost f nodes.old → IsHost f nodes.new }
{
    let weather = weather_in(alloc, section.weather())?;
    for place in 0..nodes.len() {
        set_own(alloc, nodes, place, &weather)?;
    }
    Ok(())
}
