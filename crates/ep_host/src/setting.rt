//! How the weather of a node is set, and how its held frames are let go.

ghost use Rattle.std.specs.List.{count_by};
ghost use Rattle.std.specs.Prelude.{◌≡◌, ◌≤◌, length, vec_capacity};
ghost use Rattle.ep_host.specs.Pointwise.{Each};
ghost use Rattle.ep_host.specs.Setting.{CountsAnew, ReleasesAll};
ghost use Rattle.ep_host.specs.Weathers.{is_held_for};

use crate::link::Link;
use crate::weather::Weather;
use std::alloc::AllocError;

/// How many frames for the replica of this number are to be held.
pub fn holds(weather: &[Weather], to: usize) -> usize
    ensures { result ≡ count_by (is_held_for to) weather.now }
{
    weather.iter().filter(|it| it.is_held_for(to)).count()
}

/// Makes the places for the frames that are to be held.
pub fn make_room(links: &mut [Link], weather: &[Weather]) -> Result<(), AllocError>
    ensures { links.new ≡ links.old }
{
    for place in 0..links.len() {
        let more = holds(weather, links[place].peer.index() as usize);
        links[place].held.reserve(more)?;
    }
    Ok(())
}

/// Frames for each peer are counted anew.
pub fn count_anew(links: &mut [Link])
    ensures { Each CountsAnew links.old links.new }
{
    for place in 0..links.len() {
        links[place].count = 0;
    }
}

/// The list in the place of what is there.
pub fn replace(weather: &mut Vec<Weather>, list: &[Weather])
    requires { length list.now ≤ vec_capacity weather.old }
    ensures { weather.new.items ≡ list.now }
{
    weather.clear();
    for it in list {
        weather.push_reserved(*it);
    }
}

/// Puts the held frames of each link, in order. Answers what is lost with those that find their ring full, of so many before.
pub fn release_all(links: &mut [Link], lost: u64) -> u64
    ensures { ReleasesAll lost result links.old links.new }
{
    let mut lost = lost;
    for place in 0..links.len() {
        lost = lost.saturating_add(links[place].release());
    }
    lost
}
