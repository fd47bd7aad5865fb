//! How long a peer takes to answer.

ghost use Rattle.std.specs.Prelude.{◌≡◌, ◌≤◌};
ghost use Rattle.ep_patience.specs.Trips.{difference, measured, time_out};

use crate::waits::Waits;

/// The round-trip time to a peer, as RFC 6298 keeps it.
#[derive(Clone, Copy, Debug, PartialEq, Eq)]
pub(crate) struct Trip {
    /// SRTT, the smoothed round-trip time.
    pub(crate) smoothed: u32,
    /// RTTVAR, the round-trip time variation.
    pub(crate) variation: u32,
}

/// How far apart two numbers are.
fn difference(a: u32, b: u32) -> u32
    ensures value { result ≡ difference a b }
{
    a.saturating_sub(b) + b.saturating_sub(a)
}

/// After one measurement more.
pub(crate) fn measured(trip: Option<Trip>, took: u32) -> Trip
    ensures { result ≡ measured trip took }
{
    match trip {
        None => Trip {
            smoothed: took,
            variation: took / 2,
        },
        Some(trip) => {
            let apart = difference(trip.smoothed, took);
            let variation = (3 * u64::from(trip.variation) + u64::from(apart)) / 4;
            let smoothed = (7 * u64::from(trip.smoothed) + u64::from(took)) / 8;
            Trip {
                smoothed: smoothed as u32,
                variation: variation as u32,
            }
        }
    }
}

/// How long an answer of the peer is waited for.
pub(crate) fn time_out(waits: &Waits, trip: Option<Trip>) -> u32
    ensures { result ≡ time_out waits.now trip }
{
    match trip {
        None => waits.initial.min(waits.longest),
        Some(trip) => {
            let margin = u64::from(waits.granularity).max(4 * u64::from(trip.variation));
            (u64::from(trip.smoothed) + margin).min(u64::from(waits.longest)) as u32
        }
    }
}
