//! Lines of scripts for a run.

use crate::agenda_line::AgendaLine;
use crate::weather_line::WeatherLine;

/// What a line of a script for a run says.
#[derive(Drop)]
pub(crate) enum RunLine {
    /// A replica is to do this.
    Agenda(AgendaLine),
    /// This becomes of a frame.
    Weather(WeatherLine),
    /// A section ends.
    Section,
}
