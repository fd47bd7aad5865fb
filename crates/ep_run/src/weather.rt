//! The weather of a section, as hosts take it.

ghost use Rattle.std.specs.Prelude.{◌≡◌, IfOk};
ghost use Rattle.ep_host.specs.declared.host_fault.HostFault.TheVariants.{Memory};
ghost use Rattle.ep_run.specs.Weathers.{kind_of, weather_of, weather_in};

use ep_host::{HostFault, Weather, WeatherKind};
use ep_script::{WeatherLine, WeatherWord as LineKind};
use std::alloc::{AllocError, Global};

/// What becomes of a frame, as hosts name it.
fn kind_of(kind: LineKind) -> WeatherKind
    ensures { result ≡ kind_of kind }
{
    match kind {
        LineKind::Drop => WeatherKind::Drop,
        LineKind::Hold => WeatherKind::Hold,
        LineKind::Repeat => WeatherKind::Repeat,
    }
}

/// What the line says.
fn weather_of(line: &WeatherLine) -> Weather
    ensures { result ≡ weather_of line.now }
{
    Weather {
        from: line.from,
        to: line.to,
        count: line.count,
        kind: kind_of(line.kind),
    }
}

/// What the lines say, in order.
pub(crate) fn weather_in(alloc: Global, lines: &[WeatherLine]) -> Result<Vec<Weather>, AllocError>
    ensures { IfOk result (λ weather. weather.items ≡ weather_in lines.now) }
{
    let mut weather = Vec::new(alloc);
    for line in lines {
        weather.push(weather_of(line))?;
    }
    Ok(weather)
}

/// The out-of-memory error that a fault is.
pub(crate) fn want_of_memory(_fault: HostFault) -> AllocError
    requires { _fault ≡ Memory }
{
    AllocError
}
