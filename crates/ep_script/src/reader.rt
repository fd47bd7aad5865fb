//! Whole scripts from a source.

ghost use Rattle.std.specs.Prelude.{◌≡◌, ℕ, List, Some};
ghost use Rattle.ep_base.specs.Devices.{FailsAsReported};
ghost use Rattle.ep_script.specs.Faults.{is_read_failed};
ghost use Rattle.ep_script.specs.Plan.{read_of, script_of, run_of};
ghost use Rattle.ep_script.specs.Outcome.{IsScript};

use crate::got::Got;
use crate::open_run::OpenRun;
use crate::run_script::RunScript;
use crate::script::Script;
use crate::script_draft::ScriptDraft;
use crate::script_fault::ScriptFault;
use crate::script_kind::ScriptKind;
use crate::window::Window;
use ep_base::Source;
use std::alloc::Global;

/// The most lines that a script can have.
pub(crate) const LINES: u32 = 100_000;

/// Reads a script for a replay to the end of the source. `Refused` reports the first line at fault, `ReadFailed` that
/// the source failed in this call, `Memory` that memory was refused. Past that line, or past 100,000 lines, nothing is read: so a source
/// without an end is refused too.
pub fn read_script<S: Source>(alloc: Global, source: &mut S) -> Result<Script, ScriptFault>
    ensures bytes { (zs : List ℕ) → S.left source.old ≡ Some zs → IsScript result (script_of zs) }
    ensures failed { FailsAsReported is_read_failed result (S.has_failed source.old) (S.has_failed source.new) }
{
    read::<Script, S>(alloc, source)
}

/// Reads a script for a run to the end of the source, and answers its faults, as `read_script` does. Lines of a replay alone are
/// refused, and so is a second line of one section's weather for one frame.
pub fn read_run<S: Source>(alloc: Global, source: &mut S) -> Result<RunScript, ScriptFault>
    ensures bytes { (zs : List ℕ) → S.left source.old ≡ Some zs → IsScript result (run_of zs) }
    ensures failed { FailsAsReported is_read_failed result (S.has_failed source.old) (S.has_failed source.new) }
{
    let open = read::<OpenRun, S>(alloc, source)?;
    Ok(open.close()?)
}

fn read<P: ScriptKind, S: Source>(alloc: Global, source: &mut S) -> Result<P, ScriptFault>
    ensures bytes { (zs : List ℕ) → S.left source.old ≡ Some zs → IsScript result (read_of P.begins P.takes zs) }
    ensures failed { FailsAsReported is_read_failed result (S.has_failed source.old) (S.has_failed source.new) }
{
    let mut window = Window::new();
    let mut line = Vec::new(alloc);
    let mut draft = ScriptDraft::new();
    for number in 1..=LINES {
        match window.line(source, &mut line)? {
            Got::End => return draft.end(alloc, number),
            Got::TooLong => return Err(ScriptFault::Refused(number)),
            Got::Line => {
                if !draft.take_line(alloc, number, line.as_slice())? {
                    return Err(ScriptFault::Refused(number));
                }
            }
        }
    }
    match window.line(source, &mut line)? {
        Got::End => draft.end(alloc, LINES + 1),
        _ => Err(ScriptFault::Refused(LINES + 1)),
    }
}
