//! Why the operating system refused something, in words.

ghost use Rattle.std.specs.Prelude.{◌≡◌, ◌++◌, decimal, OnOk};
ghost use Rattle.ep_cli.specs.Causes.{cause_text};

use ep_device::SystemFault;
use itoa::Buffer;
use std::alloc::AllocError;

/// Appends the words for a cause.
pub fn push_cause(cause: SystemFault, out: &mut Vec<u8>) -> Result<(), AllocError>
    ensures { OnOk result (out.new.items ≡ out.old.items ++ cause_text cause) }
{
    match cause {
        SystemFault::NotFound => out.extend_from_slice(b"no such file or directory"),
        SystemFault::NotAllowed => out.extend_from_slice(b"permission denied"),
        SystemFault::NotAFile => out.extend_from_slice(b"not a regular file"),
        SystemFault::Locked => out.extend_from_slice(b"another process has it open"),
        SystemFault::NoSpace => out.extend_from_slice(b"no space left on device"),
        SystemFault::OverQuota => out.extend_from_slice(b"disk quota exceeded"),
        SystemFault::TooLarge => out.extend_from_slice(b"file too large"),
        SystemFault::ReadOnly => out.extend_from_slice(b"read-only file system"),
        SystemFault::InputOutput => out.extend_from_slice(b"input/output error"),
        SystemFault::NoMemory => out.extend_from_slice(b"out of memory"),
        SystemFault::System(number) => push_number(b"system error ", u64::from(number), out),
        SystemFault::Unknown => out.extend_from_slice(b"unknown error"),
    }
}

/// Appends words and the number after them.
pub fn push_number(what: &[u8], number: u64, out: &mut Vec<u8>) -> Result<(), AllocError>
    ensures { OnOk result (out.new.items ≡ out.old.items ++ (what.now ++ decimal number)) }
{
    let mut digits = Buffer::new();
    out.extend_from_slice(what)?;
    out.extend_from_slice(digits.format(number).as_bytes())
}
