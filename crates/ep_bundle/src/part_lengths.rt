//! How long the parts of commands may be.

ghost use Rattle.std.specs.Prelude.{◌≡◌, ◌&&◌, nat_le, ℕ};
ghost use Rattle.ep_base.specs.Ops.{first_fits, second_fits, body_fits};
ghost use Rattle.ep_bundle.specs.Stages.{early_fits};

use ep_base::Op;

/// The fewest and the most bytes of the first key of a command with this op.
pub fn first_lengths(op: Op) -> (u32, u32)
    ensures { (n : ℕ) → first_fits op n ≡ (nat_le result.0 n && nat_le n result.1) }
{
    match op {
        Op::Noop | Op::Seal | Op::Tx => (0, 0),
        Op::Get | Op::Put | Op::Del | Op::Swap | Op::Cas | Op::Ask | Op::Act => (1, 255),
    }
}

/// The fewest and the most bytes of its second key.
pub fn second_lengths(op: Op) -> (u32, u32)
    ensures { (n : ℕ) → second_fits op n ≡ (nat_le result.0 n && nat_le n result.1) }
{
    match op {
        Op::Swap => (1, 255),
        Op::Ask | Op::Act => (0, 255),
        Op::Noop | Op::Get | Op::Put | Op::Del | Op::Cas | Op::Seal | Op::Tx => (0, 0),
    }
}

/// The fewest and the most bytes of its body.
pub fn body_lengths(op: Op) -> (u32, u32)
    ensures { (n : ℕ) → body_fits op n ≡ (nat_le result.0 n && nat_le n result.1) }
{
    match op {
        Op::Put | Op::Ask | Op::Act | Op::Seal => (0, 65_535),
        Op::Cas => (2, 131_080),
        Op::Tx => (5, 131_080),
        Op::Noop | Op::Get | Op::Del | Op::Swap => (0, 0),
    }
}

/// The fewest and the most bytes of the one of both that versions 1 and 2 have.
pub fn early_lengths(op: Op) -> (u32, u32)
    ensures { (n : ℕ) → early_fits op n ≡ (nat_le result.0 n && nat_le n result.1) }
{
    match op {
        Op::Swap => (1, 255),
        Op::Put | Op::Ask | Op::Act | Op::Seal => (0, 1024),
        Op::Cas => (2, 1024),
        Op::Tx => (5, 1024),
        Op::Noop | Op::Get | Op::Del => (0, 0),
    }
}
