//! Digests of files.

ghost use Rattle.std.specs.Prelude.{◌≡◌, ◌-◌, ◌<◌, ◌≤◌, Some, IfSome, IsNone, length, drop};
ghost use Rattle.sha2.specs.Sha256.{sha256};
ghost use Rattle.ep_opening.specs.Bytes.{file_digest, opening_bytes};
ghost use Rattle.ep_opening.specs.Files.{File};
ghost use Rattle.ep_opening.specs.References.{reference_bytes, reference_digest, Reference};

use sha2::{Digest, Sha256};

/// How many bytes a digest has.
pub(crate) const DIGEST_LEN: usize = 32;

/// The SHA-256 of the bytes.
pub fn digest_of(bytes: &[u8]) -> [u8; 32]
    ensures { result ≡ sha256 bytes.now }
{
    let mut hasher = Sha256::new();
    hasher.update(bytes);
    hasher.finalize()
}

/// The digest that the bytes of a file or of a reference end with, which the log of its generation names; none of fewer than 32 bytes.
pub fn digest_in(bytes: &[u8]) -> Option<[u8; 32]>
    ensures last { IfSome result (λ d. (32 ≤ length bytes.now) × (d ≡ drop (length bytes.now - 32) bytes.now)) }
    ensures none { IsNone result → length bytes.now < 32 }
    ensures file { (f : File) → bytes.now ≡ opening_bytes f → result ≡ Some (file_digest f) }
    ensures reference { (r : Reference) → bytes.now ≡ reference_bytes r → result ≡ Some (reference_digest r) }
{
    if bytes.len() < DIGEST_LEN {
        return None;
    }
    let mut digest = [0; 32];
    digest.copy_from_slice(&bytes[bytes.len() - DIGEST_LEN..]);
    Some(digest)
}
