//! Digests of maps.

ghost use Rattle.std.specs.Prelude.{◌≡◌, ◌<◌, ◌^◌, ◌++◌, ℕ, List, length};
ghost use Rattle.std.specs.FinMap.{entries};
ghost use Rattle.ep_exec.specs.Bytes.{contents_bytes, pair_bytes};
ghost use Rattle.sha2.specs.Hashers.{Holds256};
ghost use Rattle.sha2.specs.Sha256.{sha256};

use ep_base::{Key, Value};
use ep_exec::Listing;
use sha2::{Digest, Sha256};

/// The SHA-256 of a map as a bundle spells it.
pub(crate) fn digest_of(contents: &Listing) -> [u8; 32]
    requires { length (entries contents.now) < 2 ^ 32 }
    ensures { result ≡ sha256 (contents_bytes contents.now) }
{
    let mut hasher = Sha256::new();
    let entries = contents.entries();
    let count = (entries.len() as u32).to_be_bytes();
    hasher.update(count.as_slice());
    for (key, value) in entries {
        take_entry(&mut hasher, key, value);
    }
    hasher.finalize()
}

// Takes a key, and what it has.
fn take_entry(hasher: &mut Sha256, key: &Key, value: &Value)
    ensures { (m : List ℕ) → Holds256 hasher.old m → Holds256 hasher.new (m ++ pair_bytes (key.now, value.now)) }
{
    let len = (key.as_slice().len() as u8).to_be_bytes();
    let value_len = (value.len() as u32).to_be_bytes();
    hasher.update(len.as_slice());
    hasher.update(value_len.as_slice());
    hasher.update(key.as_slice());
    hasher.update(value.as_slice());
}
