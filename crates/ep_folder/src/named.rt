//! What names and marks spell.

ghost use Rattle.std.specs.Prelude.{◌≡◌, ◌≤◌, ◌<◌, IfSome};
ghost use Rattle.ep_folder.specs.Paths.{generation_in, left_in};

use ep_script::number_in;

/// The generation that a name spells, in decimal without a zero in front.
pub fn generation_in(name: &[u8]) -> Option<u32>
    ensures value { result ≡ generation_in name.now }
    ensures least { IfSome result (λ g. 1 ≤ g) }
{
    let first = name.first()?;
    if *first == b'0' {
        return None;
    }
    let number = number_in(name, 1, 4_294_967_295)?;
    Some(number as u32)
}

/// The later generation that the mark of this one names, by its bytes. What can't be read stands for every later one.
pub fn left_in(bytes: &[u8], generation: u32) -> u32
    ensures { result ≡ left_in bytes.now generation }
{
    match number_in(bytes, u64::from(generation) + 1, 4_294_967_295) {
        Some(number) => number as u32,
        None => u32::MAX,
    }
}
