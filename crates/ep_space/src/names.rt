//! The names under which commands stand in the index.

ghost use Rattle.std.specs.Prelude.{◌≡◌, ◌∷◌, true, option_copied};
ghost use Rattle.ep_base.specs.Attributes.{same_list};
ghost use Rattle.ep_base.specs.Interference.{has_key, keys_in, is_many};
ghost use Rattle.ep_base.specs.CommandParts.{IsSecond};
ghost use Rattle.ep_base.specs.Views.{touched};
ghost use Rattle.ep_space.specs.Keys.{index_keys, mark, marked};
ghost use Rattle.ep_space.specs.Names.{named, all_named, AreApart, AreMany};

use ep_base::{Command, CommandView, Touching};

/// A name of a command: a key that it writes, a key that it only reads, or that it is a seal.
#[derive(Clone, Copy)]
pub(crate) enum Name<'a> {
    Seals,
    Writes(&'a [u8]),
    Reads(&'a [u8]),
}

/// The names of a command.
#[derive(Clone, Copy)]
pub(crate) enum Names<'a> {
    Nothing,
    One(Name<'a>),
    Two(Name<'a>, Name<'a>),
    /// Those of a command over many keys.
    Many(&'a Command),
}

/// The names of the command: none of a no-op, two where it touches two keys, and those of all items.
pub(crate) fn names_of(command: &Command) -> Names<'_>
    ensures names { all_named result ≡ index_keys command.now }
    ensures apart { AreApart result }
    ensures many { AreMany result }
{
    match command.view() {
        CommandView::Noop => Names::Nothing,
        CommandView::Get(key) => Names::One(Name::Reads(key)),
        CommandView::Put(key, _) | CommandView::Del(key) | CommandView::Cas(key, _, _) => {
            Names::One(Name::Writes(key))
        }
        CommandView::Swap(first, second) => {
            Names::Two(Name::Writes(first), Name::Writes(second))
        }
        CommandView::Seal(_) => Names::One(Name::Seals),
        CommandView::Opaque(own, _) => names_touched(own),
        CommandView::Tx(_) => Names::Many(command),
    }
}

fn names_touched<'a>(own: Touching<'a>) -> Names<'a>
    requires { IsSecond own.first.now (option_copied own.second) }
    ensures names { all_named result ≡ marked (mark own.entry.reads) (keys_in (touched own.entry)) }
    ensures apart { AreApart result }
    ensures many { AreMany result }
{
    let first = name_of(own.first, own.reads);
    match own.second {
        None => Names::One(first),
        Some(second) => Names::Two(first, name_of(second, own.reads)),
    }
}

/// The name of a key that is only read, or written.
pub(crate) fn name_of(key: &[u8], reads: bool) -> Name<'_>
    ensures { named result ≡ mark reads ∷ key.now }
{
    if reads {
        Name::Reads(key)
    } else {
        Name::Writes(key)
    }
}

/// Whether the command has this name.
#[tactic(auto, using(ep_base::proofs::Tests::or_false))]
pub(crate) fn has_name(command: &Command, name: Name<'_>) -> bool
    ensures { result ≡ has_key (named name.entry) (index_keys command.now) }
{
    match names_of(command) {
        Names::Nothing => false,
        Names::One(own) => is_same(name, own),
        Names::Two(first, second) => is_same(name, first) || is_same(name, second),
        Names::Many(command) => has_item(command, name),
    }
}

// Whether a command over many keys has this name.
fn has_item(command: &Command, name: Name<'_>) -> bool
    requires { is_many command.now ≡ true }
    ensures { result ≡ has_key (named name.entry) (index_keys command.now) }
{
    match name {
        Name::Seals => false,
        Name::Writes(key) => !command.only_reads() && command.names(key),
        Name::Reads(key) => command.only_reads() && command.names(key),
    }
}

fn is_same(a: Name<'_>, b: Name<'_>) -> bool
    ensures { result ≡ same_list (named a.entry) (named b.entry) }
{
    match (a, b) {
        (Name::Seals, Name::Seals) => true,
        (Name::Writes(a), Name::Writes(b)) => a == b,
        (Name::Reads(a), Name::Reads(b)) => a == b,
        _ => false,
    }
}
