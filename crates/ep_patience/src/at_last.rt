//! A law: what stays open is asked for at last.

ghost use Rattle.ep_patience.specs.AtLast.{AsksAtLast};

/// Where an instance stays open, and its wait is over in a fourth turn in which there is room to ask for it, something
/// was asked for it in one of them: of an own proposal with enough answers to give it up, and else to recover it.
/// Whatever is measured in between, whoever is lost and reached, and however often others' recoveries put it off.
///
/// What it asks for is enough: a recovery at one replica of a majority that can talk among itself ends the instance, if
/// nobody else of it has promised as much, and what they send each other is handled before another is begun
/// (`round_ends` of `ep_laws`).
pub fn asks_at_last()
    ensures { AsksAtLast }
{}
