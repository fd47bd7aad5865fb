//! Which message a frame spells.

ghost use Rattle.std.specs.Prelude.{◌≡◌};
ghost use Rattle.ep_frame.specs.Meaning.{kind_of};

/// Which message a frame spells: a variant for each of `Message`.
#[derive(Clone, Copy, Debug, PartialEq, Eq)]
pub enum Kind {
    PreAccept,
    PreAcceptOk,
    Accept,
    AcceptOk,
    Commit,
    Prepare,
    PrepareOk,
    Nack,
}

/// The kind of this number: 1 to 8 in the order of the variants.
pub(crate) fn made_kind(number: u8) -> Kind
    ensures { result ≡ kind_of number }
{
    match number {
        1 => Kind::PreAccept,
        2 => Kind::PreAcceptOk,
        3 => Kind::Accept,
        4 => Kind::AcceptOk,
        5 => Kind::Commit,
        6 => Kind::Prepare,
        7 => Kind::PrepareOk,
        _ => Kind::Nack,
    }
}
