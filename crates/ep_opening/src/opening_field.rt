//! The fields of opening files and of references.

use std::fmt;

/// A field of an opening file, or of a reference to a log, in their order.
#[derive(Clone, Copy, Debug, PartialEq, Eq)]
pub enum OpeningField {
    /// The four bytes that say what the file is.
    Magic,
    /// The version of the format.
    Version,
    /// How many replicas the cluster has.
    Replicas,
    /// The generation's number.
    Generation,
    /// The stamp that the clocks go on from.
    Since,
    /// Whether a seal began the generation.
    SealMark,
    /// How many bytes the seal's value has.
    SealLength,
    /// The seal's value.
    Seal,
    /// The map: how many keys it has, or a length, a key or a value in it.
    Map,
    /// How many executed instances there are.
    Count,
    /// One of them.
    Instance,
    /// How many bytes the log has that a reference names, or their SHA-256.
    Log,
    /// Bytes behind the last field.
    Rest,
}

impl fmt::Display for OpeningField {
    ghost use Rattle.std.specs.Prelude.{Some};
    ghost use Rattle.ep_opening.specs.Texts.{field_text};

    ghost output = { λ f. Some (field_text f) };

    fn fmt<W: fmt::Write>(&self, f: &mut fmt::Formatter<W>) -> fmt::Result {
        match self {
            OpeningField::Magic => f.write_str("the word in front"),
            OpeningField::Version => f.write_str("the version"),
            OpeningField::Replicas => f.write_str("the number of replicas"),
            OpeningField::Generation => f.write_str("the generation"),
            OpeningField::Since => f.write_str("the stamp"),
            OpeningField::SealMark => {
                f.write_str("the byte that says whether a seal began the generation")
            }
            OpeningField::SealLength => f.write_str("the length of the seal's value"),
            OpeningField::Seal => f.write_str("the seal's value"),
            OpeningField::Map => f.write_str("the map"),
            OpeningField::Count => f.write_str("the number of executed instances"),
            OpeningField::Instance => f.write_str("an executed instance"),
            OpeningField::Log => f.write_str("the log's length"),
            OpeningField::Rest => f.write_str("what stands behind the last field"),
        }
    }
}
