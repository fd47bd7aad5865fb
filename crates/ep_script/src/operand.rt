//! What words of lines may be.

ghost use Rattle.std.specs.Prelude.{◌≡◌};
ghost use Rattle.ep_script.specs.Operands.{range_of, highest_replica as last_replica, most_value_in};

use ep_base::{Size, Value, Version};

/// What a word of a line may be.
#[derive(Clone, Copy, Debug, PartialEq, Eq)]
pub enum Operand {
    /// The first word of a line.
    Line,
    /// How many replicas there are.
    Size,
    /// A generation.
    Generation,
    /// The stamp that clocks go on from.
    Stamp,
    /// A replica.
    Replica,
    /// The replica that is to be spared.
    Spared,
    /// The word `propose`, behind that replica.
    Propose,
    /// A replica other than that one.
    Proposer,
    /// A replica other than the sender, which stands before it.
    Receiver,
    /// A client, behind which a command stands.
    Client,
    /// The first word of a command.
    Command,
    /// An instance.
    Instance,
    /// The replica before an instance's dot.
    Leader,
    /// The number behind it.
    Number,
    /// A message.
    Message,
    /// The place of a frame.
    Place,
    /// A key.
    Key,
    /// A key other than the one before it.
    OtherKey,
    /// A value.
    Value,
    /// A value, or `%!` for none.
    MaybeValue,
    /// What a machine outside is answered.
    Body,
    /// The first word of an item of a command over many keys.
    Item,
}

impl Operand {
    /// The least and the most that the number may be, or how many bytes may be spelled.
    pub fn range(self, size: Option<Size>, version: Version) -> (u64, u64)
        ensures { result ≡ range_of self size version }
    {
        match self {
            Operand::Generation | Operand::Client | Operand::Message | Operand::Place => (
                1,
                4_294_967_295,
            ),
            Operand::Stamp => (0, 281_474_976_710_654),
            Operand::Instance | Operand::Number => (1, version.highest_number() as u64),
            Operand::Key | Operand::OtherKey => (1, 255),
            Operand::Value | Operand::MaybeValue | Operand::Body => (0, most_value(version)),
            _ => (0, highest_replica(size)),
        }
    }
}

fn highest_replica(size: Option<Size>) -> u64
    ensures { result ≡ last_replica size }
{
    match size {
        None => 0,
        Some(size) => u64::from(size.count()).saturating_sub(1),
    }
}

fn most_value(version: Version) -> u64
    ensures { result ≡ most_value_in version }
{
    if version.number() == 3 { 65_535 } else { 1024 }
}
