//! What became of a frame out.

ghost use Rattle.std.specs.Prelude.{◌≡◌};

/// What became of a frame out.
#[derive(Clone, Copy)]
pub enum Delivery {
    /// It was put into its ring or inbox, or is lost, where that was full.
    Put(bool),
    /// There was no memory for it: it is lost.
    Short,
    /// It was dropped.
    Dropped,
    /// It is held.
    Held,
    /// It was to be put twice: whether the first and the second were put.
    Repeated(bool, bool),
}

impl Delivery {
    ghost use Rattle.ep_host.specs.Fates.{lost_of};

    /// How many are lost.
    pub fn lost(self) -> u64
        ensures { result ≡ lost_of self }
    {
        match self {
            Delivery::Put(put) => u64::from(!put),
            Delivery::Short => 1,
            Delivery::Dropped | Delivery::Held => 0,
            Delivery::Repeated(first, second) => u64::from(!first) + u64::from(!second),
        }
    }
}
