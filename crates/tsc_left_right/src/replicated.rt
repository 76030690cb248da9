//! What is replicated.
ghost use Rattle.std.specs.Prelude.{◌≡◌, ℕ, List};

/// A value of which there are two copies: operations change it under some settings, and the history
/// has an entry for each.
pub trait Replicated {
    /// What is replicated.
    type Value: Drop;

    /// What changes it.
    type Operation: Drop;

    /// How it is set up.
    type ConfigView;

    /// What a history has of an operation.
    type Entry;

    /// The copy stands for what this history makes of the value.
    ghost stands: { Self.ConfigView → List Self.Entry → Self.Value → Type 0 };

    /// The entry may come next behind this history, for so many seats.
    ghost is_next: { Self.ConfigView → ℕ → List Self.Entry → Self.Entry → Type 0 };

    /// The seat whose operation the entry is.
    ghost seat_of: { Self.Entry → ℕ };

    /// The entry of an operation of a seat that has made so many before.
    ghost entry_of: { ℕ → ℕ → Self.Operation → Self.Entry };

    /// An operation's entry is of its seat.
    ghost seat_kept: { (number count : ℕ) (op : Self.Operation)
        → seat_of (entry_of number count op) ≡ number };

    /// Settings for a participant that knows of no table any more.
    ghost unsettled: { Self.ConfigView };
}
