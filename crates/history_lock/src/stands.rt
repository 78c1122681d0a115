//! What the value under a lock stands for.
ghost use Rattle.std.specs.Prelude.{◌≡◌, ℕ, List, length};

/// A value that stands for a list of entries, and for a count.
///
/// Whoever holds the lock may add entries and raise the count. Neither call takes memory.
pub trait Stands {
    /// What the list is made of.
    type Entry;

    // The list that the value stands for.
    ghost list: { Self → List Self.Entry };

    // The count that the value stands for.
    ghost count: { Self → ℕ };

    // Numbers that the value keeps for good, as a limit, or a count of something when the lock was made.
    ghost origin: { Self → List ℕ };

    // The number of the author whom an entry names.
    ghost names: { Self.Entry → ℕ };

    // Whether the entry may follow the list. The number is the length that the list had when the lock was made.
    ghost may_follow: { ℕ → List Self.Entry → Self.Entry → Type 0 };

    /// How long the list is.
    fn entries(&self) -> u64
        ensures { result ≡ length (list self.now) };

    /// The count.
    fn count(&self) -> u64
        ensures { result ≡ count self.now };
}
