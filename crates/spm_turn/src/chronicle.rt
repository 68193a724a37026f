//! A state with a history.
ghost use Rattle.std.specs.Prelude.{◌≡◌, ℕ, List, length};

/// A state that keeps a history, to which its calls only add, under terms that no call changes.
pub trait Chronicle {
    /// What happens.
    type Entry;
    /// What is fixed when the state is made.
    type Terms;

    ghost history: { Self → List Self.Entry };

    ghost terms: { Self → Self.Terms };

    // Some terms, whichever: what is left to a seat that is no more. No clause speaks of them.
    ghost blank: { Self.Terms };

    // The number that an entry carries.
    ghost by: { Self.Entry → ℕ };

    /// The length of the history. Takes no memory.
    fn entries(&self) -> u64
        ensures { result ≡ length (history self.now) };
}
