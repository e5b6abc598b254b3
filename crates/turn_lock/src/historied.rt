//! What a lock asks of its value, and of the work that is done on it.
ghost use Rattle.std.specs.Prelude.{◌≡◌, ℕ, List, length};
ghost use Rattle.turn_lock.specs.declared.historied.Kept.{Kept};
ghost use Rattle.hs_types.specs.declared.journal.Entry.{Entry};

/// What no work changes of a lock's value. No value of it is made.
pub struct Kept {
    /// How long the history may be.
    pub limit: u64,
    /// Whether the value's store tells its bytes.
    pub tells: bool,
}

/// A value that carries a history.
pub trait Historied: Drop {
    /// The entries that it stands for, the oldest first.
    ghost history: { Self → List Entry };

    /// No work changes it.
    ghost kept: { Self → Kept };

    /// Which histories are lawful under what is kept.
    ghost lawful: { Kept → List Entry → Type 0 };

    /// How long the history is. It takes no memory.
    fn length(&self) -> u64
        ensures counts { result ≡ length (history self.now) }
        ensures within { lawful (kept self.now) (history self.now) };
}

/// What is done on a value while nobody else has it.
pub trait Work<T> {
    /// When it may be called.
    ghost allows: { Self → T → Type 0 };

    /// The worker and the value before the call, and the two after it.
    ghost does: { Self → T → Self → T → Type 0 };

    fn work(&mut self, value: &mut T)
        requires { allows self.old value.old }
        ensures { does self.old value.old self.new value.new };
}
