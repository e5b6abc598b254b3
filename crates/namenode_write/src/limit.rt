//! How long a namenode's journal may become.
ghost use Rattle.std.specs.Prelude.{◌≡◌, ◌≤◌, IfSome, IfNone};

use std::marker::Model;

/// How many entries a journal may have, from 1 to 1,000,000.
#[derive(Clone, Copy, Debug, PartialEq, Eq)]
pub struct JournalLimit {
    entries: u32,
}

impl Model for JournalLimit {
    ghost use Rattle.std.specs.Prelude.{ℕ, ◌≤◌};

    ghost Value = { ℕ };

    ghost view = { λ l. l.entries };

    ghost invariant = { λ l. (1 ≤ l.entries) × (l.entries ≤ 1000000) };

    ghost inverse = { λ entries. record { entries = entries } };
}

impl JournalLimit {
    /// The greatest limit.
    pub const GREATEST: u32 = 1_000_000;

    /// The limit of a namenode that has no other, 1,000,000.
    pub fn usual() -> JournalLimit
        ensures { result ≡ 1000000 }
    {
        JournalLimit { entries: 1_000_000 }
    }

    /// `None` exactly at 0 and above 1,000,000.
    pub fn of(n: u32) -> Option<JournalLimit>
        ensures in_range { IfSome result (λ limit. (limit ≡ n) × (1 ≤ n) × (n ≤ 1000000)) }
        ensures out_of_range { IfNone result (1 ≤ n → 1000001 ≤ n) }
    {
        if 1 <= n && n <= JournalLimit::GREATEST {
            Some(JournalLimit { entries: n })
        } else {
            None
        }
    }

    /// What holds of a limit at all times. It does nothing.
    pub fn always(self)
        ensures at_least { 1 ≤ self }
        ensures at_most { self ≤ 1000000 }
    {
        let _ = self.entries;
    }

    /// The number of entries.
    pub fn entries(self) -> u32
        ensures value { result ≡ self }
        ensures at_least { 1 ≤ self }
        ensures at_most { self ≤ 1000000 }
    {
        self.entries
    }
}
