//! Numbers with a range.
ghost use Rattle.std.specs.Prelude.{◌≡◌, ◌≤◌, IfSome, IfNone};

use std::marker::Model;

/// The permission bits of a node, at most 1777 octal. They are kept and shown, and nothing is refused by them.
#[derive(Clone, Copy, Debug, PartialEq, Eq)]
pub struct Mode {
    bits: u16,
}

impl Model for Mode {
    ghost use Rattle.std.specs.Prelude.{ℕ, ◌≤◌};

    ghost Value = { ℕ };

    ghost view = { λ m. m.bits };

    ghost invariant = { λ m. m.bits ≤ 1023 };

    ghost inverse = { λ bits. record { bits = bits } };
}

impl Mode {
    /// The greatest mode, 1777 octal.
    pub const GREATEST: u16 = 0o1777;

    /// `None` exactly above 1777 octal.
    pub fn new(bits: u16) -> Option<Mode>
        ensures in_range { IfSome result (λ mode. (mode ≡ bits) × (bits ≤ 1023)) }
        ensures out_of_range { IfNone result (1024 ≤ bits) }
    {
        if bits <= Mode::GREATEST {
            Some(Mode { bits })
        } else {
            None
        }
    }

    /// The mode of a new directory, 755 octal.
    pub fn of_directory() -> Mode
        ensures { result ≡ 493 }
    {
        Mode { bits: 0o755 }
    }

    /// The mode of a new file, 644 octal.
    pub fn of_file() -> Mode
        ensures { result ≡ 420 }
    {
        Mode { bits: 0o644 }
    }

    /// The bits as a number.
    pub fn bits(self) -> u16
        ensures value { result ≡ self }
        ensures in_range { self ≤ 1023 }
    {
        self.bits
    }
}

/// How many entries a page holds at most, from 1 to 1,000.
#[derive(Clone, Copy, Debug, PartialEq, Eq)]
pub struct PageSize {
    entries: u16,
}

impl Model for PageSize {
    ghost use Rattle.std.specs.Prelude.{ℕ, ◌≤◌};

    ghost Value = { ℕ };

    ghost view = { λ p. p.entries };

    ghost invariant = { λ p. (1 ≤ p.entries) × (p.entries ≤ 1000) };

    ghost inverse = { λ entries. record { entries = entries } };
}

impl PageSize {
    /// The greatest page.
    pub const GREATEST: u16 = 1000;

    /// `None` exactly at 0 and above 1,000.
    pub fn new(entries: u16) -> Option<PageSize>
        ensures in_range { IfSome result (λ size. (size ≡ entries) × (1 ≤ entries) × (entries ≤ 1000)) }
        ensures out_of_range { IfNone result (1 ≤ entries → 1001 ≤ entries) }
    {
        if 1 <= entries && entries <= PageSize::GREATEST {
            Some(PageSize { entries })
        } else {
            None
        }
    }

    /// The greatest page, of 1,000 entries.
    pub fn greatest() -> PageSize
        ensures { result ≡ 1000 }
    {
        PageSize { entries: 1000 }
    }

    /// The number of entries.
    pub fn entries(self) -> u16
        ensures value { result ≡ self }
        ensures at_least { 1 ≤ self }
        ensures at_most { self ≤ 1000 }
    {
        self.entries
    }
}

/// How many bytes a read asks for at most, from 1 to 65,536.
#[derive(Clone, Copy, Debug, PartialEq, Eq)]
pub struct ReadLen {
    bytes: u32,
}

impl Model for ReadLen {
    ghost use Rattle.std.specs.Prelude.{ℕ, ◌≤◌};

    ghost Value = { ℕ };

    ghost view = { λ r. r.bytes };

    ghost invariant = { λ r. (1 ≤ r.bytes) × (r.bytes ≤ 65536) };

    ghost inverse = { λ bytes. record { bytes = bytes } };
}

impl ReadLen {
    /// The greatest read.
    pub const GREATEST: u32 = 65536;

    /// `None` exactly at 0 and above 65,536.
    pub fn new(bytes: u32) -> Option<ReadLen>
        ensures in_range { IfSome result (λ len. (len ≡ bytes) × (1 ≤ bytes) × (bytes ≤ 65536)) }
        ensures out_of_range { IfNone result (1 ≤ bytes → 65537 ≤ bytes) }
    {
        if 1 <= bytes && bytes <= ReadLen::GREATEST {
            Some(ReadLen { bytes })
        } else {
            None
        }
    }

    /// The greatest read, of 65,536 bytes.
    pub fn greatest() -> ReadLen
        ensures { result ≡ 65536 }
    {
        ReadLen { bytes: 65536 }
    }

    /// The number of bytes.
    pub fn bytes(self) -> u32
        ensures value { result ≡ self }
        ensures at_least { 1 ≤ self }
        ensures at_most { self ≤ 65536 }
    {
        self.bytes
    }
}
