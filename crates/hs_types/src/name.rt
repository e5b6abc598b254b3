//! Names of nodes and snapshots, and texts that may become one.
ghost use Rattle.std.specs.Prelude.{◌≡◌, ◌==◌, string_bytes, IsTrue, IfOk, OnOk, IsErrOf, not};
ghost use Rattle.hs_types.specs.Names.{is_name, is_dots, is_snapshot_word};
ghost use Rattle.std.specs.List.{list_any};

use crate::ids::{InodeId, SnapId};
use crate::memory::{Duplicate, NoMemory};
use crate::text::Text;
use std::alloc::Global;
use std::marker::Model;

/// A text that was said as the name of a snapshot, or as a word of the command line. It may be no name at all.
#[derive(Debug, Drop, PartialEq, Eq)]
pub struct NameText {
    text: Text,
}

impl Model for NameText {
    ghost use Rattle.std.specs.Prelude.{List, ℕ};

    ghost Value = { List ℕ };

    ghost view = { λ n. n.text };

    ghost inverse = { λ bytes. record { text = bytes } };
}

impl NameText {
    /// Holds that text, and takes no memory.
    pub fn new(text: String) -> NameText
        ensures { result ≡ string_bytes text }
    {
        NameText {
            text: Text::of(text),
        }
    }

    /// The text as it was said.
    pub fn text(&self) -> &str
        ensures { result.now ≡ self.now }
    {
        self.text.as_str()
    }
}

impl Duplicate for NameText {
    fn copy(&self) -> Result<NameText, NoMemory> {
        Ok(NameText {
            text: self.text.copy()?,
        })
    }
}

/// A name of a node or a snapshot: 1 to 255 bytes of UTF-8 without `/` and U+0000, and none of `.`, `..`
/// and `.snapshot`. Names are ordered by their bytes.
#[derive(Debug, Drop, PartialEq, Eq, PartialOrd, Ord, Hash)]
pub struct Name {
    text: Text,
}

impl Model for Name {
    ghost use Rattle.std.specs.Prelude.{List, ℕ, IsTrue};
    ghost use Rattle.hs_types.specs.Names.{is_name};

    ghost Value = { List ℕ };

    ghost view = { λ n. n.text };

    ghost invariant = { λ n. IsTrue (is_name n.text) };

    ghost inverse = { λ bytes. record { text = bytes } };
}

/// Why a text is not read as a name.
#[derive(Clone, Copy, Debug, PartialEq, Eq)]
pub enum NameFault {
    /// The text isn't a name.
    Illegal,
    /// The text is a name, but memory ran out.
    NoMemory,
}

/// The one test of the rules of names.
pub fn is_legal_name(text: &str) -> bool
    ensures { result ≡ is_name text.now }
{
    let bytes = text.as_bytes();
    let has_slash = contains_byte(bytes, b'/');
    let has_nul = contains_byte(bytes, 0);
    let is_dots = is_dots_name(text);
    let is_word = is_snapshot_word(text);
    !bytes.is_empty() && bytes.len() <= 255 && !has_slash && !has_nul && !is_dots && !is_word
}

/// Whether the byte is one of these.
pub fn contains_byte(bytes: &[u8], byte: u8) -> bool
    ensures { result ≡ list_any (λ b. b == byte) bytes.now }
{
    bytes.iter().any(|b| *b == byte)
}

/// Whether the text is the reserved name of the list of snapshots, `.snapshot`.
pub fn is_snapshot_word(text: &str) -> bool
    ensures { result ≡ is_snapshot_word text.now }
{
    text == ".snapshot"
}

/// Whether the text is one of the two that stand for a directory itself and for the one above it.
pub fn is_dots_name(text: &str) -> bool
    ensures { result ≡ is_dots text.now }
{
    text == "." || text == ".."
}

impl Name {
    /// Holds a text that is a name, and takes no memory.
    pub fn of_legal(text: Text) -> Name
        requires { IsTrue (is_name text) }
        ensures { result ≡ text }
    {
        Name { text }
    }

    /// Reads a text as a name, and copies it.
    pub fn read(alloc: Global, text: &NameText) -> Result<Name, NameFault>
        ensures same { IfOk result (λ name. name ≡ text.now) }
        ensures legal { OnOk result (IsTrue (is_name text.now)) }
        ensures illegal { IsErrOf result NameFault.Illegal → IsTrue (not (is_name text.now)) }
        ensures only { IsErrOf result NameFault.NoMemory → IsTrue (is_name text.now) }
    {
        if !is_legal_name(text.text()) {
            return Err(NameFault::Illegal);
        }
        match text.text.copy() {
            Ok(text) => Ok(Name::of_legal(text)),
            Err(NoMemory) => Err(NameFault::NoMemory),
        }
    }

    /// The name's text, without a slash.
    pub fn text(&self) -> &str
        ensures text { result.now ≡ self.now }
        ensures name { IsTrue (is_name self.now) }
    {
        self.text.as_str()
    }
}

impl Duplicate for Name {
    fn copy(&self) -> Result<Name, NoMemory> {
        Ok(Name {
            text: self.text.copy()?,
        })
    }
}

/// Where a node stands: under which directory, and by which name.
#[derive(Debug, Drop, PartialEq, Eq)]
pub struct Spot {
    pub parent: InodeId,
    pub name: Name,
}

impl Duplicate for Spot {
    fn copy(&self) -> Result<Spot, NoMemory> {
        Ok(Spot {
            parent: self.parent,
            name: self.name.copy()?,
        })
    }
}

/// A snapshot of one directory: its id, the tick of the entry that made it, and its name.
#[derive(Debug, Drop, PartialEq, Eq)]
pub struct SnapItem {
    pub id: SnapId,
    pub tick: u64,
    pub name: Name,
}

impl Duplicate for SnapItem {
    fn copy(&self) -> Result<SnapItem, NoMemory> {
        Ok(SnapItem {
            id: self.id,
            tick: self.tick,
            name: self.name.copy()?,
        })
    }
}
