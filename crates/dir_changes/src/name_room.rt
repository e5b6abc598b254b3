//! Memory for a name, put aside.
ghost use Rattle.std.specs.Prelude.{◌≡◌, ◌≤◌, [], string_bytes, string_capacity};

use hs_types::{Name, NoMemory, Text};
use std::alloc::Global;

/// Memory for one name, made beforehand, so that a copy can't want any.
#[derive(Debug, Drop)]
pub struct NameRoom {
    text: String,

    ghost empty: { string_bytes text ≡ [] },
    ghost room: { 255 ≤ string_capacity text },
}

impl NameRoom {
    pub fn new(alloc: Global) -> Result<NameRoom, NoMemory> {
        Ok(NameRoom {
            text: String::with_capacity(alloc, 255)?,
        })
    }

    /// A copy of the name, in this memory.
    pub fn copy_of(self, name: &Name) -> Name
        ensures { result ≡ name.now }
    {
        let NameRoom { mut text } = self;
        match text.push_str(name.text()) {
            Ok(()) => Name::of_legal(Text::of(text)),
            Err(_) => unreachable!(),
        }
    }
}
