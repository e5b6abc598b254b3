//! One entry of a directory.
use hs_types::{Duplicate, InodeId, Name, NoMemory};
use std::marker::Model;

/// An entry of a directory: a name, and the inode that stands under it. Contracts see the pair of both.
#[derive(Debug, Drop, PartialEq, Eq)]
pub struct Child {
    pub name: Name,
    pub id: InodeId,
}

impl Model for Child {
    ghost use Rattle.dir_changes.specs.Entries.{Entry};

    ghost Value = { Entry };

    ghost view = { λ child. (child.name, child.id) };

    ghost inverse = { λ entry. record { name = entry.0; id = entry.1 } };
}

impl Duplicate for Child {
    fn copy(&self) -> Result<Child, NoMemory> {
        Ok(Child {
            name: self.name.copy()?,
            id: self.id,
        })
    }
}
