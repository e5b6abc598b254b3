//! The bytes of one append or of one page of a read.
ghost use Rattle.std.specs.Prelude.{◌≡◌, ◌≤◌, length, IfOk, IfErr};

use crate::list::List;
use crate::memory::{Duplicate, NoMemory};
use std::marker::Model;

/// At most 65,536 bytes. Contracts see them as a list.
#[derive(Debug, Drop, PartialEq, Eq)]
pub struct Chunk {
    bytes: List<u8>,
}

impl Model for Chunk {
    ghost use Rattle.std.specs.Prelude.{List, ℕ, ◌≤◌, length};

    ghost Value = { List ℕ };

    ghost view = { λ chunk. chunk.bytes };

    ghost invariant = { λ chunk. length chunk.bytes ≤ 65536 };

    ghost inverse = { λ bytes. record { bytes = bytes } };
}

impl Chunk {
    /// The most bytes of a chunk, which are as many as a block has.
    pub const GREATEST: usize = 65536;

    /// Holds these bytes, and takes no memory. Hands back exactly what is too long.
    pub fn new(bytes: Vec<u8>) -> Result<Chunk, Vec<u8>>
        ensures within { IfOk result (λ chunk. (chunk ≡ bytes.items) × (length bytes.items ≤ 65536)) }
        ensures too_long { IfErr result (λ back. (back.items ≡ bytes.items) × (65537 ≤ length bytes.items)) }
    {
        if bytes.len() <= Chunk::GREATEST {
            Ok(Chunk {
                bytes: List::of(bytes),
            })
        } else {
            Err(bytes)
        }
    }

    /// The bytes in order, borrowed.
    pub fn bytes(&self) -> &[u8]
        ensures bytes { result.now ≡ self.now }
        ensures within { length self.now ≤ 65536 }
    {
        self.bytes.items()
    }
}

impl Duplicate for Chunk {
    fn copy(&self) -> Result<Chunk, NoMemory> {
        Ok(Chunk {
            bytes: self.bytes.copy_bytes()?,
        })
    }
}
