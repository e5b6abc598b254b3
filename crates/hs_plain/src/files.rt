//! How the files of a state are kept.
ghost use Rattle.std.specs.Prelude.{◌≡◌};
ghost use Rattle.hs_plain.specs.Files.{Files, plain_files, block_files};

use crate::state::{Bytes, FileBlocks};
use hs_types::List;
use std::alloc::Global;

/// What stands for a file's bytes.
pub trait FileBody: Drop {
    ghost files: { Files Self };

    /// What stands for a file without bytes. It takes no memory.
    fn empty(alloc: Global) -> Self
    where
        Self: Sized,
        ensures { result ≡ files.empty };

    /// How many bytes a file has, without reading one.
    fn size(&self) -> u64
        ensures { result ≡ files.size self.now };
}

impl FileBody for Bytes {
    ghost files = { plain_files };

    fn empty(alloc: Global) -> Bytes {
        List::new(alloc)
    }

    fn size(&self) -> u64 {
        self.len() as u64
    }
}

impl FileBody for FileBlocks {
    ghost files = { block_files };

    fn empty(alloc: Global) -> FileBlocks {
        FileBlocks {
            size: 0,
            blocks: List::new(alloc),
        }
    }

    fn size(&self) -> u64 {
        self.size
    }
}
