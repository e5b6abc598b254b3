//! The plain state of a namenode: its live tree and the copied trees of its snapshots.

use hs_types::{BlockId, InodeId, List, Mode, Name, RelPath, SnapId};

/// A node of a tree, without its name.
#[derive(Debug, Drop, PartialEq, Eq)]
pub struct Node<B> {
    pub id: InodeId,
    pub mode: Mode,
    /// The tick of the entry that last changed the node's bytes, child list or mode.
    pub stamp: u64,
    pub body: Body<B>,
}

/// What a node holds: what stands for a file's bytes, or, of a directory, nothing.
#[derive(Debug, Drop, PartialEq, Eq)]
pub enum Body<B> {
    File(B),
    Dir,
}

/// A tree as the list of its places, by rising paths; the root stands at the path of no names.
pub type Tree<B> = List<(RelPath, Node<B>)>;

/// A snapshot with its whole copied tree.
#[derive(Debug, Drop, PartialEq, Eq)]
pub struct Member<B> {
    /// Never used again, also after the snapshot is deleted.
    pub snapshot: SnapId,
    pub directory: InodeId,
    pub name: Name,
    /// The tick of the entry that made the snapshot.
    pub tick: u64,
    pub tree: Tree<B>,
}

/// What the calls of a namenode are answered from, and what they change.
#[derive(Debug, Drop, PartialEq, Eq)]
pub struct State<B> {
    pub tree: Tree<B>,
    /// The directories in which snapshots may be made.
    pub snapshottable: List<InodeId>,
    /// The snapshots of all directories, in order of making.
    pub members: List<Member<B>>,
    /// The ids that the next new node and the next snapshot get.
    pub next_inode: u64,
    pub next_snapshot: u64,
    /// How many entries the namenode has journalled.
    pub tick: u64,
}

/// The bytes of a file.
pub type Bytes = List<u8>;

/// The plain state, in which a file holds its bytes.
pub type PlainState = State<Bytes>;

/// A file as a size and the blocks of a store that have its bytes.
#[derive(Debug, Drop, PartialEq, Eq)]
pub struct FileBlocks {
    pub size: u64,
    pub blocks: List<BlockId>,
}

/// A state in which a file's bytes are kept in the blocks of a store.
pub type WholeState = State<FileBlocks>;
