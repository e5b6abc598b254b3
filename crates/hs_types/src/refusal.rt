//! Why a namenode refuses a call.
ghost use Rattle.std.specs.Prelude.{◌≡◌};
ghost use Rattle.hs_types.specs.Refusals.{number_of, refusal_name};

/// Why a call is refused. They are tested in the order of their numbers, and the first that holds is answered; of a
/// cursor `Gone` is tested before all others.
#[derive(Clone, Copy, Debug, PartialEq, Eq)]
pub enum Refusal {
    /// The path's text is no path.
    BadPath,
    /// A component or the path's text has too many bytes.
    TooLong,
    /// The path has too many components.
    TooDeep,
    /// The path of a modifying call is a list of snapshots.
    Reserved,
    /// The path of a modifying call lies in a snapshot.
    ReadOnly,
    /// A component of the path isn't there, or what a cursor stands for; also `.snapshot` of a directory that isn't
    /// snapshottable.
    NotFound,
    /// A file stands where a directory is needed.
    NotDir,
    /// A directory or a list of snapshots stands where a file is needed.
    NotFile,
    /// A node stands where a new one is to be made.
    Exists,
    /// What a snapshot is to be called isn't a name.
    NotSnapshotName,
    /// The root can be neither deleted nor renamed.
    IsRoot,
    /// A directory with children is deleted with them only where that is asked for.
    NotEmpty,
    /// The directory, or one below the node, has snapshots.
    HasSnapshots,
    /// A node's new place is below itself.
    IntoItself,
    /// The directory isn't snapshottable.
    NotSnapshottable,
    /// Snapshottable directories never lie one below another.
    Nested,
    /// The directory has a snapshot of this name already.
    SnapshotExists,
    /// The directory has no such snapshot.
    NoSnapshot,
    /// The directory has as many snapshots as one may have, 65,536.
    SnapshotLimit,
    /// A cursor names a snapshot that isn't there, or isn't there any more.
    Gone,
    /// A report with the current state is asked to go on at another tick than it began at.
    Moved {
        /// The tick at which the report began.
        then: u64,
        /// The tick of this reply.
        now: u64,
    },
    /// The journal has as many entries as it may have.
    JournalFull,
    /// The store of blocks failed.
    StoreFault,
}

impl Refusal {
    /// The number of the refusal, by which refusals are tested.
    pub fn number(&self) -> u8
        ensures { result ≡ number_of self.now }
    {
        match self {
            Refusal::BadPath => 1,
            Refusal::TooLong => 2,
            Refusal::TooDeep => 3,
            Refusal::Reserved => 4,
            Refusal::ReadOnly => 5,
            Refusal::NotFound => 6,
            Refusal::NotDir => 7,
            Refusal::NotFile => 8,
            Refusal::Exists => 9,
            Refusal::NotSnapshotName => 10,
            Refusal::IsRoot => 11,
            Refusal::NotEmpty => 12,
            Refusal::HasSnapshots => 13,
            Refusal::IntoItself => 14,
            Refusal::NotSnapshottable => 15,
            Refusal::Nested => 16,
            Refusal::SnapshotExists => 17,
            Refusal::NoSnapshot => 18,
            Refusal::SnapshotLimit => 19,
            Refusal::Gone => 20,
            Refusal::Moved { .. } => 21,
            Refusal::JournalFull => 22,
            Refusal::StoreFault => 23,
        }
    }

    /// The name of the refusal, as it is printed: that of the variant.
    pub fn name(&self) -> &'static str
        ensures { result.now ≡ refusal_name self.now }
    {
        match self {
            Refusal::BadPath => "BadPath",
            Refusal::TooLong => "TooLong",
            Refusal::TooDeep => "TooDeep",
            Refusal::Reserved => "Reserved",
            Refusal::ReadOnly => "ReadOnly",
            Refusal::NotFound => "NotFound",
            Refusal::NotDir => "NotDir",
            Refusal::NotFile => "NotFile",
            Refusal::Exists => "Exists",
            Refusal::NotSnapshotName => "NotSnapshotName",
            Refusal::IsRoot => "IsRoot",
            Refusal::NotEmpty => "NotEmpty",
            Refusal::HasSnapshots => "HasSnapshots",
            Refusal::IntoItself => "IntoItself",
            Refusal::NotSnapshottable => "NotSnapshottable",
            Refusal::Nested => "Nested",
            Refusal::SnapshotExists => "SnapshotExists",
            Refusal::NoSnapshot => "NoSnapshot",
            Refusal::SnapshotLimit => "SnapshotLimit",
            Refusal::Gone => "Gone",
            Refusal::Moved { .. } => "Moved",
            Refusal::JournalFull => "JournalFull",
            Refusal::StoreFault => "StoreFault",
        }
    }
}
