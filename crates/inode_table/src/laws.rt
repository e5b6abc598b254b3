//! Laws of rows and of the plain states that they stand for. Each is the contract of a function that does nothing.
ghost use Rattle.inode_table.specs.Steps.{AlikeLaw, BelowLaw, TouchLaw, CutLaw, GraftLaw};
ghost use Rattle.inode_table.specs.Walk.{OneTreeLaw, WalkLaw, MoveLaw, StampLaw};
ghost use Rattle.inode_table.specs.Listed.{ListedLaw};
ghost use Rattle.inode_table.specs.Calls.{RenamedLaw};
ghost use Rattle.inode_table.specs.Climb.{UpLaw};
ghost use Rattle.inode_table.specs.Marks.{CoverLaw, ArriveLaw, FewerLaw, SnapLaw};
ghost use Rattle.inode_table.specs.RowHistory.{ReadingKeptLaw, FrozenKeptLaw, FrozenStepLaw};
ghost use Rattle.inode_table.specs.Stands.{RenameLaw};
ghost use Rattle.inode_table.specs.Deeds.{TouchStandsLaw, DeleteStandsLaw, MakeStandsLaw};
ghost use Rattle.inode_table.specs.Snaps.{SnapStandsLaw, DropStandsLaw};
ghost use Rattle.inode_table.specs.Names.{ReleaseLaw, ReadNamedLaw, PutNamedLaw, AddNamedLaw, RemoveNamedLaw, MergeNamedLaw};
ghost use Rattle.inode_table.specs.Merged.{MergedLaw};
ghost use Rattle.inode_table.specs.Released.{BlocksOnceLaw, LetGoLaw, ReleasedStandsLaw};
ghost use Rattle.inode_table.specs.Recounts.{ChangedNamedLaw, ChangedWeightLaw};
ghost use Rattle.inode_table.specs.Start.{StartStandsLaw};
ghost use Rattle.inode_table.specs.Records.{LoseLaw, StartLaw, MergeLaw};
ghost use Rattle.inode_table.specs.Ahead.{PreparedLaw, InsertFitsLaw, InsertLeavesLaw, ChangeFitsLaw, ChangeLeavesLaw, MarksLeaveLaw, ReleaseFitsLaw};
ghost use Rattle.inode_table.specs.Lent.{LentBackLaw, LentChangedLaw, LentCanLaw, LentWeightLaw, LentFitsLaw};
ghost use Rattle.inode_table.specs.Edited.{RemoveRowLaw};
ghost use Rattle.inode_table.specs.Once.{OnceRemoveLaw, OnceAddLaw};
ghost use Rattle.inode_table.specs.Acyclic.{FewerEndLaw, AddEndLaw};
ghost use Rattle.inode_table.specs.FromValid.{FromValidLaw, TopLaw};
ghost use Rattle.inode_table.specs.FrozenBytes.{FrozenBytesLaw};
ghost use Rattle.inode_table.specs.Joined.{RowLaw, MarksLaw, LastLaw};

/// Rows that show what they showed read as before.
pub fn alike()
    ensures { AlikeLaw }
{}

/// From a node on, what is read is what stands below it.
pub fn below()
    ensures { BelowLaw }
{}

/// One node is another now, with the same id.
pub fn touch()
    ensures { TouchLaw }
{}

/// A child goes with all below it.
pub fn cut()
    ensures { CutLaw }
{}

/// Other nodes are set under a free name.
pub fn graft()
    ensures { GraftLaw }
{}

/// At most one tree is read from rows.
pub fn one_tree()
    ensures { OneTreeLaw }
{}

/// A walk through lists is the walk through the tree.
pub fn walk()
    ensures { WalkLaw }
{}

/// A list in order is the listing of its directory.
pub fn listed()
    ensures { ListedLaw }
{}

/// A node goes to a free name: an entry out, an entry in, and its new spot.
pub fn moved()
    ensures { MoveLaw }
{}

/// A node gets another stamp.
pub fn stamped()
    ensures { StampLaw }
{}

/// A rename that isn't refused, with the stamps of both directories.
pub fn renamed()
    ensures { RenamedLaw }
{}

/// The spots lead from each inode up to the top, by its path.
pub fn up()
    ensures { UpLaw }
{}

/// The cover is at least every live id whose copied tree has the inode.
pub fn cover()
    ensures { CoverLaw }
{}

/// Marks stay true as a row comes, or is renamed.
pub fn arrive()
    ensures { ArriveLaw }
{}

/// And as nodes or snapshots go.
pub fn fewer()
    ensures { FewerLaw }
{}

/// And as a snapshot is made.
pub fn snap()
    ensures { SnapLaw }
{}

/// A change at the need keeps what is read at each live id up to the cover.
pub fn reading_kept()
    ensures { ReadingKeptLaw }
{}

/// Where each row reads alike at the snapshots that have it, copied trees are read as before.
pub fn frozen_kept()
    ensures { FrozenKeptLaw }
{}

/// So a change of one row keeps them.
pub fn frozen_step()
    ensures { FrozenStepLaw }
{}

/// A rename leads from a table that stands for a state to one that stands for the state after it.
pub fn rename_stands()
    ensures { RenameLaw }
{}

/// So does a change of one node's mode, stamp or bytes.
pub fn touch_stands()
    ensures { TouchStandsLaw }
{}

/// So does a deletion.
pub fn delete_stands()
    ensures { DeleteStandsLaw }
{}

/// So does a new node.
pub fn make_stands()
    ensures { MakeStandsLaw }
{}

/// A new snapshot changes no row.
pub fn snap_stands()
    ensures { SnapStandsLaw }
{}

/// Fewer snapshots, where rows read alike now and at those that are left.
pub fn drop_stands()
    ensures { DropStandsLaw }
{}

/// A row that no list names isn't read.
pub fn release()
    ensures { ReleaseLaw }
{}

/// A row that no list names goes, and what its lists name is named once less.
pub fn let_go()
    ensures { LetGoLaw }
{}

/// Rows that go in turn leave a table that stands for the same state.
pub fn released_stands()
    ensures { ReleasedStandsLaw }
{}

/// A file that goes hands out each block that a state names, once, and no other.
pub fn blocks_once()
    ensures { BlocksOnceLaw }
{}

/// The root alone stands for the first state.
pub fn start_stands()
    ensures { StartStandsLaw }
{}

/// What is read at a snapshot is named now.
pub fn read_named()
    ensures { ReadNamedLaw }
{}

/// How often an id is named, as one row's lists change.
pub fn put_named()
    ensures { PutNamedLaw }
{}

/// As a directory gets an entry.
pub fn add_named()
    ensures { AddNamedLaw }
{}

/// As it loses one.
pub fn remove_named()
    ensures { RemoveNamedLaw }
{}

/// As a record of it is merged away.
pub fn merge_named()
    ensures { MergeNamedLaw }
{}

/// As one snapshot goes, a row loses no interval, or one.
pub fn lose()
    ensures { LoseLaw }
{}

/// A record at the need has a live id in its interval.
pub fn start_record()
    ensures { StartLaw }
{}

/// A record without a live id in its interval may be merged away.
pub fn merge()
    ensures { MergeLaw }
{}

/// What a merge leaves: one record of one row goes, and all that is read outside its interval stays.
pub fn merged()
    ensures { MergedLaw }
{}

/// What the removal of an entry leaves of a directory's history.
pub fn remove_entry()
    ensures { RemoveRowLaw }
{}

/// An entry less: its id is named by no current list.
pub fn once_removed()
    ensures { OnceRemoveLaw }
{}

/// An entry more: its id is named by one.
pub fn once_added()
    ensures { OnceAddLaw }
{}

/// With fewer entries the way up still ends.
pub fn fewer_end()
    ensures { FewerEndLaw }
{}

/// And with one entry more, in a directory of the live tree.
pub fn added_end()
    ensures { AddEndLaw }
{}

/// A valid state's trees are nodes in the sense of these laws.
pub fn from_valid()
    ensures { FromValidLaw }
{}

/// And its root is their top.
pub fn top()
    ensures { TopLaw }
{}

/// A file whose blocks keep their first bytes has the same bytes.
pub fn frozen_bytes()
    ensures { FrozenBytesLaw }
{}

/// A row of a table in memory stands for a row of the plain table.
pub fn row_told()
    ensures { RowLaw }
{}

/// And has its marks.
pub fn marks_told()
    ensures { MarksLaw }
{}

/// The last live id of a directory is the plain state's.
pub fn last_told()
    ensures { LastLaw }
{}

/// What a change of a row does to how often rows are named.
pub fn changed_named()
    ensures { ChangedNamedLaw }
{}

/// And to what the table weighs.
pub fn changed_weight()
    ensures { ChangedWeightLaw }
{}

/// After `prepare` there is room for all the calls that it promises.
pub fn prepared()
    ensures { PreparedLaw }
{}

/// An insertion that is promised is answered Ok.
pub fn insert_fits()
    ensures { InsertFitsLaw }
{}

/// And leaves room for the other calls.
pub fn insert_leaves()
    ensures { InsertLeavesLaw }
{}

/// So is a change that is promised.
pub fn change_fits()
    ensures { ChangeFitsLaw }
{}

/// And it leaves room for the others.
pub fn change_leaves()
    ensures { ChangeLeavesLaw }
{}

/// New marks of a row take no room.
pub fn marks_leave()
    ensures { MarksLeaveLaw }
{}

/// And the next release is answered Ok.
pub fn release_fits()
    ensures { ReleaseFitsLaw }
{}

/// A list of blocks that was taken out and is put back leaves the table as it was.
pub fn lent_back()
    ensures { LentBackLaw }
{}

/// A new body of a file whose blocks are lent makes what it would have made before, where it starts no record.
pub fn lent_changed()
    ensures { LentChangedLaw }
{}

/// It can be made where it could before.
pub fn lent_can()
    ensures { LentCanLaw }
{}

/// Blocks weigh nothing.
pub fn lent_weight()
    ensures { LentWeightLaw }
{}

/// And there is room for that body.
pub fn lent_fits()
    ensures { LentFitsLaw }
{}
