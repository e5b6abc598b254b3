//! What each call leaves of what is found, by directory and over all live snapshots as one list in order of making.
ghost use Rattle.snapshot_manager.specs.LookUps.{NamedAfterAdd, NamedAfterRemove, NamedAfterRename, LastAfterAdd, LastAfterRemove, LastStaysAfterRemove, LastAfterRename};
ghost use Rattle.snapshot_manager.specs.Members.{MembersAtStart, MembersAllowed, MembersDisallowed, MembersAdded, MembersRemoved, MembersRenamed, MembersFound, MembersLive};

/// At the start there is none.
pub fn members_at_start()
    ensures { MembersAtStart }
{}

/// To make a directory snapshottable changes no member.
pub fn members_allowed()
    ensures { MembersAllowed }
{}

/// Nor does it where a directory without snapshots is snapshottable no more.
pub fn members_disallowed()
    ensures { MembersDisallowed }
{}

/// A new snapshot comes last.
pub fn members_added()
    ensures { MembersAdded }
{}

/// A snapshot goes, and the others keep their order.
pub fn members_removed()
    ensures { MembersRemoved }
{}

/// A snapshot gets another name in its place.
pub fn members_renamed()
    ensures { MembersRenamed }
{}

/// What `by_id` finds is the member with that id.
pub fn members_found()
    ensures { MembersFound }
{}

/// The live ids of `live_between` are those of the members.
pub fn members_live()
    ensures { MembersLive }
{}

/// A new snapshot is found by its name.
pub fn named_after_add()
    ensures { NamedAfterAdd }
{}

/// A removed one is found no more.
pub fn named_after_remove()
    ensures { NamedAfterRemove }
{}

/// A renamed one is found by its new name alone.
pub fn named_after_rename()
    ensures { NamedAfterRename }
{}

/// A new snapshot is its directory's last.
pub fn last_after_add()
    ensures { LastAfterAdd }
{}

/// As a snapshot goes, the last one is that of what is left.
pub fn last_after_remove()
    ensures { LastAfterRemove }
{}

/// It stays where another one goes.
pub fn last_stays_after_remove()
    ensures { LastStaysAfterRemove }
{}

/// Another name leaves the last one.
pub fn last_after_rename()
    ensures { LastAfterRename }
{}
