//! Laws of a copy: functions without a body, each for its contract.
ghost use Rattle.copy_workers.specs.CopyLaws.{CallsOfCopy, CopyIsFront, CopyOfFrozenIsFront};

/// A copy reads the job's file of its snapshot page by page and writes what the pages want, and ends at the first call
/// that is not done.
pub fn calls_of_copy()
    ensures { CallsOfCopy }
{}

/// What a copy writes is what the plan has for it, up to the call that ended it.
pub fn copy_is_front()
    ensures { CopyIsFront }
{}

/// A snapshot keeps its files, so it is enough that the file was there once.
pub fn copy_of_frozen_is_front()
    ensures { CopyOfFrozenIsFront }
{}
