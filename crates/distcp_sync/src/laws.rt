//! Laws of a sync: functions that do nothing, each for its contract.
ghost use Rattle.distcp_sync.specs.Promise.{SyncsKeepPromise};
ghost use Rattle.distcp_sync.specs.inside.Runs.{RunsAreTold};

use copy_workers::laws::{calls_of_copy, copy_of_frozen_is_front};

/// An undisturbed sync that is done leaves the target equal to the source's `to`, and it is done where nothing hinders it.
pub fn syncs_keep_promise()
    ensures { SyncsKeepPromise }
{}

/// The way of the code over what its two links know tells what a sync did in each journal around them.
pub(crate) fn runs_are_told()
    ensures { RunsAreTold }
{
    calls_of_copy();
    copy_of_frozen_is_front();
}
