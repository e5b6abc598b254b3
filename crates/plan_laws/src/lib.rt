//! Laws of a sync's plan: functions without a body, each for its contract.
#![tactic(auto)]

ghost use Rattle.plan_laws.specs.Temporary.{TmpIsFreeInFrom, TmpIsFreeInTo, TmpIsFirst};
ghost use Rattle.plan_laws.specs.Undisturbed.{UnchangedIsReady, UnhinderedIsUnderWay, UndisturbedIsOk, UndisturbedGoesOn, UndisturbedEndsEqual};
ghost use Rattle.plan_laws.specs.Lanes.{MergingsLeadToOne};
ghost use Rattle.plan_laws.specs.SightLaws.{OutsLeaveOutside, OutsStandInside, OutsAreAccepted, HitsAreCuts, AlikeBelow, PutsLeadToOther, PutsAreAccepted};
ghost use Rattle.plan_laws.specs.PlanLaws.{PlanOutsGo, PlanPutsGo, PlanMovesLead, PlanGoes, PlanLeads, SnapshotsArePairs, LiveIsPair};
ghost use Rattle.plan_laws.specs.LineLaws.{TranslatesPaths, OutsAreOfLines, NewHasLine, OldInNewIsRenamed, NoLineNoChange, NewsAreNew, NewIsTold, ListingsAreWhole, ListingsDiffer, NewDirIsListed, ListingsAreInOrder, ListingsTellAll, PutTogetherIsSorted, SortedHasValues};
ghost use Rattle.plan_laws.specs.JournalLaws.{StepsAreOk, StepsGoOn, StepsLead, PlanIsOk, PlanGoesOn, PlanLeadsInJournal};

/// Outside of tmp nothing is left at an out or below it, and all else stands.
pub fn outs_outside()
    ensures { OutsLeaveOutside }
{}

/// In tmp under an out's number stands what stood at its path and below, but for what an earlier out had taken.
pub fn outs_inside()
    ensures { OutsStandInside }
{}

/// Each out is accepted.
pub fn outs_go()
    ensures { OutsAreAccepted }
{}

/// What a list of paths takes below a path is what it cuts off there.
pub fn hits_cuts()
    ensures { HitsAreCuts }
{}

/// Below two nodes that are alike, what no out has taken from the one tree is what no put brings to the other.
pub fn alike_below()
    ensures { AlikeBelow }
{}

/// After the puts stands outside of tmp what the other tree has.
pub fn puts_stand()
    ensures { PutsLeadToOther }
{}

/// Each put is accepted.
pub fn puts_go()
    ensures { PutsAreAccepted }
{}

/// From the first of two valid trees of one root all moves of the plan are accepted, and lead outside of tmp to the second, but for new files and changed bytes.
pub fn moves_lead()
    ensures outs { PlanOutsGo }
    ensures puts { PlanPutsGo }
    ensures stand { PlanMovesLead }
{}

/// From a target that holds what the first tree holds, all calls of the plan are accepted, the copies' calls merged in any way that keeps each copy's order, and lead to what the second tree holds.
pub fn sync_leads()
    ensures goes { PlanGoes }
    ensures equal { PlanLeads }
{}

/// Any two mergings of a plan's calls lead to equal trees, also where calls are refused.
pub fn mergings_lead_to_one()
    ensures { MergingsLeadToOne }
{}

/// A path of a node that both trees have is translated to its path in the second.
pub fn translates()
    ensures { TranslatesPaths }
{}

/// The outs are the paths of the deleted and renamed lines, the last first.
pub fn outs_by_lines()
    ensures { OutsAreOfLines }
{}

/// What is new, by lines and listings.
pub fn new_items()
    ensures created { NewHasLine }
    ensures renamed { OldInNewIsRenamed }
{}

/// Trees between which a report has no line are equal.
pub fn no_line_no_change()
    ensures { NoLineNoChange }
{}

/// Two snapshots of one directory, in a valid state in which stamps tell what nodes are, are two trees of one root, and so are a
/// snapshot and the current state of its directory.
pub fn members_are_pairs()
    ensures snapshots { SnapshotsArePairs }
    ensures live { LiveIsPair }
{}

/// What lines and listings tell to be new is new, and all that is new is told, where each new directory is listed after it was found.
pub fn news_by_lines()
    ensures sound { NewsAreNew }
    ensures complete { NewIsTold }
{}

/// The listings of a plan are those of the new directories, each once and whole, and with the lines they tell all that is new.
pub fn all_are_listed()
    ensures whole { ListingsAreWhole }
    ensures once { ListingsDiffer }
    ensures each { NewDirIsListed }
    ensures order { ListingsAreInOrder }
    ensures told { ListingsTellAll }
{}

/// What is put together in any order is the list by rising paths.
pub fn sorted_by_path()
    ensures listing { PutTogetherIsSorted }
    ensures values { SortedHasValues }
{}

/// In a journal with the first calls of a plan, in whatever merging of the copies, and with other entries that don't touch the
/// root, each of these calls is answered by an Ok reply where it stands; with all of them the root then holds what the second
/// tree holds.
pub fn sync_in_journal()
    ensures ok { StepsAreOk }
    ensures next { StepsGoOn }
    ensures equal { StepsLead }
{}

/// The same of the calls of a plan, in any of the ways in which its copies may be merged, where the second tree's paths are of
/// names and no call's text of a path breaks a path rule.
pub fn plan_in_journal()
    ensures ok { PlanIsOk }
    ensures next { PlanGoesOn }
    ensures equal { PlanLeadsInJournal }
{}

/// A sync under its premises: where both copies of `from` are equal and the target is unchanged since, all stands that the laws
/// above ask for; while nobody else writes, each of its plan's calls is answered Ok, the next one would be, and with all of them
/// the target's root holds what the source's `to` holds.
pub fn undisturbed_sync()
    ensures ready { UnchangedIsReady }
    ensures under_way { UnhinderedIsUnderWay }
    ensures ok { UndisturbedIsOk }
    ensures next { UndisturbedGoesOn }
    ensures equal { UndisturbedEndsEqual }
{}

/// The temporary directory of a plan is a child of neither root, and has the first name that is free.
pub fn tmp_is_free()
    ensures from { TmpIsFreeInFrom }
    ensures to { TmpIsFreeInTo }
    ensures first { TmpIsFirst }
{}
