//! What a plan is, by two trees: functions without a body, each for its contract.
ghost use Rattle.distcp_plan.specs.Laws.{FirstBadIsOfCalls, PlanIsOfTrees};

/// The first bad path is that of the plan's calls, whatever bytes the files have.
pub fn first_bad_is_of_calls()
    ensures { FirstBadIsOfCalls }
{}

/// Of two trees of one root the plan of their report, their listings and the names is their plan.
pub fn plan_is_of_trees()
    ensures { PlanIsOfTrees }
{}
