//! What follows from the definitions. The functions do nothing: their contracts are the laws.
ghost use Rattle.wgr_plan.specs.PlanLaws.{OnePlan};

/// A text has one plan at most.
pub fn plans_are_unique()
    ensures { OnePlan }
{}
