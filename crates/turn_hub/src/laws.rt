//! Laws of works, stated by the contract of a function that does nothing.

ghost use Rattle.turn_hub.specs.Laws.{StandsTakes, StandsOn, LeadsNone, LeadsOn, TakesLess, TakesOn};
ghost use Rattle.turn_hub.specs.Turns.{WordsDiffer, BrokenIsLeft, BackIsLeft, NotYetIsWorked};
ghost use Rattle.turn_hub.specs.Turns.{GivenIsWorked, WorkedIsFound};

use crate::work::Work;

/// What a work takes, and what it is led to, item by item and list by list.
pub fn takes_and_leads<W: Work>()
    ensures stands_takes { StandsTakes W.stands W.may }
    ensures stands_on { StandsOn W.stands W.may }
    ensures leads_none { LeadsNone W.stands W.may }
    ensures leads_on { LeadsOn W.stands W.may }
    ensures takes_less { TakesLess W.stands W.may }
    ensures takes_on { TakesOn W.stands W.may }
{}

/// What one side leaves is what the other side finds.
pub fn turns_agree<W: Work>()
    ensures differ { WordsDiffer }
    ensures broken { BrokenIsLeft W.told W.refused }
    ensures back { BackIsLeft W.told W.refused }
    ensures not_yet { NotYetIsWorked W.told W.refused }
    ensures given { GivenIsWorked W.told W.refused }
    ensures worked { WorkedIsFound W.told W.refused }
{}
