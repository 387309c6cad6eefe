//! Laws of following a run of the process machine, each as the contract of a function that does nothing.

ghost use Rattle.tfollow.specs.Laws.{LeadsAreLeads, RunsTellLeads, FollowingBegins};
ghost use Rattle.tfollow.specs.Modes.{ModesTellCollisions};
ghost use Rattle.tfollow.specs.Laws.{StepsAreFollowed, ClocksAreHandedOn, SlotsMayBeCleared, AgentsMayCome};
ghost use Rattle.tfollow.specs.Laws.{PlacesMayCome, FollowedRunsAreCertificates, StopsAreTold};
ghost use Rattle.tfollow.specs.Laws.{NumbersMayBeTaken, RefusalsTellRaces, NewStepsAreUnknown};
ghost use Rattle.tfollow.specs.Numbering.{NewAgentsAreOthers};
ghost use Rattle.tfollow.specs.Lodging.{CountedStepsAreChained, LodgingBegins, LodgedAgentsMayCome, OthersKeepBerths};
ghost use Rattle.tfollow.specs.Lodging.{BeginningsTakeBerths, EndsLeaveBerths, BerthsLetFewLive};
ghost use Rattle.tfollow.specs.Opening.{AgentsAreOpenBy, StepsLeadBy};
ghost use Rattle.tfollow.specs.Sites.{StepsAreAtSites};
ghost use Rattle.tfollow.specs.Telling.{NotesAreTold, NotesAreToldOrOwn};
ghost use Rattle.tfollow.specs.Truth.{TruthIsKept, TrueRefusalsTellTrueRaces};

/// Accesses to one place that collide have modes that collide.
pub fn modes_tell_collisions()
    ensures { ModesTellCollisions }
{}

/// A step that has seen a gate of an agent shut, or has counted down the word at which a successor waits, leads to the
/// next step of that agent, if this one does not stop.
pub fn leads_are_leads()
    ensures { LeadsAreLeads }
{}

/// A step of an agent whose gates are open that, as it runs, sees a gate of another agent shut, or counts down the word
/// at which a successor waits, is known to lead to the next step of that agent.
pub fn runs_tell_leads()
    ensures { RunsTellLeads }
{}

/// Who leads to whom, by what the run of a step sees and counts down: it leads to processes that it sees not ready, to
/// channels of which it sees a half at which they may not go on, to wires of which it sees a free end, and to
/// successors for which it counts down.
pub fn steps_lead_by()
    ensures { StepsLeadBy }
{}

/// Before the first step a run is followed, with a check of nothing.
pub fn following_begins()
    ensures { FollowingBegins }
{}

/// The steps of agents at the nodes that a plan has, as parts of steps on these nodes.
pub fn steps_are_at_sites()
    ensures { StepsAreAtSites }
{}

/// An agent whose gates are open does its step, which does not stop. The check begins it, joins the clock in the
/// agent's slot, and is told accesses. They cover all of its own, but for those that are covered by an earlier one of
/// its number of which nobody else knows. Then the run is followed on.
pub fn steps_are_followed()
    ensures { StepsAreFollowed }
{}

/// The notes of what a step has touched, told to the check, cover all accesses that they tell of.
pub fn notes_are_told()
    ensures { NotesAreTold }
{}

/// Notes need not be told of what was accessed with the number before, if nobody else knows of that.
pub fn notes_are_told_or_own()
    ensures { NotesAreToldOrOwn }
{}

/// Nobody else knows of steps that were not begun, and no access of one is kept.
pub fn new_steps_are_unknown()
    ensures { NewStepsAreUnknown }
{}

/// The clock of the last step may be handed on to an agent to which the step leads.
pub fn clocks_are_handed_on()
    ensures { ClocksAreHandedOn }
{}

/// A slot may be cleared.
pub fn slots_may_be_cleared()
    ensures { SlotsMayBeCleared }
{}

/// An agent is new to a list in which no agent stands twice exactly if each one there is another one.
pub fn new_agents_are_others()
    ensures { NewAgentsAreOthers }
{}

/// An agent may come, with a clock and a slot.
pub fn agents_may_come()
    ensures { AgentsMayCome }
{}

/// An agent to which the last step leads may take the number of one that has ended, if the clock of the step has
/// counted all steps with this number.
pub fn numbers_may_be_taken()
    ensures { NumbersMayBeTaken }
{}

/// Places may come; those that the check does not have may get other numbers.
pub fn places_may_come()
    ensures { PlacesMayCome }
{}

/// Which agents have a step in a state: processes that are ready, channels of which the output is taken and the input
/// is taken or awaited, wires with a message at one end and a taker at the other, and successors of which the last one
/// ended.
pub fn agents_are_open_by()
    ensures { AgentsAreOpenBy }
{}

/// If no agent has a step, in no run too many processes live at a node at the same time, and no flag was changed where
/// processes of both priorities ran, a run that was followed to here is a certificate, and each other run can be
/// completed to this end.
pub fn followed_runs_are_certificates()
    ensures { FollowedRunsAreCertificates }
{}

/// Where a step stops, the steps so far and this one are a run of the machine, and it stops for this reason.
pub fn stops_are_told()
    ensures { StopsAreTold }
{}

/// Where the check refuses an access of the step, as it races with a kept one, the steps so far and this one are a run;
/// the kept access is of an earlier step of another agent, which is told by its number; the two accesses collide, and
/// the clock of this step has not counted that one.
pub fn refusals_tell_races()
    ensures { RefusalsTellRaces }
{}

/// Where the check is told only of true accesses, each access that it keeps was made by the step to which it belongs.
pub fn truth_is_kept()
    ensures { TruthIsKept }
{}

/// Then a refusal tells of two steps that access places of one number in modes that collide.
pub fn true_refusals_tell_true_races()
    ensures { TrueRefusalsTellTrueRaces }
{}

/// A step that the clock of the last step has counted is chained to it.
pub fn counted_steps_are_chained()
    ensures { CountedStepsAreChained }
{}

/// Before the first step no berth was taken or left, and some are free: no more than may live beside the processes of
/// the image.
pub fn lodging_begins()
    ensures { LodgingBegins }
{}

/// Agents that have done no step may have other numbers where processes are lodged.
pub fn lodged_agents_may_come()
    ensures { LodgedAgentsMayCome }
{}

/// A step that begins no process at the node and ends none leaves its berths as they are.
pub fn others_keep_berths()
    ensures { OthersKeepBerths }
{}

/// A step that begins a process may take a free berth for it, if its clock has counted the last step that left it.
pub fn beginnings_take_berths()
    ensures { BeginningsTakeBerths }
{}

/// A step that ends a process leaves its berth, if its clock has counted the last step that took it.
pub fn ends_leave_berths()
    ensures { EndsLeaveBerths }
{}

/// Where all that begins at a node takes a berth, no run has too many processes there at the same time.
pub fn berths_let_few_live()
    ensures { BerthsLetFewLive }
{}
