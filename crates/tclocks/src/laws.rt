//! What the check of a run proves of it, each law as the contract of a function that does nothing.

ghost use Rattle.tclocks.specs.Laws.{ChecksBegin, StepsAreChecked, ClocksAreHandedOn, SlotsMayBeCleared, ChecksMayGrow};
ghost use Rattle.tclocks.specs.Laws.{StepsAreCheckedByCover};
ghost use Rattle.tclocks.specs.Modes.{AreModes};
ghost use Rattle.tclocks.specs.Laws.{NumbersMayBeGiven, SeenStepsHaveNoRace, KnownStepsAreChained};
ghost use Rattle.tclocks.specs.NumberTurns.{GroupsAreNumbered, KnownNumbersAreFree, NumbersMayBeShared};
ghost use Rattle.tclocks.specs.Owning.{NewStepsAreUnknown, StepsStayUnknown, OwnAccessesStay, ToldAccessesAreOwn};
ghost use Rattle.tclocks.specs.Owning.{OwnAccessesWereTold};
ghost use Rattle.tclocks.specs.NumberTurns.{StepsInTurnAreChecked, StepsInTurnHaveNoRace, ClocksTellNumberTurns};

/// To collide goes both ways. A mode covers another one exactly if all that collides with that one collides with it.
pub fn modes_collide_and_cover()
    ensures { AreModes }
{}

/// A check begins with no steps, of any machine.
pub fn checks_begin<State, Agent, Label, Place, Kind>()
    ensures { ChecksBegin State Agent Label Place Kind }
{}

/// A step of a machine that was told to the check is one more that it has seen: it begins, the clocks in slots that
/// were written by steps that lead to it are joined, and each of its accesses is permitted and noted.
pub fn steps_are_checked<State, Agent, Label, Place, Kind>()
    ensures { StepsAreChecked State Agent Label Place Kind }
{}

/// The same holds for a step of which fewer accesses were told, if each of its own is covered by one of these, as a put
/// is also a look, or by an earlier one of its agent of which nobody else knows yet.
pub fn steps_are_checked_by_cover<State, Agent, Label, Place, Kind>()
    ensures { StepsAreCheckedByCover State Agent Label Place Kind }
{}

/// Nobody else knows of steps that were not begun, and no access of one is kept.
pub fn new_steps_are_unknown<State, Agent, Label, Place, Kind>()
    ensures { NewStepsAreUnknown State Agent Label Place Kind }
{}

/// Nobody else comes to know of an agent's steps until its clock is handed on.
pub fn steps_stay_unknown()
    ensures { StepsStayUnknown }
{}

/// So long an access of the agent, or one that replaces it, covers what it has covered.
pub fn own_accesses_stay()
    ensures { OwnAccessesStay }
{}

/// An access that a step was told with is one of which nobody else knows.
pub fn told_accesses_are_own()
    ensures { ToldAccessesAreOwn }
{}

/// What nobody else knows of behind a step was told with it, or nobody else knew of it before. So it may be asked at
/// any time between the begin of a step and its end.
pub fn own_accesses_were_told()
    ensures { OwnAccessesWereTold }
{}

/// After a step the clock of its agent may be handed on in a slot, or added to the clock there.
pub fn clocks_are_handed_on<State, Agent, Label, Place, Kind>()
    ensures { ClocksAreHandedOn State Agent Label Place Kind }
{}

/// A slot may be cleared.
pub fn slots_may_be_cleared<State, Agent, Label, Place, Kind>()
    ensures { SlotsMayBeCleared State Agent Label Place Kind }
{}

/// Agents, slots and places may be added.
pub fn checks_may_grow<State, Agent, Label, Place, Kind>()
    ensures { ChecksMayGrow State Agent Label Place Kind }
{}

/// Agents and places that were not added yet may be given other numbers.
pub fn numbers_may_be_given<State, Agent, Label, Place, Kind>()
    ensures { NumbersMayBeGiven State Agent Label Place Kind }
{}

/// The steps that a check has seen pass the check in one pass of machines of agents, so they have no race.
pub fn seen_steps_have_no_race<State, Agent, Label, Place, Kind>()
    ensures { SeenStepsHaveNoRace State Agent Label Place Kind }
{}

/// If the agent of the last step knows all steps of another one, a chain leads from each of them to this step.
pub fn known_steps_are_chained<State, Agent, Label, Place, Kind>()
    ensures { KnownStepsAreChained State Agent Label Place Kind }
{}

/// Of a machine whose agents are their numbers it is enough that kinds of accesses that collide have modes that do.
pub fn groups_are_numbered<State, Agent, Label, Place, Kind>()
    ensures { GroupsAreNumbered State Agent Label Place Kind }
{}

/// Agents may share a number in the check: a step that is told by its number is one more that it has seen, if no step
/// had the number, if its agent did the last one with it, or if it comes after a step since which the number is free.
pub fn steps_in_turn_are_checked<State, Agent, Label, Place, Kind>()
    ensures { StepsInTurnAreChecked State Agent Label Place Kind }
{}

/// If the agent of the last step knows all steps with a number, whoever comes after this step may have the number.
pub fn known_numbers_are_free<State, Agent, Label, Place, Kind>()
    ensures { KnownNumbersAreFree State Agent Label Place Kind }
{}

/// An agent whose number was not added yet may be given one that others have.
pub fn numbers_may_be_shared<State, Agent, Label, Place, Kind>()
    ensures { NumbersMayBeShared State Agent Label Place Kind }
{}

/// The steps that a check has seen have no race, if it knew their agents by numbers that these had in turn.
pub fn steps_in_turn_have_no_race<State, Agent, Label, Place, Kind>()
    ensures { StepsInTurnHaveNoRace State Agent Label Place Kind }
{}

/// Clocks tell that agents had numbers in turn: an agent that begins with a used number comes after a step whose clock
/// has counted all steps with it.
pub fn clocks_tell_number_turns<State, Agent, Label, Place, Kind>()
    ensures { ClocksTellNumberTurns State Agent Label Place Kind }
{}
