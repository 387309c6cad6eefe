//! Laws of machines of agents, each as the contract of a function that does nothing.

ghost use Rattle.tagents.specs.Certificates.{EachRunIsCompleted, EachEndIsTheEnd};
ghost use Rattle.tagents.specs.Races.{FewerLeadsAreEnough};
ghost use Rattle.tagents.specs.Chains.{ChainsTellRaces};
ghost use Rattle.tagents.specs.Groups.{GroupedRunsHaveNoRace, RunsGoOnInTurn, GroupedChainsAreChains};
ghost use Rattle.tagents.specs.Groups.{NumbersOfStepsMatter};
ghost use Rattle.tagents.specs.Crowds.{NoRunIsCrowded, RoomIsShownByEach, PartsTellOfTheWhole, EndsAreHandedOn};
ghost use Rattle.tagents.specs.PlaceTurns.{TurnsMakeRoom, PlacesAreEnough, PlacesAreShownByEach, PlacesMayBeGiven};
ghost use Rattle.tagents.specs.Times.{RunsHaveTimes, ClocksTellChains, ClocksTellEnds, ClocksTellPlaceTurns};
ghost use Rattle.tagents.specs.Times.{FewerLeadsTellChains};
ghost use Rattle.tagents.specs.Clocks.{ClocksTellRaces};
ghost use Rattle.tagents.specs.Tables.{CheckedRunsHaveNoRace};
ghost use Rattle.tagents.specs.Frames.{FramedMachinesAreLawful};
ghost use Rattle.tagents.specs.Examples.{SettersAreCertified};
ghost use Rattle.tagents.specs.Meeting.{MeetingIsCertified};
ghost use Rattle.tagents.specs.Tidy.{WalkersAreLawful, CarefulWalkersKeepGates};
ghost use Rattle.tagents.specs.Family.{FamilyHasOneRun};
ghost use Rattle.tagents.specs.WalkAccesses.{WalkersClashByAccesses, CheckedRunsAreCertificates};

/// If one run that is over has no race, each other run can be completed to the same end, with as many steps in all,
/// and each agent then does the same steps in the same order.
pub fn each_run_is_completed<State, Agent, Label>()
    ensures { EachRunIsCompleted State Agent Label }
{}

/// If one run that is over has no race, each run that is over ends in the same state.
pub fn each_end_is_the_end<State, Agent, Label>()
    ensures { EachEndIsTheEnd State Agent Label }
{}

/// A run has no race exactly if a chain leads from each step to each later one that it clashes with.
pub fn chains_tell_races<State, Agent, Label>()
    ensures { ChainsTellRaces State Agent Label }
{}

/// Agents may share a number, and be taken for one agent, if they have it in turn: a chain leads from each step to
/// each later one of another agent with its number. Then a run that has no race by numbers has none.
pub fn grouped_runs_have_no_race<State, Agent, Label>()
    ensures { GroupedRunsHaveNoRace State Agent Label }
{}

/// Agents go on to have numbers in turn if the next step's agent did the last one with its number, if no step had the
/// number, or if it is free: the next step comes after one that came after all steps with the number.
pub fn runs_go_on_in_turn<State, Agent, Label>()
    ensures { RunsGoOnInTurn State Agent Label }
{}

/// Where agents have numbers in turn, a chain by numbers is one of the agents.
pub fn grouped_chains_are_chains<State, Agent, Label>()
    ensures { GroupedChainsAreChains State Agent Label }
{}

/// Agents that have done no step may be given other numbers.
pub fn numbers_of_steps_matter<State, Agent, Label>()
    ensures { NumbersOfStepsMatter State Agent Label }
{}

/// Clocks in which each step knows of those that it clashes with tell that a run has no race.
pub fn clocks_tell_races<State, Agent, Label>()
    ensures { ClocksTellRaces State Agent Label }
{}

/// A check may go by fewer leads than there are: if a run has no race by these, it has none.
pub fn fewer_leads_are_enough<State, Agent, Label>()
    ensures { FewerLeadsAreEnough State Agent Label }
{}

/// A run that passes a check in one pass has no race. The check keeps a clock for each agent, and for each place, kind
/// of access and agent the last step.
pub fn checked_runs_have_no_race<State, Agent, Label, Place, Mode>()
    ensures { CheckedRunsHaveNoRace State Agent Label Place Mode }
{}

/// If one run that is over has no race, and in it no more than a limit ever have begun and are not known to have
/// ended, then in each run no more than the limit live at the same time. At a step that begins something those are
/// known to have ended from whose end a chain leads to it.
pub fn no_run_is_crowded<State, Agent, Label>()
    ensures { NoRunIsCrowded State Agent Label }
{}

/// What begins may be in parts, each with a limit of its own: then no run has more than all these limits together.
pub fn parts_tell_of_the_whole<State, Agent, Label>()
    ensures { PartsTellOfTheWhole State Agent Label }
{}

/// That a run has room for all that begins in it is shown step by step.
pub fn room_is_shown_by_each<State, Agent, Label>()
    ensures { RoomIsShownByEach State Agent Label }
{}

/// Ends that are chained to a step are chained to all that this step is chained to.
pub fn ends_are_handed_on<State, Agent, Label>()
    ensures { EndsAreHandedOn State Agent Label }
{}

/// A place that is taken by turns, where each step that takes or frees it is chained to the next one, has room for
/// one.
pub fn turns_make_room<State, Agent, Label>()
    ensures { TurnsMakeRoom State Agent Label }
{}

/// If in one run that is over and has no race all that begins takes a free place, and all places are taken by turns,
/// then no run has more at the same time than there are free places.
pub fn places_are_enough<State, Agent, Label>()
    ensures { PlacesAreEnough State Agent Label }
{}

/// That there are places is shown step by step.
pub fn places_are_shown_by_each<State, Agent, Label>()
    ensures { PlacesAreShownByEach State Agent Label }
{}

/// Places may be given as a run goes on.
pub fn places_may_be_given<State, Agent, Label>()
    ensures { PlacesMayBeGiven State Agent Label }
{}

/// Steps have their times by clocks that tell races, and by those of a check in one pass, whatever collides.
pub fn runs_have_times<State, Agent, Label, Place, Mode>()
    ensures { RunsHaveTimes State Agent Label Place Mode }
{}

/// A step that the clock of a later one has counted is chained to it.
pub fn clocks_tell_chains<State, Agent, Label>()
    ensures { ClocksTellChains State Agent Label }
{}

/// As many ends as the clock of a step has counted are chained to it.
pub fn clocks_tell_ends<State, Agent, Label>()
    ensures { ClocksTellEnds State Agent Label }
{}

/// If the clock of a step has counted the last one that took or freed a place, that one is chained to it.
pub fn clocks_tell_place_turns<State, Agent, Label>()
    ensures { ClocksTellPlaceTurns State Agent Label }
{}

/// What is chained by fewer leads than there are is chained.
pub fn fewer_leads_tell_chains<State, Agent, Label>()
    ensures { FewerLeadsTellChains State Agent Label }
{}

/// Of a machine whose steps keep to the places that they name, it is enough to know steps one at a time, that an agent
/// that has a step keeps one, and that an agent that waits for one had none before.
pub fn framed_machines_are_lawful<Place, Value, Agent, Label>()
    ensures { FramedMachinesAreLawful Place Value Agent Label }
{}

/// There are such machines: of two agents that each set a flag of their own, one run is a certificate.
pub fn setters_are_certified()
    ensures { SettersAreCertified }
{}

/// One run is a certificate of a sender, a receiver and the channel between them too: offer and ask lead to the copy,
/// and the copy to what follows.
pub fn meeting_is_certified()
    ensures { MeetingIsCertified }
{}

/// Of walkers it is enough to know that some changes have the same result in both orders, that what a change awakens
/// was shut, and that no step shuts a gate of another agent whose gates are all open.
pub fn walkers_are_lawful<Agent, Place, Value, Change, Kind, Deed>()
    ensures { WalkersAreLawful Agent Place Value Change Kind Deed }
{}

/// No step shuts a gate of another agent whose gates are all open, if each walk, once the agent's own gates were seen
/// open, changes a gate only in ways that shut nothing, or where one gate of each other agent that has it was seen
/// shut.
pub fn careful_walkers_keep_gates<Agent, Place, Value, Change, Kind, Deed>()
    ensures { CarefulWalkersKeepGates Agent Place Value Change Kind Deed }
{}

/// Two steps of walkers that clash have accesses to one place that collide: a change and a look, or two changes whose
/// order matters.
pub fn walkers_clash_by_accesses<Agent, Place, Value, Change, Kind, Deed>()
    ensures { WalkersClashByAccesses Agent Place Value Change Kind Deed }
{}

/// A run of tidy walkers that is over, in which no step stops, and that passes the check in one pass, tells of all
/// runs: each other is completed to its end, and each that is over ends there.
pub fn checked_runs_are_certificates<Agent, Place, Value, Change, Kind, Deed>()
    ensures { CheckedRunsAreCertificates Agent Place Value Change Kind Deed }
{}

/// There is such a run: a parent starts two children that add to a total and count themselves out, without a look at
/// either, and a successor that this awakens reads the total.
pub fn family_has_one_run()
    ensures { FamilyHasOneRun }
{}
