//! Laws of one processor, each as the contract of a function that does nothing.

ghost use Rattle.tproc.specs.Hidden.{FinishOutputIsBlind, NoticeIsBlind, StepIsBlind};
ghost use Rattle.tproc.specs.Resting.{HaltingHalts, RestChangesNothing, StepIsThere};
ghost use Rattle.tproc.specs.Kinds.{KindsStay};
ghost use Rattle.tproc.specs.Keeping.{ClaimedBytesStand, ClaimsStayApart, StepsKeepPlaced};
ghost use Rattle.tproc.specs.SavedWords.{EmptyIsThreaded, QueuesStayThreaded, SavedWordsStand};
ghost use Rattle.tproc.specs.Selection.{FirstReadyIsSelected, SelectedIsTold};

/// A step, a notice and the end of an output cannot see what the buffers of pending inputs hold.
pub fn pending_inputs_are_unseen()
    ensures steps { StepIsBlind }
    ensures notices { NoticeIsBlind }
    ensures ends { FinishOutputIsBlind }
{}

/// There is a step exactly where the processor has not halted and is not idle, where there is none nothing changes,
/// and after an instruction that halts it has halted.
pub fn rest_is_told()
    ensures there { StepIsThere }
    ensures rests { RestChangesNothing }
    ensures halts { HaltingHalts }
{}

/// A step keeps each live process at one place, and so its claims apart.
pub fn steps_keep_processes_placed()
    ensures placed { StepsKeepPlaced }
    ensures apart { ClaimsStayApart }
{}

/// A step, a notice and the end of any message leave the bytes of each pending message as they are.
pub fn claimed_bytes_stand()
    ensures { ClaimedBytesStand }
{}

/// An alternative selects the first of its guards, in the order in which they are disabled, that is true and ready
/// when it is disabled, and `disc` and `diss` tell which one that is.
pub fn first_ready_guard_is_selected()
    ensures selected { FirstReadyIsSelected }
    ensures told { SelectedIsTold }
{}

/// The saved Iptr of each process that is queued or waits is unchanged by each move, and so is its queue link, except
/// for that of the last of a queue that another process joins.
pub fn saved_words_stand()
    ensures { SavedWordsStand }
{}

/// Whoever follows the queue links from the front of a queue finds the queue: this holds before there is a process,
/// and after each move.
pub fn queues_stay_threaded()
    ensures first { EmptyIsThreaded }
    ensures moves { QueuesStayThreaded }
{}

/// Each move leaves the kind of the node, and how many bytes its memory has.
pub fn kinds_stay()
    ensures { KindsStay }
{}
