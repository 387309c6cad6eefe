//! What a link does to a processor: a byte comes that nobody asked for, and a message is over.

ghost use Rattle.std.specs.Prelude.{◌≡◌, ◌<◌, IfSome, IsSome, Ok, true};
ghost use Rattle.tproc.specs.ProcessStatus.{is_queued, reason_of, status};
ghost use Rattle.tproc.specs.LinkChannels.{ended_at, link_end, pending_at, with_link, without_buffer};
ghost use Rattle.tproc.specs.Links.{act_or_unchanged, finished, notice, notify_at, readies_queued, readies_running};
ghost use Rattle.tproc.specs.Links.{wakes};
ghost use Rattle.tproc.specs.Doing.{Does, as_step, machine_of};

use crate::channels::{ENABLING, READY, Side};
use crate::claimed_memory::ClaimedMemory;
use crate::engine::Engine;
use crate::offer::Offer;
use crate::process_status::ProcessStatus;
use crate::queues::{STATE_WORD, release};
use crate::ran::Ran;
use crate::state::workspace_of;
use crate::waiter::{LinkEnd, Reason};
use tword::{Break, Word};

impl LinkEnd {
    /// What is pending at a half of a link.
    fn pending(&self, side: Side) -> Option<Offer>
        ensures { result ≡ pending_at side self.now }
    {
        match side {
            Side::Output => self.output,
            Side::Input => self.input,
        }
    }

    /// The link end where nothing is pending any more at a half.
    fn ended(&self, side: Side) -> LinkEnd
        ensures { result ≡ ended_at side self.now }
    {
        match side {
            Side::Output => LinkEnd {
                output: None,
                ..*self
            },
            Side::Input => LinkEnd {
                input: None,
                ..*self
            },
        }
    }
}

/// A half of a link claims nothing any more.
fn release_buffer(claimed: &mut ClaimedMemory, side: Side, link: u8)
    requires { link < 4 }
    ensures memory { claimed.new.memory ≡ claimed.old.memory }
    ensures claims { claimed.new.marks ≡ without_buffer side link claimed.old.marks }
{
    match side {
        Side::Output => claimed.release_output(link),
        Side::Input => claimed.release_input(link),
    }
}

impl Engine {
    /// A process that waits for its alternative is told that it is ready.
    #[tactic(auto, using(crate::proofs::Saved::are_saved, crate::proofs::Saved::waiter_saved))]
    fn wake(&mut self, process: Word) -> Ran
        requires { IsSome (reason_of self.old.state process) }
        ensures { Does (as_step (wakes process self.old.state)) self.old (Ok result) self.new }
    {
        self.claimed
            .set_saved_word(workspace_of(process), STATE_WORD, Word::new(READY));
        release(&mut self.state, &mut self.claimed, process);
        Ran::Instruction
    }

    /// A queued process is told, where it is enabling.
    #[tactic(auto, using(crate::proofs::Saved::are_saved, crate::proofs::Saved::queued_saved))]
    fn ready_queued(&mut self, process: Word) -> Ran
        requires queued { is_queued self.old.state process ≡ true }
        ensures { Does (as_step (readies_queued process self.old.state)) self.old (Ok result) self.new }
    {
        let workspace = workspace_of(process);
        if self.claimed.saved_word(workspace, STATE_WORD).get() == ENABLING {
            self.claimed
                .set_saved_word(workspace, STATE_WORD, Word::new(READY));
        }
        Ran::Instruction
    }

    /// A process that runs or was interrupted becomes ready, where it is enabling.
    fn ready_running(&mut self, process: Word) -> Result<Ran, Break>
        ensures { Does (as_step (readies_running process self.old.state)) self.old result self.new }
    {
        let address = workspace_of(process).below(STATE_WORD);
        if self.claimed.take_word(address)?.get() == ENABLING {
            self.claimed.set_word(address, Word::new(READY));
        }
        Ok(Ran::Instruction)
    }

    /// A process that waits for its alternative is told, and queued.
    fn tell_waiting(&mut self, process: Word)
        requires { IsSome (reason_of self.old.state process) }
        ensures { machine_of self.new
            ≡ act_or_unchanged (wakes process) (machine_of self.old) }
    {
        self.wake(process);
    }

    /// A queued process is told, where it is enabling.
    fn tell_queued(&mut self, process: Word)
        requires queued { is_queued self.old.state process ≡ true }
        ensures { machine_of self.new
            ≡ act_or_unchanged (readies_queued process) (machine_of self.old) }
    {
        self.ready_queued(process);
    }

    /// A process that runs or was interrupted is told, where it is enabling and its state word may be written.
    fn tell_running(&mut self, process: Word)
        ensures { machine_of self.new
            ≡ act_or_unchanged (readies_running process) (machine_of self.old) }
    {
        let _broken = self.ready_running(process);
    }

    /// The process that enabled a link is told that a byte waits there.
    fn tell(&mut self, process: Word)
        ensures { machine_of self.new
            ≡ notify_at (status self.old.state process) process
            (machine_of self.old) }
    {
        match &self.status(process) {
            ProcessStatus::Waits(Reason::Chooses) => {
                self.tell_waiting(process);
            }
            ProcessStatus::Queued => {
                self.tell_queued(process);
            }
            ProcessStatus::Runs | ProcessStatus::Interrupted => {
                self.tell_running(process);
            }
            _ => {}
        }
    }

    /// A byte waits at a link and no input is pending.
    #[tactic(auto, unfolding(crate::specs::Links::notice))]
    pub fn notice(&mut self, link: u8)
        requires { link < 4 }
        ensures { machine_of self.new
            ≡ notice link (machine_of self.old) }
    {
        let end = self.state.link(link);
        self.state.set_link(
            link,
            LinkEnd {
                noticed: true,
                remembered: None,
                ..end
            },
        );
        if let Some(process) = end.remembered {
            self.tell(process);
        }
    }

    /// The message that is pending at a half of a link is over: its process is queued.
    pub fn finish(&mut self, side: Side, link: u8) -> Ran
        requires link { link < 4 }
        requires pending { IsSome (pending_at side (link_end self.old.state link)) }
        requires waits { IfSome (pending_at side (link_end self.old.state link))
            (λ o. IsSome (reason_of self.old.state o.wdesc)) }
        ensures { Does (as_step (finished (pending_at side (link_end self.old.state link)) (with_link link (ended_at
            side (link_end self.old.state link)) self.old.state))) self.old (Ok result) self.new }
    {
        let end = self.state.link(link);
        match end.pending(side) {
            Some(offer) => {
                self.state.set_link(link, end.ended(side));
                release(&mut self.state, &mut self.claimed, offer.wdesc);
                release_buffer(&mut self.claimed, side, link);
                Ran::Instruction
            }
            None => unreachable!(),
        }
    }
}
