//! Messages on channels that are links.

ghost use Rattle.std.specs.Prelude.{◌≡◌, ◌<◌, ◌∷◌, [], IfOk, None, Some, false, true};
ghost use Rattle.tword.specs.Actions.{or_break};
ghost use Rattle.tproc.specs.Machine.{workspace_of};
ghost use Rattle.tproc.specs.LinkChannels.{is_free, link_end, link_message, link_of, offered, ran_link, with_link};
ghost use Rattle.tproc.specs.Agreement.{Agrees, AgreesWith, HasPlace};
ghost use Rattle.tproc.specs.Doing.{DoesLaid};
ghost use Rattle.tproc.specs.Checks.{end_break};
ghost use Rattle.tproc.specs.Requests.{IsRequest, request};
ghost use Rattle.tproc.specs.LinkChannels as spec;

use crate::channels::{Request, Side, lay, may_touch_beside};
use crate::claimed_memory::ClaimedMemory;
use crate::engine::Engine;
use crate::offer::Offer;
use crate::queues::{IPTR_WORD, require, wait};
use crate::ran::Ran;
use crate::state::State;
use crate::waiter::{LinkEnd, Reason};
use tword::limits::MOST_NEG;
use tword::{Break, Word};

/// Whether a channel is a link. Those of the links begin at the lowest address: four outputs, then four inputs.
#[inline]
pub fn is_link(channel: Word) -> bool
    ensures { result ≡ spec.is_link channel }
{
    MOST_NEG <= channel.get() && channel.get() < MOST_NEG + 32
}

/// The link that a channel names.
///
/// # Errors
/// `Unaligned`, or `WrongEnd` for an input on an output's channel or the other way round.
pub fn link_at(side: Side, channel: Word) -> Result<u8, Break>
    requires { spec.is_link channel ≡ true }
    ensures checks { result ≡ or_break (end_break side channel) (link_of side channel) }
    ensures within { IfOk result (λ l. l < 4) }
{
    let index = (channel.get() - MOST_NEG) / 4;
    require(channel.get() % 4 == 0, Break::Unaligned)?;
    match side {
        Side::Output => {
            require(index < 4, Break::WrongEnd)?;
            Ok(index as u8)
        }
        Side::Input => {
            require(4 <= index, Break::WrongEnd)?;
            Ok((index - 4) as u8)
        }
    }
}

/// The offer of a pending output stands at its link.
fn offer_output(state: &mut State, claimed: &mut ClaimedMemory, link: u8, offer: Offer)
    requires link { link < 4 }
    requires agrees { Agrees claimed.old.marks state.old }
    ensures done { state.new ≡ with_link link (record (link_end state.old link) { output = Some offer }) state.old }
    ensures memory { claimed.new.memory ≡ claimed.old.memory }
    ensures agrees { Agrees claimed.new.marks state.new }
{
    claimed.claim_output(link, offer.buffer, offer.length);
    state.set_link(
        link,
        LinkEnd {
            output: Some(offer),
            ..state.link(link)
        },
    );
}

/// The offer of a pending input stands at its link: it ends the enabling of the link, and a byte that waits is no
/// longer noticed.
fn offer_input(state: &mut State, claimed: &mut ClaimedMemory, link: u8, offer: Offer)
    requires link { link < 4 }
    requires agrees { Agrees claimed.old.marks state.old }
    ensures done { state.new ≡ with_link link
        (record (link_end state.old link) { input = Some offer; noticed = false; remembered = None }) state.old }
    ensures memory { claimed.new.memory ≡ claimed.old.memory }
    ensures agrees { Agrees claimed.new.marks state.new }
{
    claimed.claim_input(link, offer.buffer, offer.length);
    state.set_link(
        link,
        LinkEnd {
            input: Some(offer),
            noticed: false,
            remembered: None,
            ..state.link(link)
        },
    );
}

/// A process whose words are saved waits on a link, where its offer stands.
fn wait_on_link(state: &mut State, claimed: &mut ClaimedMemory, q: &Request, link: u8) -> Ran
    requires link { link ≡ link_of (request q.now).side q.now.channel }
    requires within { link < 4 }
    requires place { HasPlace state.old }
    requires agrees { AgreesWith (workspace_of q.now.process ∷ []) claimed.old.marks state.old }
    ensures told { result ≡ ran_link (request q.now).side (link_of (request q.now).side q.now.channel) }
    ensures done { state.new ≡ offered (request q.now) (request q.now).side state.old }
    ensures memory { claimed.new.memory ≡ claimed.old.memory }
    ensures agrees { Agrees claimed.new.marks state.new }
{
    let offer = Offer {
        wdesc: q.process,
        buffer: q.buffer,
        length: q.length,
    };
    match q.side {
        Side::Output => {
            wait(state, claimed, q.process, Reason::LinkOutput(link));
            offer_output(state, claimed, link, offer);
            Ran::LinkOut(link)
        }
        Side::Input => {
            wait(state, claimed, q.process, Reason::LinkInput(link));
            offer_input(state, claimed, link, offer);
            Ran::LinkIn(link)
        }
    }
}

impl Engine {
    /// Whether a half of a link is free for the process that runs.
    pub fn is_free(&self, side: Side, link: u8) -> bool
        requires { link < 4 }
        ensures { result ≡ is_free side (link_end self.now.state link) self.now.state }
    {
        let end = self.state.link(link);
        match side {
            Side::Output => end.output.is_none(),
            Side::Input => {
                end.input.is_none()
                    && match end.remembered {
                        Some(process) => self.runs(process),
                        None => true,
                    }
            }
        }
    }

    /// A message on a link: its process waits until the whole message has gone over.
    #[tactic(auto, using(crate::proofs::Descheduling::own_process, crate::proofs::Agreeing::saved_itself))]
    pub fn link_message(&mut self, q: &Request) -> Result<Ran, Break>
        requires link { spec.is_link q.now.channel ≡ true }
        requires asks { IsRequest q.now self.old }
        ensures { DoesLaid q.now.first (link_message (request q.now) self.old.state) self.old result self.new }
    {
        let own = self.state.wptr();
        let link = link_at(q.side, q.channel)?;
        require(q.length != 0, Break::ZeroLength)?;
        require(self.is_free(q.side, link), Break::LinkBusy)?;
        self.claimed.may_deschedule(own)?;
        may_touch_beside(&self.claimed, own, q)?;
        lay(&mut self.claimed, own, q.first);
        self.claimed.deschedule(own);
        self.claimed
            .set_saved_word(own, IPTR_WORD, self.state.registers().iptr);
        Ok(wait_on_link(&mut self.state, &mut self.claimed, q, link))
    }
}
