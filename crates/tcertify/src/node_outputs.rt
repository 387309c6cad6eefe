//! Outputs of links that are over, and those whose processes have not gone on.

ghost use Rattle.std.specs.Prelude.{◌≡◌, ◌<◌, ◌+◌, Ok, negsuc};
ghost use Rattle.tplan.specs.Wires.{end_at};
ghost use Rattle.tprocesses.specs.Changes.{Put};
ghost use Rattle.tprocesses.specs.LinkMessages.{finished};
ghost use Rattle.tprocesses.specs.Parts.{change, see};
ghost use Rattle.tprocesses.specs.Places as place;
ghost use Rattle.tprocesses.specs.Standing as spec;
ghost use Rattle.tprocesses.specs.Touching.{count_outputs};
ghost use Rattle.tprocesses.specs.Values.{IsFlag};
ghost use Rattle.tcertify.specs.Contexts.{lent_of};
ghost use Rattle.tcertify.specs.Nodes.{Does, RunsAt, node_site, nothing};
ghost use Rattle.tcertify.specs.Outputs.{frees_output};
ghost use Rattle.tcertify.specs.Sides.{side_of};
ghost use Rattle.tcertify.specs.Words.{told};

use crate::context::Lent;
use crate::fault::Fault;
use crate::node::Node;
use crate::notes::Mode;
use crate::side::Side;
use crate::stop::Stop;
use tword::{Break, Span};

impl Node {
    /// The number of the place that says whether the output of a link is unfinished.
    #[inline(always)]
    fn unfinished_place(&self, link: u32) -> u32
        requires { link < 4 }
        ensures { result ≡ self.now.fixed_place + 14 + link }
    {
        self.fixed_place + 14 + link
    }

    /// Whether the message of an output has gone over, and its process has not gone on.
    #[inline(always)]
    fn is_unfinished(&mut self, link: u32) -> bool
        requires { link < 4 }
        ensures { RunsAt (see (place.Unfinished (end_at self.old.words.number link))) self.old (Ok (IsFlag result))
            self.new }
    {
        let place = self.unfinished_place(link);
        self.words.notes.add(place, Mode::Looks);
        self.links.is_unfinished(link)
    }

    /// The message of an output has gone over now, or its process has gone on.
    #[inline(always)]
    pub(crate) fn set_unfinished(&mut self, link: u32, unfinished: bool)
        requires { link < 4 }
        ensures { RunsAt (change (place.Unfinished (end_at self.old.words.number link)) (Put (IsFlag unfinished)))
            self.old (Ok tt) self.new }
    {
        self.links.set_unfinished(link, unfinished);
        let place = self.unfinished_place(link);
        self.words.notes.add(place, Mode::Puts);
    }

    /// Whether the process of the last output of a link has gone on; an input has none.
    ///
    /// # Errors
    /// `LinkBusy` where it has not.
    pub(crate) fn finished(&mut self, side: Side, link: u32) -> Result<(), Stop>
        requires { link < 4 }
        ensures { RunsAt (finished (side_of side) (end_at self.old.words.number link)) self.old (told nothing result)
            self.new }
    {
        match side {
            Side::Input => Ok(()),
            Side::Output => {
                if self.is_unfinished(link) {
                    return Err(Stop::Breaks(Break::LinkBusy));
                }
                Ok(())
            }
        }
    }

    /// The buffer of an output may be written again.
    ///
    /// # Errors
    /// `OutOfMemory` where the memory does not have it, or a count does not fit; never for a buffer that was lent.
    #[inline(always)]
    fn gives_back(&mut self, buffer: &Span) -> Result<(), Fault>
        ensures { Does (count_outputs (node_site self.old) (negsuc 0) buffer.now) nothing self.old result self.new }
    {
        if !self.has_words(buffer) {
            return Err(Fault::OutOfMemory);
        }
        let Ok(()) = self.words.give_back_span(buffer) else {
            return Err(Fault::OutOfMemory);
        };
        Ok(())
    }

    /// The output of a link whose message has gone over is free again.
    ///
    /// # Errors
    /// `HasNoStep` where no message of it has gone over.
    #[inline(always)]
    fn frees_output(&mut self, link: u32) -> Result<(), Stop>
        requires { link < 4 }
        ensures { RunsAt (frees_output (node_site self.old) link) self.old (told nothing result) self.new }
    {
        if !self.is_unfinished(link) {
            return Err(Stop::HasNoStep);
        }
        self.set_unfinished(link, false);
        Ok(())
    }

    /// An output of a link is over, if there is one: its buffer may be written, and its link is free.
    ///
    /// # Errors
    /// `HasNoStep` where no message of it has gone over; `OutOfMemory` where its buffer is not in the memory.
    pub fn takes_back(&mut self, lent: Option<Lent>) -> Result<(), Fault>
        ensures { Does (spec.takes_back (node_site self.old) (lent_of lent)) nothing self.old result self.new }
    {
        let Some(output) = lent else {
            return Ok(());
        };
        if output.link >= 4 {
            return Err(Fault::OutOfMemory);
        }
        self.gives_back(&output.buffer)?;
        self.frees_output(u32::from(output.link))?;
        Ok(())
    }
}
