//! A node: how it stands, and its memory.

ghost use Rattle.std.specs.Prelude.{◌≡◌, ◌≤◌, ◌^◌, length, option_map};
ghost use Rattle.tword.specs.Stores.{as_cells, hiding};
ghost use Rattle.tproc.specs.Machine.{buffer_of, claims_of};
ghost use Rattle.tproc.specs.Hidden.{hidden};
ghost use Rattle.tproc.specs.Messages.{input_of};
ghost use Rattle.tfiles.specs.Outputs.{Tells};
ghost use Rattle.tfiles.specs.Texts.{is_pending};
ghost use Rattle.tjson.specs.Runs as spec;
ghost use Rattle.tjson.specs.Runs.{node_object, standing_members};

use crate::memory::put_memory;
use crate::values::put_string;
use tfiles::break_names::break_name;
use tfiles::counted::CountedWrite;
use tfiles::writing::output::Output;
use tfiles::writing::text::put_decimal;
use tproc::Processor;
use tword::{Break, Span};

/// A processor, of a node that this break has frozen, if one has.
pub(crate) fn put_processor<W: CountedWrite>(
    out: &mut Output<'_, W>,
    number: usize,
    broken: Option<Break>,
    processor: &Processor,
)
    requires { length processor.now.control.links ≡ 4 }
    ensures { Tells W.contents W.failures out.old out.new
        (node_object number broken processor.now.control.halted (hidden processor.now).store) }
{
    let pending = pending_inputs(processor);
    put_node(
        out,
        number,
        broken,
        processor.is_halted(),
        processor.bytes(),
        &pending,
    );
}

/// The bytes that each pending input is to write.
fn pending_inputs(processor: &Processor) -> [Option<Span>; 4]
    requires { length processor.now.control.links ≡ 4 }
    ensures { result ≡ (claims_of processor.now.control).inputs }
{
    [
        pending_input(processor, 0),
        pending_input(processor, 1),
        pending_input(processor, 2),
        pending_input(processor, 3),
    ]
}

/// The bytes that the pending input of a link is to write.
fn pending_input(processor: &Processor, link: u8) -> Option<Span>
    ensures { result ≡ option_map buffer_of (input_of processor.now link) }
{
    match processor.pending_in(link) {
        None => None,
        Some(input) => Some(Span {
            start: input.buffer,
            size: input.length,
        }),
    }
}

/// A node, as `{"node": 1, "state": "halted", "memory": [..]}`, of whose bytes those are hidden that the spans of
/// pending inputs have.
fn put_node<W: CountedWrite>(
    out: &mut Output<'_, W>,
    number: usize,
    broken: Option<Break>,
    halted: bool,
    bytes: &[u8],
    pending: &[Option<Span>],
)
    requires { length bytes.now ≤ 2 ^ 24 }
    ensures { Tells W.contents W.failures out.old out.new
        (node_object number broken halted (hiding (is_pending pending.now) (as_cells bytes.now))) }
{
    out.put(b"{\"node\": ");
    put_decimal(out, number as u64);
    out.put(b", ");
    put_standing(out, broken, halted);
    out.put(b", \"memory\": ");
    put_memory(out, bytes, pending);
    out.put(b"}");
}

/// How a node stands.
fn put_standing<W: CountedWrite>(out: &mut Output<'_, W>, broken: Option<Break>, halted: bool)
    ensures { Tells W.contents W.failures out.old out.new (standing_members broken halted) }
{
    match broken {
        Some(broken) => put_frozen(out, broken),
        None if halted => out.put(b"\"state\": \"halted\""),
        None => out.put(b"\"state\": \"ok\""),
    }
}

/// A node that is frozen, and by which break.
fn put_frozen<W: CountedWrite>(out: &mut Output<'_, W>, broken: Break)
    ensures { Tells W.contents W.failures out.old out.new (spec.frozen_members broken) }
{
    out.put(b"\"state\": \"frozen\", \"break\": ");
    put_string(out, break_name(broken));
}
