//! The sources and the sinks of a net.

ghost use Rattle.std.specs.Prelude.{◌≡◌, [], ◌∷◌, MatchOption};
ghost use Rattle.tnet.specs.Net.{sources_in, sinks_in};
ghost use Rattle.tnet.specs.NetParts.{net_of_parts};
ghost use Rattle.tplan.specs.Wires.{end_at, far_end};

use crate::parts::NetParts;
use crate::wires::end_of;
use std::marker::Model;
use tlink::{Node, Role, Sink, Source};
use tplan::End;

/// The sources of a net, by their numbers: those that were not taken from here yet.
#[derive(Drop)]
pub struct Sources<'a> {
    /// The pieces of the net.
    parts: &'a NetParts,
    /// The last nodes of the net, with these sources among them.
    nodes: &'a [Node],
    /// The number of the first of these nodes.
    number: u8,
}

/// The sinks of a net, by their numbers: those that were not taken from here yet.
#[derive(Drop)]
pub struct Sinks<'a> {
    /// The pieces of the net.
    parts: &'a NetParts,
    /// The last nodes of the net, with these sinks among them.
    nodes: &'a [Node],
    /// The number of the first of these nodes.
    number: u8,
}

impl<'a> Model for Sources<'a> {
    ghost use Rattle.std.specs.Prelude.{List, Option, ◌+◌, ◌≤◌, length};
    ghost use Rattle.tword.specs.Limits.{most_nodes};
    ghost use Rattle.tlink.specs.Node.{NodeState};
    ghost use Rattle.tplan.specs.declared.plan.End.{End};
    ghost use Rattle.tnet.specs.Net.{sources_from};

    ghost Value = { List (Option End × NodeState) };

    ghost view = { λ s. sources_from s.parts.now.wires s.number s.nodes.now };

    ghost invariant = { λ s. s.number + length s.nodes.now ≤ most_nodes };
}

impl<'a> Model for Sinks<'a> {
    ghost use Rattle.std.specs.Prelude.{List, Option, ◌+◌, ◌≤◌, length};
    ghost use Rattle.tword.specs.Limits.{most_nodes};
    ghost use Rattle.tlink.specs.Node.{NodeState};
    ghost use Rattle.tplan.specs.declared.plan.End.{End};
    ghost use Rattle.tnet.specs.Net.{sinks_from};

    ghost Value = { List (Option End × NodeState) };

    ghost view = { λ s. sinks_from s.parts.now.wires s.number s.nodes.now };

    ghost invariant = { λ s. s.number + length s.nodes.now ≤ most_nodes };
}

/// The end that the link 0 of a script is wired to.
fn script_end(parts: &NetParts, number: u8) -> Option<End>
    ensures { result ≡ far_end parts.now.wires (end_at number 0) }
{
    parts.wires.far_end(end_of(number, 0))
}

impl<'a> Sources<'a> {
    /// The sources of the net of these parts.
    pub(crate) fn new(parts: &'a NetParts) -> Self
        ensures { result ≡ sources_in (net_of_parts parts.now) }
    {
        Sources {
            parts,
            nodes: parts.nodes.as_slice(),
            number: 0,
        }
    }

    /// Takes the first source, with the end that it sends to, and leaves the others.
    pub fn take_first(&mut self) -> Option<(Option<End>, &'a Source)>
        ensures { MatchOption result ((self.old ≡ []) × (self.new ≡ [])) (λ s. self.old ≡ (s.0, s.1.now) ∷ self.new) }
    {
        while let Some((node, others)) = self.nodes.split_first() {
            let end = script_end(self.parts, self.number);
            self.nodes = others;
            self.number += 1;
            if let Role::Source(source) = node.role() {
                return Some((end, source));
            }
        }
        None
    }
}

impl<'a> Sinks<'a> {
    /// The sinks of the net of these parts.
    pub(crate) fn new(parts: &'a NetParts) -> Self
        ensures { result ≡ sinks_in (net_of_parts parts.now) }
    {
        Sinks {
            parts,
            nodes: parts.nodes.as_slice(),
            number: 0,
        }
    }

    /// Takes the first sink, with the end that it takes from, and leaves the others.
    pub fn take_first(&mut self) -> Option<(Option<End>, &'a Sink)>
        ensures { MatchOption result ((self.old ≡ []) × (self.new ≡ [])) (λ s. self.old ≡ (s.0, s.1.now) ∷ self.new) }
    {
        while let Some((node, others)) = self.nodes.split_first() {
            let end = script_end(self.parts, self.number);
            self.nodes = others;
            self.number += 1;
            if let Role::Sink(sink) = node.role() {
                return Some((end, sink));
            }
        }
        None
    }
}
