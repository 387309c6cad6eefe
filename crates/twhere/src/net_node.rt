//! A node at its place in a net.

ghost use Rattle.std.specs.Prelude.{◌≡◌};

use tlink::Node;
use tnet::Net;
use tproc::Processor;

/// A node of a net, with its number.
#[derive(Clone, Copy)]
pub(crate) struct NetNode<'a> {
    pub(crate) net: &'a Net,
    pub(crate) number: u32,
    pub(crate) node: &'a Node,
}

/// A node of a net that is a processor, with its number and with this.
#[derive(Clone, Copy)]
pub(crate) struct ProcessorNode<'a> {
    pub(crate) net: &'a Net,
    pub(crate) number: u32,
    pub(crate) node: &'a Node,
    pub(crate) processor: &'a Processor,
    pub(crate) ghost same: { processor.now ≡ node.now.machine },
}
