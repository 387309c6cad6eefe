//! What stands behind the links of a node.

use crate::sink::Sink;
use crate::source::Source;
use tproc::Processor;

/// What stands behind the links of a node: a processor, or a script at link 0.
#[derive(Clone, Copy)]
pub enum Role<'a> {
    Processor(&'a Processor),
    Source(&'a Source),
    Sink(&'a Sink),
}
