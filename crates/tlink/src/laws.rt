//! Laws of nodes, each as the contract of a function that does nothing.

ghost use Rattle.tlink.specs.Alone.{SourcesSendAlone, SinksTakeAlone};
ghost use Rattle.tlink.specs.KeptLists.{SourcesAreLists, SinksAreLists};

/// A source sends at link 0 and hears of acknowledges there, and does nothing else.
pub fn sources_send_alone()
    ensures { SourcesSendAlone }
{}

/// A sink receives bytes at link 0 and takes them, and does nothing else.
pub fn sinks_take_alone()
    ensures { SinksTakeAlone }
{}

/// A node with a source does at each event what is defined on its list of messages.
pub fn sources_are_lists()
    ensures { SourcesAreLists }
{}

/// A node with a sink does at each event what is defined on the messages that it has kept.
pub fn sinks_are_lists()
    ensures { SinksAreLists }
{}
