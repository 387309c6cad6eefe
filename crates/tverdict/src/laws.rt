//! Laws of the whole machine, each as the contract of a function that does nothing.

ghost use Rattle.tverdict.specs.Apart.{CallsAtNodesRun, NodesAreApart};
ghost use Rattle.tverdict.specs.Numbers.{PlacesAreNumbered};

/// What stands at the places of one node does not matter to the other nodes, nor to sources and sinks.
pub fn nodes_are_apart()
    ensures { NodesAreApart }
{}

/// A call on a node that runs a part of a step runs it on the whole machine.
pub fn calls_at_nodes_run<A>()
    ensures { CallsAtNodesRun A }
{}

/// Each place of a node has the number that the node has noted for it.
pub fn places_are_numbered()
    ensures { PlacesAreNumbered }
{}
