//! Laws of the text, each as the contract of a function that does nothing.

ghost use Rattle.twhere.specs.ClosedPaths.{CirclesAreClosed, CirclesAreShortest, HasEachCircle};
ghost use Rattle.twhere.specs.Unseen.{HiddenIsUnseen, TextIsOfTheView};

/// The text tells nothing of what the buffers of pending inputs hold.
pub fn hidden_bytes_are_not_told()
    ensures unseen { HiddenIsUnseen }
    ensures view { TextIsOfTheView }
{}

/// A circle that is told of a node is a closed path, and none through that node, and none that is below it, is shorter;
/// one is told where there is such a path.
pub fn circles_are_shortest_closed_paths()
    ensures each { HasEachCircle }
    ensures closed { CirclesAreClosed }
    ensures shortest { CirclesAreShortest }
{}
