//! Laws of the texts, each as the contract of a function that does nothing.

ghost use Rattle.thistory.specs.Unseen.{HaltsAreOfTheView, LeftIsOfTheView, StepsAreOfTheView, WatchIsOfTheView};

/// The texts tell nothing of what the buffers of pending inputs hold.
pub fn hidden_bytes_are_not_told()
    ensures steps { StepsAreOfTheView }
    ensures watch { WatchIsOfTheView }
    ensures halts { HaltsAreOfTheView }
    ensures left { LeftIsOfTheView }
{}
