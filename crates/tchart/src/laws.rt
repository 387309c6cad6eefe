//! Laws of the pictures, each as the contract of a function that does nothing.

ghost use Rattle.tchart.specs.Unseen.{ChartIsOfTheView};

/// A picture tells nothing of what the buffers of pending inputs hold.
pub fn hidden_bytes_are_not_told()
    ensures { ChartIsOfTheView }
{}
