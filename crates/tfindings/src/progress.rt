//! Who is told how far a run has come. Nothing is promised of it, and it changes nothing that is found.

/// Who is told how far a run has come.
pub trait RunProgress {
    /// By now this number of steps was done.
    fn at(&mut self, steps: u64);

    /// The run is over.
    fn end(&mut self);
}
