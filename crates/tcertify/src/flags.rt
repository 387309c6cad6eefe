//! The two flags.

/// The two flags.
#[derive(Clone, Copy, Debug)]
pub struct Flags {
    pub error: bool,
    pub halt_on_error: bool,
}
