//! Steps of a run, and what they access.

use crate::mode::Mode;

/// A step: who does it, and its number among the steps of that agent, from 1 on.
#[derive(Clone, Copy, Debug)]
pub struct Step {
    pub agent: u32,
    pub number: u32,
}

/// An access of a step to a place.
#[derive(Clone, Copy, Debug)]
pub struct Access {
    pub mode: Mode,
    pub step: Step,
}

/// A place, by its number, and how a step accesses it.
#[derive(Clone, Copy, Debug)]
pub struct PlaceAccess {
    pub place: u32,
    pub mode: Mode,
}
