//! What a step leads to.

use crate::side::Side;

/// What a step may lead to: an agent whose gate it has seen shut, or a count that it has counted down.
#[derive(Clone, Copy, Debug)]
pub enum Lead {
    /// The process of this number was seen not to be ready.
    Process(u32),
    /// A half of the channel of this number was seen to be free.
    Channel(u32),
    /// A wire was seen not to go on at a half of a link: nobody offers a message there, or waits for one.
    Link { link: u32, side: Side },
    /// The word of this number was counted down.
    Count(u32),
}
