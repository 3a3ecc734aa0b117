//! Where the arbiter sends streamed words.

/// The queue that a streamed word goes to.
#[derive(Clone, Copy, PartialEq, Eq, Debug)]
pub enum Route {
    /// To the device domain's own queue.
    Own,
    /// To the untrusted domain's queue.
    Dma,
}
