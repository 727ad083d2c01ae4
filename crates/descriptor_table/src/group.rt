//! Sets that return to their pools.

/// Which sets of a table return to their pools.
#[derive(Clone, Copy)]
pub enum Group {
    /// Those that go.
    Going,

    /// The kept ones of a layout.
    KeptOf(usize),
}
