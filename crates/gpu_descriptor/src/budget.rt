//! What a request uses of its allocator in addition to the table.
use gpu_descriptor_types::Tally;

/// The room under the limit, the count of looks, and the bound on a new pool.
#[derive(Debug, Drop)]
pub(crate) struct Budget {
    /// What the limit leaves for descriptors of further pools of marked layouts. It is one number: with a
    /// total in each bucket, the invariant of a bucket would need the key, which it doesn't have.
    pub(crate) room: u32,

    /// How often a request has looked at a pool.
    pub(crate) looks: Tally,

    /// The bound on the descriptors of a new pool, which only the sets still needed exceed.
    pub(crate) bound: Option<u64>,
}
