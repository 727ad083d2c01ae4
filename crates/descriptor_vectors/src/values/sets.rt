//! How many bytes a set takes: no clause says it.
use gpu_descriptor::DescriptorSet;
use std::mem::size_of;

/// Beside a raw set of 8 bytes it has the number of its pool and the id of its key. The key itself,
/// which contracts see, takes none.
#[test]
fn bytes_of_a_set(rt: HostRuntime) {
    assert_eq!(rt; size_of::<DescriptorSet<u64>>(), 24);
}
