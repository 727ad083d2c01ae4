//! That `|` of flags is the union, which no clause says. All other calls of the flags are exact by clauses.
use crate::seen::expect_same;
use bitflags::Flags;
use gpu_descriptor::{DescriptorPoolCreateFlags, DescriptorSetLayoutCreateFlags};

#[test]
fn the_operator_is_the_union(rt: HostRuntime) {
    for left in 0..8 {
        for right in 0..8 {
            let one = DescriptorPoolCreateFlags::from_bits_retain(left);
            let other = DescriptorPoolCreateFlags::from_bits_retain(right);
            expect_same(&rt, one | other, one.union(other));
            let one = DescriptorSetLayoutCreateFlags::from_bits_retain(left);
            let other = DescriptorSetLayoutCreateFlags::from_bits_retain(right);
            expect_same(&rt, one | other, one.union(other));
        }
    }
}
