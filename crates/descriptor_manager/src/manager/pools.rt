//! What a set manager shows of its pools. Nothing here allocates memory.
ghost use Rattle.std.specs.Prelude.{◌≡◌, ◌≤◌, length, IfSome, None};
ghost use Rattle.gpu_descriptor.specs.Caller.States.{pool_load_of};
ghost use Rattle.gpu_descriptor.specs.Caller.Views.{view_in};

use super::SetManager;
use crate::layout_registry::LayoutHandle;
use crate::store::is_marked;
use gpu_descriptor::{DescriptorDevice, PoolView};

impl<L: Drop, P: Drop, S: Drop, D: DescriptorDevice<L, P, S>> SetManager<L, P, S, D> {
    ghost use Rattle.descriptor_manager.specs.Managers.{seen, layout_of, pools_for, side_of};

    /// How much of the limit is in use: the number of descriptors with which the pools for
    /// update-after-bind layouts were created. A pool for sets without descriptors counts as one.
    pub fn update_after_bind_capacity(&self) -> u32
        ensures sum { result ≡ pool_load_of (side_of self.now).value }
        ensures within { result ≤ (seen self.now).limit }
    {
        self.store.allocator().update_after_bind_capacity()
    }

    /// The limit on update-after-bind descriptors that the set manager was made with.
    pub fn update_after_bind_limit(&self) -> u32
        ensures { result ≡ (seen self.now).limit }
    {
        self.store.allocator().update_after_bind_limit()
    }

    /// How many pools there are for sets of a layout, and of every other layout with the same counts and
    /// mark. 0 if the layout was removed, or if the handle is another set manager's.
    pub fn pool_count(&self, layout: LayoutHandle) -> usize
        ensures count { IfSome (layout_of self.now layout) (λ known. result
            ≡ length (pools_for known.layout self.now).pools) }
        ensures none { layout_of self.now layout ≡ None → result ≡ 0 }
    {
        match self.layouts.get(layout) {
            Some(known) => {
                let allocator = self.store.allocator();
                allocator.pool_count(&known.counts, is_marked(known))
            }
            None => 0,
        }
    }

    /// The books of the pool at this index among those that `pool_count` counts, oldest first; `None`
    /// past the last.
    pub fn pool(&self, layout: LayoutHandle, index: usize) -> Option<PoolView>
        ensures view { IfSome (layout_of self.now layout) (λ known. result
            ≡ view_in (pools_for known.layout self.now) index) }
        ensures none { layout_of self.now layout ≡ None → result ≡ None }
    {
        let known = self.layouts.get(layout)?;
        let allocator = self.store.allocator();
        allocator.pool(&known.counts, is_marked(known), index)
    }
}
