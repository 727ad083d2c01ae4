//! The interface of a device.
ghost use Rattle.std.specs.Prelude.{◌≡◌, map, IfOk, IfErr, OnOk, None};
ghost use Rattle.std.specs.Iterator.{HoldsAlong};
ghost use Rattle.gpu_descriptor_types.specs.Counts.{kinds};
ghost use Rattle.gpu_descriptor_types.specs.Flags.{bits};
ghost use Rattle.gpu_descriptor_types.specs.Layouts.{layout, left};
ghost use Rattle.gpu_descriptor_types.specs.Ledger.{Ledger, after_create, after_no_create};
ghost use Rattle.gpu_descriptor_types.specs.Ledger.{after_destroy, AreLive, CanDrain, CanPut, HasNoSets};
ghost use Rattle.gpu_descriptor_types.specs.Meaning.{Meaning};
ghost use Rattle.gpu_descriptor_types.specs.Ledger.{Puts, PutsNone, Releases};

use crate::counts::DescriptorTotalCount;
use crate::errors::{CreatePoolError, DeviceAllocationError};
use crate::flags::DescriptorPoolCreateFlags;
use crate::layouts::Layouts;
use crate::sink::SetSink;

/// A device with layouts `L`, raw pools `P` and raw sets `S`.
///
/// Each call that returns a `Result` may refuse at any time.
pub trait DescriptorDevice<L, P, S> {
    /// What its values mean: the names of pools, sets and layouts, the counts and marks of layouts,
    /// and the layout of a set.
    ghost meaning: { Meaning L P S };

    /// Its live pools, and how often each thing was done. Each call states in one equation what it
    /// changes; the rest stays.
    ghost ledger: { Self → Ledger };

    /// Creates a pool for at most `max_sets` sets, which together have at most these counts.
    fn create_descriptor_pool(
        &mut self,
        counts: &DescriptorTotalCount,
        max_sets: u32,
        flags: DescriptorPoolCreateFlags,
    ) -> Result<P, CreatePoolError>
        ensures new_name { IfOk result (λ pool. (ledger self.old).pools (meaning.pool_name pool) ≡
            None) }
        ensures ok { IfOk result (λ pool. ledger self.new ≡ after_create (kinds counts.now) max_sets
            (bits flags) (meaning.pool_name pool) (ledger self.old)) }
        ensures err { IfErr result (λ e. ledger self.new ≡ after_no_create e (ledger self.old)) };

    /// Destroys a pool without live sets. It can't fail.
    fn destroy_descriptor_pool(&mut self, pool: P)
        requires { HasNoSets (meaning.pool_name pool) (ledger self.old) }
        ensures { ledger self.new ≡ after_destroy (meaning.pool_name pool) (ledger self.old) };

    /// Allocates a set for each layout and puts them into `sets`, all or none.
    fn alloc_descriptor_sets<K: SetSink<S>>(
        &mut self,
        pool: &mut P,
        layouts: Layouts<'_, L>,
        sets: &mut K,
    ) -> Result<(), DeviceAllocationError>
        // An impl has to repeat these clauses: the language hands none on to a method that takes
        // `Layouts` by value.
        requires fits { CanPut K.sink (meaning.pool_name pool.old) (left layouts) (meaning.counts (layout
            layouts)) (meaning.mark (layout layouts)) sets.old (ledger self.old) }
        ensures name { meaning.pool_name pool.new ≡ meaning.pool_name pool.old }
        ensures ok { OnOk result (Puts K.sink meaning (layout layouts.entry) (meaning.pool_name
            pool.old) (left layouts.entry) sets.old sets.new (ledger self.old) (ledger self.new)) }
        ensures err { IfErr result (λ e. PutsNone K.sink (meaning.pool_name pool.old) e sets.old
            sets.new (ledger self.old) (ledger self.new)) };

    /// Frees the sets that the iterator yields, up to its end. It can't fail.
    fn dealloc_descriptor_sets<I: Iterator<Item = S>>(&mut self, pool: &mut P, sets: &mut I)
        requires ends { CanDrain I.can_next I.remaining sets.old }

        // Of every list that the iterator may yield, the empty one too: an iterator of which nothing is
        // known needs no further condition.
        requires live { HoldsAlong I.next_gives sets.old (λ xs. AreLive (meaning.pool_name pool.old)
            (map meaning.set_name xs) (ledger self.old)) }
        ensures name { meaning.pool_name pool.new ≡ meaning.pool_name pool.old }
        ensures released { Releases I.next_gives meaning.set_name (meaning.pool_name pool.old)
            sets.old sets.new (ledger self.old) (ledger self.new) };
}
