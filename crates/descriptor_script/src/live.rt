//! A live pool, and its live sets.
ghost use Rattle.std.specs.Prelude.{◌≡◌, ℕ, ◌+◌, ◌<◌, ◌≤◌, ◌^◌, ◌++◌, map, None, nat_eq};
ghost use Rattle.std.specs.List.{range_with_len};
ghost use Rattle.std.specs.Iterator.{HoldsAlong};
ghost use Rattle.gpu_descriptor_types.specs.Ledger.{CanDrain};
ghost use Rattle.indexmap.specs.IndexMap.{get, spare};
ghost use Rattle.gpu_descriptor_types.specs.Layouts.{layout, left};
ghost use Rattle.descriptor_script.specs.Scripted.Raw.{raw_sets, set_id};
ghost use Rattle.descriptor_script.specs.Inner.Live.{HasNamed, TakesOut, live_sets_of};

use crate::raw::{RawSet, ScriptLayout};
use gpu_descriptor_types::{
    DescriptorPoolCreateFlags, DescriptorTotalCount, Layouts, SetSink, Tally,
};
use indexmap::IndexMap;

/// The live sets of a pool, by name: a release takes about as many steps as it frees sets. A log of calls
/// in their place would need memory at a release, which allocates nothing.
pub type LiveSets = IndexMap<u64, DescriptorTotalCount>;

/// A live pool, as it was created, with its live sets.
#[derive(Debug, Drop)]
pub struct LivePool {
    pub counts: DescriptorTotalCount,
    pub max_sets: u32,
    pub flags: DescriptorPoolCreateFlags,
    pub sets: LiveSets,
    pub refusals: Tally,
}

/// Puts a set of this pool for each layout, under names from `first` up, among the live sets and
/// into the sink.
pub fn fill<K: SetSink<RawSet>>(
    live: &mut LiveSets,
    pool: u64,
    first: u64,
    layouts: Layouts<'_, ScriptLayout>,
    sink: &mut K,
)
    requires space { left layouts ≤ spare live.old }
    requires names { first + left layouts < 2 ^ 64 }
    requires fresh { (n : ℕ) → first ≤ n → get nat_eq live.old n ≡ None }
    requires room { left layouts ≤ K.sink.room sink.old }
    ensures live { live.new.entries ≡ live.old.entries
        ++ map (λ name. (name, (layout layouts.entry).counts))
        (range_with_len first (left layouts.entry)) }
    ensures fresh { (n : ℕ) → first + left layouts.entry ≤ n → get nat_eq live.new n ≡ None }
    ensures sets { K.sink.kept sink.new ≡ K.sink.kept sink.old
        ++ map (K.sink.kept_as sink.old) (raw_sets pool first (left layouts.entry)) }
    ensures alike { K.sink.kept_as sink.new ≡ K.sink.kept_as sink.old }
    ensures room { K.sink.room sink.new + left layouts.entry ≡ K.sink.room sink.old }
{
    let mut name = first;
    for layout in layouts {
        let _ = live.insert(name, layout.counts);
        sink.put(RawSet { id: name, pool });
        name += 1;
    }
}

/// Takes each set that the iterator gives from the live sets, and returns how many they were.
pub fn take_back<I: Iterator<Item = RawSet>>(live: &mut LiveSets, sets: &mut I) -> usize
    requires ends { CanDrain I.can_next I.remaining sets.old }
    requires live { HoldsAlong I.next_gives sets.old
        (λ xs. HasNamed (map set_id xs) (live_sets_of live.old.entries)) }
    ensures back { TakesOut I.next_gives result sets.old sets.new
        (live_sets_of live.old.entries) (live_sets_of live.new.entries) }
    ensures fresh { (n : ℕ) → get nat_eq live.old n ≡ None → get nat_eq live.new n ≡ None }
{
    let before = live.len();
    while let Some(set) = sets.next() {
        live.swap_remove(&set.id);
    }
    before - live.len()
}
