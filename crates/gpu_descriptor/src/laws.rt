//! Laws of freeing and cleaning up, over the books of an allocator and the ledger of a device, and laws
//! of the types that their derives keep. The functions do nothing: their contracts are the laws.
ghost use Rattle.std.specs.Prelude.{◌≡◌, ◌↔◌, ℕ, Bool, [], IsTrue, List, None, Some, false};
ghost use Rattle.std.specs.Prelude.{IfErr, slice_get, slice_index};
ghost use Rattle.std.specs.Prelude.{flat_map, length, sum, true, ◌++◌, ◌+◌, ◌<◌, ◌≤◌, ◌⊎◌, fold};
ghost use Rattle.gpu_descriptor_types.specs.Bounds.{greatest_u64};
ghost use Rattle.gpu_descriptor.specs.Caller.Certain.{free_places, refusals};
ghost use Rattle.gpu_descriptor.specs.Caller.Comparisons.{gap_digits};
ghost use Rattle.gpu_descriptor.specs.Caller.Flags.{layout_bits};
ghost use Rattle.gpu_descriptor.specs.Caller.Frees.{marked_descriptors};
ghost use Rattle.gpu_descriptor.specs.Caller.Others.{others_of};
ghost use Rattle.gpu_descriptor.specs.Caller.States.{marked_load_of, named_bucket};
ghost use Rattle.gpu_descriptor.specs.Caller.States.{outstanding_of, pool_load_of, state_of};
ghost use Rattle.gpu_descriptor.specs.Caller.States.{table_of};
ghost use Rattle.gpu_descriptor.specs.Caller.Values.{Allocations};
ghost use Rattle.gpu_descriptor.specs.Model.Agreement.{Item, item_eq, Agree, AreOutstanding};
ghost use Rattle.gpu_descriptor.specs.Model.Agreement.{HasNoGaps, HasNoKeys, HasNoPools, IsAsBooked};
ghost use Rattle.gpu_descriptor.specs.Model.Agreement.{State, count_of, outstanding};
ghost use Rattle.gpu_descriptor.specs.Model.Books.{HasDistinctKeys, Key, key_eq, AddsUp, Bucket};
ghost use Rattle.gpu_descriptor.specs.Model.Books.{Entry, books_of, next_number, no_pools, numbers_of, sum_over};
ghost use Rattle.gpu_descriptor.specs.Model.Cleanup.{LosesEmpty, pools_lost};
ghost use Rattle.gpu_descriptor.specs.Model.Foreign.{IsForeign, IsNamed, KeepsForeign};
ghost use Rattle.gpu_descriptor.specs.Model.Load.{pool_descriptors, sets_out, descriptors_out, bucket_load};
ghost use Rattle.gpu_descriptor.specs.Model.Load.{descriptors_created};
ghost use Rattle.gpu_descriptor.specs.Model.Outcomes.{Allocates, Call, IsWithinLimit, Stays};
ghost use Rattle.gpu_descriptor.specs.Model.Promises.{IsUntouched};
ghost use Rattle.gpu_descriptor.specs.Model.OneByOne.{freed_each};
ghost use Rattle.gpu_descriptor.specs.Model.Release.{pools_gone, released};
ghost use Rattle.gpu_descriptor_types.specs.Ledger.{Ledger, Pool};
ghost use Rattle.gpu_descriptor_types.specs.Multiset.{LiveSet, Spells};
ghost use Rattle.std.specs.List.{list_any};
ghost use Rattle.gpu_descriptor.specs.declared.errors.AllocationError.{AllocationError as Error};
ghost use Rattle.gpu_descriptor.specs.declared.errors.AllocationError.TheVariants.{OutOfHostMemory};
ghost use Rattle.gpu_descriptor.specs.declared.flags.DescriptorSetLayoutCreateFlags.{DescriptorSetLayoutCreateFlags as LayoutFlags};
ghost use Rattle.gpu_descriptor.specs.declared.view.PoolView.{PoolView as View};

use crate::errors::AllocationError;
use crate::flags::DescriptorSetLayoutCreateFlags;
use crate::view::PoolView;
use std::hash::Hash;

/// Freeing sets in parts, in any order, has the same effect as freeing them at once.
pub fn release_parts()
    ensures parts { (m n : List Item) (s : State) → Agree s → AreOutstanding (m ++ n) s → released n
        (released m s) ≡ released (m ++ n) s }
    ensures cut_anywhere { (ms : List (List Item)) (s : State) → Agree s → AreOutstanding
        (flat_map (λ m. m) ms) s → fold (λ t m. released m t) s ms ≡ released (flat_map (λ m. m) ms)
        s }
    ensures one_by_one { (m order : List Item) (s : State) → Agree s → AreOutstanding m s
        → ((t : Item) → count_of t order ≡ count_of t m) → freed_each order s ≡ released m s }
    ensures order { (m n : List Item) (s : State) → ((t : Item) → count_of t m ≡ count_of t n)
        → released m s ≡ released n s }
    ensures none { (s : State) → released [] s ≡ s }

    // Two parts destroy as many pools as one call for all.
    ensures pools_gone { (keys : List Key) (m n : List Item) (s : State) → Agree s → AreOutstanding
        (m ++ n) s → pools_gone keys m s + pools_gone keys n (released m s)
        ≡ pools_gone keys (m ++ n) s }

    ensures agrees { (m : List Item) (s : State) → Agree s → AreOutstanding m s → Agree
        (released m s) }
    ensures outstanding { (m : List Item) (s : State) → Agree s → AreOutstanding m s → (t : Item)
        → outstanding (released m s) t + count_of t m ≡ outstanding s t }

    // Keys without a freed set keep their pools as they are.
    ensures other_keys { (m : List Item) (s : State) → Agree s → (k : Key) → list_any
        (λ t. key_eq t.key k) m ≡ false → IsUntouched k s (released m s) }
{}

/// Cleaning up again, or trimming again, changes nothing and destroys no pool. If no set is outstanding,
/// no pool of the books is left, in the books or in the ledger.
pub fn clean_again()
    ensures again { (everywhere : Bool) (s t u : State) → LosesEmpty everywhere s t → LosesEmpty
        everywhere t u → u ≡ t }
    ensures again_none { (everywhere : Bool) (keys : List Key) (s t : State) → LosesEmpty everywhere
        s t → pools_lost everywhere keys t ≡ 0 }
    ensures all { (everywhere : Bool) (s t : State) → Agree s → ((i : Item) → outstanding s i ≡ 0)
        → LosesEmpty everywhere s t → HasNoKeys t }
    ensures all_gone { (everywhere : Bool) (s t : State) → Agree s → ((i : Item) → outstanding s i
        ≡ 0) → LosesEmpty everywhere s t → (k : Key) (i : ℕ) (e : Entry) → slice_get
        (s.books k).pools i ≡ Some e → t.ledger e.pool ≡ None }
    ensures one_result { (everywhere : Bool) (keys : List Key) (s t u : State)
        → ((k : Key) → list_any (λ l. key_eq l k) keys ≡ false → (s.books k).pools ≡ [])
        → LosesEmpty everywhere s t → LosesEmpty everywhere s u → t ≡ u }

    ensures agrees { (everywhere : Bool) (s t : State) → Agree s → LosesEmpty everywhere s t → Agree
        t }
    ensures outstanding { (everywhere : Bool) (s t : State) → Agree s → LosesEmpty everywhere s t
        → (i : Item) → outstanding t i ≡ outstanding s i }
{}

/// If the pools of others are the same, by their names (`others_of`), each of them stays as it is and
/// doesn't enter the books. No pool is lost: a live pool that isn't in the books afterwards was
/// another's before, and is as it was. So an allocator that has no pools, is used, and is cleaned up
/// once all its sets are free leaves the ledger's pools exactly as they were. A new allocator has no
/// pools, and so has one whose requests were all refused before a pool was created.
pub fn no_pool_is_lost<P>()
    ensures others { (name : P → ℕ) (a b : Allocations P) (l m : Ledger) → others_of name b m
        ≡ others_of name a l → KeepsForeign (state_of name a l) (state_of name b m) }

    // In reverse, since no test decides whether books, a function over all keys, name a pool.
    ensures lost { (name : P → ℕ) (a b : Allocations P) (l m : Ledger) → others_of name b m
        ≡ others_of name a l → KeepsForeign (state_of name b m) (state_of name a l) }

    // A cleanup destroys empty pools only at the fronts; a trim, everywhere.
    ensures restores { (s t u : State) → HasNoPools s → KeepsForeign s t → KeepsForeign t s → Agree t
        → ((i : Item) → outstanding t i ≡ 0) → LosesEmpty false t u → u.ledger ≡ s.ledger }
    ensures one_or_other { (name : P → ℕ) (a : Allocations P) (l : Ledger) → HasDistinctKeys
        (table_of name a) → (pool : ℕ) → IsNamed (state_of name a l) pool ⊎ IsForeign
        (state_of name a l) pool }

    // If the allocator has no pools, or no keys, all pools are others'.
    ensures all_others { (name : P → ℕ) (a : Allocations P) (l : Ledger) → a.table ≡ [] → others_of
        name a l ≡ l.pools }
    ensures no_pools { (name : P → ℕ) (a : Allocations P) (l : Ledger) → HasNoPools
        (state_of name a l) → others_of name a l ≡ l.pools }
{}

/// Only a trim leaves gaps between the numbers of a key's pools. Without gaps a pool's number gives its
/// place, and a release finds its pool without a comparison.
pub fn only_a_trim_leaves_gaps()
    ensures begins { (s : State) → HasNoPools s → HasNoGaps s }
    ensures requests { (c : Call) → Agree c.old → Allocates c → HasNoGaps c.old → HasNoGaps c.new }
    ensures frees { (m : List Item) (s : State) → Agree s → HasNoGaps s → HasNoGaps (released m s) }
    ensures cleanups { (s t : State) → Agree s → LosesEmpty false s t → HasNoGaps s → HasNoGaps t }
    ensures by_place { (s : State) (k : Key) (i : ℕ) (e : Entry) → Agree s → HasNoGaps s → slice_get
        (s.books k).pools i ≡ Some e → e.number ≡ slice_index (numbers_of (s.books k).pools) 0 + i }
    ensures digits { (s : State) (k : Key) → HasNoGaps s → gap_digits (numbers_of (s.books k).pools)
        ≡ 0 }
{}

/// Sums over all keys depend on the books alone.
pub fn books_alone()
    ensures sums { (f : Key → Bucket → ℕ) (t u : List (Key × Bucket))
        → ((k : Key) → f k no_pools ≡ 0) → HasDistinctKeys t → HasDistinctKeys u
        → ((k : Key) → books_of t k ≡ books_of u k) → sum_over f t ≡ sum_over f u }
{}

/// There is at most one proof that books and ledger agree, so a struct that owns an allocator and its
/// device can keep it as a ghost field, with `Agrees-prop` of `proofs.callers.OneAgreement` after `by`.
/// Every list that spells a pool's live sets has as many sets as the books say.
pub fn agreement_is_one()
    ensures one { (s : State) → IsProp (Agree s) }
    ensures listed { (k : Key) (pool : Pool) (e : Entry) → IsAsBooked k pool e
        → (sets : List LiveSet) → Spells sets pool.live → length sets ≡ e.allocated }
{}

/// If no key has two rows, an allocator's rows and its books add up to the same numbers of sets, of
/// marked descriptors, and of descriptors of marked keys' pools. Its books are its rows with the
/// device's names for the pools, so readers say how many pools a key's books have, and what these say of
/// each.
pub fn rows_add_up<P>()
    ensures out { (name : P → ℕ) (a : Allocations P) (l : Ledger) → HasDistinctKeys
        (table_of name a) → AddsUp sets_out (state_of name a l).books (outstanding_of a) }
    ensures load { (name : P → ℕ) (a : Allocations P) (l : Ledger) → HasDistinctKeys
        (table_of name a) → AddsUp descriptors_out (state_of name a l).books (marked_load_of a) }
    ensures pool_load { (name : P → ℕ) (a : Allocations P) (l : Ledger) → HasDistinctKeys
        (table_of name a) → AddsUp bucket_load (state_of name a l).books (pool_load_of a) }
    ensures books { (name : P → ℕ) (a : Allocations P) (k : Key) → books_of (table_of name a) k
        ≡ named_bucket name (books_of a.table k) }
{}

/// If books and ledger agree, the descriptors that count towards the limit for a marked key's pool are
/// those that the device created it with. So they add up to what it created all pools of marked keys
/// with, and marked sets that are outstanding have no more.
pub fn pools_have_their_load()
    ensures each { (s : State) (k : Key) (i : ℕ) (e : Entry) (pool : Pool) → Agree s → length
        k.counts ≡ 14 → k.marked ≡ true → slice_get (s.books k).pools i ≡ Some e → s.ledger e.pool
        ≡ Some pool → sum pool.counts ≡ pool_descriptors k e.capacity }
    ensures created { (s : State) (n : ℕ) → Agree s → ((k : Key) → 0 < length (s.books k).pools
        → length k.counts ≡ 14) → AddsUp bucket_load s.books n ↔ AddsUp
        (descriptors_created s.ledger) s.books n }
    ensures marked { (s : State) (marked pools : ℕ) → Agree s → AddsUp descriptors_out s.books
        marked → AddsUp bucket_load s.books pools → marked ≤ pools }
{}

/// If books and ledger agree, the number of sets that the books have as allocated is that of the
/// outstanding sets: a list has each set as often as it is outstanding, and each such list has this
/// length. The marked load is the sum of the descriptors of its marked sets.
pub fn out_is_outstanding()
    ensures size { (s : State) (n : ℕ) → Agree s → AddsUp sets_out s.books n → ∥
        ((items : List Item) × (length items ≡ n)
        × ((t : Item) → count_of t items ≡ outstanding s t)) ∥₁ }
    ensures any_list { (s : State) (n : ℕ) → Agree s → AddsUp sets_out s.books n
        → (items : List Item) → ((t : Item) → count_of t items ≡ outstanding s t) → length items
        ≡ n }
    ensures load { (s : State) (n : ℕ) → Agree s → AddsUp descriptors_out s.books n
        → (items : List Item) → ((t : Item) → count_of t items ≡ outstanding s t)
        → marked_descriptors items ≡ n }
{}

/// The limit never refuses a request for which places are known to be free. If 64 bits allow it, it is
/// refused only if the device refused a call, or if memory was refused before the device was asked. Then
/// nothing changed.
pub fn only_device_and_memory_refuse()
    ensures allowed { (c : Call) → Agree c.old → AddsUp descriptors_out c.old.books c.load → AddsUp
        bucket_load c.old.books c.pooled → c.pooled ≤ c.limit → c.count ≤ free_places
        (c.old.books c.key) → IsWithinLimit c }
    ensures refused { (c : Call) → Allocates c → c.count ≤ free_places (c.old.books c.key)
        → IsWithinLimit c → next_number (c.old.books c.key) + c.count ≤ greatest_u64
        → c.out + c.count ≤ greatest_u64 → IfErr c.answer (λ e. (refusals c.before
        < refusals c.after) ⊎ ((e ≡ OutOfHostMemory) × Stays c)) }
{}

/// Between the allocator's calls, pools of the device that aren't the allocator's may be created,
/// destroyed and changed: books and ledger agree as before, and the same sets are outstanding.
pub fn others_are_free()
    ensures agrees { (s t : State) → ((k : Key) → IsUntouched k s t) → Agree s → Agree t }
    ensures outstanding { (s t : State) → ((k : Key) → IsUntouched k s t) → (i : Item) → outstanding
        t i ≡ outstanding s i }
{}

/// Outstanding sets of one key have one id.
pub fn a_key_has_one_id()
    ensures one_id { (s : State) (t u : Item) → 0 < outstanding s t → 0 < outstanding s u → t.key
        ≡ u.key → t.id ≡ u.id }
{}

/// Keys and items are equal exactly if the tests by which they are counted say so.
pub fn items_are_their_parts()
    ensures keys { (k l : Key) → IsTrue (key_eq k l) ↔ (k ≡ l) }
    ensures items { (s t : Item) → IsTrue (item_eq s t) ↔ (s ≡ t) }
{}

/// Flags of a layout are equal exactly if their bits are, and equal flags have equal hashes. A clone
/// always succeeds, and is equal.
pub fn flags_are_their_bits()
    ensures equal { (a b : LayoutFlags) → IsTrue (⟦<DescriptorSetLayoutCreateFlags as PartialEq>⟧.eq
        a b) ↔ (layout_bits a ≡ layout_bits b) }
    ensures clone { (a b : LayoutFlags) → ⟦<DescriptorSetLayoutCreateFlags as Clone>⟧.is_clone a b
        → b ≡ a }
    ensures clone_succeeds { (a : LayoutFlags)
        → ⟦<DescriptorSetLayoutCreateFlags as Clone>⟧.is_infallible a }
    ensures hash { (a b : LayoutFlags) → layout_bits a ≡ layout_bits b
        → ⟦<DescriptorSetLayoutCreateFlags as Hash>⟧.hash_input a
        ≡ ⟦<DescriptorSetLayoutCreateFlags as Hash>⟧.hash_input b }
{}

/// Errors of a request are equal exactly if they are the same case. A clone always succeeds, and is
/// equal.
pub fn errors_are_their_cases()
    ensures equal { (a b : Error) → IsTrue (⟦<AllocationError as PartialEq>⟧.eq a b) ↔ (a ≡ b) }
    ensures clone { (a b : Error) → ⟦<AllocationError as Clone>⟧.is_clone a b → b ≡ a }
    ensures clone_succeeds { (a : Error) → ⟦<AllocationError as Clone>⟧.is_infallible a }
{}

/// Views of pools are equal exactly if their three numbers are. A clone always succeeds, and is equal.
pub fn views_are_their_numbers()
    ensures equal { (a b : View) → IsTrue (⟦<PoolView as PartialEq>⟧.eq a b)
        ↔ ((a.number ≡ b.number) × (a.allocated ≡ b.allocated) × (a.available ≡ b.available)) }
    ensures clone { (a b : View) → ⟦<PoolView as Clone>⟧.is_clone a b → b ≡ a }
    ensures clone_succeeds { (a : View) → ⟦<PoolView as Clone>⟧.is_infallible a }
{}
