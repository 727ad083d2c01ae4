//! How a request takes sets from the existing pools of its key.
ghost use Rattle.std.specs.Prelude.{◌≡◌, ◌+◌, ◌<◌, ◌^◌, length};
ghost use Rattle.std.specs.Prelude.{IfErr, OnOk, Err, None};
ghost use Rattle.gpu_descriptor.specs.declared.bucket.stop.Stop.TheVariants.{ExistingPoolWithoutMemory};
ghost use Rattle.gpu_descriptor.specs.Caller.SetLists.{appended};
ghost use Rattle.gpu_descriptor.specs.Caller.Sets.{items_of};
ghost use Rattle.gpu_descriptor.specs.Inner.Buckets.{AreBookedIn};
ghost use Rattle.gpu_descriptor.specs.Inner.Grow.{IsTaken};
ghost use Rattle.gpu_descriptor.specs.Inner.KeyOf.{key_of};
ghost use Rattle.gpu_descriptor.specs.Inner.Serves.{Appends};
ghost use Rattle.gpu_descriptor.specs.Inner.Stored.{bucket_of};
ghost use Rattle.gpu_descriptor.specs.Inner.Walk.{CountsLooks, IsWalked};
ghost use Rattle.gpu_descriptor.specs.Model.Books.{numbers_of};
ghost use Rattle.gpu_descriptor.specs.Model.Load.{pools_load};

use crate::bucket::open_pools::OpenPools;
use crate::bucket::request::SetRequest;
use crate::bucket::request_sink::RequestSink;
use crate::places::SetPlaces;
use gpu_descriptor_types::{DescriptorDevice, DeviceAllocationError};

/// Takes the sets that the existing pools are known to have: asks those with known free places, the
/// newest first, until no set is needed or no such pool is left.
#[inline(always)]
pub(crate) fn take_from_existing<'k, L, P, S, D: DescriptorDevice<L, P, S>, K: SetPlaces<S>>(
    device: &mut D,
    pools: &mut OpenPools<'_, '_, P>,
    request: &'k SetRequest<'_, L, P, S, D>,
    sink: &mut RequestSink<'k, S, K>,
) -> Result<(), DeviceAllocationError>
    requires booked { AreBookedIn (key_of request.now.key) (D.ledger device.old).pools
        (bucket_of D.meaning.pool_name pools.old.bucket.now).pools }
    requires bound { pools.old.bucket.now.total + request.now.count < 2 ^ 64 }
    requires left { sink.old.left ≡ request.now.count }
    ensures walked { OnOk result (IsWalked (key_of request.now.key) request.now.count
        sink.new.left (items_of D.meaning.set_name
        (appended (K.items sink.old.sets) (K.items sink.new.sets)))
        (bucket_of D.meaning.pool_name pools.old.bucket.now) (bucket_of D.meaning.pool_name pools.new.bucket.now)
        (D.ledger device.old) (D.ledger device.new)) }
    ensures stopped { IfErr result (λ e. IsTaken (Err (ExistingPoolWithoutMemory e))
        None (key_of request.now.key) 0 request.now.count
        (items_of D.meaning.set_name
        (appended (K.items sink.old.sets) (K.items sink.new.sets)))
        (bucket_of D.meaning.pool_name pools.old.bucket.now) (bucket_of D.meaning.pool_name pools.new.bucket.now)
        (D.ledger device.old) (D.ledger device.new)) }
    ensures appends { Appends D.meaning request.now.layout.now request.now.count sink.new.left
        (K.items sink.old.sets) (K.items sink.new.sets) }
    ensures id_stays { pools.new.bucket.now.id ≡ pools.old.bucket.now.id }
    ensures flag_stays { pools.new.bucket.now.may_have_empty ≡ pools.old.bucket.now.may_have_empty }
    ensures numbers_stay { numbers_of pools.new.bucket.now.pools.items
        ≡ numbers_of pools.old.bucket.now.pools.items }
    ensures total { pools.new.bucket.now.total ≡ pools.old.bucket.now.total
        + length (appended (K.items sink.old.sets) (K.items sink.new.sets)) }
    ensures load { pools_load (key_of request.now.key) pools.new.bucket.now.pools.items
        ≡ pools_load (key_of request.now.key) pools.old.bucket.now.pools.items }
    ensures looks { CountsLooks pools.old.looks.now.count
        pools.new.looks.now.count
        (D.ledger device.old) (D.ledger device.new) }
    ensures same_bucket { pools.new.bucket.ghost_name ≡ pools.old.bucket.ghost_name }
    ensures same_looks { pools.new.looks.ghost_name ≡ pools.old.looks.ghost_name }
{
    while sink.left > 0 && !pools.is_empty() {
        pools.ask_newest(device, request, sink)?;
    }
    Ok(())
}
