//! The key of a live set, for contracts.
ghost use Rattle.std.specs.Prelude.{◌≡◌};
ghost use Rattle.std.specs.Borrow.{ftrue};
ghost use Rattle.gpu_descriptor.specs.Model.Books.{Key};

use crate::key::BucketKey;
use std::marker::Model;

/// The key under which a set was allocated, for contracts. It has no bytes.
#[derive(Debug, Drop)]
pub(crate) struct SetKey {
    pub(crate) ghost is: { Key },
}

impl Model for SetKey {
    ghost also_owns = { λ _. ftrue };
}

impl SetKey {
    ghost use Rattle.gpu_descriptor.specs.Inner.KeyOf.{key_of};

    // Its proof is by hand, since no body can write ghost data.
    pub(crate) fn of(_key: &BucketKey) -> SetKey
        ensures { result.is ≡ key_of _key.now }
    {
        SetKey {}
    }
}
