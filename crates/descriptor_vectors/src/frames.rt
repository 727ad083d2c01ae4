//! The frame manager over the scripted device, and what its readers show then. No clause says that memory is there.
//! A retirement that is refused for memory is tried in Rust, where an allocation can be made to fail.
mod trial;

use std::test::Fail;
use trial::FrameAct::{Cleanup, Device, Finish, FreeAll, Pools, Reserve, Retire, Sets};
use trial::{Trial, play};

#[test]
fn sets_go_back_with_their_frames(rt: HostRuntime) -> Result<(), Fail> {
    let at_two_frames = [
        Retire(5, None),
        Retire(7, None),
        Retire(6, Some(2)),
        Finish(5),
        Pools(&[(0, 2, 62)]),
        Sets(2, 1),
        Finish(7),
        Pools(&[(0, 1, 63)]),
        Sets(1, 0),
        Device(0, 2),
        // The greatest frame is remembered, although no set is retired.
        Retire(6, Some(2)),
        Retire(7, None),
        Sets(1, 1),
        // No set is due.
        Finish(6),
        Pools(&[(0, 1, 63)]),
        Sets(1, 1),
        Device(0, 2),
        Finish(7),
        Pools(&[(0, 0, 64)]),
        Sets(0, 0),
        Device(0, 3),
        Cleanup,
        Pools(&[]),
        Device(1, 3),
    ];
    let with_memory_reserved = [
        Reserve(2),
        Retire(5, None),
        Retire(7, None),
        Retire(6, Some(2)),
        Finish(5),
        Sets(3, 1),
        FreeAll,
        Pools(&[(0, 1, 63)]),
        Finish(7),
        Sets(0, 0),
        Cleanup,
        Device(1, 3),
    ];
    let runs = [
        (3, at_two_frames.as_slice()),
        (4, with_memory_reserved.as_slice()),
    ];
    for (count, acts) in runs {
        let mut trial = Trial::new(rt.alloc(), count)?;
        play(&rt, &mut trial, acts)?;
    }
    Ok(())
}
