//! Each answer of a device at each of its calls. Clauses say what each step may reply and what it leaves; none says
//! that a refused call makes one request fail and no other, that later requests succeed, or how many calls a run makes.
use crate::bench::{Ask, Bench};
use crate::seen::{expect_pools, expect_same, layout_of};
use descriptor_script::{Answer, Reply, ScriptedDevice, refuse_at};
use gpu_descriptor::AllocationError;
use std::alloc::{AllocError, Global};
use std::process::Abort;
use std::test::Fail;

/// A word that refuses, and the error of the request that fails by it.
type Refusal = (Answer, AllocationError);

const REFUSALS: [Refusal; 4] = [
    (Answer::Device, AllocationError::OutOfDeviceMemory),
    (Answer::Host, AllocationError::OutOfHostMemory),
    (Answer::Frag, AllocationError::Fragmentation),
    (Answer::Pool, AllocationError::Fragmentation),
];

/// One existing pool is asked; all other sets come from new ones.
const REQUESTS: [Ask<'static>; 4] = [
    Ask::Sets(0, 60),
    Ask::Sets(0, 10),
    Ask::Sets(1, 3),
    Ask::Sets(2, 3),
];

/// How many words the requests read where each is `Ok`, by the rules of how pools are asked and created.
const WORDS: usize = 13;

/// Which of them is read for an existing pool. One that refuses as fragmented or full is passed over.
const EXISTING: usize = 2;

/// Makes the requests, and lists the errors of those that were refused.
fn errors_of(
    alloc: Global,
    bench: &mut Bench<ScriptedDevice>,
) -> Result<Vec<AllocationError>, Fail> {
    let mut errors = Vec::new(alloc);
    for request in REQUESTS {
        match bench.ask(alloc, request)? {
            Reply::Sets { .. } => {}
            Reply::Refused(error) => errors.push(error)?,
            _ => return Err(Fail::new("no reply of a request")),
        }
    }
    Ok(errors)
}

/// The tickets of the held sets, from the greatest down.
fn held_tickets(alloc: Global, bench: &Bench<ScriptedDevice>) -> Result<Vec<usize>, AllocError> {
    let mut tickets = Vec::new(alloc);
    for ticket in (0..bench.session.next_ticket()).rev() {
        if bench.session.set(ticket).is_some() {
            tickets.push(ticket)?;
        }
    }
    Ok(tickets)
}

/// Frees all sets and cleans up: neither the session nor the device has anything left.
fn expect_all_freed(
    rt: &impl Abort,
    alloc: Global,
    bench: &mut Bench<ScriptedDevice>,
) -> Result<(), AllocError> {
    let tickets = held_tickets(alloc, bench)?;
    let freed = bench.ask(alloc, Ask::Free(&tickets))?;
    expect_same(rt, freed, Reply::Freed(tickets.len()));
    expect_same(rt, bench.ask(alloc, Ask::Cleanup)?, Reply::Clean);
    expect_same(rt, bench.session.held(), 0);
    for layout in [
        layout_of(1, false),
        layout_of(u32::MAX, false),
        layout_of(3, true),
    ] {
        expect_pools(rt, bench.session.allocator(), &layout, &[]);
    }
    expect_same(rt, bench.device.created(), bench.device.destroyed());
    Ok(())
}

/// A session with a layout of one sampler, one of as many as can be, and a marked one.
fn bench_of(alloc: Global, script: Vec<Answer>) -> Result<Bench<ScriptedDevice>, AllocError> {
    let mut bench = Bench::new(alloc, ScriptedDevice::new(alloc, script));
    bench.add_layout(layout_of(1, false))?;
    bench.add_layout(layout_of(u32::MAX, false))?;
    bench.add_layout(layout_of(3, true))?;
    Ok(bench)
}

/// The word at this place makes the request fail that reads it, or none.
fn expect_refused_at(
    rt: &impl Abort,
    alloc: Global,
    place: usize,
    (word, error): Refusal,
) -> Result<(), Fail> {
    let mut bench = bench_of(alloc, refuse_at(alloc, place, word)?)?;
    let errors = errors_of(alloc, &mut bench)?;
    let is_passed_over = place == EXISTING && error == AllocationError::Fragmentation;
    if is_passed_over {
        let pools = [(0, 60, 0), (1, 10, 54)];
        expect_pools(rt, bench.session.allocator(), &layout_of(1, false), &pools);
    }
    let one = [error];
    let wanted = if is_passed_over || place == WORDS {
        &[]
    } else {
        one.as_slice()
    };
    assert_eq!(rt; errors.as_slice(), wanted, "{word:?} at {place}");
    expect_all_freed(rt, alloc, &mut bench)?;
    Ok(())
}

/// After the last place no word is read.
#[test]
fn each_call_is_refused(rt: HostRuntime) -> Result<(), Fail> {
    for place in 0..=WORDS {
        for refusal in REFUSALS {
            expect_refused_at(&rt, rt.alloc(), place, refusal)?;
        }
    }
    Ok(())
}
