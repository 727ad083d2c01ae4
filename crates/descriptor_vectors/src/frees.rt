//! In which order a device sees the calls of a free and of a cleanup, which no clause says; and that it is one whether
//! sets are freed as one list or one by one, in whatever order, with ample memory.
use crate::bench::{Ask, Bench, expect_replies};
use crate::seen::{expect_calls, expect_pools, expect_same, layout_of, sets};
use crate::{Call, LogDevice};
use descriptor_script::{Reply, ScriptLayout};
use std::alloc::{AllocError, Global};
use std::process::Abort;
use std::test::Fail;

fn bench_of(alloc: Global, layouts: &[ScriptLayout]) -> Result<Bench<LogDevice>, AllocError> {
    let mut bench = Bench::new(alloc, LogDevice::new(alloc));
    for layout in layouts {
        bench.add_layout(*layout)?;
    }
    Ok(bench)
}

/// The first key's only pool is destroyed by a cleanup, and created again.
#[test]
fn cleanup_goes_through_keys_in_their_order(rt: HostRuntime) -> Result<(), Fail> {
    let mut bench = bench_of(rt.alloc(), &[layout_of(2, false), layout_of(1, false)])?;
    let asks = [
        (Ask::Sets(0, 1), sets(0, 1)),
        (Ask::Sets(1, 1), sets(1, 1)),
        (Ask::Free(&[0]), Reply::Freed(1)),
        (Ask::Cleanup, Reply::Clean),
        (Ask::Sets(0, 1), sets(2, 1)),
        (Ask::Free(&[2, 1]), Reply::Freed(2)),
        (Ask::Cleanup, Reply::Clean),
    ];
    expect_replies(&rt, rt.alloc(), &mut bench, &asks[..5])?;
    let allocator = bench.session.allocator();
    expect_pools(&rt, allocator, &layout_of(2, false), &[(0, 1, 63)]);
    expect_replies(&rt, rt.alloc(), &mut bench, &asks[5..])?;
    let calls = [
        Call::Create { pool: 0 },
        Call::Alloc { pool: 0, sets: 1 },
        Call::Create { pool: 1 },
        Call::Alloc { pool: 1, sets: 1 },
        Call::Release { pool: 0, sets: 1 },
        Call::Destroy { pool: 0 },
        Call::Create { pool: 2 },
        Call::Alloc { pool: 2, sets: 1 },
        Call::Release { pool: 2, sets: 1 },
        Call::Release { pool: 1, sets: 1 },
        Call::Destroy { pool: 1 },
        Call::Destroy { pool: 2 },
    ];
    expect_calls(&rt, &bench.device, &calls);
    Ok(())
}

/// Requests for sets of one layout, the tickets that are freed then, and what is seen.
#[derive(Clone, Copy)]
struct Case<'a> {
    layout: ScriptLayout,
    requests: [u32; 2],
    tickets: &'a [usize],
    /// How the free is seen by the device, as one list in this order.
    calls: &'a [Call],
    /// The number, the allocated and the available of each pool that is left.
    pools: &'a [(u64, u32, u32)],
    /// How many sets are left, and their descriptors if they are marked.
    left: (u64, u32),
}

/// A session in which the case's sets are allocated, and how many calls were made by then.
fn allocated(alloc: Global, case: &Case<'_>) -> Result<(Bench<LogDevice>, usize), AllocError> {
    let mut bench = bench_of(alloc, &[case.layout])?;
    for count in case.requests {
        bench.ask(alloc, Ask::Sets(0, count))?;
    }
    let made = bench.device.calls().len();
    Ok((bench, made))
}

fn expect_left(rt: &impl Abort, bench: &Bench<LogDevice>, case: &Case<'_>) {
    let allocator = bench.session.allocator();
    expect_pools(rt, allocator, &case.layout, case.pools);
    let left = (
        allocator.outstanding(),
        allocator.update_after_bind_descriptors(),
    );
    expect_same(rt, left, case.left);
}

/// Frees the tickets as one list, or each alone.
fn expect_freed(
    rt: &impl Abort,
    alloc: Global,
    case: &Case<'_>,
    tickets: &[usize],
) -> Result<(), AllocError> {
    let (mut bench, _) = allocated(alloc, case)?;
    let freed = bench.ask(alloc, Ask::Free(tickets))?;
    expect_same(rt, freed, Reply::Freed(tickets.len()));
    expect_left(rt, &bench, case);
    let (mut bench, _) = allocated(alloc, case)?;
    for ticket in tickets {
        let freed = bench.ask(alloc, Ask::Free(&[*ticket]))?;
        expect_same(rt, freed, Reply::Freed(1));
    }
    expect_left(rt, &bench, case);
    Ok(())
}

fn expect_case(rt: &impl Abort, alloc: Global, case: &Case<'_>) -> Result<(), AllocError> {
    let (mut bench, made) = allocated(alloc, case)?;
    bench.ask(alloc, Ask::Free(case.tickets))?;
    let calls = bench.device.calls().get(made..).unwrap_or(&[]);
    assert_eq!(rt; calls, case.calls);
    let mut tickets = case.tickets.to_vec(alloc)?;
    expect_freed(rt, alloc, case, &tickets)?;
    tickets.reverse();
    expect_freed(rt, alloc, case, &tickets)
}

#[test]
fn frees_leave_one_state(rt: HostRuntime) -> Result<(), Fail> {
    let mut tickets = [0; 128];
    for (place, ticket) in tickets.iter_mut().enumerate() {
        *ticket = place;
    }
    tickets.rotate_left(64);
    let newer_pool_first = Case {
        layout: layout_of(1, false),
        requests: [64, 64],
        tickets: &tickets,
        calls: &[
            Call::Release { pool: 1, sets: 64 },
            Call::Release { pool: 0, sets: 64 },
            Call::Destroy { pool: 0 },
        ],
        pools: &[(1, 0, 64)],
        left: (0, 0),
    };
    let pools_in_turn = Case {
        layout: layout_of(2147483647, false),
        requests: [4, 0],
        tickets: &[0, 2, 1, 3],
        calls: &[
            Call::Release { pool: 0, sets: 1 },
            Call::Release { pool: 1, sets: 1 },
            Call::Release { pool: 0, sets: 1 },
            Call::Destroy { pool: 0 },
            Call::Release { pool: 1, sets: 1 },
        ],
        pools: &[(1, 0, 2)],
        left: (0, 0),
    };
    let marked_sets_stay = Case {
        layout: layout_of(3, true),
        tickets: &tickets[..96],
        calls: &[
            Call::Release { pool: 1, sets: 64 },
            Call::Release { pool: 0, sets: 32 },
        ],
        pools: &[(0, 32, 32), (1, 0, 64)],
        left: (32, 96),
        ..newer_pool_first
    };
    for case in [&newer_pool_first, &pools_in_turn, &marked_sets_stay] {
        expect_case(&rt, rt.alloc(), case)?;
    }
    Ok(())
}
