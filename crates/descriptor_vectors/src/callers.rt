//! Callers, each once with ample memory: that it succeeds, and what it leaves. No clause says that
//! memory is there.
use crate::seen::{expect_calls, expect_same, layout_of};
use crate::{Call, LogDevice};
use descriptor_examples::drawing::{render, render_one};
use descriptor_examples::game::{Score, play};
use descriptor_examples::one_layout::draw_once;
use descriptor_script::{Answer, RawPool, RawSet, ScriptLayout, ScriptedDevice, refuse_at};
use gpu_descriptor::{DescriptorDevice, DescriptorPoolCreateFlags};
use std::process::Abort;
use std::test::Fail;

#[test]
fn one_layout_is_drawn(rt: HostRuntime) -> Result<(), Fail> {
    let mut device = LogDevice::new(rt.alloc());
    let layout = layout_of(1, false);
    let flags = layout.flags();
    draw_once(rt.alloc(), &mut device, &layout, flags, &layout.counts)?;
    let calls = [
        Call::Create { pool: 0 },
        Call::Alloc { pool: 0, sets: 3 },
        Call::Release { pool: 0, sets: 3 },
        Call::Destroy { pool: 0 },
    ];
    expect_calls(&rt, &device, &calls);
    Ok(())
}

/// The word that refuses is discarded, and after the end of a script all is granted.
#[test]
fn grants_after_the_end(rt: HostRuntime) -> Result<(), Fail> {
    let script = refuse_at(rt.alloc(), 0, Answer::Frag)?;
    let mut device = ScriptedDevice::new(rt.alloc(), script);
    device.load(Vec::new(rt.alloc()));
    let layout = layout_of(1, false);
    draw_once(
        rt.alloc(),
        &mut device,
        &layout,
        layout.flags(),
        &layout.counts,
    )?;
    expect_same(&rt, (device.created(), device.destroyed()), (1, 1));
    expect_same(&rt, (device.asked(), device.released()), (1, 1));
    Ok(())
}

/// Each of the five frames has a material and four sets, the first three the water too. Two of three
/// pools go between the levels, and are created again.
#[test]
fn game_draws_five_frames(rt: HostRuntime) {
    let played = play(rt.alloc(), Vec::new(rt.alloc()), 5000);
    let wanted = Score {
        drawn: 28,
        refused: 0,
    };
    assert!(rt; played.score.is_ok_and(|score| score == wanted));
    expect_same(&rt, played.device.created(), 5);
    expect_same(&rt, played.device.destroyed(), 5);
}

/// Under a limit of one set of many textures, such a set is refused while the water has the place,
/// or the frame before.
#[test]
fn game_draws_under_its_limit(rt: HostRuntime) {
    let played = play(rt.alloc(), Vec::new(rt.alloc()), 16);
    let wanted = Score {
        drawn: 24,
        refused: 4,
    };
    assert!(rt; played.score.is_ok_and(|score| score == wanted));
    expect_same(&rt, played.device.created(), played.device.destroyed());
}

/// The name of the next pool, and how many the device creates, where that is at most 9.
fn pools_to_come<D: DescriptorDevice<ScriptLayout, RawPool, RawSet>>(
    device: &mut D,
) -> (Option<u64>, u32) {
    let counts = layout_of(1, false).counts;
    let flags = DescriptorPoolCreateFlags::FREE_DESCRIPTOR_SET;
    let mut first = None;
    for created in 0..9 {
        match device.create_descriptor_pool(&counts, 1, flags) {
            Ok(pool) => first = first.or(Some(pool.id())),
            Err(_) => return (first, created),
        }
    }
    (first, 9)
}

#[test]
fn drawings_create_a_pool_for_each_layout(rt: HostRuntime) {
    let mut one = render_one(rt.alloc());
    expect_same(&rt, one.answer, Ok(()));
    expect_same(&rt, pools_to_come(&mut one.device), (None, 0));
    let mut two = render(rt.alloc());
    expect_same(&rt, two.answer, Ok(()));
    expect_same(&rt, pools_to_come(&mut two.device), (Some(2), 3));
}
