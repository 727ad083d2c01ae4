//! A small game over a manager: three layouts, two materials, five frames in two levels. Where the
//! device refuses a set, the game draws without.
ghost use Rattle.std.specs.Prelude.{◌≡◌};
ghost use Rattle.descriptor_script.specs.Scripted.Device.{empty_ledger, ledger_of};
ghost use Rattle.descriptor_script.specs.Scripted.Raw.{script_meaning};
ghost use Rattle.gpu_descriptor.specs.Caller.SetLayouts.{IsMeant};
ghost use Rattle.descriptor_manager.specs.Managers.{pools_besides};

use descriptor_manager::{LayoutHandle, RequestError, SetHandle, SetManager};
use descriptor_script::{Answer, RawPool, RawSet, ScriptLayout, ScriptedDevice};
use gpu_descriptor::{AllocationError, DescriptorTotalCount, SetLayout};
use std::alloc::Global;

type GameSets = SetManager<ScriptLayout, RawPool, RawSet, ScriptedDevice>;

/// What a game draws with.
#[derive(Clone, Copy)]
pub struct Scenery {
    plain: LayoutHandle,
    bindless: LayoutHandle,
    stone: SetHandle,
    water: SetHandle,
}

/// How many draws there were, and how many were refused.
#[derive(Clone, Copy, Debug, PartialEq, Eq)]
pub struct Score {
    pub drawn: u64,
    pub refused: u64,
}

/// What a game leaves.
#[derive(Drop)]
pub struct Played {
    pub device: ScriptedDevice,
    pub score: Result<Score, RequestError>,
}

/// Plays five frames. Whatever the device refuses, it has no pool afterwards.
pub fn play(alloc: Global, script: Vec<Answer>, limit: u32) -> Played
    ensures pools { (ledger_of result.device).pools ≡ empty_ledger.pools }
{
    let mut manager = SetManager::new(alloc, ScriptedDevice::new(alloc, script), limit, 1);
    let score = play_frames(&mut manager);
    Played {
        device: manager.shutdown(),
        score,
    }
}

/// Loads the scenery, and draws five frames. The first level ends after the third.
fn play_frames(manager: &mut GameSets) -> Result<Score, RequestError>
    ensures { pools_besides manager.new ≡ pools_besides manager.old }
{
    let scenery = load(manager)?;
    let mut score = Score {
        drawn: 0,
        refused: 0,
    };
    for frame in 1..6 {
        draw_frame(manager, &scenery, &mut score);
        if frame == 3 {
            end_level(manager, scenery.water, frame);
        }
    }
    Ok(score)
}

/// Ends a level: its water dries up, and once the device is done the sets of the level go back and the
/// empty pools are destroyed.
fn end_level(manager: &mut GameSets, water: SetHandle, last_frame: u64)
    ensures { pools_besides manager.new ≡ pools_besides manager.old }
{
    let _dried = manager.free_after(&[water], last_frame);
    manager.frame_done(last_frame);
    manager.cleanup();
}

/// Adds three layouts, and creates two materials.
fn load(manager: &mut GameSets) -> Result<Scenery, RequestError>
    ensures { pools_besides manager.new ≡ pools_besides manager.old }
{
    let plain = add(manager, layout_of(1, false))?;
    let textured = add(manager, layout_of(3, false))?;
    let bindless = add(manager, layout_of(16, true))?;
    Ok(Scenery {
        plain,
        bindless,
        stone: manager.allocate(textured)?,
        water: manager.allocate(bindless)?,
    })
}

/// Adds a layout.
fn add(
    manager: &mut GameSets,
    layout: SetLayout<ScriptLayout>,
) -> Result<LayoutHandle, RequestError>
    requires { IsMeant script_meaning layout }
    ensures { pools_besides manager.new ≡ pools_besides manager.old }
{
    match manager.add_layout(layout) {
        Ok(handle) => Ok(handle),
        Err(_) => Err(RequestError::Allocation(AllocationError::OutOfHostMemory)),
    }
}

/// A layout of `sampler` samplers.
fn layout_of(sampler: u32, mark: bool) -> SetLayout<ScriptLayout>
    ensures { IsMeant script_meaning result }
{
    let counts = DescriptorTotalCount {
        sampler,
        ..DescriptorTotalCount::default()
    };
    ScriptLayout { counts, mark }.to_set_layout()
}

/// Draws a frame: both materials, three plain sets, and a set of many textures. The device is done
/// with the frame two before.
fn draw_frame(manager: &mut GameSets, scenery: &Scenery, score: &mut Score)
    ensures { pools_besides manager.new ≡ pools_besides manager.old }
{
    let Ok(frame) = manager.begin_frame() else {
        return;
    };
    bind_material(manager, scenery.stone, score);
    bind_material(manager, scenery.water, score);
    for layout in [
        scenery.plain,
        scenery.plain,
        scenery.plain,
        scenery.bindless,
    ] {
        draw(manager, layout, score);
    }
    manager.end_frame();
    manager.frame_done(frame.saturating_sub(2));
}

/// Draws with a material, where it is still there.
fn bind_material(manager: &GameSets, material: SetHandle, score: &mut Score) {
    if let Some(raw) = manager.set(material) {
        bind(manager.device(), raw, score);
    }
}

/// Draws with a set of a layout, if there is one.
fn draw(manager: &mut GameSets, layout: LayoutHandle, score: &mut Score)
    ensures { pools_besides manager.new ≡ pools_besides manager.old }
{
    match manager.allocate_for_frame(layout) {
        Ok(draw) => {
            if let Some(raw) = manager.set(draw) {
                bind(manager.device(), raw, score);
            }
        }
        Err(_) => score.refused = score.refused.saturating_add(1),
    }
}

/// Stands for the device's calls that write a set and bind it.
fn bind(_device: &ScriptedDevice, _set: &RawSet, score: &mut Score) {
    score.drawn = score.drawn.saturating_add(1);
}
