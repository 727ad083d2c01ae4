//! Draws one frame with a set manager, over any device.
ghost use Rattle.std.specs.Prelude.{◌≡◌};
ghost use Rattle.gpu_descriptor.specs.Caller.SetLayouts.{IsMeant};
ghost use Rattle.descriptor_manager.specs.Managers.{pools_besides};

use descriptor_manager::{LayoutHandle, RequestError, SetManager};
use gpu_descriptor::{DescriptorDevice, SetLayout};
use std::alloc::Global;

/// Adds a layout, frame sets a frame with it, and hands the device back, with the pools that it had.
pub fn draw_once<L: Drop, P: Drop, S: Drop, D: DescriptorDevice<L, P, S>>(
    alloc: Global,
    device: D,
    layout: SetLayout<L>,
) -> D
    requires meant { IsMeant D.meaning layout }
    ensures pools { (D.ledger result).pools ≡ (D.ledger device).pools }
{
    // The driver's limit on update-after-bind descriptors, and the number of this set manager.
    let mut manager = SetManager::new(alloc, device, u32::MAX, 1);
    if let Ok(layout) = manager.add_layout(layout) {
        let _drawn = draw_frame(&mut manager, layout);
    }
    manager.shutdown()
}

/// Draws a frame with a material that is held, and a set of the frame.
fn draw_frame<L: Drop, P: Drop, S: Drop, D: DescriptorDevice<L, P, S>>(
    manager: &mut SetManager<L, P, S, D>,
    layout: LayoutHandle,
) -> Result<(), RequestError>
    ensures pools { pools_besides manager.new ≡ pools_besides manager.old }
{
    let material = manager.allocate(layout)?;
    let Ok(frame) = manager.begin_frame() else {
        return Err(RequestError::NoFrame);
    };
    let frame_set = manager.allocate_for_frame(layout)?;
    if let (Some(_material), Some(_set)) = (manager.set(material), manager.set(frame_set)) {
        // .. `manager.device()` writes both and binds them ..
    }
    manager.end_frame();
    // .. it submits the work, and waits until the device is done with it ..
    manager.frame_done(frame);
    let _destroyed = manager.free_after(&[material], frame);
    Ok(())
}
