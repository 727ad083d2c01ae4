//! One whole test of a set manager, which shows its calls: read it first.
use descriptor_manager::SetManager;
use descriptor_script::{Answer, ScriptLayout, ScriptedDevice, refuse_at};
use gpu_descriptor::DescriptorTotalCount;
use std::test::Fail;

/// The device refuses its first call, so the first request is refused. The next one gets a set.
#[test]
fn draws_past_a_refusal(rt: HostRuntime) -> Result<(), Fail> {
    let script = refuse_at(rt.alloc(), 0, Answer::Device)?;
    let device = ScriptedDevice::new(rt.alloc(), script);
    let mut manager = SetManager::new(rt.alloc(), device, u32::MAX, 1);
    let counts = DescriptorTotalCount {
        sampler: 1,
        ..DescriptorTotalCount::default()
    };
    let mark = false;
    let layout = ScriptLayout { counts, mark }.to_set_layout();
    let layout = manager.add_layout(layout).ok().expect(&rt, "memory");
    assert!(rt; manager.begin_frame().is_ok());
    assert!(rt; manager.allocate_for_frame(layout).is_err());
    assert!(rt; manager.allocate_for_frame(layout).is_ok());
    manager.end_frame();
    let device = manager.shutdown();
    assert_eq!(rt; device.created(), 1);
    assert_eq!(rt; device.destroyed(), 1);
    Ok(())
}
