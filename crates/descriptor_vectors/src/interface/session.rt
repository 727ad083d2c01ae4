//! The scripted device, the device that lists its calls, and sessions.
ghost use Rattle.std.specs.Prelude.{map};
ghost use Rattle.std.specs.Iterator.{HoldsAlong};
ghost use Rattle.gpu_descriptor_types.specs.Ledger.{AreLive, CanDrain};
ghost use Rattle.gpu_descriptor_types.specs.Side.{side};
ghost use Rattle.gpu_descriptor.specs.Caller.States.{state_of};
ghost use Rattle.gpu_descriptor.specs.Model.Agreement.{HasNoPools};
ghost use Rattle.descriptor_script.specs.Scripted.Device.{ledger_of};
ghost use Rattle.descriptor_script.specs.Scripted.Raw.{pool_id, set_id};
ghost use Rattle.descriptor_script.specs.Sessions.Session.{IsReady, value_of};

use super::{is_compared, is_debug, is_plain, is_value};
use crate::{Call, LogDevice};
use descriptor_script::headline::headline;
use descriptor_script::visit::visit;
use descriptor_script::{
    Answer, Command, RawPool, RawSet, Reply, ScriptLayout, ScriptedDevice, Session, refuse_at,
};
use gpu_descriptor::{
    AllocationError, CreatePoolError, DescriptorAllocator, DescriptorDevice, DescriptorSet,
    DescriptorSetLayoutCreateFlags, DescriptorTotalCount, DeviceAllocationError, SetLayout,
};
use std::alloc::{AllocError, Global};

fn number_of_answer(answer: Answer) -> u8 {
    match answer {
        Answer::Ok => 0,
        Answer::Device => 1,
        Answer::Host => 2,
        Answer::Frag => 3,
        Answer::Pool => 4,
    }
}

fn script(alloc: Global, place: usize) -> Result<Vec<Answer>, AllocError> {
    refuse_at(alloc, place, Answer::Pool)
}

fn parts(layout: ScriptLayout) -> (DescriptorTotalCount, bool) {
    let ScriptLayout { counts, mark } = layout;
    (counts, mark)
}

fn flags_of_layout(
    layout: ScriptLayout,
) -> (DescriptorSetLayoutCreateFlags, SetLayout<ScriptLayout>) {
    let flags: DescriptorSetLayoutCreateFlags = layout.flags();
    (flags, layout.to_set_layout())
}

fn is_device<L, P, S, D: DescriptorDevice<L, P, S>>() {}

fn names(pool: &RawPool, set: &RawSet) -> (u64, u64, u64) {
    (pool.id(), set.id(), set.pool())
}

fn counters_of_a_device(alloc: Global) -> Result<[u64; 4], AllocError> {
    is_value::<Answer>();
    is_plain::<ScriptLayout>();
    is_debug::<RawPool>();
    is_debug::<RawSet>();
    is_debug::<ScriptedDevice>();
    is_debug::<LogDevice>();
    is_device::<ScriptLayout, RawPool, RawSet, ScriptedDevice>();
    is_device::<ScriptLayout, RawPool, RawSet, LogDevice>();
    let mut device: ScriptedDevice = ScriptedDevice::new(alloc, script(alloc, 3)?);
    device.load(Vec::new(alloc));
    Ok([
        device.created(),
        device.destroyed(),
        device.asked(),
        device.released(),
    ])
}

fn counters_of_a_log(alloc: Global) -> ([u64; 4], usize) {
    is_value::<Call>();
    let device: LogDevice = LogDevice::new(alloc);
    let calls: usize = device.calls().len();
    let counters: [u64; 4] = [
        device.created(),
        device.destroyed(),
        device.asked(),
        device.released(),
    ];
    (counters, calls)
}

fn number_of_call(call: Call) -> u8 {
    match call {
        Call::Create { pool } => {
            let _pool: u64 = pool;
            0
        }
        Call::Alloc { pool, sets } => {
            let (_pool, _sets): (u64, u32) = (pool, sets);
            1
        }
        Call::Release { pool, sets } => {
            let (_pool, _sets): (u64, usize) = (pool, sets);
            2
        }
        Call::Destroy { pool } => {
            let _pool: u64 = pool;
            3
        }
    }
}

fn device_with_names(alloc: Global, first_pool: u64, first_set: u64) -> ScriptedDevice {
    ScriptedDevice::with_names(alloc, Vec::new(alloc), first_pool, first_set)
}

fn refuse(
    device: &mut ScriptedDevice,
    pool: &RawPool,
    errors: (CreatePoolError, DeviceAllocationError),
) {
    device.refuse_create(errors.0);
    device.refuse_alloc(pool, errors.1);
}

fn release<I: Iterator<Item = RawSet>>(
    device: &mut ScriptedDevice,
    pool: &mut RawPool,
    sets: &mut I,
) -> usize
    requires ends { CanDrain I.can_next I.remaining sets.old }
    requires live { HoldsAlong I.next_gives sets.old
        (λ xs. AreLive (pool_id pool.old) (map set_id xs) (ledger_of device.old)) }
{
    device.release(pool, sets)
}

fn number_of_command(command: &Command) -> u8 {
    match command {
        Command::Allocate { layout, count } => {
            let (_layout, _count): (usize, u32) = (*layout, *count);
            0
        }
        Command::Free { tickets } => {
            let _tickets: &Vec<usize> = tickets;
            1
        }
        Command::Cleanup => 2,
    }
}

fn number_of_reply(reply: Reply) -> u8 {
    match reply {
        Reply::Sets { first, count } => {
            let (_first, _count): (usize, u32) = (first, count);
            0
        }
        Reply::Refused(error) => {
            let _error: AllocationError = error;
            1
        }
        Reply::Freed(count) => {
            let _count: usize = count;
            2
        }
        Reply::BadTicket => 3,
        Reply::BadLayout => 4,
        Reply::NoMemory => 5,
        Reply::Clean => 6,
    }
}

fn add_layout<L, P, S>(
    session: &mut Session<L, P, S>,
    layout: L,
    counts: DescriptorTotalCount,
    flags: DescriptorSetLayoutCreateFlags,
) -> Result<usize, L> {
    session.add_layout(layout, counts, flags)
}

fn step<L, P: Drop, S: Drop, D: DescriptorDevice<L, P, S>>(
    session: &mut Session<L, P, S>,
    device: &mut D,
    command: &Command,
) -> Reply
    requires { IsReady D.meaning (side (value_of session.old) (D.ledger device.old)) }
{
    session.step(device, command)
}

fn run<L, P: Drop, S: Drop, D: DescriptorDevice<L, P, S>>(
    session: &mut Session<L, P, S>,
    device: &mut D,
    commands: &[Command],
) -> Result<Vec<Reply>, AllocError>
    requires { IsReady D.meaning (side (value_of session.old) (D.ledger device.old)) }
{
    session.run(device, commands)
}

fn run_by_headline<L, P: Drop, S: Drop, D: DescriptorDevice<L, P, S>>(
    session: &mut Session<L, P, S>,
    device: &mut D,
    commands: &[Command],
) -> Result<Vec<Reply>, AllocError>
    requires { IsReady D.meaning (side (value_of session.old) (D.ledger device.old)) }
{
    headline(session, device, commands)
}

fn visit_device<L, P: Drop, S: Drop, D: DescriptorDevice<L, P, S>>(
    session: &mut Session<L, P, S>,
    device: &mut D,
    commands: &[Command],
) -> Result<Vec<Reply>, AllocError>
    requires ready { IsReady D.meaning (side (value_of session.old) (D.ledger device.old)) }
    requires began { HasNoPools (state_of D.meaning.pool_name (value_of session.old).allocator
        (D.ledger device.old)) }
{
    visit(session, device, commands)
}

fn layout<L, P, S>(session: &Session<L, P, S>, place: usize) -> Option<&SetLayout<L>> {
    session.layout(place)
}

fn allocator<L, P, S>(session: &Session<L, P, S>) -> &DescriptorAllocator<P, S> {
    session.allocator()
}

fn set<L, P, S>(session: &Session<L, P, S>, ticket: usize) -> Option<&DescriptorSet<S>> {
    session.set(ticket)
}

fn tickets_of_a_new_session(alloc: Global) -> (u64, usize) {
    is_compared::<Command>();
    is_value::<Reply>();
    is_debug::<Session<u8, u8, u8>>();
    let session: Session<u8, u8, u8> = Session::new(alloc, u32::MAX);
    let held: u64 = session.held();
    let next: usize = session.next_ticket();
    (held, next)
}
