//! Sessions over an image in memory.

ghost use Rattle.std.specs.Prelude.{IfOk};
ghost use Rattle.disk_model.specs.World.{World};
ghost use Rattle.core_events.specs.Views.{plain_event};
ghost use Rattle.plain_model.specs.Step.{IsWhole};
ghost use Rattle.core_node.specs.Standing.{HasFiles};
ghost use Rattle.toy_core.specs.Toy.{Takes, shown};

use crate::asking::{flush, read, write};
use crate::image::{LENGTH, image, put};
use core_events::{Answer, Errno, Event, Reply};
use core_node::Node;
use disk_memory::MemoryHost;
use disk_model::Depot;
use image_model::CloseRefusal;
use std::alloc::{AllocError, Global};
use std::test::Fail;
use toy_core::Toy;
use toy_node::Core;

/// Opens the image that the depot has.
fn open<D: Depot>(alloc: Global, depot: &mut D) -> Result<Core, Fail>
    ensures files { IfOk result (λ core. HasFiles (shown core.toy) (D.world depot.new)) }
{
    let file = match depot.find("s") {
        Ok(Some(file)) => file,
        _ => return Err("no file".into()),
    };
    match Toy::begin(alloc, depot, file) {
        Ok(toy) => Ok(Core { toy }),
        Err(_) => Err("not opened".into()),
    }
}

/// Carries out an event.
fn take<D: Depot>(
    alloc: Global,
    depot: &mut D,
    core: &mut Core,
    event: &Event,
    answer: &mut Answer,
) -> Result<(), AllocError>
    requires whole { IsWhole (plain_event event.now) }
    requires takes { Takes (plain_event event.now) }
    requires files { HasFiles (shown core.old.toy) (D.world depot.old) }
    ensures files { HasFiles (shown core.new.toy) (D.world depot.new) }
{
    answer.make_room(alloc, event)?;
    core.step(depot, event, answer)
}

#[test]
fn what_is_written_is_read(rt: HostRuntime) -> Result<(), Fail> {
    let alloc = rt.alloc();
    let mut file = image(alloc, LENGTH)?;
    let mut host = MemoryHost::new(alloc, true)?;
    host.put_file("s", &file)?;
    let mut core = open(alloc, &mut host)?;
    let mut answer = Answer::new(alloc, 0)?;
    let event = write(alloc, 509, b"written")?;
    take(alloc, &mut host, &mut core, &event, &mut answer)?;
    assert!(rt; matches!(answer.reply, Reply::Done));
    let event = read(alloc, 507, 11)?;
    take(alloc, &mut host, &mut core, &event, &mut answer)?;
    assert!(rt; matches!(answer.reply, Reply::Bytes));
    assert_eq!(rt;
        answer.bytes.items.as_slice(),
        b"\0\0written\0\0".as_slice()
    );
    let event = flush(alloc)?;
    take(alloc, &mut host, &mut core, &event, &mut answer)?;
    assert!(rt; matches!(answer.reply, Reply::Done));
    assert_eq!(rt; core.close(&mut host, &mut answer), Ok(()));
    // The next epoch, and the bytes behind the tables.
    put(&mut file, 143, b"\x08");
    put(&mut file, 3069, b"written");
    assert!(rt; host.file("s") == Some(file.as_slice()));
    Ok(())
}

#[test]
fn a_failed_flush_breaks_the_source(rt: HostRuntime) -> Result<(), Fail> {
    let alloc = rt.alloc();
    let mut host = MemoryHost::new(alloc, true)?;
    host.put_file("s", &image(alloc, LENGTH)?)?;
    let mut core = open(alloc, &mut host)?;
    let mut answer = Answer::new(alloc, 0)?;
    let event = write(alloc, 509, b"written")?;
    take(alloc, &mut host, &mut core, &event, &mut answer)?;
    assert!(rt; matches!(answer.reply, Reply::Done));
    host.fail_calls(&[host.calls().saturating_add(1)])?;
    let event = flush(alloc)?;
    take(alloc, &mut host, &mut core, &event, &mut answer)?;
    assert!(rt; matches!(answer.reply, Reply::Fault(Errno::Io)));
    let event = read(alloc, 509, 7)?;
    take(alloc, &mut host, &mut core, &event, &mut answer)?;
    assert!(rt; matches!(answer.reply, Reply::Fault(Errno::Io)));
    assert_eq!(rt;
        core.close(&mut host, &mut answer),
        Err(CloseRefusal::Broken(2))
    );
    Ok(())
}
