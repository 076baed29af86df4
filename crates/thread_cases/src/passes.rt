//! With which numbers the gate of a cell is passed.
ghost use Rattle.std.specs.Prelude.{◌≡◌, ◌<◌, length, All, IfOk};
ghost use Rattle.turn_hub.specs.Ends.{IsMainOf, IsHandOf, cell_count};

use crate::{Counted, Numbers};
use std::alloc::{AllocError, Global};
use std::test::Fail;
use turn_hub::{Hand, Hub, Main};

type Ends<'a> = (Hub<Counted<'a>>, Main<Counted<'a>>, Vec<Hand<Counted<'a>>>);

// Two cells with works that say to this gate what they take.
fn opened(alloc: Global, gate: &Numbers) -> Result<Ends<'_>, AllocError>
    ensures main { IfOk result (λ r. (cell_count r.0 ≡ 2) × IsMainOf r.0 r.1) }
    ensures hands { IfOk result (λ r. (length r.2.items ≡ 2) × All (λ h. IsHandOf r.0 h) r.2.items) }
{
    let mut works = Vec::new(alloc);
    works.push(Counted { gate })?;
    works.push(Counted { gate })?;
    Hub::open(alloc, works)
}

// Hands these numbers over to a cell.
fn hand_over<'a>(
    alloc: Global,
    hub: &Hub<Counted<'a>>,
    main: &mut Main<Counted<'a>>,
    number: u32,
    items: &[u32],
) -> Result<(), AllocError>
    requires main { IsMainOf hub.now main.old }
    requires near { number < cell_count hub.now }
    ensures { IsMainOf hub.now main.new }
{
    let items = Vec::from_slice(alloc, items)?;
    let _back = hub.swap(main, number, items);
    Ok(())
}

#[test]
fn gate_is_passed_before_each_item(rt: HostRuntime) -> Result<(), Fail> {
    let alloc = rt.alloc();
    let gate = Numbers::new(1);
    let (hub, mut main, mut hands) = opened(alloc, &gate)?;
    hand_over(alloc, &hub, &mut main, 1, &[3, 4])?;
    let _two = hub.serve(alloc, &mut hands[1], &gate);
    hand_over(alloc, &hub, &mut main, 1, &[5])?;
    let _one = hub.serve(alloc, &mut hands[1], &gate);
    assert_eq!(rt; gate.passes(), 3);
    assert!(rt; !gate.differed());
    Ok(())
}
