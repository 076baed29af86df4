//! A hub of two cells, one of which has no memory for its second item.
ghost use Rattle.std.specs.Prelude.{◌≡◌, ◌<◌, length, All, IfOk};
ghost use Rattle.turn_hub.specs.Ends.{IsMainOf, IsHandOf, cell_count};

use crate::Echo;
use mon_outside::OpenGate;
use std::alloc::{AllocError, Global};
use std::test::Fail;
use turn_hub::{Hand, Hub, Main, Served, Swap};

type Ends = (Hub<Echo>, Main<Echo>, Vec<Hand<Echo>>);

// Cell 0 has no memory for its second item, and cell 1 has enough for all.
fn opened(alloc: Global) -> Result<Ends, AllocError>
    ensures main { IfOk result (λ r. (cell_count r.0 ≡ 2) × IsMainOf r.0 r.1) }
    ensures hands { IfOk result (λ r. (length r.2.items ≡ 2) × All (λ h. IsHandOf r.0 h) r.2.items) }
{
    let mut works = Vec::new(alloc);
    works.push(Echo { name: 7, room: 1 })?;
    works.push(Echo { name: 8, room: 100 })?;
    Hub::open(alloc, works)
}

// Swaps at a cell, handing these numbers over.
fn swap(
    alloc: Global,
    hub: &Hub<Echo>,
    main: &mut Main<Echo>,
    number: u32,
    items: &[u32],
) -> Result<Swap<u32, u32>, AllocError>
    requires main { IsMainOf hub.now main.old }
    requires near { number < cell_count hub.now }
    ensures { IsMainOf hub.now main.new }
{
    let items = Vec::from_slice(alloc, items)?;
    Ok(hub.swap(main, number, items))
}

// Whether these outs came back of so many items.
fn is_back(found: &Swap<u32, u32>, count: u64, outs: &[u32]) -> bool {
    matches!(found, Swap::Back(of, given) if *of == count && given.as_slice() == outs)
}

// Whether the cell was broken, and these items came back.
fn is_broken(found: &Swap<u32, u32>, items: &[u32]) -> bool {
    matches!(found, Swap::Broken(given) if given.as_slice() == items)
}

// Whether it was the hand's turn, and these items came back.
fn is_not_yet(found: &Swap<u32, u32>, items: &[u32]) -> bool {
    matches!(found, Swap::NotYet(given) if given.as_slice() == items)
}

#[test]
fn second_item_refused(rt: HostRuntime) -> Result<(), Fail> {
    let alloc = rt.alloc();
    let (hub, mut main, mut hands) = opened(alloc)?;
    let first = swap(alloc, &hub, &mut main, 0, &[3, 4, 5])?;
    assert!(rt; is_back(&first, 0, &[]));
    assert!(rt; matches!(hub.serve(alloc, &mut hands[0], &OpenGate), Served::Memory));
    let second = swap(alloc, &hub, &mut main, 0, &[6])?;
    assert!(rt; is_broken(&second, &[6]));
    let third = swap(alloc, &hub, &mut main, 0, &[6])?;
    assert!(rt; is_broken(&third, &[6]));
    assert!(rt; matches!(hub.serve(alloc, &mut hands[0], &OpenGate), Served::NotGiven));
    let fourth = swap(alloc, &hub, &mut main, 0, &[])?;
    assert!(rt; is_broken(&fourth, &[]));
    Ok(())
}

#[test]
fn other_cell_goes_on(rt: HostRuntime) -> Result<(), Fail> {
    let alloc = rt.alloc();
    let (hub, mut main, mut hands) = opened(alloc)?;
    let given = swap(alloc, &hub, &mut main, 0, &[3])?;
    let other = swap(alloc, &hub, &mut main, 1, &[13, 14])?;
    assert!(rt; is_back(&given, 0, &[]) && is_back(&other, 0, &[]));
    assert!(rt;
        matches!(
            hub.serve(alloc, &mut hands[0], &OpenGate),
            Served::Worked(1)
        )
    );
    let taken = swap(alloc, &hub, &mut main, 0, &[4, 5])?;
    assert!(rt; is_back(&taken, 1, &[3]));
    assert!(rt; matches!(hub.serve(alloc, &mut hands[0], &OpenGate), Served::Memory));
    assert!(rt;
        matches!(
            hub.serve(alloc, &mut hands[1], &OpenGate),
            Served::Worked(2)
        )
    );
    let broken = swap(alloc, &hub, &mut main, 0, &[6])?;
    assert!(rt; is_broken(&broken, &[6]));
    let first = swap(alloc, &hub, &mut main, 1, &[15])?;
    assert!(rt; is_back(&first, 2, &[13, 14]));
    let early = swap(alloc, &hub, &mut main, 1, &[16])?;
    assert!(rt; is_not_yet(&early, &[16]));
    assert!(rt; matches!(hub.serve(alloc, &mut hands[0], &OpenGate), Served::NotGiven));
    assert!(rt;
        matches!(
            hub.serve(alloc, &mut hands[1], &OpenGate),
            Served::Worked(1)
        )
    );
    let last = swap(alloc, &hub, &mut main, 1, &[])?;
    assert!(rt; is_back(&last, 1, &[15]));
    assert!(rt; matches!(hub.serve(alloc, &mut hands[1], &OpenGate), Served::NotGiven));
    Ok(())
}
