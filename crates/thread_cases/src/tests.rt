//! Runs whose threads have to overlap or whose change has to be made, and the turns of hubs.
use crate::{Counter, Echo, Meeting, WatchedSink};
use mon_outside::{MemInputs, MemSink, NamedFile, OpenGate};
use monitor_main::run;
use std::alloc::{AllocError, Global};
use std::test::Fail;
use turn_hub::{Hub, Served, Swap};

fn file(alloc: Global, name: &str, text: &str) -> Result<NamedFile, AllocError> {
    Ok(NamedFile {
        name: String::from_str(alloc, name)?,
        bytes: Vec::from_slice(alloc, text.as_bytes())?,
    })
}

// The words of a run, with more behind them.
fn words(alloc: Global, more: &str) -> Result<Vec<String>, AllocError> {
    let line = "monitor run --sig s --policy p --log l";
    let mut words = Vec::new(alloc);
    for word in line.split(' ') {
        words.push(String::from_str(alloc, word)?)?;
    }
    for word in more.split(' ') {
        words.push(String::from_str(alloc, word)?)?;
    }
    Ok(words)
}

fn files(alloc: Global) -> Result<Vec<NamedFile>, AllocError> {
    let mut files = Vec::new(alloc);
    files.push(file(alloc, "s", "publish(int) approve(int)")?)?;
    files.push(file(alloc, "p", "publish(x) IMPLIES ONCE[0,7] approve(x)")?)?;
    files.push(file(
        alloc,
        "l",
        "@1 approve(52) @3 publish(52)(60) @9 publish(52)",
    )?)?;
    files.push(file(alloc, "c", "before 1 x=hash:2")?)?;
    Ok(files)
}

// The lines of the run, whatever the strategies.
const LINES: &[u8] = b"@1 (time point 0):\n@3 (time point 1): (60)\n@9 (time point 2): (52)\n";

#[test]
fn two_workers_overlap(rt: HostRuntime) -> Result<(), Fail> {
    let alloc = rt.alloc();
    let files = files(alloc)?;
    let words = words(alloc, "--strategy x=hash:2 --threads 2")?;
    let meeting = Meeting::new();
    let mut inputs = MemInputs::new(files.as_slice(), 4096, &[]);
    let mut out = WatchedSink::new(MemSink::new(alloc, &[]), &meeting);
    let mut err = MemSink::new(alloc, &[]);
    let status = run(&rt, alloc, words, &mut inputs, &mut out, &mut err, &meeting);
    assert_eq!(rt; status.code(), 1);
    assert!(rt; out.inner().written() == LINES);
    assert!(rt; err.written().is_empty());
    assert!(rt; meeting.passes() == (3, 3));
    assert!(rt; !meeting.gave_up() && !meeting.misnumbered());
    assert_eq!(rt; out.lines(), 3);
    assert!(rt; !out.was_early());
    Ok(())
}

// No line of a run tells that a change is made. Worker 1 passes with its piece and with two slices.
#[test]
fn change_gives_the_second_worker_work(rt: HostRuntime) -> Result<(), Fail> {
    let alloc = rt.alloc();
    let files = files(alloc)?;
    let words = words(alloc, "--changes c --threads 0")?;
    let second = Counter::new(1);
    let mut inputs = MemInputs::new(files.as_slice(), 4096, &[]);
    let mut out = MemSink::new(alloc, &[]);
    let mut err = MemSink::new(alloc, &[]);
    let status = run(&rt, alloc, words, &mut inputs, &mut out, &mut err, &second);
    assert_eq!(rt; status.code(), 1);
    assert!(rt; out.written() == LINES);
    assert!(rt; err.written().is_empty());
    assert_eq!(rt; second.passes(), 3);
    Ok(())
}

// A list of numbers.
fn numbers(alloc: Global, all: &[u32]) -> Result<Vec<u32>, AllocError> {
    Ok(Vec::from_slice(alloc, all)?)
}

#[test]
fn turns_of_two_cells(rt: HostRuntime) -> Result<(), Fail> {
    let alloc = rt.alloc();
    let mut works = Vec::new(alloc);
    works.push(Echo { name: 7, room: 2 })?;
    works.push(Echo { name: 8, room: 2 })?;
    let (hub, mut main, mut hands) = Hub::open(alloc, works)?;
    assert!(rt; matches!(hub.serve(alloc, &mut hands[0], &OpenGate), Served::NotGiven));
    let first = hub.swap(&mut main, 0, numbers(alloc, &[3, 4])?);
    assert!(rt; matches!(&first, Swap::Back(0, outs) if outs.is_empty()));
    let second = hub.swap(&mut main, 0, numbers(alloc, &[5])?);
    assert!(rt; matches!(&second, Swap::NotYet(items) if items.as_slice() == [5].as_slice()));
    assert!(rt;
        matches!(
            hub.serve(alloc, &mut hands[0], &OpenGate),
            Served::Worked(2)
        )
    );
    let third = hub.swap(&mut main, 0, Vec::new(alloc));
    assert!(rt; matches!(&third, Swap::Back(2, outs) if outs.as_slice() == [3, 4].as_slice()));
    assert!(rt; matches!(hub.serve(alloc, &mut hands[0], &OpenGate), Served::NotGiven));
    let works = hub.close(alloc, main, hands)?;
    assert!(rt; works.len() == 2 && works[0].name == 7 && works[1].name == 8);
    Ok(())
}
