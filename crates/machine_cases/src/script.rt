//! The entries that a machine reads.
ghost use Rattle.std.specs.Prelude.{IfOk};
ghost use Rattle.mfotl_model.specs.Strategies.{Strategy as StrategyOf};
ghost use Rattle.monitorable.specs.Cores.{core_form};
ghost use Rattle.rescale_worker.specs.Lines.{AreSound, first_spot};
ghost use Rattle.rescale_worker.specs.Workers.{IsFor};
ghost use Rattle.machine_cases.specs.Scripts.{AreReadable};

use crate::setting::Setting;
use crate::texts::Stop;
use mfotl_model::TimePoint;
use rescale_core::Entry;
use slice_strategy::Strategy;
use std::alloc::Global;

// The most entries of a machine.
const MAX_ENTRIES: usize = 1 << 20;

/// The entries of a text: time-points, and changes to the strategies behind the word `change`.
pub fn entries_of(alloc: Global, setting: &Setting, text: &str) -> Result<Vec<Entry>, Stop>
    ensures { IfOk result (λ entries. (s : StrategyOf) →
        AreSound (core_form setting.now.core) (first_spot s) entries.items) }
{
    let mut entries = Vec::new(alloc);
    let mut last = 0;
    for entry in text.split("; ") {
        last = put_entry(alloc, setting, &mut entries, last, entry)?;
    }
    Ok(entries)
}

// Puts an entry behind others up to a timestamp, and answers how far they go then.
fn put_entry(
    alloc: Global,
    setting: &Setting,
    entries: &mut Vec<Entry>,
    last: u64,
    text: &str,
) -> Result<u64, Stop>
    requires { AreReadable (core_form setting.now.core) entries.old.items last }
    ensures { IfOk result (λ now. AreReadable (core_form setting.now.core) entries.new.items now) }
{
    match text.strip_prefix("change ") {
        Some(strategy) => {
            let strategy = setting.strategy(alloc, strategy)?;
            put_change(setting, entries, last, strategy)
        }
        None => {
            let point = setting.point(alloc, text)?;
            put_point(setting, entries, last, point)
        }
    }
}

#[tactic(auto, using(crate::proofs::ScriptLemmas::script_changes))]
fn put_change(
    setting: &Setting,
    entries: &mut Vec<Entry>,
    last: u64,
    strategy: Strategy,
) -> Result<u64, Stop>
    requires script { AreReadable (core_form setting.now.core) entries.old.items last }
    requires fits { IsFor (core_form setting.now.core) strategy }
    ensures { IfOk result (λ now. AreReadable (core_form setting.now.core) entries.new.items now) }
{
    entries.push(Entry::Change(strategy))?;
    Ok(last)
}

#[tactic(auto, using(crate::proofs::ScriptLemmas::script_reads))]
fn put_point(
    setting: &Setting,
    entries: &mut Vec<Entry>,
    last: u64,
    point: TimePoint,
) -> Result<u64, Stop>
    requires { AreReadable (core_form setting.now.core) entries.old.items last }
    ensures { IfOk result (λ now. AreReadable (core_form setting.now.core) entries.new.items now) }
{
    let now = point.ts;
    if now < last || entries.len() >= MAX_ENTRIES {
        return Err(Stop::Malformed);
    }
    entries.push(Entry::Point(point))?;
    Ok(now)
}
