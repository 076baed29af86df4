//! One worker for all rows: main monitors each time-point itself, and writes its lines at once.
ghost use Rattle.std.specs.Prelude.{◌≡◌, ◌++◌, ◌∷◌, ◌≤◌, [], IfErr, IfOk, List, OnErr, OnOk, length};
ghost use Rattle.mon_outside.specs.Sink.{Appends, AppendsFront};
ghost use Rattle.mfotl_model.specs.VerdictText.{VerdictOf, line_of};
ghost use Rattle.monitorable.specs.Cores.{core_form};
ghost use Rattle.monitor_state.specs.MonitorView.{monitor_of};
ghost use Rattle.relations.specs.Tables.{IsTable};
ghost use Rattle.monitor_state.specs.Stands.{IsKept};
ghost use Rattle.monitor_state.specs.Verdicts.{IsEvaluable};
ghost use Rattle.lone_worker.specs.Alone.{ForEachDebt, ForEachNext, HasTakenNone, MayTakeAlone, WritesAlone, told_of};
ghost use Rattle.lone_worker.specs.Courses.{Settles};
ghost use Rattle.lone_worker.specs.Texts.{tally_of};
ghost use Rattle.lone_worker.specs.Verdicts.{Falls, IsOutputStop};

use crate::line_writer::LineWriter;
use crate::stop::Stop;
use mfotl_model::{RowList, TimePoint};
use mon_outside::Sink;
use monitor_state::{Monitor, Tables};
use monitorable::Core;
use relations::Table;
use std::alloc::{AllocError, Global};
use verdict_merge::Verdict;

/// The monitor of all rows, and what writes its lines.
#[derive(Drop)]
pub(crate) struct LoneWorker {
    pub(crate) monitor: Monitor,
    pub(crate) writer: LineWriter,
}

impl LoneWorker {
    /// Nothing was taken.
    pub(crate) fn new(alloc: Global, core: &Core) -> Result<Self, AllocError>
        requires { IsEvaluable (core_form core.now) }
        ensures { IfOk result (λ w. HasTakenNone (core_form core.now) w.monitor w.writer.tally) }
    {
        let monitor = Monitor::new(alloc, core)?;
        Ok(LoneWorker {
            monitor,
            writer: LineWriter::new(alloc),
        })
    }

    // Writes the line of a settled position, whose table this is.
    fn write_table<O: Sink>(&mut self, point: u64, table: Table, out: &mut O) -> Result<(), Stop>
        requires kept { IsKept (monitor_of self.old.monitor).state point 1 }
        ensures same { monitor_of self.new.monitor ≡ monitor_of self.old.monitor }
        ensures table { IsTable table.columns table.rows }
        ensures ok { OnOk result (Appends (O.written out.old) (O.written out.new)
            (line_of (told_of (monitor_of self.old.monitor).state point table))) }
        ensures counts { OnOk result ((verdicts : List VerdictOf) → self.old.writer.tally ≡ tally_of verdicts
            → self.new.writer.tally
            ≡ tally_of (verdicts ++ told_of (monitor_of self.old.monitor).state point table ∷ [])) }
        ensures front { OnErr result (AppendsFront (O.written out.old) (O.written out.new)
            (line_of (told_of (monitor_of self.old.monitor).state point table))) }
        ensures stop { IfErr result (λ stop. IsOutputStop (O.faults out.old) (O.faults out.new) stop) }
        ensures later { O.faults out.old ≤ O.faults out.new }
    {
        let ts = self.monitor.time_at(point);
        let rows = RowList::new(table.into_rows());
        let verdict = Verdict { point, ts, rows };
        self.writer.write(&verdict, out)?;
        self.monitor.take_back(verdict.rows.into_vec());
        Ok(())
    }

    // Writes the lines of the settled positions from the first on, whose tables these are one after the other.
    fn write_tables<O: Sink>(
        &mut self,
        first: u64,
        tables: &mut Tables,
        out: &mut O,
    ) -> Result<(), Stop>
        requires kept { IsKept (monitor_of self.old.monitor).state first (length tables.old) }
        ensures same { monitor_of self.new.monitor ≡ monitor_of self.old.monitor }
        ensures ok { OnOk result (ForEachDebt (monitor_of self.old.monitor).state (O.written out.old)
            self.old.writer.tally first tables.old (λ core points start.
            Settles core points start (O.written out.new) self.new.writer.tally)) }
        ensures err { OnErr result (ForEachDebt (monitor_of self.old.monitor).state (O.written out.old)
            self.old.writer.tally first tables.old (λ core points start. Falls core points start (O.written out.new))) }
        ensures stop { IfErr result (λ stop. IsOutputStop (O.faults out.old) (O.faults out.new) stop) }
        ensures later { O.faults out.old ≤ O.faults out.new }
    {
        let mut point = first;
        while let Some(table) = tables.take() {
            self.write_table(point, table, out)?;
            point += 1;
        }
        Ok(())
    }

    /// Takes a time-point, and writes the lines of all positions that are settled now and weren't before.
    pub(crate) fn take<O: Sink>(
        &mut self,
        alloc: Global,
        point: &TimePoint,
        out: &mut O,
    ) -> Result<(), Stop>
        requires may { MayTakeAlone self.old.monitor (O.written out.old) self.old.writer.tally point.now }
        ensures ok { OnOk result (ForEachNext self.old.monitor (O.written out.old) self.old.writer.tally point.now
            (λ core start points. WritesAlone core start self.new.monitor (O.written out.new) self.new.writer.tally
            points)) }
        ensures err { OnErr result (ForEachNext self.old.monitor (O.written out.old) self.old.writer.tally point.now
            (λ core start points. Falls core points start (O.written out.new))) }
        ensures stop { IfErr result (λ stop. IsOutputStop (O.faults out.old) (O.faults out.new) stop) }
        ensures later { O.faults out.old ≤ O.faults out.new }
    {
        let first = self.monitor.given();
        let mut tables = self.monitor.step(alloc, point)?;
        self.write_tables(first, &mut tables, out)
    }
}
