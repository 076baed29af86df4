//! How the monitoring of a log ends.
use log_reader::LogFault;

/// How the monitoring of a log ended.
#[derive(Drop)]
pub enum End {
    /// The log was read to its end, and the line of each settled position is written: how many these are, how many
    /// of them have a row, and how many rows all have.
    Finished {
        settled: u64,
        violated: u64,
        rows: u128,
    },
    /// The log ends in its first fault. The lines of all time-points before it are written.
    LogEnds(LogFault),
    /// The log could not be read on. The lines of all time-points that were complete by then are written.
    ReadFailed,
    /// The output took no more bytes.
    SinkFailed,
    /// Memory was refused.
    Memory,
}
