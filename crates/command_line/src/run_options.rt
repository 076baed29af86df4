//! How a log is monitored.
ghost use Rattle.std.specs.Prelude.{◌≤◌};
ghost use Rattle.command_line.specs.Limits.{max_threads};

/// The options of `run`, beside the signature and the policy.
#[derive(Clone, Copy)]
pub struct RunOptions<'a> {
    /// The strategy's text, which is empty for one worker.
    pub strategy: &'a str,
    /// The name of the change script's file, where there is one.
    pub changes: Option<&'a str>,
    /// The name of the log's file.
    pub log: &'a str,
    /// How many threads serve the workers, 0 to 64. With none the thread that reads and writes does.
    pub threads: u32,
    pub ghost few: { threads ≤ max_threads },
}
