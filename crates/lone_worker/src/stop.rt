//! Why a run stops before the end of a log without faults.
use log_reader::LogFault;
use std::alloc::AllocError;
use thiserror::Error;

/// What stops a run.
#[derive(Debug, Drop, Error)]
pub enum Stop {
    /// The first fault of the log, behind all lines.
    #[error("Log {0}")]
    Log(LogFault),
    /// The log could not be read on.
    #[error("Read")]
    Read,
    /// The output took no more bytes.
    #[error("Sink")]
    Sink,
    /// Memory was refused.
    #[error("Memory")]
    Memory,
}

impl From<AllocError> for Stop {
    ghost use Rattle.std.specs.Prelude.{◌≡◌};
    ghost use Rattle.lone_worker.specs.declared.stop.Stop.TheVariants.{Memory};

    ghost from_gives = { λ fault stop. stop ≡ Memory };

    fn from(_: AllocError) -> Self {
        Stop::Memory
    }
}

impl From<LogFault> for Stop {
    ghost use Rattle.std.specs.Prelude.{◌≡◌};
    ghost use Rattle.lone_worker.specs.Chunks.{stop_for};

    ghost from_gives = { λ fault stop. stop ≡ stop_for fault };

    fn from(fault: LogFault) -> Self {
        match fault {
            LogFault::Memory => Stop::Memory,
            fault => Stop::Log(fault),
        }
    }
}
