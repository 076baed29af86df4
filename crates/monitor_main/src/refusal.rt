//! Why a run ends before the end of a log without faults.
ghost use Rattle.std.specs.Prelude.{◌≡◌};
ghost use Rattle.monitor_main.specs.Refusals.{status_of};

use crate::status::Status;
use command_line::WordsFault;
use log_reader::LogFault;
use mfotl_parse::PolicyFault;
use mfotl_sig::SigFault;
use monitorable::FragmentFault;
use slice_strategy::{ChangeFault, StrategyFault};
use std::alloc::AllocError;

/// A file that a run reads.
#[derive(Clone, Copy)]
pub enum InputFile {
    /// The signature, of `--sig`.
    Signature,
    /// The policy, of `--policy`.
    Policy,
    /// The change script, of `--changes`. A strategy is no file: it stands in the words.
    Changes,
    /// The log, of `--log`.
    Log,
}

/// What is refused, or the cause outside.
#[derive(Drop)]
pub enum Refusal {
    /// The words are no command line.
    Usage,
    /// The signature file has more bytes than it may have.
    LongSignature,
    /// The first fault of the signature.
    Signature(SigFault),
    /// The policy file has more bytes than it may have.
    LongPolicy,
    /// The first fault of the policy.
    Policy(PolicyFault),
    /// The first reason why the policy can't be monitored.
    Fragment(FragmentFault),
    /// The strategy's text has more bytes than it may have.
    LongStrategy,
    /// The first fault of the strategy.
    Strategy(StrategyFault),
    /// The change script has more bytes than it may have.
    LongChanges,
    /// The first fault of the change script.
    Changes(ChangeFault),
    /// The first fault of the log.
    Log(LogFault),
    /// The file could not be opened or read.
    Read(InputFile),
    /// The output took no more bytes.
    Write,
    /// Memory was refused.
    Memory,
}

impl From<WordsFault> for Refusal {
    ghost use Rattle.std.specs.Prelude.{◌≡◌};
    ghost use Rattle.monitor_main.specs.Refusals.{words_refusal};

    ghost from_gives = { λ fault refusal. refusal ≡ words_refusal fault };

    fn from(fault: WordsFault) -> Self {
        match fault {
            WordsFault::Usage => Refusal::Usage,
            WordsFault::Memory => Refusal::Memory,
        }
    }
}

impl From<SigFault> for Refusal {
    ghost use Rattle.std.specs.Prelude.{◌≡◌};
    ghost use Rattle.monitor_main.specs.Refusals.{sig_refusal};

    ghost from_gives = { λ fault refusal. refusal ≡ sig_refusal fault };

    fn from(fault: SigFault) -> Self {
        match fault {
            SigFault::Memory => Refusal::Memory,
            fault => Refusal::Signature(fault),
        }
    }
}

impl From<PolicyFault> for Refusal {
    ghost use Rattle.std.specs.Prelude.{◌≡◌};
    ghost use Rattle.monitor_main.specs.Refusals.{policy_refusal};

    ghost from_gives = { λ fault refusal. refusal ≡ policy_refusal fault };

    fn from(fault: PolicyFault) -> Self {
        match fault {
            PolicyFault::Memory => Refusal::Memory,
            fault => Refusal::Policy(fault),
        }
    }
}

impl From<FragmentFault> for Refusal {
    ghost use Rattle.std.specs.Prelude.{◌≡◌};
    ghost use Rattle.monitor_main.specs.Refusals.{fragment_refusal};

    ghost from_gives = { λ fault refusal. refusal ≡ fragment_refusal fault };

    fn from(fault: FragmentFault) -> Self {
        match fault {
            FragmentFault::Memory => Refusal::Memory,
            fault => Refusal::Fragment(fault),
        }
    }
}

impl From<StrategyFault> for Refusal {
    ghost use Rattle.std.specs.Prelude.{◌≡◌};
    ghost use Rattle.monitor_main.specs.Refusals.{strategy_refusal};

    ghost from_gives = { λ fault refusal. refusal ≡ strategy_refusal fault };

    fn from(fault: StrategyFault) -> Self {
        match fault {
            StrategyFault::Memory => Refusal::Memory,
            fault => Refusal::Strategy(fault),
        }
    }
}

impl From<ChangeFault> for Refusal {
    ghost use Rattle.std.specs.Prelude.{◌≡◌};
    ghost use Rattle.monitor_main.specs.Refusals.{changes_refusal};

    ghost from_gives = { λ fault refusal. refusal ≡ changes_refusal fault };

    fn from(fault: ChangeFault) -> Self {
        match fault {
            ChangeFault::Strategy(StrategyFault::Memory) => Refusal::Memory,
            fault => Refusal::Changes(fault),
        }
    }
}

impl From<LogFault> for Refusal {
    ghost use Rattle.std.specs.Prelude.{◌≡◌};
    ghost use Rattle.monitor_main.specs.Refusals.{log_refusal};

    ghost from_gives = { λ fault refusal. refusal ≡ log_refusal fault };

    fn from(fault: LogFault) -> Self {
        match fault {
            LogFault::Memory => Refusal::Memory,
            fault => Refusal::Log(fault),
        }
    }
}

impl From<AllocError> for Refusal {
    ghost use Rattle.std.specs.Prelude.{◌≡◌};
    ghost use Rattle.monitor_main.specs.declared.refusal.Refusal.TheVariants.{Memory};

    ghost from_gives = { λ _ refusal. refusal ≡ Memory };

    fn from(_e: AllocError) -> Self {
        Refusal::Memory
    }
}

impl Refusal {
    /// The status that a run ends with.
    pub fn status(&self) -> Status
        ensures { result ≡ status_of self.now }
    {
        match self {
            Refusal::Usage => Status::Usage,
            Refusal::LongSignature => Status::Signature,
            Refusal::Signature(_) => Status::Signature,
            Refusal::LongPolicy => Status::Policy,
            Refusal::Policy(_) => Status::Policy,
            Refusal::Fragment(_) => Status::Policy,
            Refusal::LongStrategy => Status::Strategy,
            Refusal::Strategy(_) => Status::Strategy,
            Refusal::LongChanges => Status::Strategy,
            Refusal::Changes(_) => Status::Strategy,
            Refusal::Log(_) => Status::Log,
            Refusal::Read(_) => Status::Read,
            Refusal::Write => Status::Write,
            Refusal::Memory => Status::Memory,
        }
    }
}
