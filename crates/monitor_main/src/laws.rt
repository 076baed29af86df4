//! Laws of the definitions, each the contract of a function.
ghost use Rattle.monitor_main.specs.AnswerLaws.{CheckAccepts, StrategiesAgree};
ghost use Rattle.monitor_main.specs.TextLaw.{VerdictsGrow};
ghost use Rattle.monitor_main.specs.WorkedAnswers.{ColumnsInFull, DemoInFull, LimitsInFull, StatusNumbers};
ghost use Rattle.monitor_main.specs.WorkedAnswers.{VerdictStatuses};
ghost use Rattle.monitor_main.specs.WorkedLines.{ChangesLines, FragmentLines, LogLines, OutsideLines, PolicyLines};
ghost use Rattle.monitor_main.specs.WorkedLines.{RefusalStatuses, SignatureLines, StrategyLines, UsageInFull};

pub use command_line::laws::{worked_limits, worked_words};

/// `check` accepts each policy that can be monitored, and tells its free variables.
pub fn check_accepts()
    ensures { CheckAccepts }
{}

/// A run answers the same by each strategy and each list of changes that are accepted, however many workers they make.
pub fn strategies_agree()
    ensures { StrategiesAgree }
{}

/// With one time-point more the verdicts stay, and those on the positions that it settles come behind them.
pub fn verdicts_grow()
    ensures { VerdictsGrow }
{}

/// Statuses, the lines of each kind of refusal, of a policy's variables and of a demo, and the most bytes of a file,
/// worked out in full.
pub fn worked_answers()
    ensures numbers { StatusNumbers }
    ensures verdicts { VerdictStatuses }
    ensures statuses { RefusalStatuses }
    ensures usage { UsageInFull }
    ensures signature { SignatureLines }
    ensures policy { PolicyLines }
    ensures fragment { FragmentLines }
    ensures strategy { StrategyLines }
    ensures changes { ChangesLines }
    ensures log { LogLines }
    ensures outside { OutsideLines }
    ensures columns { ColumnsInFull }
    ensures demo { DemoInFull }
    ensures limits { LimitsInFull }
{}
