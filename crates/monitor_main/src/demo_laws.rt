//! Laws of the demo's definitions, each the contract of a function: that its signature, policy and changes are accepted,
//! and what a demo answers. That its log is accepted is a law of log_reader.

ghost use Rattle.monitor_main.specs.DemoLaws.{DemoChangesAreAccepted, DemoIsAnswered, DemoIsDivided, DemoIsRun};
ghost use Rattle.monitor_main.specs.DemoLaws.{DemoPolicyIsAccepted, DemoPolicyIsMonitorable, DemoSignatureIsAccepted};

/// The signature of a demo is accepted, its policy over that signature, and its changes over the policy's variables.
pub fn demo_texts_are_accepted()
    ensures signature { DemoSignatureIsAccepted }
    ensures policy { DemoPolicyIsAccepted }
    ensures fragment { DemoPolicyIsMonitorable }
    ensures changes { DemoChangesAreAccepted }
{}

/// For each seed a demo tells the numbers of the verdicts on the time-points that are drawn. `run` on its texts writes
/// the lines of these verdicts, with whatever strategy and changes.
pub fn demo_is_answered()
    ensures divided { DemoIsDivided }
    ensures answered { DemoIsAnswered }
    ensures run { DemoIsRun }
{}
