//! How a run ends.
ghost use Rattle.std.specs.Prelude.{◌≡◌};
ghost use Rattle.monitor_main.specs.Status.{code_of};

/// How a run ended: the exit status of the program is its number.
#[derive(Clone, Copy)]
pub enum Status {
    /// The log was read to its end, and no line has a row; `check` accepts the policy, or `demo` has told its line.
    Clean,
    /// The log was read to its end, and some line has a row.
    Violated,
    /// The words are no command line of this program.
    Usage,
    /// The signature has a fault.
    Signature,
    /// The policy has a fault.
    Policy,
    /// The strategy or the change script has a fault.
    Strategy,
    /// The log has a fault.
    Log,
    /// A file could not be read.
    Read,
    /// The output could not be written.
    Write,
    /// Memory was refused.
    Memory,
}

impl Status {
    /// The exit status of the program.
    pub fn code(self) -> u8
        ensures { result ≡ code_of self }
    {
        match self {
            Status::Clean => 0,
            Status::Violated => 1,
            Status::Usage => 2,
            Status::Signature => 3,
            Status::Policy => 4,
            Status::Strategy => 5,
            Status::Log => 6,
            Status::Read => 7,
            Status::Write => 8,
            Status::Memory => 9,
        }
    }
}
