//! What a node is in the one around it.
ghost use Rattle.std.specs.Prelude.{◌≡◌};

/// What a node is in the one around it.
#[derive(Clone, Copy, PartialEq, Eq)]
pub enum Role {
    /// A node by itself.
    Whole,
    /// A conjunct of a conjunction.
    Part,
    /// What stands under a NOT that is a conjunct.
    Negated,
    /// The left side of SINCE or UNTIL.
    Left,
}

impl Role {
    ghost use Rattle.monitorable.specs.Fragment.{is_conjunction, judges_comparison, judges_not, under_not};

    /// The role of what stands under a NOT of this role.
    pub fn under_not(self) -> Role
        ensures { result ≡ under_not self }
    {
        match self {
            Role::Left => Role::Whole,
            Role::Whole | Role::Part | Role::Negated => Role::Negated,
        }
    }

    /// Whether a conjunction of this role is a whole one, so that its variables are judged there.
    pub fn is_conjunction(self) -> bool
        ensures { result ≡ is_conjunction self }
    {
        match self {
            Role::Part => false,
            Role::Whole | Role::Negated | Role::Left => true,
        }
    }

    /// Whether the variables of a NOT of this role are judged there.
    pub fn judges_not(self) -> bool
        ensures { result ≡ judges_not self }
    {
        match self {
            Role::Part | Role::Left => false,
            Role::Whole | Role::Negated => true,
        }
    }

    /// Whether the variables of a comparison of this role are judged there.
    pub fn judges_comparison(self) -> bool
        ensures { result ≡ judges_comparison self }
    {
        match self {
            Role::Part | Role::Negated => false,
            Role::Whole | Role::Left => true,
        }
    }
}
