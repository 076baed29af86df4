//! Where in a time-point a log has been read to.

/// How far a log has been read: what stands directly before.
#[derive(Clone, Copy)]
pub enum Stage {
    /// Nothing of a time-point: the beginning of the log, or a `;`.
    Between,
    /// An `@`.
    AfterAt,
    /// The timestamp.
    AfterStamp,
    /// A predicate's name.
    AfterName,
    /// The `(` of a group.
    AfterOpen,
    /// A value of a group.
    AfterValue,
    /// A `,` of a group.
    AfterComma,
    /// The `)` of a group.
    AfterClose,
}
