//! The states of OR and of conjunctions as plain data.

use relations::Table;

/// What a state of OR keeps, apart from its configuration.
#[derive(Drop)]
pub struct OrData {
    pub pulled: u64,
    pub lefts: Vec<Table>,
    pub rights: Vec<Table>,
}

/// What a conjunction's state keeps, apart from its conjuncts: how many positions were pulled, and the
/// tables of each child for later ones.
#[derive(Drop)]
pub struct JoinData {
    pub pulled: u64,
    pub tables: Vec<Vec<Table>>,
}
