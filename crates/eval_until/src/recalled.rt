//! The states of NEXT and UNTIL as plain data.

use relations::Table;
use until_rows::{KeptMarks, KeptStart};

/// What a state of NEXT keeps, apart from its configuration and its positions' times: how many positions
/// were pulled, whether the operand's table of the first position was pushed, and its tables from the
/// position behind the next one on.
#[derive(Drop)]
pub struct NextData {
    pub pulled: u64,
    pub started: bool,
    pub tables: Vec<Table>,
}

/// What a state of UNTIL keeps, apart from its configuration and its positions' times: how many
/// positions were pulled, of how many the tables were taken, the tables of later ones, and the rows.
#[derive(Drop)]
pub struct UntilData {
    pub pulled: u64,
    pub taken: u64,
    pub lefts: Vec<Table>,
    pub rights: Vec<Table>,
    pub starts: Vec<KeptStart>,
    pub rows: Vec<KeptMarks>,
}
