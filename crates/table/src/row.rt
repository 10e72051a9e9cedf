// The steps of one state of a table.
use arrayvec::ArrayVec;
use model::Branch;

/// The most steps of a state.
pub(crate) const ROW_STEPS: usize = 16;

/// The steps of a state.
pub type Row = ArrayVec<Entry, ROW_STEPS>;

/// A step as the table keeps it: its action, and which of the table's branches are its own. All branches share one array of
/// 1,024, since places for 64 branches in each of 256 steps would take sixteen times the memory.
#[derive(Clone, Copy, Default)]
pub struct Entry {
    pub action: u8,
    pub first: u16,
    pub count: u16,
}

/// A step as a question sees it: its action and its branches.
#[derive(Clone, Copy)]
pub struct Step<'a> {
    pub action: u8,
    pub branches: &'a [Branch],
}
