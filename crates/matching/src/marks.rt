// What a search has reached.

use model::STATES;

/// The rows and columns that a search has reached.
#[derive(Clone, Copy)]
pub(crate) struct Marks {
    pub(crate) rows: [bool; STATES],
    pub(crate) columns: [bool; STATES],
}
