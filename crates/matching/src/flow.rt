// Amounts sent between rows and columns.
ghost use Rattle.std.specs.Prelude.{◌≡◌, ℕ, ◌+◌, ◌-◌, ◌<◌, ◌≤◌, ◌≢◌, min, true, false, length, slice_index, slice_set};
ghost use Rattle.matching.specs.Tables.{amount, cell, put, Carries, Receives, Sends, Wide};

use crate::task::Task;
use model::STATES;

/// Amounts sent so far, with what each row has not sent yet and what each column has room for.
#[derive(Drop)]
pub(crate) struct Flow {
    pub(crate) task: Task,
    pub(crate) amounts: [[u64; STATES]; STATES],
    pub(crate) unsent: [u64; STATES],
    pub(crate) room: [u64; STATES],
    ghost high: { length amounts ≡ 64 },
    ghost wide: { Wide amounts },
    ghost long: { length unsent ≡ 64 },
    ghost sends: { Sends task.supply amounts unsent },
    ghost receives: { Receives task.demand amounts room },
    ghost carries: { Carries task.allowed amounts },
}

impl Flow {
    /// Nothing sent yet.
    pub(crate) fn new(task: Task) -> Flow
        ensures { result.task ≡ task }
    {
        let unsent = task.supply;
        let room = task.demand;
        Flow {
            task,
            amounts: [[0; STATES]; STATES],
            unsent,
            room,
        }
    }

    /// Lets a row send this amount to a column, whatever it sent there before.
    pub(crate) fn assign(&mut self, row: usize, column: usize, sent: u64)
        requires row { row < 64 }
        requires column { column < 64 }
        requires allowed { 0 < sent → cell false self.old.task.allowed row column ≡ true }
        requires left { sent ≤ amount self.old.amounts row column + slice_index self.old.unsent row }
        requires space { sent ≤ amount self.old.amounts row column + slice_index self.old.room column }
        ensures task { self.new.task ≡ self.old.task }
        ensures amounts { self.new.amounts ≡ put self.old.amounts row column sent }
        ensures unsent { self.new.unsent ≡ slice_set self.old.unsent row (slice_index self.old.unsent row + amount self.old.amounts row column - sent) }
        ensures room { self.new.room ≡ slice_set self.old.room column (slice_index self.old.room column + amount self.old.amounts row column - sent) }
    {
        let before = self.amounts[row][column];
        self.amounts[row][column] = sent;
        self.unsent[row] = self.unsent[row] + before - sent;
        self.room[column] = self.room[column] + before - sent;
    }

    /// Lets a row send to another column what it sends to this one, as much as there is room for.
    pub(crate) fn shift(&mut self, row: usize, from: usize, to: usize)
        requires row { row < 64 }
        requires from { from < 64 }
        requires to { to < 64 }
        requires allowed { cell false self.old.task.allowed row to ≡ true }
        requires apart { to ≢ from }
        ensures task { self.new.task ≡ self.old.task }
        ensures unsent { self.new.unsent ≡ self.old.unsent }
        ensures room { slice_index self.new.room from ≡ slice_index self.old.room from + min (amount self.old.amounts row from) (slice_index self.old.room to) }
        ensures others { (c r : ℕ) → c ≢ from → c ≢ to → amount self.new.amounts r c ≡ amount self.old.amounts r c }
    {
        let sent = self.amounts[row][from];
        let by = sent.min(self.room[to]);
        self.assign(row, from, sent - by);
        let sent = self.amounts[row][to];
        self.assign(row, to, sent + by);
    }
}
