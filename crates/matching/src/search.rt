// The search for ways to send more.
ghost use Rattle.std.specs.Prelude.{◌≡◌, ◌<◌, true, MatchOption, MatchBool, ◌==◌};
ghost use Rattle.std.specs.List.{list_all};
ghost use Rattle.matching.specs.Reach.{column_marked, row_marked, Blocked, Crowded, Ended, Opened, Roomed, Sent, Stuck};

use crate::flow::Flow;
use crate::marks::Marks;
use model::STATES;

impl Flow {
    /// A column to which a row may send, with room for at least `least`: room is made where need be.
    #[cycle(search)]
    fn outlet(&mut self, marks: &mut Marks, row: usize, least: u64) -> Option<usize>
        requires row { row < 64 }
        requires marked { row_marked marks.old row ≡ true }
        requires some { 0 < least }
        ensures { MatchOption result (Blocked self.old self.new least marks.old marks.new row) (λ c. Opened self.old self.new marks.old row least c) }
    {
        for column in 0..STATES {
            if self.task.allowed[row][column] && !marks.columns[column] {
                marks.columns[column] = true;
                if self.make_room(marks, column, least) {
                    return Some(column);
                }
            }
        }
        None
    }

    /// Whether a column has room for at least `least`, once what rows have sent there was sent elsewhere where possible.
    #[cycle(search)]
    fn make_room(&mut self, marks: &mut Marks, column: usize, least: u64) -> bool
        requires column { column < 64 }
        requires marked { column_marked marks.old column ≡ true }
        requires some { 0 < least }
        ensures { MatchBool result (Roomed self.old self.new least marks.old column) (Crowded self.old self.new least marks.old marks.new column) }
    {
        if self.room[column] >= least {
            return true;
        }
        for row in 0..STATES {
            if !marks.rows[row] && self.amounts[row][column] >= least {
                marks.rows[row] = true;
                if let Some(to) = self.outlet(marks, row, least) {
                    self.shift(row, column, to);
                    return true;
                }
            }
        }
        false
    }

    /// Sends at least `least` more along one way; where there is none, says what the search has reached.
    fn augment(&mut self, least: u64) -> Option<Marks>
        requires { 0 < least }
        ensures { MatchOption result (Sent self.old self.new) (λ marks. Ended self.old self.new least marks) }
    {
        let mut marks = Marks {
            rows: [false; STATES],
            columns: [false; STATES],
        };
        for row in 0..STATES {
            if !marks.rows[row] && self.unsent[row] >= least {
                marks.rows[row] = true;
                if let Some(column) = self.outlet(&mut marks, row, least) {
                    let by = self.unsent[row].min(self.room[column]);
                    self.assign(row, column, self.amounts[row][column] + by);
                    return None;
                }
            }
        }
        Some(marks)
    }

    /// Sends until no way is left for `least` or more, and says what the last search has reached.
    fn exhaust(&mut self, least: u64) -> Marks
        requires { 0 < least }
        ensures task { self.new.task ≡ self.old.task }
        ensures stuck { Stuck self.new least result }
    {
        loop {
            if let Some(marks) = self.augment(least) {
                return marks;
            }
        }
    }

    /// The most that a row has not sent yet, and 1 at least.
    fn widest(&self) -> u64
        ensures { 0 < result }
    {
        self.unsent.iter().copied().max().unwrap_or(0).max(1)
    }

    /// Sends as much as can be sent, and marks the smallest set of rows that keeps the rest from it. At first as much as any row
    /// has goes along one way, then half of that, and so on down to 1: so the number of ways grows with the digits of the amounts,
    /// and not with the amounts.
    pub(crate) fn settle(&mut self) -> Marks
        ensures task { self.new.task ≡ self.old.task }
        ensures stuck { Stuck self.new 1 result }
    {
        let mut least = self.widest();
        let mut marks = self.exhaust(least);
        while least > 1 {
            least /= 2;
            marks = self.exhaust(least);
        }
        marks
    }

    /// Whether all is sent.
    pub(crate) fn is_spent(&self) -> bool
        ensures { result ≡ list_all (λ u. u == 0) self.now.unsent }
    {
        self.unsent.iter().all(|unsent| *unsent == 0)
    }
}
