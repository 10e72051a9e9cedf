// Reading a model file into a table.
ghost use Rattle.std.specs.Prelude.{◌≡◌, ◌<◌, ◌≤◌, length, Ok, Err, MatchResult};
ghost use Rattle.table.specs.File.{added, has_room, model_file};
ghost use Rattle.table.specs.Meaning.{states_of, table_of};

use crate::format::ModelField;
use crate::new_step::NewStep;
use crate::table::Table;
use fields::fault::FileFault;
use fields::field::Field;
use fields::file::Fields;
use model::STATES;

/// The most steps of a file.
const FILE_STEPS: usize = 256;

/// The largest total of a step of a file; a ladder has a limit of its own, which is another rule.
const TOTAL: u32 = 30_000;

impl Table {
    /// Reads a model file, and stands for its model then. Where the file has a fault, the first one is answered, and the
    /// table stays as it was.
    pub fn read(&mut self, bytes: &[u8]) -> Result<(), FileFault>
        ensures answer { MatchResult result (λ _. model_file bytes.now ≡ Ok (table_of self.new))
            (λ e. (model_file bytes.now ≡ Err e) × (self.new ≡ self.old)) }
    {
        *self = Table::from_file(bytes)?;
        Ok(())
    }

    fn from_file(bytes: &[u8]) -> Result<Table, FileFault>
        ensures { MatchResult result (λ t. model_file bytes.now ≡ Ok (table_of t)) (λ e. model_file bytes.now ≡ Err e) }
    {
        let mut fields = Fields::of(ModelField::States, bytes);
        let [states] = fields.due()?.value else {
            return Err(FileFault::Number(0));
        };
        let states = usize::from(*states);
        if !(1..=STATES).contains(&states) {
            return Err(FileFault::Number(0));
        }
        let mut table = Table::with_states(states);
        for field in fields.by(ModelField::Step) {
            table.add(&field?)?;
        }
        Ok(table)
    }

    /// Adds the step that a field's value gives, as the last one of its state.
    fn add(&mut self, field: &Field<ModelField>) -> Result<(), FileFault>
        requires { 5 ≤ length field.now.value.now }
        ensures { MatchResult result
            (λ _. added field.now.place (states_of self.old) field.now.value.now ≡ Ok (states_of self.new))
            (λ e. added field.now.place (states_of self.old) field.now.value.now ≡ Err e) }
    {
        let [state, action, branches @ ..] = field.value else {
            return Err(FileFault::Number(field.place));
        };
        let step = NewStep {
            state: usize::from(*state),
            action: *action,
            branches,
        };
        if !step.is_sound(self.rows.len()) {
            return Err(FileFault::Number(field.place));
        }
        if !self.has_room(step.state, step.count()) {
            return Err(FileFault::Limit(field.place));
        }
        let Some(total) = step.total() else {
            return Err(FileFault::Limit(field.place));
        };
        if total > TOTAL {
            return Err(FileFault::Limit(field.place));
        }
        self.push(&step, total);
        Ok(())
    }

    /// Whether a state may have one more step, with `count` branches.
    fn has_room(&self, state: usize, count: usize) -> bool
        requires { state < length self.now.rows.items }
        ensures { result ≡ has_room (states_of self.now) state count }
    {
        !self.rows[state].is_full()
            && self.steps < FILE_STEPS
            && count <= self.branches.remaining_capacity()
    }
}
