ghost use Rattle.std.specs.Prelude.{◌≡◌, ℕ, ◌*◌, ◌≤◌, true, length, is_ok, Some, None, Err, vec_len, MatchResult};
ghost use Rattle.rules.specs.declared.access.Access.TheVariants.{Read, Write};
ghost use Rattle.rules.specs.declared.fault.ManagerFault.TheVariants.{Conflict};
ghost use Rattle.rules.specs.Manager.{fresh};
ghost use Rattle.rules.specs.Calls.{Obeys, read_of, write_of, stops};
ghost use Rattle.managers.specs.Memory.{can_set_up};
ghost use Rattle.managers.specs.Tables.{count_of, with_values};

use crate::interface::ResourceManager;
use crate::lent;
use crate::memory::{Count, NoRoom};
use crate::tables::Tables;
use jobs::set::JobSet;
use rules::fault::ManagerFault;

// A manager of the kind that its tables are. It keeps the memory that is handed over for the values.
#[derive(Drop)]
pub struct TableManager<T: Tables, V> {
    tables: T,
    memory: Vec<V>,
    ghost room: { 32 * count_of (T.meaning tables) ≤ vec_len memory },
}

impl<T: Tables, V: Copy> TableManager<T, V> {
    // A fresh manager with these starting values, which keeps its values in that memory; both are the caller's. Another count
    // than 1 to 64 parameters, or memory for less than 32 values for each, is refused, and the memory comes back.
    pub fn new(memory: Vec<V>, starting: &[V]) -> Result<TableManager<T, V>, NoRoom<V>>
        ensures accepted { is_ok result ≡ can_set_up (length starting.now) (vec_len memory) }
        ensures outcome { MatchResult result (λ m. with_values (T.meaning m.tables) m.memory.items ≡ fresh starting.now) (λ e. (e.fault ≡ ManagerFault.NoRoom) × (e.memory ≡ memory)) }
    {
        // no `ok_or`: the memory goes either into the refusal or into the manager
        let Some(count) = Count::new(starting.len(), memory.len()) else {
            return Err(NoRoom {
                fault: ManagerFault::NoRoom,
                memory,
            });
        };
        Ok(TableManager::over(count, memory, starting))
    }

    fn over(count: Count, memory: Vec<V>, starting: &[V]) -> TableManager<T, V>
        requires exact { count.number ≡ length starting.now }
        requires room { 32 * count.number ≤ vec_len memory }
        ensures { with_values (T.meaning result.tables) result.memory.items ≡ fresh starting.now }
    {
        let mut memory = memory;
        let tables = lent::set_up(count, memory.as_mut_slice(), starting);
        TableManager { tables, memory }
    }
}

impl<T: Tables, V: Copy> ResourceManager for TableManager<T, V> {
    type Value = V;

    ghost meaning = { λ m. with_values (T.meaning m.tables) m.memory.items };

    ghost admits = { λ m. T.admits m.tables };

    fn read(&mut self, job: u8, parameter: u8) -> Result<V, ManagerFault>
        ensures follows_the_rules { Obeys (read_of (T.admits self.old.tables) (with_values (T.meaning self.old.tables) self.old.memory.items) job parameter) result (with_values (T.meaning self.new.tables) self.new.memory.items) }
        ensures nobody_stops_it { is_ok result ≡ true → stops (T.admits self.old.tables) (with_values (T.meaning self.old.tables) self.old.memory.items) job parameter Read ≡ None }
        ensures somebody_stops_it { (k : ℕ) → result ≡ Err (Conflict k) → stops (T.admits self.old.tables) (with_values (T.meaning self.old.tables) self.old.memory.items) job parameter Read ≡ Some k }
    {
        lent::read(&mut self.tables, self.memory.as_slice(), job, parameter)
    }

    fn write(&mut self, job: u8, parameter: u8, value: V) -> Result<(), ManagerFault>
        ensures follows_the_rules { Obeys (write_of (T.admits self.old.tables) (with_values (T.meaning self.old.tables) self.old.memory.items) job parameter value) result (with_values (T.meaning self.new.tables) self.new.memory.items) }
        ensures nobody_stops_it { is_ok result ≡ true → stops (T.admits self.old.tables) (with_values (T.meaning self.old.tables) self.old.memory.items) job parameter Write ≡ None }
        ensures somebody_stops_it { (k : ℕ) → result ≡ Err (Conflict k) → stops (T.admits self.old.tables) (with_values (T.meaning self.old.tables) self.old.memory.items) job parameter Write ≡ Some k }
    {
        let values = self.memory.as_mut_slice();
        lent::write(&mut self.tables, values, job, parameter, value)
    }

    fn vote(&mut self, job: u8) -> Result<(), ManagerFault> {
        lent::vote(&mut self.tables, self.memory.as_slice(), job)
    }

    fn commit(&mut self, job: u8) -> Result<JobSet, ManagerFault> {
        lent::commit(&mut self.tables, self.memory.as_mut_slice(), job)
    }

    fn roll_back(&mut self, job: u8) -> Result<JobSet, ManagerFault> {
        lent::roll_back(&mut self.tables, self.memory.as_slice(), job)
    }

    fn settled(&self, parameter: u8) -> Result<V, ManagerFault> {
        lent::settled(&self.tables, self.memory.as_slice(), parameter)
    }

    fn parameters(&self) -> u8 {
        self.tables.parameters()
    }
}
