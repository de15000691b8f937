ghost use Rattle.std.specs.Prelude.{ℕ, ◌≡◌, ◌^◌, ◌<◌, length, None, Some, OnOk, IfOk};
ghost use Rattle.mdf_data.specs.Table.{find, IsTable};

use crate::Known;
use crate::known::Group;
use mdf_num::Memory;
use std::alloc::Global;
use std::collections::BTreeMap;
use std::marker::Model;

/// How many ids have one byte.
const SMALL: u64 = 256;

/// Groups by their ids.
#[derive(Drop)]
pub(crate) struct Table {
    /// Those of the ids of one byte, each at the place that its id says.
    small: Vec<Option<Group>>,
    /// All of them.
    all: BTreeMap<u64, Group>,
}

impl Model for Table {
    ghost use Rattle.std.specs.Prelude.{ℕ, ◌≡◌, ◌<◌, List, None, length};
    ghost use Rattle.std.specs.List.{slice_index_or};
    ghost use Rattle.mdf_data.specs.Table.{find};
    ghost use Rattle.mdf_data.specs.declared.known.Group.{Group};

    ghost Value = { List (ℕ × Group) };

    ghost view = { λ table. table.all.entries };

    ghost invariant = { λ table. (length table.small.items ≡ 256) × ((id : ℕ) → id < 256 → slice_index_or table.small.items id None ≡ find table.all.entries id) };
}

impl Table {
    /// The table of no groups.
    fn empty(alloc: Global) -> Result<Table, Memory>
        ensures { IfOk result (λ table. (id : ℕ) → find table id ≡ None) }
    {
        Ok(Table {
            small: Vec::from_elem(alloc, None, SMALL as usize)?,
            all: BTreeMap::new(alloc),
        })
    }

    /// Says which group an id belongs to.
    fn insert(&mut self, id: u64, group: Group) -> Result<(), Memory>
        ensures there { OnOk result (find self.new id ≡ Some group) }
        ensures others { OnOk result ((other : ℕ) → ¬ (id ≡ other) → find self.new other ≡ find self.old other) }
    {
        self.all.insert(id, group)?;
        if id < SMALL {
            self.small[id as usize] = Some(group);
        }
        Ok(())
    }

    /// The group that an id belongs to.
    #[inline(always)]
    pub(crate) fn get(&self, id: u64) -> Option<Group>
        ensures { result ≡ find self.now id }
    {
        if id < SMALL {
            return self.small[id as usize];
        }
        self.all.get(&id).copied()
    }
}

/// The groups by their ids, and of those with one id the first.
pub(crate) fn table_of(alloc: Global, known: &[Known]) -> Result<Table, Memory>
    requires { length known.now < 2 ^ 32 }
    ensures { IfOk result (λ table. IsTable known.now (find table)) }
{
    let mut table = Table::empty(alloc)?;
    let mut k = known.len();
    while k > 0 {
        k -= 1;
        let first = known[k];
        let group = Group {
            which: k as u32,
            size: first.size,
        };
        table.insert(first.id, group)?;
    }
    Ok(table)
}
