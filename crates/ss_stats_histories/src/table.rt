//! A table of numbers under numbers.

ghost use Rattle.std.specs.Prelude.{◌≡◌, ◌++◌, ◌∷◌, [], ℕ, ◌==◌, ◌&&◌, if◌then◌else◌, length, ◌<◌, OnOk};
ghost use Rattle.ss_stats_histories.specs.Places.{row_at, table_cell};

use std::alloc::{AllocError, Global};
use std::marker::Model;

/// Numbers. A contract sees them as a list.
#[derive(Drop)]
pub(crate) struct Numbers {
    numbers: Vec<usize>,
}

impl Model for Numbers {
    ghost use Rattle.std.specs.Prelude.{List, ℕ};

    ghost Value = { List ℕ };

    ghost view = { λ n. n.numbers.items };
}

impl Numbers {
    pub(crate) fn new(alloc: Global) -> Numbers
        ensures { result ≡ [] }
    {
        Numbers {
            numbers: Vec::new(alloc),
        }
    }

    #[inline(always)]
    pub(crate) fn as_slice(&self) -> &[usize]
        ensures { result.now ≡ self.now }
    {
        &self.numbers
    }

    /// One number more. The error comes where memory was refused.
    pub(crate) fn push(&mut self, number: usize) -> Result<(), AllocError>
        ensures { OnOk result (self.new ≡ self.old ++ number ∷ []) }
    {
        self.numbers.push(number)?;
        Ok(())
    }
}

/// Numbers under each number. A contract sees it as the list of these lists; beyond its end there are none.
#[derive(Drop)]
pub(crate) struct HistoryTable {
    rows: Vec<Numbers>,
}

impl Model for HistoryTable {
    ghost use Rattle.std.specs.Prelude.{List, ℕ};

    ghost Value = { List (List ℕ) };

    ghost view = { λ t. t.rows.items };
}

impl HistoryTable {
    pub(crate) fn new(alloc: Global) -> HistoryTable
        ensures { result ≡ [] }
    {
        HistoryTable {
            rows: Vec::new(alloc),
        }
    }

    /// The numbers under a number.
    #[inline(always)]
    pub(crate) fn at(&self, key: usize) -> &[usize]
        ensures { result.now ≡ row_at self.now key }
    {
        match self.rows.get(key) {
            Some(row) => row.as_slice(),
            None => &[],
        }
    }

    /// Puts one number more under a number. The error comes where memory was refused.
    pub(crate) fn add(&mut self, alloc: Global, key: usize, number: usize) -> Result<(), AllocError>
        ensures { OnOk result ((k : ℕ) → row_at self.new k ≡ (if key == k then row_at self.old k ++ number ∷ [] else row_at self.old k)) }
    {
        reach(&mut self.rows, alloc, key)?;
        self.rows[key].push(number)
    }
}

// As many rows as it takes to have this one.
fn reach(rows: &mut Vec<Numbers>, alloc: Global, key: usize) -> Result<(), AllocError>
    ensures length { OnOk result (key < length rows.new.items) }
    ensures same { OnOk result ((k : ℕ) → row_at rows.new.items k ≡ row_at rows.old.items k) }
{
    while rows.len() <= key {
        rows.push(Numbers::new(alloc))?;
    }
    Ok(())
}

/// Numbers under each pair of numbers. A contract sees it as a list of tables.
#[derive(Drop)]
pub(crate) struct Grid {
    tables: Vec<HistoryTable>,
}

impl Model for Grid {
    ghost use Rattle.std.specs.Prelude.{List, ℕ};

    ghost Value = { List (List (List ℕ)) };

    ghost view = { λ g. g.tables.items };
}

impl Grid {
    pub(crate) fn new(alloc: Global) -> Grid
        ensures { result ≡ [] }
    {
        Grid {
            tables: Vec::new(alloc),
        }
    }

    /// The numbers under a pair of numbers.
    #[inline(always)]
    pub(crate) fn at(&self, first: usize, second: usize) -> &[usize]
        ensures { result.now ≡ table_cell self.now first second }
    {
        match self.tables.get(first) {
            Some(table) => table.at(second),
            None => &[],
        }
    }

    /// Puts one number more under a pair. The error comes where memory was refused.
    pub(crate) fn add(
        &mut self,
        alloc: Global,
        first: usize,
        second: usize,
        number: usize,
    ) -> Result<(), AllocError>
        ensures { OnOk result ((j k : ℕ) → table_cell self.new j k ≡ (if (first == j) && (second == k) then table_cell self.old j k ++ number ∷ [] else table_cell self.old j k)) }
    {
        reach_table(&mut self.tables, alloc, first)?;
        self.tables[first].add(alloc, second, number)?;
        Ok(())
    }
}

// As many tables as it takes to have this one.
fn reach_table(tables: &mut Vec<HistoryTable>, alloc: Global, key: usize) -> Result<(), AllocError>
    ensures length { OnOk result (key < length tables.new.items) }
    ensures same { OnOk result ((j k : ℕ) → table_cell tables.new.items j k ≡ table_cell tables.old.items j k) }
{
    while tables.len() <= key {
        tables.push(HistoryTable::new(alloc))?;
    }
    Ok(())
}
