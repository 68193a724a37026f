ghost use Rattle.std.specs.BTreeMap.{get};
ghost use Rattle.std.specs.Prelude.{◌≡◌, IsSome, OnErr, OnOk};
ghost use Rattle.spm_cache_core.specs.Cells.{Has, SameCells, Writes, cell_at, was_begun};
ghost use Rattle.spm_cell.specs.declared.cell.Cell.TheVariants.{Idle};
ghost use Rattle.spm_key.specs.declared.key.Key.{Key};

use spm_cell::Cell;
use spm_key::Key;
use spm_version::NoMemory;
use std::alloc::Global;
use std::collections::BTreeMap;

/// A cell for each key.
#[derive(Drop)]
pub(crate) struct Cells {
    by_key: BTreeMap<Key, Cell>,
}

impl Cells {
    // Idle cells.
    pub(crate) fn new(alloc: Global) -> Cells
        ensures { (key : Key) → cell_at result key ≡ Idle 0 }
    {
        Cells {
            by_key: BTreeMap::new(alloc),
        }
    }

    // The key's cell.
    pub(crate) fn cell(&self, key: &Key) -> Cell
        ensures { result ≡ cell_at self.now key.now }
    {
        match self.by_key.get(key) {
            Some(cell) => *cell,
            None => Cell::Idle { fails: 0 },
        }
    }

    // A flight of the key was begun.
    pub(crate) fn was_begun(&self, key: &Key) -> bool
        ensures { result ≡ was_begun (cell_at self.now key.now) }
    {
        match self.cell(key) {
            Cell::Idle { fails } => fails > 0,
            Cell::Flying { .. } | Cell::Ready { .. } => true,
        }
    }

    // Gives the key this cell, and makes room for it where there is none.
    pub(crate) fn put(&mut self, alloc: Global, key: &Key, cell: Cell) -> Result<(), NoMemory>
        ensures ok { OnOk result (Writes self.old key.now cell self.new) }
        ensures err { OnErr result (SameCells self.old self.new) }
    {
        let key = key.copy(alloc)?;
        self.by_key.insert(key, cell)?;
        Ok(())
    }

    // Gives the key this cell, in the room that it has.
    pub(crate) fn set(&mut self, key: &Key, cell: Cell)
        requires { Has self.old key.now }
        ensures { Writes self.old key.now cell self.new }
    {
        if let Some(kept) = self.by_key.get_mut(key) {
            *kept = cell;
        }
    }
}
