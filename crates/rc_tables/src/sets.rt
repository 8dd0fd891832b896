//! Lists of tables that several readers share.

ghost use Rattle.std.specs.Prelude.{◌≡◌, ◌-◌, [], ◌∷◌, ◌++◌, IfOk, length, map};
ghost use Rattle.std.specs.List.{slice_get};

use rc_tfile::TableInfo;
use std::alloc::{AllocError, Global};
use std::marker::Model;
use std::rc::Rc;

/// What is known of some tables, in the order in which they were added. A contract sees the list of it.
#[derive(Drop)]
pub struct TableSet {
    items: Rc<Vec<Rc<TableInfo>>>,
}

impl Model for TableSet {
    ghost use Rattle.std.specs.Prelude.{List, map};
    ghost use Rattle.rc_tfile.specs.declared.info.TableInfo.{TableInfo};

    ghost Value = { List TableInfo };

    ghost view = { λ s. map (λ t. t.value) s.items.value.items };
}

impl TableSet {
    /// No tables. The only error is want of memory.
    pub fn empty(alloc: Global) -> Result<Self, AllocError>
        ensures { IfOk result (λ set. set ≡ []) }
    {
        let items = Rc::new(alloc, Vec::new(alloc))?;
        Ok(TableSet { items })
    }

    /// These tables, and one more behind them. What is known of these is shared. The only error is want of memory.
    pub fn with(&self, alloc: Global, t: TableInfo) -> Result<Self, AllocError>
        ensures { IfOk result (λ set. set ≡ self.now ++ t ∷ []) }
    {
        let mut items = shared(alloc, self.tables())?;
        items.push(Rc::new(alloc, t)?)?;
        let items = Rc::new(alloc, items)?;
        Ok(TableSet { items })
    }

    /// The tables' numbers, in their order. The only error is want of memory.
    pub fn numbers(&self, alloc: Global) -> Result<Vec<u32>, AllocError>
        ensures { IfOk result (λ numbers. numbers.items ≡ map (λ t. t.number) self.now) }
    {
        let mut numbers = Vec::new(alloc);
        let mut left = self.tables();
        while let [first, rest @ ..] = left {
            numbers.push(first.number)?;
            left = rest;
        }
        Ok(numbers)
    }

    /// The number of the last table; none where there are no tables.
    pub fn last_number(&self) -> Option<u32>
        ensures { result ≡ slice_get (map (λ t. t.number) self.now) (length self.now - 1) }
    {
        match self.tables().last() {
            None => None,
            Some(last) => Some(last.number),
        }
    }

    /// The same tables, shared. No memory is taken. The only error is a full count of those who share them, which is
    /// answered as want of memory.
    pub fn share(&self) -> Result<Self, AllocError>
        ensures { IfOk result (λ set. set ≡ self.now) }
    {
        let items = self.items.clone()?;
        Ok(TableSet { items })
    }

    /// The tables, each of them shared.
    pub(crate) fn tables(&self) -> &[Rc<TableInfo>]
        ensures { map (λ t. t.value) result.now ≡ self.now }
    {
        self.items.as_slice()
    }
}

// The same tables in a list of its own.
fn shared(alloc: Global, tables: &[Rc<TableInfo>]) -> Result<Vec<Rc<TableInfo>>, AllocError>
    ensures { IfOk result (λ list. map (λ t. t.value) list.items ≡ map (λ t. t.value) tables.now) }
{
    let mut list = Vec::with_capacity(alloc, tables.len())?;
    let mut left = tables;
    while let [first, rest @ ..] = left {
        list.push(first.clone()?)?;
        left = rest;
    }
    Ok(list)
}
