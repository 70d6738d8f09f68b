// The numbers of a model's columns and rows, by name.
ghost use Rattle.std.specs.Prelude.{◌≡◌, IfOk};
ghost use Rattle.changes_reader.specs.Names.{column_names, row_names, number_named};
ghost use Rattle.changes_reader.specs.Tables.{AreNumbers};

use indexmap::IndexMap;
use int_model::Model;
use std::alloc::{AllocError, Global};

type Numbers<'a> = IndexMap<&'a [u8], u32>;

/// A model with tables of its columns and rows. Where two have one name, the first counts.
#[derive(Drop)]
pub(crate) struct Tables<'a> {
    model: &'a Model,
    columns: Numbers<'a>,
    rows: Numbers<'a>,
    ghost columns_numbered: { AreNumbers (column_names model.now) columns.entries },
    ghost rows_numbered: { AreNumbers (row_names model.now) rows.entries },
}

// The numbers of the columns.
fn column_numbers<'a>(alloc: Global, model: &'a Model) -> Result<Numbers<'a>, AllocError>
    ensures { IfOk result (λ numbers. AreNumbers (column_names model.entry.now) numbers.entries) }
{
    let mut numbers = IndexMap::new(alloc);

    // From the last one down, so that the first one of a name is written last.
    for j in (0..model.columns()).rev() {
        numbers.insert(model.column(j).name.as_slice(), j)?;
    }
    Ok(numbers)
}

// The numbers of the rows.
fn row_numbers<'a>(alloc: Global, model: &'a Model) -> Result<Numbers<'a>, AllocError>
    ensures { IfOk result (λ numbers. AreNumbers (row_names model.entry.now) numbers.entries) }
{
    let mut numbers = IndexMap::new(alloc);
    for i in (0..model.rows()).rev() {
        numbers.insert(model.row(i).name.as_slice(), i)?;
    }
    Ok(numbers)
}

impl<'a> Tables<'a> {
    pub(crate) fn new(alloc: Global, model: &'a Model) -> Result<Tables<'a>, AllocError>
        ensures { IfOk result (λ t. t.model.now ≡ model.entry.now) }
    {
        Ok(Tables {
            model,
            columns: column_numbers(alloc, model)?,
            rows: row_numbers(alloc, model)?,
        })
    }

    /// The number of the column with this name.
    pub(crate) fn column(&self, name: &[u8]) -> Option<u32>
        ensures { result ≡ number_named (column_names self.now.model.now) name.now }
    {
        self.columns.get(name).copied()
    }

    /// The number of the row with this name.
    pub(crate) fn row(&self, name: &[u8]) -> Option<u32>
        ensures { result ≡ number_named (row_names self.now.model.now) name.now }
    {
        self.rows.get(name).copied()
    }
}
