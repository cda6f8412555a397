//! Values under their names, with their templates.
ghost use Rattle.std.specs.Prelude.{◌≡◌, IfSome, IfOk};
ghost use Rattle.std.specs.Map.{values_of};
ghost use Rattle.std.specs.Option.{option_copied};
ghost use Rattle.pb_prepared.specs.Row.{IsRow};

use crate::prepared::Prepared;
use pb_value::items::Items;
use pb_value::names::Names;
use pb_value::val::Dict;
use std::alloc::{AllocError, Global};
use std::marker::Model;

/// The names of few values, kept for all dicts that have them, and the values in the order of their names, each with its template.
pub struct PreparedRow {
    pub names: Names,
    pub values: Items<Prepared>,
}

impl Drop for PreparedRow {
    fn drop(self) {
        let PreparedRow { names, values } = self;
        drop(names);
        drop(values);
    }
}

/// The values of a dict in the order of their names, each with its template.
fn prepared_values(alloc: Global, dict: &Dict) -> Result<Items<Prepared>, AllocError>
    ensures { IfOk result (λ values. values ≡ values_of dict.now) }
{
    let mut values = Vec::with_capacity(alloc, dict.len())?;
    for (_name, value) in dict.iter() {
        let copy = value.try_clone(alloc)?;
        values.push(Prepared::of(alloc, copy))?;
    }
    Ok(Items::from_vec(values))
}

/// A dict as a row, if it has no more than 64 names.
fn few_in_row(alloc: Global, dict: &Dict) -> Result<Option<PreparedRow>, AllocError>
    ensures { IfOk result (λ found. IfSome found (λ row. IsRow row.names row.values dict.now)) }
{
    let Some(names) = Names::of(alloc, dict)? else {
        return Ok(None);
    };
    let values = prepared_values(alloc, dict)?;
    Ok(Some(PreparedRow { names, values }))
}

/// A dict as a row. There is none where it has more than 64 names, or where memory is refused for it.
fn row_of(alloc: Global, dict: &Dict) -> Option<PreparedRow>
    ensures { IfSome result (λ row. IsRow row.names row.values dict.now) }
{
    match few_in_row(alloc, dict) {
        Ok(row) => row,
        Err(_) => None,
    }
}

/// Values under their names, as they are written, with their templates. Contracts see it as the dict.
pub struct PreparedDict {
    dict: Dict,
    row: Option<PreparedRow>,
}

impl Drop for PreparedDict {
    fn drop(self) {
        let PreparedDict { dict, row } = self;
        drop(dict);
        drop(row);
    }
}

impl Model for PreparedDict {
    ghost use Rattle.std.specs.Prelude.{ℕ, List, IfSome};
    ghost use Rattle.pb_value.specs.Datum.{Datum};
    ghost use Rattle.pb_value.specs.contracts.val.Dict as the_dict;
    ghost use Rattle.pb_prepared.specs.Row.{IsRow};

    ghost Value = { List (List ℕ × Datum) };

    ghost coded = { the_dict.the_row.coded };

    ghost view = { λ p. p.dict };

    ghost invariant = { λ p. IfSome p.row (λ row. IsRow row.names row.values p.dict) };
}

impl PreparedDict {
    /// This dict. Where it has no more than 64 names its values are prepared here, so that nobody who renders them parses them again, and a dict of what they give
    /// has no names of its own. Where there are more, or where memory is refused here, they are parsed when they are rendered.
    pub fn of(alloc: Global, dict: Dict) -> PreparedDict
        ensures { result ≡ dict }
    {
        let row = row_of(alloc, &dict);
        PreparedDict { dict, row }
    }

    /// The dict.
    pub fn dict(&self) -> &Dict
        ensures { result.now ≡ self.now }
    {
        &self.dict
    }

    /// Its names and values, where these were prepared.
    pub fn row(&self) -> Option<&PreparedRow>
        ensures { IfSome (option_copied result) (λ row. IsRow row.names row.values self.now) }
    {
        match &self.row {
            Some(row) => Some(row),
            None => None,
        }
    }
}
