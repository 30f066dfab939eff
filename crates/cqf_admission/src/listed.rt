//! The rows of a cycle, shared by tables.
ghost use Rattle.std.specs.Arc.{arc_value};
ghost use Rattle.std.specs.Prelude.{◌≡◌, IfSome, Some, map, option_copied};
ghost use Rattle.cqf_model.specs.Domain.{is_text};
ghost use Rattle.cqf_model.specs.Table.{row_named, row_of};
ghost use Rattle.cqf_admission.specs.Numbers.{AreNumbered, row_numbered};
ghost use Rattle.cqf_admission.specs.Tables.{AreInOrder};

use crate::numbers::Numbers;
use cqf_model::Row;
use cqf_units::Name;
use std::marker::Model;
use std::sync::Arc;

/// Rows that don't change any more. A row that several tables have is stored once.
#[derive(Debug, Drop)]
pub(crate) struct ListedRows {
    rows: Vec<Arc<Row>>,
    numbers: Arc<Numbers>,
    /// How many of the rows, from the first on, are found by the numbers of their names.
    numbered: usize,
}

impl Model for ListedRows {
    ghost use Rattle.std.specs.Arc.{arc_value};
    ghost use Rattle.std.specs.Prelude.{List, map};
    ghost use Rattle.cqf_model.specs.declared.topology.Row.{Row as ARow};
    ghost use Rattle.cqf_admission.specs.Numbers.{AreNumbered};

    ghost Value = { List ARow };

    ghost view = { λ l. map (λ row. arc_value row) l.rows.items };

    ghost invariant = { λ l. AreNumbered (arc_value l.numbers) l.numbered (map (λ row. arc_value row) l.rows.items) };
}

/// Returns the row with a name, if one of the rows has it.
fn find_named<'a>(rows: &'a [Arc<Row>], name: &Name) -> Option<&'a Row>
    ensures { option_copied result ≡ row_named (map (λ row. arc_value row) rows.now) name.now }
{
    for row in rows {
        if is_named(row, name) {
            return Some(row);
        }
    }
    None
}

/// Returns whether a row's stream has the name.
fn is_named(row: &Row, name: &Name) -> bool
    ensures { result ≡ is_text row.now.name name.now }
{
    row.name == *name
}

/// Returns the row at the index that equals its number, as each row is until a stream is released.
fn row_in_place(rows: &[Arc<Row>], no: u32) -> Option<&Row>
    requires { AreInOrder (map (λ row. arc_value row) rows.now) }
    ensures { IfSome result (λ row. row_of (map (λ row. arc_value row) rows.now) no ≡ Some row.now) }
{
    let row = rows.get(no as usize)?;
    if row.no == no { Some(row) } else { None }
}

/// Returns the row whose stream has the number. The rows are in the order of their numbers.
fn row_with_number(rows: &[Arc<Row>], no: u32) -> Option<&Row>
    requires { AreInOrder (map (λ row. arc_value row) rows.now) }
    ensures { option_copied result ≡ row_of (map (λ row. arc_value row) rows.now) no }
{
    if let Some(row) = row_in_place(rows, no) {
        return Some(row);
    }
    match rows.binary_search_by_key(&no, |row| row.no) {
        Ok(index) => Some(&rows[index]),
        Err(_) => None,
    }
}

/// Returns the row of a name whose number is known, if the row with this number has the name.
fn find_numbered<'a>(rows: &'a [Arc<Row>], numbers: &Numbers, name: &Name) -> Option<&'a Row>
    requires { AreInOrder (map (λ row. arc_value row) rows.now) }
    ensures { option_copied result ≡ row_numbered (map (λ row. arc_value row) rows.now) numbers.now name.now }
{
    let no = numbers.number_of(name)?;
    let row = row_with_number(rows, no)?;
    if is_named(row, name) { Some(row) } else { None }
}

impl ListedRows {
    /// Returns these rows. The first `numbered` of them are found by the numbers of their names.
    pub(crate) fn new(rows: Vec<Arc<Row>>, numbers: Arc<Numbers>, numbered: usize) -> ListedRows
        requires { AreNumbered (arc_value numbers) numbered (map (λ row. arc_value row) rows.items) }
        ensures { result ≡ map (λ row. arc_value row) rows.items }
    {
        ListedRows {
            rows,
            numbers,
            numbered,
        }
    }

    /// Returns the rows.
    pub(crate) fn rows(&self) -> &[Arc<Row>]
        ensures { map (λ row. arc_value row) result.now ≡ self.now }
    {
        self.rows.as_slice()
    }

    /// Returns the row whose stream has the name. The rows are in order.
    pub(crate) fn row_named(&self, name: &Name) -> Option<&Row>
        requires { AreInOrder self.now }
        ensures { option_copied result ≡ row_named self.now name.now }
    {
        let rows = self.rows.as_slice();
        match find_numbered(rows, &self.numbers, name) {
            Some(row) => Some(row),
            None => find_named(&rows[self.numbered..], name),
        }
    }

    /// Returns the row whose stream has the number. The rows are in order.
    pub(crate) fn row_of(&self, no: u32) -> Option<&Row>
        requires { AreInOrder self.now }
        ensures { option_copied result ≡ row_of self.now no }
    {
        row_with_number(self.rows.as_slice(), no)
    }
}
