//! What the values of a property are.

ghost use Rattle.std.specs.Prelude.{◌≡◌, map, slice_get, IfOk};
ghost use Rattle.std.specs.List.{list_all, flat_map, filter_map};
ghost use Rattle.std.specs.Option.{option_map};
ghost use Rattle.dts_bindings.specs.Alone.{alone, two_alone};
ghost use Rattle.dts_bindings.specs.Properties.{is_cells, cells_of, cells_in, is_text, text_of, texts_in, is_number, number_of, all_numbers, one_number, two_numbers};
ghost use Rattle.dts_tree.specs.Tree.{seen_value};

use clk_io::{NoMemory, push_some};
use dts_tree::{Cell, DtsValue};
use std::alloc::Global;

/// Whether every value is cells.
pub(crate) fn are_cells(values: &[DtsValue]) -> bool
    ensures { result ≡ list_all is_cells (map seen_value values.now) }
{
    values
        .iter()
        .all(|value| matches!(value, DtsValue::Cells(_)))
}

// Whether every value is a string.
fn are_texts(values: &[DtsValue]) -> bool
    ensures { result ≡ list_all is_text (map seen_value values.now) }
{
    values
        .iter()
        .all(|value| matches!(value, DtsValue::Text(_)))
}

/// Whether every cell is a number.
pub(crate) fn are_numbers(cells: &[Cell]) -> bool
    ensures { result ≡ list_all is_number cells.now }
{
    cells.iter().all(|cell| matches!(cell, Cell::Number(_)))
}

/// The cells of a value; none of another one.
pub(crate) fn value_cells(value: &DtsValue) -> &[Cell]
    ensures { result.now ≡ cells_of (seen_value value.now) }
{
    match value {
        DtsValue::Cells(cells) => cells.as_slice(),
        _ => &[],
    }
}

// The string that a value is.
fn value_text(value: &DtsValue) -> Option<&str>
    ensures { option_map (λ t. t.now) result ≡ text_of (seen_value value.now) }
{
    match value {
        DtsValue::Text(text) => Some(text.as_str()),
        _ => None,
    }
}

// The number that a cell is.
fn cell_number(cell: Cell) -> Option<u32>
    ensures { result ≡ number_of cell }
{
    match cell {
        Cell::Number(number) => Some(number),
        Cell::Node(_) => None,
    }
}

// The cells of all values.
fn joined(alloc: Global, values: &[DtsValue]) -> Result<Vec<Cell>, NoMemory>
    ensures { IfOk result (λ found. found.items ≡ flat_map cells_of (map seen_value values.now)) }
{
    let mut found = Vec::new(alloc);
    for value in values {
        found.extend_from_slice(value_cells(value))?;
    }
    Ok(found)
}

/// The cells joined over the values, where every value is cells.
#[tactic(auto, unfolding(crate::specs::Properties::cells_in))]
pub fn cells(alloc: Global, values: &[DtsValue]) -> Result<Option<Vec<Cell>>, NoMemory>
    ensures { IfOk result (λ found. option_map (λ v. v.items) found ≡ cells_in (map seen_value values.now)) }
{
    if !are_cells(values) {
        return Ok(None);
    }
    Ok(Some(joined(alloc, values)?))
}

/// The strings among the values.
pub(crate) fn kept_texts<'a>(
    alloc: Global,
    values: &'a [DtsValue],
) -> Result<Vec<&'a str>, NoMemory>
    ensures { IfOk result (λ found. map (λ t. t.now) found.items ≡ filter_map text_of (map seen_value values.now)) }
{
    let mut found = Vec::new(alloc);
    for value in values {
        push_some(&mut found, value_text(value))?;
    }
    Ok(found)
}

/// The strings, where every value is one.
#[tactic(auto, unfolding(crate::specs::Properties::texts_in))]
pub fn texts<'a>(alloc: Global, values: &'a [DtsValue]) -> Result<Option<Vec<&'a str>>, NoMemory>
    ensures { IfOk result (λ found. option_map (λ v. map (λ t. t.now) v.items) found ≡ texts_in (map seen_value values.now)) }
{
    if !are_texts(values) {
        return Ok(None);
    }
    Ok(Some(kept_texts(alloc, values)?))
}

// The numbers among the cells.
fn kept_numbers(alloc: Global, cells: &[Cell]) -> Result<Vec<u32>, NoMemory>
    ensures { IfOk result (λ found. found.items ≡ filter_map number_of cells.now) }
{
    Ok(
        cells
            .iter()
            .filter_map(|cell| cell_number(*cell))
            .collect(alloc)?,
    )
}

/// The numbers that all cells of the values are.
#[tactic(auto, unfolding(crate::specs::Properties::all_numbers, crate::specs::Properties::numbers_in))]
pub fn numbers(alloc: Global, values: &[DtsValue]) -> Result<Option<Vec<u32>>, NoMemory>
    ensures { IfOk result (λ found. option_map (λ v. v.items) found ≡ all_numbers (map seen_value values.now)) }
{
    let Some(cells) = cells(alloc, values)? else {
        return Ok(None);
    };
    if !are_numbers(&cells) {
        return Ok(None);
    }
    Ok(Some(kept_numbers(alloc, &cells)?))
}

// The cell at this place of the cells joined over the values.
fn cell_at(values: &[DtsValue], place: usize) -> Option<Cell>
    ensures { result ≡ slice_get (flat_map cells_of (map seen_value values.now)) place }
{
    let mut left = place;
    for value in values {
        let cells = value_cells(value);
        if left < cells.len() {
            return Some(cells[left]);
        }
        left -= cells.len();
    }
    None
}

// The number that the first cell is, where there is no second.
fn alone(first: Option<Cell>, second: Option<Cell>) -> Option<u32>
    ensures { result ≡ alone first second }
{
    match (first, second) {
        (Some(Cell::Number(number)), None) => Some(number),
        _ => None,
    }
}

// The numbers that the first two cells are, where there is no third.
fn two_alone(first: Option<Cell>, second: Option<Cell>, third: Option<Cell>) -> Option<(u32, u32)>
    ensures { result ≡ two_alone first second third }
{
    match (first, second, third) {
        (Some(Cell::Number(one)), Some(Cell::Number(other)), None) => Some((one, other)),
        _ => None,
    }
}

/// The number that the values are, where they are one number cell.
pub fn one_number(values: &[DtsValue]) -> Option<u32>
    ensures { result ≡ one_number (map seen_value values.now) }
{
    if !are_cells(values) {
        return None;
    }
    alone(cell_at(values, 0), cell_at(values, 1))
}

/// The numbers that the values are, where they are two number cells.
pub fn two_numbers(values: &[DtsValue]) -> Option<(u32, u32)>
    ensures { result ≡ two_numbers (map seen_value values.now) }
{
    if !are_cells(values) {
        return None;
    }
    two_alone(cell_at(values, 0), cell_at(values, 1), cell_at(values, 2))
}
