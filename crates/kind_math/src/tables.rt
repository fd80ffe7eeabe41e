//! Dividers whose field stands for a divisor by a table. Their calls go over the rows once or twice.

ghost use Rattle.std.specs.Prelude.{◌≡◌, ℕ, ◌<◌, ◌∷◌, List, nat_le, All};
ghost use Rattle.std.specs.List.{Contains};
ghost use Rattle.std.specs.Int.{div_ceil};
ghost use Rattle.kind_math.specs.Choices.{greatest_of};
ghost use Rattle.kind_math.specs.Closest.{nearest, rates_by};
ghost use Rattle.kind_math.specs.Dividers.{least_or_greatest};
ghost use Rattle.kind_math.specs.Tables as tables;
ghost use Rattle.kind_math.specs.Tables.{IsTable, divisors_of};

use crate::closest::nearer;
use crate::division::quotient_up;
use crate::table_row::TableRow;

// The divisor of the row with this value, 0 if there is none.
fn divisor_of(table: &[TableRow], value: u32) -> u32
    ensures { result ≡ tables.divisor_of table.now value }
{
    for row in table {
        if row.value == value {
            return row.div;
        }
    }
    0
}

// The value of the first row with this divisor, 0 if there is none.
fn value_of(table: &[TableRow], div: u32) -> u32
    ensures { result ≡ tables.value_of table.now div }
{
    for row in table {
        if row.div == div {
            return row.value;
        }
    }
    0
}

/// The rate of a divider with this table and this number in its field: its parent's rate divided,
/// rounded up. A number that no row has leaves the parent's rate.
pub fn table_rate(parent: u64, field: u32, table: &[TableRow]) -> u64
    ensures { result ≡ tables.table_rate parent field table.now }
{
    let div = divisor_of(table, field);
    if div == 0 {
        parent
    } else {
        quotient_up(parent, u64::from(div))
    }
}

// The greatest divisor of a table.
fn greatest_divisor(table: &[TableRow]) -> u32
    ensures { result ≡ greatest_of (divisors_of table.now) }
{
    let mut greatest = 0u32;
    for row in table {
        greatest = greatest.max(row.div);
    }
    greatest
}

// The lesser one of a divisor that was found and another, if that reaches the wanted one.
fn lesser(wanted: u64, found: Option<u32>, div: u32) -> Option<u32>
    ensures { (divisors : List ℕ) → tables.lesser (λ d. nat_le wanted d) result divisors ≡ tables.lesser (λ d. nat_le wanted d) found (div ∷ divisors) }
{
    if u64::from(div) < wanted {
        return found;
    }
    match found {
        Some(other) => Some(other.min(div)),
        None => Some(div),
    }
}

// The least divisor of a table that reaches the wanted one, or else the greatest.
fn least_divisor(wanted: u64, table: &[TableRow]) -> u32
    ensures { result ≡ least_or_greatest (λ d. nat_le wanted d) (divisors_of table.now) }
{
    let mut found = None;
    for row in table {
        found = lesser(wanted, found, row.div);
    }
    match found {
        Some(div) => div,
        None => greatest_divisor(table),
    }
}

// The rate nearest to the wanted one among those that a table's divisors give.
fn nearest_rate(parent: u64, wanted: u64, table: &[TableRow]) -> u64
    requires { IsTable table.now }
    ensures { result ≡ nearest wanted (rates_by parent (divisors_of table.now)) }
{
    let mut near = quotient_up(parent, u64::from(table[0].div));
    for row in table {
        near = nearer(wanted, near, quotient_up(parent, u64::from(row.div)));
    }
    near
}

/// The divisor that a divider with this table takes for a wanted rate over this parent's rate: the
/// least one whose rate isn't above it, or else the greatest; or, with `closest`, the least one whose
/// rate is nearest to it, and of two rates that are equally near the lower one.
pub fn table_round(parent: u64, rate: u64, table: &[TableRow], closest: bool) -> u32
    requires { IsTable table.now }
    ensures { result ≡ tables.table_round parent rate table.now closest }
{
    let mut wanted = rate.max(1);
    if closest {
        wanted = nearest_rate(parent, wanted, table).max(1);
    }
    least_divisor(parent.div_ceil(wanted), table)
}

// The least divisor of a table whose rate isn't above a planned one, or else the greatest.
fn planned_divisor(parent: u64, rate: u64, table: &[TableRow]) -> u32
    requires { IsTable table.now }
    ensures { result ≡ tables.planned_divisor parent rate table.now }
{
    if rate == 0 && parent > 0 {
        return greatest_divisor(table);
    }
    least_divisor(parent.div_ceil(rate.max(1)), table)
}

/// The number with which the field of a divider with this table is set to a planned rate over this
/// parent's rate.
pub fn table_setting(parent: u64, rate: u64, table: &[TableRow]) -> u32
    requires { IsTable table.now }
    ensures value { result ≡ tables.table_setting parent rate table.now }

    // A rate that some divisor of the table gives is given back.
    ensures gives_back { (div : ℕ) → Contains (divisors_of table.now) div → rate ≡ div_ceil parent div → tables.table_rate parent result table.now ≡ rate }
{
    value_of(table, planned_divisor(parent, rate, table))
}
