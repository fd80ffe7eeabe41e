//! Rounding to the closest rate and tables of divisors, worked out by hand.

ghost use Rattle.std.specs.Prelude.{◌≡◌, true};
ghost use Rattle.kind_math.specs.Dividers.{IsDividerWidth};
ghost use Rattle.kind_math.specs.Tables.{IsTable};

use kind_math::{DivStyle, TableRow, div_round_closest, table_rate, table_round, table_setting};
use std::process::Abort;

const MOST: u64 = u64::MAX;

// Whether a divider of this style may have a field of this width.
fn is_divider_width(style: DivStyle, width: u32) -> bool
    ensures { result ≡ true → IsDividerWidth style width }
{
    let most = match style {
        DivStyle::Plain | DivStyle::OneBased => 16,
        DivStyle::PowerOfTwo => 5,
    };
    width >= 1 && width <= most
}

#[test]
fn divider_takes_the_closest_rate(rt: HostRuntime) {
    let rows: [(u64, u64, u32, DivStyle, u64); 40] = [
        // of 100 three are 34 and four are 25: 30 is nearer to 34
        (100, 30, 3, DivStyle::Plain, 3),
        (100, 75, 3, DivStyle::Plain, 2),
        (100, 42, 3, DivStyle::Plain, 3),
        (100, 0, 3, DivStyle::Plain, 8),
        (100, 13, 3, DivStyle::Plain, 8),
        (100, 14, 3, DivStyle::Plain, 8),
        (100, 1000, 3, DivStyle::Plain, 1),
        (100, 76, 3, DivStyle::Plain, 1),
        (0, 0, 3, DivStyle::Plain, 1),
        (0, 50, 3, DivStyle::Plain, 1),
        (1, 1, 3, DivStyle::Plain, 1),
        (1, 0, 3, DivStyle::Plain, 1),
        (5, 1, 2, DivStyle::Plain, 3),
        (5, 4, 2, DivStyle::Plain, 2),
        (12, 9, 4, DivStyle::Plain, 2),
        (12, 5, 4, DivStyle::Plain, 3),
        (7, 3, 16, DivStyle::Plain, 3),
        (MOST, MOST, 16, DivStyle::Plain, 1),
        (MOST, MOST - 1, 16, DivStyle::Plain, 1),
        (MOST, 0, 16, DivStyle::Plain, 65_536),
        (MOST, 13_835_058_055_282_163_712, 1, DivStyle::Plain, 1),
        (MOST, 13_835_058_055_282_163_711, 1, DivStyle::Plain, 2),
        (MOST, 281_474_976_710_656, 16, DivStyle::Plain, 65_536),
        (100, 75, 2, DivStyle::OneBased, 2),
        (100, 30, 2, DivStyle::OneBased, 3),
        (100, 0, 2, DivStyle::OneBased, 3),
        (0, 9, 2, DivStyle::OneBased, 1),
        (MOST, MOST, 16, DivStyle::OneBased, 1),
        (9, 4, 1, DivStyle::OneBased, 1),
        (100, 42, 2, DivStyle::OneBased, 3),
        (100, 30, 2, DivStyle::PowerOfTwo, 4),
        (100, 38, 2, DivStyle::PowerOfTwo, 2),
        (100, 37, 2, DivStyle::PowerOfTwo, 4),
        (10, 2, 5, DivStyle::PowerOfTwo, 8),
        (10, 1, 5, DivStyle::PowerOfTwo, 16),
        (0, 1, 5, DivStyle::PowerOfTwo, 1),
        (MOST, 1, 5, DivStyle::PowerOfTwo, 2_147_483_648),
        (MOST, 6_442_450_944, 5, DivStyle::PowerOfTwo, 2_147_483_648),
        (MOST, 8_589_934_592, 5, DivStyle::PowerOfTwo, 2_147_483_648),
        (3, MOST, 5, DivStyle::PowerOfTwo, 1),
    ];
    for (parent, rate, width, style, want) in rows {
        assert!(rt; is_divider_width(style, width));
        assert!(rt;
            div_round_closest(parent, rate, width, style) == want,
            "{parent} for {rate}"
        );
    }
}

// The divisors and the settings that a table takes, and the rates of its fields.
fn expect_table(
    rt: &impl Abort,
    table: &[TableRow],
    rounds: &[(u64, u64, bool, u32)],
    settings: &[(u64, u64, u32)],
    rates: &[(u64, u32, u64)],
)
    requires { IsTable table.now }
{
    for (parent, rate, closest, want) in rounds {
        assert!(rt;
            table_round(*parent, *rate, table, *closest) == *want,
            "{parent} for {rate}"
        );
    }
    for (parent, rate, want) in settings {
        assert!(rt;
            table_setting(*parent, *rate, table) == *want,
            "{parent} at {rate}"
        );
    }
    for (parent, field, want) in rates {
        assert!(rt;
            table_rate(*parent, *field, table) == *want,
            "{parent} by {field}"
        );
    }
}

// A row of a table.
fn row(value: u32, div: u32) -> TableRow
    ensures { result ≡ record { value = value; div = div } }
{
    TableRow { value, div }
}

#[test]
fn table_in_order(rt: HostRuntime) {
    let rounds = [
        (100, 30, false, 4),
        (100, 30, true, 4),
        (100, 5, false, 10),
        (100, 5, true, 10),
        (100, 100, false, 1),
        (100, 62, true, 4),
        (100, 63, true, 1),
        (100, 18, true, 4),
        (100, 17, true, 10),
        (0, 7, true, 1),
        (0, 0, false, 1),
        (MOST, MOST, true, 1),
        (MOST, 0, false, 10),
    ];
    let settings = [
        (100, 100, 0),
        (100, 30, 1),
        (100, 5, 3),
        (0, 0, 0),
        (100, 0, 3),
        (12, 4, 1),
        (12, 2, 3),
        (12, 0, 3),
        (MOST, MOST, 0),
    ];
    let rates = [
        (100, 0, 100),
        (100, 1, 25),
        (100, 2, 100),
        (100, 3, 10),
        (100, 4, 100),
        (100, 5, 100),
        (100, 9, 100),
        (MOST, 7, MOST),
    ];
    let table = [row(0, 1), row(1, 4), row(3, 10)];
    expect_table(&rt, &table, &rounds, &settings, &rates);
}

#[test]
fn table_without_order(rt: HostRuntime) {
    let rounds = [
        (12, 3, true, 6),
        (12, 3, false, 6),
        (12, 2, true, 6),
        (12, 1, true, 12),
        (12, 4, false, 3),
        (12, 9, true, 3),
        (1, 5, true, 3),
        (MOST, 1, true, 12),
    ];
    let settings = [
        (100, 100, 2),
        (100, 30, 5),
        (100, 5, 7),
        (0, 0, 2),
        (100, 0, 7),
        (12, 4, 2),
        (12, 2, 5),
        (12, 0, 7),
        (MOST, MOST, 2),
    ];
    let rates = [
        (100, 0, 17),
        (100, 1, 100),
        (100, 2, 34),
        (100, 3, 100),
        (100, 4, 34),
        (100, 5, 17),
        (100, 9, 100),
        (MOST, 7, 1537228672809129302),
    ];
    let table = [row(5, 6), row(2, 3), row(7, 12), row(4, 3), row(0, 6)];
    expect_table(&rt, &table, &rounds, &settings, &rates);
}

#[test]
fn table_of_one_row(rt: HostRuntime) {
    let rounds = [(100, 1, true, 7), (100, 50, false, 7), (0, 3, true, 7)];
    let settings = [
        (100, 100, 9),
        (100, 30, 9),
        (100, 5, 9),
        (0, 0, 9),
        (100, 0, 9),
        (12, 4, 9),
        (12, 2, 9),
        (12, 0, 9),
        (MOST, MOST, 9),
    ];
    let rates = [
        (100, 0, 100),
        (100, 1, 100),
        (100, 2, 100),
        (100, 3, 100),
        (100, 4, 100),
        (100, 5, 100),
        (100, 9, 15),
        (MOST, 7, MOST),
    ];
    let table = [row(9, 7)];
    expect_table(&rt, &table, &rounds, &settings, &rates);
}
