//! The formulas of each kind, at ordinary numbers and at the ends of their ranges.
//! 18446744073709551615 is 2^64 - 1, and this is 65535 * 281479271743489 and
//! 4294967295 * 4294967297.

ghost use Rattle.std.specs.Prelude.{◌≡◌, true};
ghost use Rattle.kind_math.specs.Dividers.{IsDividerWidth};

use kind_math::{
    DivStyle, div_rate, div_round, div_setting, factor_rate, pll_rate, pll_round, pll_setting,
    quotient, quotient_up,
};

const MOST: u64 = u64::MAX;

#[test]
fn quotients_of_powers_of_two_and_of_others(rt: HostRuntime) {
    const HIGHEST: u64 = 9_223_372_036_854_775_808;
    let rows: [(u64, u64, u64, u64); 12] = [
        (0, 1, 0, 0),
        (7, 1, 7, 7),
        (7, 2, 3, 4),
        (8, 2, 4, 4),
        (10, 3, 3, 4),
        (9, 3, 3, 3),
        (MOST, 1, MOST, MOST),
        (MOST, MOST, 1, 1),
        (1, MOST, 0, 1),
        (0, HIGHEST, 0, 0),
        (HIGHEST, HIGHEST, 1, 1),
        (MOST, HIGHEST, 1, 2),
    ];
    for (number, divisor, down, up) in rows {
        assert!(rt; divisor > 0);
        assert!(rt; quotient(number, divisor) == down, "{number} / {divisor}");
        assert!(rt;
            quotient_up(number, divisor) == up,
            "{number} / {divisor}, up"
        );
    }
}

#[test]
fn factor_drops_the_fraction_and_is_capped(rt: HostRuntime) {
    let rows: [(u64, u32, u32, u64); 15] = [
        (0, 1, 2, 0),
        (1, 1, 2, 0),
        (7, 1, 2, 3),
        (MOST, 1, 2, 9_223_372_036_854_775_807),
        (MOST, 3, 2, MOST),
        (100, 3, 7, 42),
        (10, 1, u32::MAX, 0),
        (MOST, u32::MAX, u32::MAX, MOST),
        (MOST, 1, u32::MAX, 4_294_967_297),
        (MOST, u32::MAX, u32::MAX - 1, MOST),
        (1, u32::MAX, 1, 4_294_967_295),
        // 2^32 * (2^32 - 1) is 2^64 - 2^32, and one time more is too much
        (4_294_967_296, u32::MAX, 1, 18_446_744_069_414_584_320),
        (4_294_967_297, u32::MAX, 1, MOST),
        (4_294_967_298, u32::MAX, 1, MOST),
        (0, u32::MAX, 1, 0),
    ];
    for (parent, mult, div, want) in rows {
        assert!(rt; div > 0);
        assert!(rt;
            factor_rate(parent, mult, div) == want,
            "{parent} * {mult} / {div}"
        );
    }
}

#[test]
fn divider_rounds_up(rt: HostRuntime) {
    let rows: [(u64, u32, DivStyle, u64); 17] = [
        (100, 7, DivStyle::Plain, 13),
        (MOST, 0, DivStyle::Plain, MOST),
        (MOST, u32::MAX, DivStyle::Plain, 4_294_967_296),
        // (2^64 - 1) / 2^16, rounded up
        (MOST, 65_535, DivStyle::Plain, 281_474_976_710_656),
        (1, 65_535, DivStyle::Plain, 1),
        (100, 0, DivStyle::OneBased, 100),
        (100, 3, DivStyle::OneBased, 34),
        (MOST, 65_535, DivStyle::OneBased, 281_479_271_743_489),
        (MOST, 1, DivStyle::OneBased, MOST),
        (MOST, 0, DivStyle::OneBased, MOST),
        (0, 0, DivStyle::OneBased, 0),
        (10, 2, DivStyle::PowerOfTwo, 3),
        (MOST, 31, DivStyle::PowerOfTwo, 8_589_934_592),
        (5, 64, DivStyle::PowerOfTwo, 1),
        (0, u32::MAX, DivStyle::PowerOfTwo, 0),
        (MOST, 1, DivStyle::PowerOfTwo, 9_223_372_036_854_775_808),
        (MOST, 63, DivStyle::PowerOfTwo, 2),
    ];
    for (parent, field, style, want) in rows {
        assert!(rt;
            div_rate(parent, field, style) == want,
            "{parent} by field {field}"
        );
    }
}

// Whether a divider of this style can have a field of so many bits.
fn is_divider_width(style: DivStyle, width: u32) -> bool
    ensures { result ≡ true → IsDividerWidth style width }
{
    match style {
        DivStyle::Plain | DivStyle::OneBased => 1 <= width && width <= 16,
        DivStyle::PowerOfTwo => 1 <= width && width <= 5,
    }
}

#[test]
fn divisor_is_the_least_that_reaches(rt: HostRuntime) {
    let rows: [(u64, u64, u32, DivStyle, u64); 28] = [
        (100, 30, 3, DivStyle::Plain, 4),
        (100, 0, 3, DivStyle::Plain, 8),
        (100, 500, 3, DivStyle::Plain, 1),
        (100, 13, 3, DivStyle::Plain, 8),
        (7, 0, 3, DivStyle::Plain, 7),
        (0, 5, 3, DivStyle::Plain, 1),
        (MOST, MOST, 3, DivStyle::Plain, 1),
        (MOST, 1, 16, DivStyle::Plain, 65_536),
        (MOST, 0, 1, DivStyle::Plain, 2),
        // (2^64 - 1) / (2^64 - 2) is above 1
        (MOST, MOST - 1, 1, DivStyle::Plain, 2),
        (65_536, 1, 16, DivStyle::Plain, 65_536),
        (65_537, 1, 16, DivStyle::Plain, 65_536),
        (MOST, 1, 16, DivStyle::OneBased, 65_535),
        (0, 7, 1, DivStyle::OneBased, 1),
        (MOST, MOST - 1, 1, DivStyle::OneBased, 1),
        (65_535, 1, 16, DivStyle::OneBased, 65_535),
        (65_536, 1, 16, DivStyle::OneBased, 65_535),
        (1, 0, 16, DivStyle::OneBased, 1),
        (10, 2, 5, DivStyle::PowerOfTwo, 8),
        (10, 10, 5, DivStyle::PowerOfTwo, 1),
        (1000, 100, 5, DivStyle::PowerOfTwo, 16),
        (MOST, 1, 5, DivStyle::PowerOfTwo, 2_147_483_648),
        (0, 0, 5, DivStyle::PowerOfTwo, 1),
        (MOST, 0, 5, DivStyle::PowerOfTwo, 2_147_483_648),
        (2_147_483_648, 1, 5, DivStyle::PowerOfTwo, 2_147_483_648),
        (2_147_483_649, 1, 5, DivStyle::PowerOfTwo, 2_147_483_648),
        (3, 2, 5, DivStyle::PowerOfTwo, 2),
        (3, 3, 5, DivStyle::PowerOfTwo, 1),
    ];
    for (parent, rate, width, style, want) in rows {
        assert!(rt; is_divider_width(style, width));
        assert!(rt;
            div_round(parent, rate, width, style) == want,
            "{parent} for {rate}"
        );
    }
}

#[test]
fn field_is_the_least_that_is_not_above(rt: HostRuntime) {
    let rows: [(u64, u64, u32, DivStyle, u32); 29] = [
        (100, 25, 3, DivStyle::Plain, 3),
        (100, 13, 3, DivStyle::Plain, 7),
        (100, 12, 3, DivStyle::Plain, 7),
        (100, MOST, 3, DivStyle::Plain, 0),
        (7, 0, 3, DivStyle::Plain, 7),
        (0, 0, 3, DivStyle::Plain, 0),
        (100, 99, 3, DivStyle::Plain, 1),
        (MOST, 0, 1, DivStyle::Plain, 1),
        // half of 2^64 - 1, rounded up, is 9223372036854775808
        (MOST, 9_223_372_036_854_775_808, 1, DivStyle::Plain, 1),
        (MOST, 9_223_372_036_854_775_807, 1, DivStyle::Plain, 1),
        (MOST, 281_474_976_710_656, 16, DivStyle::Plain, 65_535),
        (MOST, 281_474_976_710_655, 16, DivStyle::Plain, 65_535),
        (100, 34, 2, DivStyle::OneBased, 3),
        (100, 100, 2, DivStyle::OneBased, 1),
        (100, 0, 2, DivStyle::OneBased, 3),
        (0, 0, 2, DivStyle::OneBased, 1),
        (MOST, MOST, 16, DivStyle::OneBased, 1),
        (MOST, MOST - 1, 2, DivStyle::OneBased, 2),
        // no divisor of 100 gives 33 or less; 3, the greatest, gives 34
        (100, 33, 2, DivStyle::OneBased, 3),
        (10, 2, 5, DivStyle::PowerOfTwo, 3),
        (2_147_483_648, 1, 5, DivStyle::PowerOfTwo, 31),
        (MOST, 8_589_934_592, 5, DivStyle::PowerOfTwo, 31),
        (MOST, 1, 5, DivStyle::PowerOfTwo, 31),
        (MOST, MOST, 5, DivStyle::PowerOfTwo, 0),
        (MOST, 0, 5, DivStyle::PowerOfTwo, 31),
        // 2^32 - 1 over 2^31 is 2, and over 2^30 it is 4
        (4_294_967_295, 2, 5, DivStyle::PowerOfTwo, 31),
        (4_294_967_295, 3, 5, DivStyle::PowerOfTwo, 31),
        (4_294_967_295, 4, 5, DivStyle::PowerOfTwo, 30),
        (5, 2, 5, DivStyle::PowerOfTwo, 2),
    ];
    for (parent, rate, width, style, want) in rows {
        assert!(rt; is_divider_width(style, width));
        assert!(rt;
            div_setting(parent, rate, width, style) == want,
            "{parent} at {rate}"
        );
    }
}

#[test]
fn pll_rate_drops_the_fraction_and_is_capped(rt: HostRuntime) {
    let rows: [(u64, u32, u32, u64); 8] = [
        (24_000_000, 120, 24, 120_000_000),
        (MOST, 2, 1, MOST),
        (10, 7, 3, 23),
        (MOST, 1, u32::MAX, 4_294_967_297),
        (MOST, 65_535, 65_535, MOST),
        (4_294_967_296, u32::MAX, u32::MAX, 4_294_967_296),
        (1, 65_535, u32::MAX, 0),
        (0, 65_535, 1, 0),
    ];
    for (parent, n, m, want) in rows {
        assert!(rt; m > 0);
        assert!(rt; pll_rate(parent, n, m) == want, "{parent} * {n} / {m}");
    }
}

#[test]
fn pll_takes_the_greatest_multiplier_that_is_not_above(rt: HostRuntime) {
    let rows: [(u64, u64, [u32; 2], u32, u32); 21] = [
        (24_000_000, 150_000_000, [100, 400], 24, 150),
        (24_000_000, 149_999_999, [100, 400], 24, 149),
        (24_000_000, 99_999_999, [100, 400], 24, 100),
        (24_000_000, MOST, [100, 400], 24, 400),
        (0, 0, [100, 400], 24, 400),
        (MOST, MOST - 1, [100, 400], 24, 100),
        (10, 23, [1, 20], 3, 7),
        // each multiplier gives the greatest rate
        (MOST, MOST, [1, 65_535], 1, 65_535),
        (MOST, MOST - 1, [1, 65_535], 1, 1),
        (MOST, 4_294_967_297, [1, 65_535], u32::MAX, 1),
        // a quotient below 1 is 0
        (1, 0, [1, 65_535], 65_536, 65_535),
        (1, 0, [1, 65_535], 65_535, 65_534),
        (24_000_000, 0, [100, 400], 24, 100),
        (24_000_000, MOST, [100, 100], 24, 100),
        (0, 0, [7, 9], u32::MAX, 9),
        // 3 * 1 / 2 is 1, and 3 * 2 / 2 is 3
        (3, 0, [1, 9], 2, 1),
        (3, 1, [1, 9], 2, 1),
        (3, 2, [1, 9], 2, 1),
        (3, 3, [1, 9], 2, 2),
        (3, 4, [1, 9], 2, 3),
        (3, MOST, [1, 9], 2, 9),
    ];
    for (parent, rate, [least, most], m, want) in rows {
        assert!(rt; least <= most && m > 0);
        assert!(rt;
            pll_round(parent, rate, least, most, m) == want,
            "{parent} for {rate}"
        );
        assert!(rt;
            pll_setting(parent, rate, least, most, m) == want,
            "{parent} at {rate}"
        );
    }
}
