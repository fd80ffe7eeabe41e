//! The source of a board with a fixed clock, two gates and a serial port: its words and its tree.

use crate::trees::reads;
use clk_io::MOST_BYTES;
use dts_tokens::{one_reading, tokens, word};
use std::test::Fail;

const BOARD: &str = "/dts-v1/;

/ {
\t#address-cells = <0x01>;
\tmodel = \"board\";

\tosc24M {
\t\tcompatible = \"fixed-clock\";
\t\t#clock-cells = <0x00>;
\t\tclock-frequency = <0x16e3600>;
\t\tphandle = <0x01>;
\t};

\tclk@10 {
\t\tcompatible = \"bank,gates-clock\";
\t\t#clock-cells = <0x01>;
\t\tclocks = <0x01>;
\t\tbank,reg = <0x00>;
\t\tclock-indices = <0x00 0x05>;
\t\tclock-output-names = \"ahb_dma\", \"ahb_uart\";
\t\tphandle = <0x02>;
\t};

\tserial@400 {
\t\treg = <0x400>;
\t\tlocal-mac-address = [00 11 22];
\t\tclocks = <0x02 0x05>;
\t\tclock-names = \"baud\";
\t};
};
";

/// Its nodes and their properties, each with its line.
const OUTLINE: &str = "3 '' in None
  4 #address-cells [Cells([Number(1)])]
  5 model [Text(\"board\")]
7 'osc24M' in Some(0)
  8 compatible [Text(\"fixed-clock\")]
  9 #clock-cells [Cells([Number(0)])]
  10 clock-frequency [Cells([Number(24000000)])]
  11 phandle [Cells([Number(1)])]
14 'clk@10' in Some(0)
  15 compatible [Text(\"bank,gates-clock\")]
  16 #clock-cells [Cells([Number(1)])]
  17 clocks [Cells([Number(1)])]
  18 bank,reg [Cells([Number(0)])]
  19 clock-indices [Cells([Number(0), Number(5)])]
  20 clock-output-names [Text(\"ahb_dma\"), Text(\"ahb_uart\")]
  21 phandle [Cells([Number(2)])]
24 'serial@400' in Some(0)
  25 reg [Cells([Number(1024)])]
  26 local-mac-address [Bytes([0, 17, 34])]
  27 clocks [Cells([Number(2), Number(5)])]
  28 clock-names [Text(\"baud\")]
";

#[test]
fn a_board_has_its_words(rt: HostRuntime) -> Result<(), Fail> {
    if BOARD.len() > MOST_BYTES {
        return Ok(());
    }
    let found = tokens(rt.alloc(), BOARD)?;
    assert_eq!(rt; found.len(), 116);
    for (place, text, line) in [
        (0, "/dts-v1/", 1),
        (2, "/", 3),
        (4, "#address-cells", 4),
        (7, "0x01", 4),
        (12, "\"board\"", 5),
        (14, "osc24M", 7),
        (40, "clk@10", 14),
        (115, ";", 30),
    ] {
        if place < found.len() {
            let token = found[place];
            assert!(rt; token.from <= token.to && token.to <= BOARD.len());
            assert!(rt; word(BOARD, token) == text.as_bytes(), "at {text}");
            assert!(rt; token.line == line, "at {text}");
        }
    }
    one_reading();
    Ok(())
}

#[test]
fn a_board_has_its_tree(rt: HostRuntime) -> Result<(), Fail> {
    reads(&rt, rt.alloc(), &[(BOARD, OUTLINE)])
}
