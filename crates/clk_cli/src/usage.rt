/// The line that answers words without a meaning: how the program is called, and a line feed.
pub const USAGE_LINE: &str =
    "usage: clkbench [--journal] [--ignore-unused] check|sim|run|bench N\n";
