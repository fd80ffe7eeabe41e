/// What the program is asked to do.
#[derive(Clone, Copy, Debug, PartialEq, Eq)]
pub struct Cli {
    pub mode: Mode,
    /// Print the journal first (`--journal`).
    pub journal: bool,
    /// Leave clocks that nobody uses as they are (`--ignore-unused`).
    pub ignore_unused: bool,
}

/// The command.
#[derive(Clone, Copy, Debug, PartialEq, Eq)]
pub enum Mode {
    /// Boot alone: it registers the clocks that aren't late, and does what nodes assign.
    Check,
    /// Boot, and then the drivers, on one thread.
    Sim,
    /// Boot, and then the drivers, each in a thread of its own.
    Run,
    /// A generated bundle of so many drivers, each in a thread of its own.
    Bench(u32),
}

/// Why words were not read.
#[derive(Clone, Copy, Debug, PartialEq, Eq)]
pub enum CliFault {
    /// The words mean nothing.
    Usage,
    /// Memory ran out.
    NoMemory,
}
