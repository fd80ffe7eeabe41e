//! What is wrong with a line of a bundle.

/// What is wrong with a line of a bundle.
#[derive(Clone, Copy, Debug, PartialEq, Eq)]
pub enum Reason {
    /// The bundle has more bytes than the limit.
    TooLong,
    /// A byte isn't UTF-8.
    NotUtf8,
    /// Line 1 is neither `%bundle 1` nor `%bundle 2`.
    BadVersion,
    /// A line with words stands before the first header.
    StrayLine,
    /// A header whose first word is that of no section.
    UnknownSection,
    /// Wrong words behind a header's first.
    BadHeader,
    /// A section stands out of order or once too often.
    SectionOrder,
    /// A name, a label, a property or a phandle stands a second time.
    TwiceDefined,
    /// One driver too many.
    TooManyDrivers,
    /// A section that must be there isn't.
    MissingSection,
    /// A character that a device tree source can't have.
    BadChar,
    /// A string that doesn't end.
    OpenString,
    /// A comment that doesn't end.
    OpenComment,
    /// A number above its most.
    NumberTooBig,
    /// A sign that can't stand here.
    Syntax,
    /// A construct that is nested too deep.
    TooDeep,
    /// A reference to a label that isn't there.
    NoSuchLabel,
    /// A provider without a known string in its `compatible`.
    UnknownCompatible,
    /// A provider with a wrong number of cells.
    NoCells,
    /// A property that is missing or hasn't its form.
    MissingProperty,
    /// A word that is no clock name.
    BadName,
    /// A clock name that stands a second time.
    TwiceNamed,
    /// A specifier that names no clock.
    BadSpecifier,
    /// Assigned parents or rates without their clocks, or too many.
    BadAssigned,
    /// A clock line of no known kind.
    UnknownKind,
    /// A wrong number of words.
    BadWords,
    /// A word that is no number, or outside its range.
    BadNumber,
    /// A word that is no flag of the kind, or stands twice.
    BadFlag,
    /// A name of nothing that is there.
    UnknownName,
    /// Too many clocks, possible parents or levels.
    TooMany,
    /// A parameter of a clock outside its range.
    BadRange,
    /// A field outside the bank.
    FieldOutOfBank,
    /// Two fields that share a bit.
    FieldOverlap,
    /// A clock among its own possible ancestors.
    Cycle,
    /// Too much rounding work for a clock.
    TooMuchWork,
    /// A command that isn't known.
    UnknownCommand,
    /// One command too many.
    TooManyCommands,
    /// One turn too many.
    TooManyTurns,
}
