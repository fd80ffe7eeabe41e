//! What the faults of a device tree source tell of the bundle.

ghost use Rattle.std.specs.Prelude.{◌≡◌};
ghost use Rattle.bundle_clocks.specs.Reasons.{token_told, tree_told, nodes_told, told_fault};

use bundle_text::{BundleFault, Reason};
use dts_clocks::DtsFault;
use dts_tokens::TokenFault;
use dts_tree::TreeFault;

// A line and its reason.
fn refused(line: u32, reason: Reason) -> BundleFault
    ensures { result ≡ BundleFault.Refused line reason }
{
    BundleFault::Refused { line, reason }
}

/// The fault of tokens.
pub(crate) fn token_fault(fault: TokenFault) -> BundleFault
    ensures { result ≡ told_fault (token_told fault) }
{
    match fault {
        TokenFault::BadChar(line) => refused(line, Reason::BadChar),
        TokenFault::OpenString(line) => refused(line, Reason::OpenString),
        TokenFault::OpenComment(line) => refused(line, Reason::OpenComment),
        TokenFault::NumberTooBig(line) => refused(line, Reason::NumberTooBig),
        TokenFault::NoMemory => BundleFault::NoMemory,
    }
}

/// The fault of a tree.
pub(crate) fn tree_fault(fault: TreeFault) -> BundleFault
    ensures { result ≡ told_fault (tree_told fault) }
{
    match fault {
        TreeFault::Syntax(line) => refused(line, Reason::Syntax),
        TreeFault::TwiceDefined(line) => refused(line, Reason::TwiceDefined),
        TreeFault::NoSuchLabel(line) => refused(line, Reason::NoSuchLabel),
        TreeFault::TooDeep(line) => refused(line, Reason::TooDeep),
        TreeFault::NoMemory => BundleFault::NoMemory,
    }
}

/// The fault of nodes.
pub(crate) fn nodes_fault(fault: DtsFault) -> BundleFault
    ensures { result ≡ told_fault (nodes_told fault) }
{
    match fault {
        DtsFault::UnknownCompatible(line) => refused(line, Reason::UnknownCompatible),
        DtsFault::NoCells(line) => refused(line, Reason::NoCells),
        DtsFault::MissingProperty(line) => refused(line, Reason::MissingProperty),
        DtsFault::BadName(line) => refused(line, Reason::BadName),
        DtsFault::TwiceNamed(line) => refused(line, Reason::TwiceNamed),
        DtsFault::BadSpecifier(line) => refused(line, Reason::BadSpecifier),
        DtsFault::BadAssigned(line) => refused(line, Reason::BadAssigned),
        DtsFault::NoMemory => BundleFault::NoMemory,
    }
}
