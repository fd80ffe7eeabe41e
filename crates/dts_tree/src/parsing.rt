//! From tokens to the tree.

ghost use Rattle.std.specs.Prelude.{◌≡◌, ◌<◌, ◌≤◌, length, All, IfOk, IfErr};
ghost use Rattle.dts_tokens.specs.Tokens.{IsWhole, Rises};
ghost use Rattle.dts_tree.specs.Done.{Fails};
ghost use Rattle.dts_tree.specs.Held.{Holds};
ghost use Rattle.dts_tree.specs.Parsed.{IsTreeOf, IsFaultOf, shown};
ghost use Rattle.dts_tree.specs.State.{state_of};
ghost use Rattle.dts_tree.specs.Tree.{seen};

use crate::building::nodes;
use crate::fault::TreeFault;
use crate::reader::Reader;
use crate::reading::read;
use crate::targets::targets;
use crate::tree::DtsTree;
use clk_io::MOST_BYTES;
use dts_tokens::Token;
use std::alloc::Global;

// The tree that was read.
fn tree(alloc: Global, text: &str, reader: &Reader<'_>) -> Result<DtsTree, TreeFault>
    requires { Holds text.now (state_of reader.now).tables }
    ensures tree { IfOk result (λ tree. shown text.now (state_of reader.now) ≡ Ok (seen tree)) }
    ensures fault { IfErr result (λ fault. Fails fault (shown text.now (state_of reader.now))) }
{
    let labels = reader.labels.as_slice();
    let references = reader.references.as_slice();
    let found = match targets(alloc, text, labels, references) {
        Ok(found) => found,
        Err(fault) => return Err(fault),
    };
    match nodes(alloc, text, reader, &found) {
        Ok(nodes) => Ok(DtsTree { nodes }),
        Err(_) => Err(TreeFault::NoMemory),
    }
}

/// The tree that the tokens of a text spell. The tokens are those that `dts_tokens::tokens` gives
/// for this text.
///
/// Tokens are refused at the first that can't go on, or at the last, where more have to follow; then
/// at the first reference that means no node.
pub fn parse(alloc: Global, text: &str, tokens: &[Token]) -> Result<DtsTree, TreeFault>
    requires short { length text.now ≤ MOST_BYTES }
    requires rises { Rises 0 tokens.now (length text.now) }
    requires whole { All (IsWhole text.now) tokens.now }
    ensures tree { IfOk result (λ tree. IsTreeOf text.now tokens.now tree) }
    ensures fault { IfErr result (λ fault. IsFaultOf text.now tokens.now fault) }
{
    match read(alloc, text, tokens) {
        Ok(reader) => tree(alloc, text, &reader),
        Err(fault) => Err(fault),
    }
}
