//! From tokens to all that they spell.

ghost use Rattle.std.specs.Prelude.{◌≡◌, ◌<◌, All, IfOk, IfErr};
ghost use Rattle.dts_tree.specs.Done.{Does, Fails};
ghost use Rattle.dts_tree.specs.Read.{opening, last_line, is_end, read};
ghost use Rattle.dts_tree.specs.State.{state_of};
ghost use Rattle.dts_tree.specs.Steps.{run};

use crate::fault::TreeFault;
use crate::reader::Reader;
use crate::rows::Phase;
use dts_tokens::Token;
use indexmap::IndexSet;
use std::alloc::Global;

// A reader that has read nothing.
fn new_reader<'a>(alloc: Global) -> Reader<'a>
    ensures { state_of result ≡ opening }
{
    Reader {
        phase: Phase::Start,
        here: 0,
        above: Vec::new(alloc),
        nodes: Vec::new(alloc),
        properties: Vec::new(alloc),
        values: Vec::new(alloc),
        items: Vec::new(alloc),
        pending: Vec::new(alloc),
        labels: Vec::new(alloc),
        references: Vec::new(alloc),
        phandles: IndexSet::new(alloc),
        children: IndexSet::new(alloc),
        named: IndexSet::new(alloc),
        marked: IndexSet::new(alloc),
    }
}

// Each token does what it does.
fn run<'a>(reader: &mut Reader<'a>, text: &'a str, tokens: &[Token]) -> Result<(), TreeFault>
    requires { All (λ t. t.from < t.to) tokens.now }
    ensures { Does reader.new result (run text.now tokens.now (state_of reader.old)) }
{
    for token in tokens {
        match reader.step(text, *token) {
            Ok(()) => {}
            Err(fault) => return Err(fault),
        }
    }
    Ok(())
}

// The line of the last token.
fn last_line(tokens: &[Token]) -> u32
    ensures { result ≡ last_line 1 tokens.now }
{
    let mut line = 1;
    for token in tokens {
        line = token.line;
    }
    line
}

// The source may end behind the root alone.
fn is_end(phase: Phase) -> bool
    ensures { result ≡ is_end phase }
{
    matches!(phase, Phase::Done)
}

/// All that the tokens spell.
#[tactic(auto, unfolding(crate::specs::Read::read))]
pub(crate) fn read<'a>(
    alloc: Global,
    text: &'a str,
    tokens: &[Token],
) -> Result<Reader<'a>, TreeFault>
    requires { All (λ t. t.from < t.to) tokens.now }
    ensures found { IfOk result (λ r. read text.now tokens.now ≡ Ok (state_of r)) }
    ensures fault { IfErr result (λ e. Fails e (read text.now tokens.now)) }
{
    let mut reader = new_reader(alloc);
    run(&mut reader, text, tokens)?;
    if !is_end(reader.phase) {
        return Err(TreeFault::Syntax(last_line(tokens)));
    }
    Ok(reader)
}
