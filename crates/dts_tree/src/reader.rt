//! The reader: what was read so far, and what each token does.

ghost use Rattle.std.specs.Prelude.{◌≡◌, ◌<◌, ◌++◌, map, OnOk, IfErr};
ghost use Rattle.dts_tokens.specs.Tokens.{text_of};
ghost use Rattle.dts_tree.specs.Grown.{label_of, target_of, owned_by};

use crate::fault::TreeFault;
use crate::mark::is_node_name;
use crate::names::{Place, note};
use crate::rows::{Item, LabelRow, NodeRow, Phase, PropertyRow, ValueRow};
use dts_tokens::Token;
use indexmap::IndexSet;

mod bytes;
mod phases;
mod properties;

/// What was read so far. Each table is in the order of the source.
#[derive(Drop)]
pub(crate) struct Reader<'a> {
    pub phase: Phase,
    /// The node that is open, and those above it, the nearest last.
    pub here: usize,
    pub above: Vec<usize>,
    pub nodes: Vec<NodeRow>,
    pub properties: Vec<PropertyRow>,
    pub values: Vec<ValueRow>,
    pub items: Vec<Item>,
    /// Labels whose node or property isn't known yet.
    pub pending: Vec<Token>,
    pub labels: Vec<LabelRow>,
    pub references: Vec<Token>,
    /// What is taken: phandles, names of nodes in their parents and of properties in their nodes,
    /// and labels.
    pub phandles: IndexSet<u32>,
    pub children: IndexSet<Place<'a>>,
    pub named: IndexSet<Place<'a>>,
    pub marked: IndexSet<Place<'a>>,
}

/// The bytes of a token, as far as the text has them.
pub(crate) fn text_of<'a>(text: &'a str, token: Token) -> &'a [u8]
    ensures { result.now ≡ text_of text.now token }
{
    let bytes = text.as_bytes();
    let from = token.from.min(bytes.len());
    let to = token.to.min(bytes.len()).max(from);
    &bytes[from..to]
}

// The label of a token `name:`.
fn label_of(token: Token) -> Token
    ensures { result ≡ label_of token }
{
    Token {
        from: token.from,
        to: token.to.saturating_sub(1),
        line: token.line,
    }
}

/// The label of a token `&name`.
pub(crate) fn target_of(token: Token) -> Token
    requires { token.from < token.to }
    ensures { result ≡ target_of token }
{
    Token {
        from: token.from + 1,
        to: token.to,
        line: token.line,
    }
}

// Labels that stood before a node are its own.
fn own(labels: &mut Vec<LabelRow>, pending: &[Token], node: usize) -> Result<(), TreeFault>
    ensures labels { OnOk result (labels.new.items ≡ labels.old.items ++ map (owned_by node) pending.now) }
    ensures err { IfErr result (λ e. e ≡ TreeFault.NoMemory) }
{
    for name in pending {
        labels.push(LabelRow { name: *name, node })?;
    }
    Ok(())
}

impl<'a> Reader<'a> {
    ghost use Rattle.dts_tree.specs.Done.{Does};
    ghost use Rattle.dts_tree.specs.Grown.{owned_by, add_label, add_node, add_root};
    ghost use Rattle.dts_tree.specs.State.{state_of};
    ghost use Rattle.dts_tree.specs.Steps.{label, name, enter, leave, with_tables};
    ghost use Rattle.dts_tree.specs.declared.rows.Phase.TheVariants as phases;

    /// A label before a node or a property.
    #[tactic(auto, unfolding(crate::specs::Steps::label, crate::specs::Grown::add_label))]
    pub(crate) fn label(&mut self, text: &'a str, token: Token) -> Result<(), TreeFault>
        ensures { Does self.new result (label text.now (state_of self.old) token) }
    {
        let name = label_of(token);
        note(&mut self.marked, 0, text_of(text, name), token.line)?;
        self.pending.push(name)?;
        self.phase = Phase::Labelled;
        Ok(())
    }

    /// A name of a node or a property.
    #[tactic(auto, unfolding(crate::specs::Steps::name))]
    pub(crate) fn name(&mut self, text: &'a str, token: Token) -> Result<(), TreeFault>
        ensures { Does self.new result (name text.now (state_of self.old) token) }
    {
        if !is_node_name(text_of(text, token)) {
            return Err(TreeFault::Syntax(token.line));
        }
        self.phase = Phase::Named(token);
        Ok(())
    }

    /// The root begins.
    #[tactic(auto, unfolding(crate::specs::Grown::add_root))]
    pub(crate) fn enter_root(&mut self, root: Token) -> Result<(), TreeFault>
        ensures { Does self.new result (Ok (with_tables phases.Ready (state_of self.old) (add_root root (state_of self.old).tables))) }
    {
        self.nodes.push(NodeRow {
            name: root,
            parent: None,
        })?;
        self.phase = Phase::Ready;
        Ok(())
    }

    /// A node begins, and is open.
    #[tactic(auto, unfolding(crate::specs::Steps::enter, crate::specs::Grown::add_node))]
    pub(crate) fn enter(&mut self, text: &'a str, name: Token) -> Result<(), TreeFault>
        ensures { Does self.new result (enter text.now name (state_of self.old)) }
    {
        let here = self.here;
        note(&mut self.children, here, text_of(text, name), name.line)?;
        if self.above.len() >= 63 {
            return Err(TreeFault::TooDeep(name.line));
        }
        let node = self.nodes.len();
        self.nodes.push(NodeRow {
            name,
            parent: Some(here),
        })?;
        own(&mut self.labels, &self.pending, node)?;
        self.pending.clear();
        self.above.push(here)?;
        self.here = node;
        self.phase = Phase::Ready;
        Ok(())
    }

    /// A node ends.
    #[tactic(auto, unfolding(crate::specs::Steps::leave))]
    pub(crate) fn leave(&mut self)
        ensures { state_of self.new ≡ leave (state_of self.old).above (state_of self.old) }
    {
        match self.above.pop() {
            Some(parent) => {
                self.here = parent;
                self.phase = Phase::Ready;
            }
            None => self.phase = Phase::Done,
        }
    }
}
