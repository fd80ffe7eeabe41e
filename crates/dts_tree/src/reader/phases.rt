//! What each token does, by what may follow.

ghost use Rattle.std.specs.Prelude.{◌<◌};

use super::{Reader, target_of, text_of};
use crate::fault::TreeFault;
use crate::mark::{Mark, mark_of};
use crate::rows::{Begun, Item, Part, Phase, ValueRow};
use dts_tokens::{Token, number_up_to};

impl<'a> Reader<'a> {
    ghost use Rattle.dts_tree.specs.Done.{Does};
    ghost use Rattle.dts_tree.specs.State.{state_of};
    ghost use Rattle.dts_tree.specs.Steps.{at_start, at_versioned, at_rooted, at_top, at_reserve, at_ready, at_labelled, at_named, at_wanting, at_cells, at_bytes, at_valued, at_closed, step_in, step};

    // Before the root.
    fn at_top(&mut self, token: Token, mark: Mark) -> Result<(), TreeFault>
        ensures { Does self.new result (at_top (state_of self.old) token mark) }
    {
        match mark {
            Mark::Reserve => self.phase = Phase::Reserving,
            Mark::Slash => self.phase = Phase::Rooted(token),
            _ => return Err(TreeFault::Syntax(token.line)),
        }
        Ok(())
    }

    // A number of a `/memreserve/`.
    fn at_reserve(&mut self, text: &'a str, next: Phase, token: Token) -> Result<(), TreeFault>
        ensures { Does self.new result (at_reserve text.now next (state_of self.old) token) }
    {
        match number_up_to(u64::MAX, text_of(text, token)) {
            Some(_) => {
                self.phase = next;
                Ok(())
            }
            None => Err(TreeFault::Syntax(token.line)),
        }
    }

    // In a node.
    fn at_ready(&mut self, text: &'a str, token: Token, mark: Mark) -> Result<(), TreeFault>
        ensures { Does self.new result (at_ready text.now (state_of self.old) token mark) }
    {
        match mark {
            Mark::Label => self.label(text, token),
            Mark::Word => self.name(text, token),
            Mark::Comma => self.name(text, token),
            Mark::CloseBrace => {
                self.phase = Phase::Closed;
                Ok(())
            }
            _ => Err(TreeFault::Syntax(token.line)),
        }
    }

    // Behind a label.
    fn at_labelled(&mut self, text: &'a str, token: Token, mark: Mark) -> Result<(), TreeFault>
        ensures { Does self.new result (at_labelled text.now (state_of self.old) token mark) }
    {
        match mark {
            Mark::Label => self.label(text, token),
            Mark::Word => self.name(text, token),
            Mark::Comma => self.name(text, token),
            _ => Err(TreeFault::Syntax(token.line)),
        }
    }

    // Behind a name.
    fn at_named(
        &mut self,
        text: &'a str,
        name: Token,
        token: Token,
        mark: Mark,
    ) -> Result<(), TreeFault>
        ensures { Does self.new result (at_named text.now name (state_of self.old) token mark) }
    {
        match mark {
            Mark::OpenBrace => self.enter(text, name),
            Mark::Semicolon => self.bare(text, name, token),
            Mark::Equals => self.begin(text, name, token),
            _ => Err(TreeFault::Syntax(token.line)),
        }
    }

    // Where a value begins.
    fn at_wanting(&mut self, property: Begun, token: Token, mark: Mark) -> Result<(), TreeFault>
        requires { token.from < token.to }
        ensures { Does self.new result (at_wanting property (state_of self.old) token mark) }
    {
        match mark {
            Mark::Text => {
                self.values.push(ValueRow::Text(token))?;
                self.phase = Phase::Valued(property);
            }
            Mark::Reference => {
                self.values.push(ValueRow::Node(self.references.len()))?;
                self.references.push(target_of(token))?;
                self.phase = Phase::Valued(property);
            }
            Mark::Less => self.phase = Phase::InCells(property, self.items.len()),
            Mark::OpenBracket => self.phase = Phase::InBytes(property, self.items.len()),
            _ => return Err(TreeFault::Syntax(token.line)),
        }
        Ok(())
    }

    // In cells.
    fn at_cells(
        &mut self,
        text: &'a str,
        property: Begun,
        from: usize,
        token: Token,
        mark: Mark,
    ) -> Result<(), TreeFault>
        requires { token.from < token.to }
        ensures { Does self.new result (at_cells text.now property from (state_of self.old) token mark) }
    {
        match mark {
            Mark::Word => self.cell(text, token),
            Mark::Reference => {
                self.items.push(Item::Reference(self.references.len()))?;
                self.references.push(target_of(token))?;
                Ok(())
            }
            Mark::Greater => {
                let part = Part {
                    from,
                    to: self.items.len(),
                };
                self.values.push(ValueRow::Cells(part))?;
                self.phase = Phase::Valued(property);
                Ok(())
            }
            _ => Err(TreeFault::Syntax(token.line)),
        }
    }

    // In bytes.
    fn at_bytes(
        &mut self,
        text: &'a str,
        property: Begun,
        from: usize,
        token: Token,
        mark: Mark,
    ) -> Result<(), TreeFault>
        ensures { Does self.new result (at_bytes text.now property from (state_of self.old) token mark) }
    {
        match mark {
            Mark::Word => self.bytes(text, token),
            Mark::CloseBracket => {
                let part = Part {
                    from,
                    to: self.items.len(),
                };
                self.values.push(ValueRow::Bytes(part))?;
                self.phase = Phase::Valued(property);
                Ok(())
            }
            _ => Err(TreeFault::Syntax(token.line)),
        }
    }

    // Behind a value.
    fn at_valued(
        &mut self,
        text: &'a str,
        property: Begun,
        token: Token,
        mark: Mark,
    ) -> Result<(), TreeFault>
        ensures { Does self.new result (at_valued text.now property (state_of self.old) token mark) }
    {
        match mark {
            Mark::Comma => {
                self.phase = Phase::Wanting(property);
                Ok(())
            }
            Mark::Semicolon => self.finish(text, property),
            _ => Err(TreeFault::Syntax(token.line)),
        }
    }

    // Where only `/dts-v1/` may stand.
    fn at_start(&mut self, token: Token, mark: Mark) -> Result<(), TreeFault>
        ensures { Does self.new result (at_start (state_of self.old) token mark) }
    {
        match mark {
            Mark::Version => {
                self.phase = Phase::Versioned;
                Ok(())
            }
            _ => Err(TreeFault::Syntax(token.line)),
        }
    }

    // Behind a line before the root, where only its `;` may stand.
    fn at_line_end(&mut self, token: Token, mark: Mark) -> Result<(), TreeFault>
        ensures { Does self.new result (at_versioned (state_of self.old) token mark) }
    {
        match mark {
            Mark::Semicolon => {
                self.phase = Phase::Top;
                Ok(())
            }
            _ => Err(TreeFault::Syntax(token.line)),
        }
    }

    // Behind the root's `/`.
    fn at_rooted(&mut self, root: Token, token: Token, mark: Mark) -> Result<(), TreeFault>
        ensures { Does self.new result (at_rooted root (state_of self.old) token mark) }
    {
        match mark {
            Mark::OpenBrace => self.enter_root(root),
            _ => Err(TreeFault::Syntax(token.line)),
        }
    }

    // Behind a closing brace.
    fn at_closed(&mut self, token: Token, mark: Mark) -> Result<(), TreeFault>
        ensures { Does self.new result (at_closed (state_of self.old) token mark) }
    {
        match mark {
            Mark::Semicolon => {
                self.leave();
                Ok(())
            }
            _ => Err(TreeFault::Syntax(token.line)),
        }
    }

    /// What a token does.
    #[tactic(auto, unfolding(crate::specs::Steps::step, crate::specs::Steps::step_in))]
    pub(crate) fn step(&mut self, text: &'a str, token: Token) -> Result<(), TreeFault>
        requires { token.from < token.to }
        ensures { Does self.new result (step text.now (state_of self.old) token) }
    {
        let mark = mark_of(text_of(text, token));
        match self.phase {
            Phase::Start => self.at_start(token, mark),
            Phase::Versioned => self.at_line_end(token, mark),
            Phase::Top => self.at_top(token, mark),
            Phase::Reserving => self.at_reserve(text, Phase::ReservedFrom, token),
            Phase::ReservedFrom => self.at_reserve(text, Phase::ReservedTo, token),
            Phase::ReservedTo => self.at_line_end(token, mark),
            Phase::Rooted(root) => self.at_rooted(root, token, mark),
            Phase::Ready => self.at_ready(text, token, mark),
            Phase::Labelled => self.at_labelled(text, token, mark),
            Phase::Named(name) => self.at_named(text, name, token, mark),
            Phase::Wanting(property) => self.at_wanting(property, token, mark),
            Phase::InCells(property, from) => self.at_cells(text, property, from, token, mark),
            Phase::InBytes(property, from) => self.at_bytes(text, property, from, token, mark),
            Phase::Valued(property) => self.at_valued(text, property, token, mark),
            Phase::Closed => self.at_closed(token, mark),
            Phase::Done => Err(TreeFault::Syntax(token.line)),
        }
    }
}
