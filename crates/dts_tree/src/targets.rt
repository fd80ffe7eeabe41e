//! From references to nodes.

ghost use Rattle.std.specs.Prelude.{◌≡◌, All, IfOk, IfErr, Result};
ghost use Rattle.std.specs.HashMap.{get};
ghost use Rattle.dts_tokens.specs.Tokens.{text_of};
ghost use Rattle.dts_tree.specs.declared.names.Place.{Place};
ghost use Rattle.dts_tree.specs.Done.{Fails};
ghost use Rattle.dts_tree.specs.Held.{HoldsLabel, IsNumber};
ghost use Rattle.dts_tree.specs.Read.{node_of, targets};
ghost use Rattle.dts_tree.specs.Taken.{taken_of, same_place};

use crate::fault::TreeFault;
use crate::names::Place;
use crate::reader::text_of;
use crate::rows::LabelRow;
use dts_tokens::Token;
use std::alloc::Global;
use std::collections::HashMap;

// The node of each label.
fn nodes_of_labels<'a>(
    alloc: Global,
    text: &'a str,
    labels: &[LabelRow],
) -> Result<HashMap<Place<'a>, usize>, TreeFault>
    ensures nodes { IfOk result (λ nodes. (q : Place) → get same_place nodes q ≡ node_of text.now labels.now (taken_of q)) }
    ensures err { IfErr result (λ e. e ≡ TreeFault.NoMemory) }
{
    let mut nodes = HashMap::new(alloc);
    for label in labels {
        let place = Place {
            scope: 0,
            text: text_of(text, label.name),
        };
        nodes.insert(place, label.node)?;
    }
    Ok(nodes)
}

/// The nodes that references mean.
pub(crate) fn targets(
    alloc: Global,
    text: &str,
    labels: &[LabelRow],
    references: &[Token],
) -> Result<Vec<usize>, TreeFault>
    requires { All HoldsLabel labels.now }
    ensures found { IfOk result (λ found. targets text.now labels.now references.now ≡ Ok found.items) }
    ensures numbers { IfOk result (λ found. All IsNumber found.items) }
    ensures fault { IfErr result (λ e. Fails e (targets text.now labels.now references.now)) }
{
    let nodes = nodes_of_labels(alloc, text, labels)?;
    let mut found = Vec::new(alloc);
    for reference in references {
        let place = Place {
            scope: 0,
            text: text_of(text, *reference),
        };
        let Some(node) = nodes.get(&place) else {
            return Err(TreeFault::NoSuchLabel(reference.line));
        };
        found.push(*node)?;
    }
    Ok(found)
}
