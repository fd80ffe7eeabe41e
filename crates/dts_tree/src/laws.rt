//! Laws of what tokens spell: the steps from token to token are the grammar.

ghost use Rattle.std.specs.Prelude.{◌≡◌, ℕ, List, IfErr};
ghost use Rattle.dts_tokens.specs.declared.token.Token.{Token};
ghost use Rattle.dts_tree.specs.declared.tree.DtsTree.{DtsTree};
ghost use Rattle.dts_tree.specs.Grammar.{Source, FitsSource, spelling};
ghost use Rattle.dts_tree.specs.Meaning.{IsSourceOf, IsNotSyntax, meaning};
ghost use Rattle.dts_tree.specs.Parsed.{IsTreeOf, spelled};
ghost use Rattle.dts_tree.specs.Tree.{seen};

/// Tokens that are accepted are spelled by a syntax tree, and the tree shows what that means.
pub fn accepted_is_spelled()
    ensures { (text : List ℕ) (tokens : List Token) (tree : DtsTree) → IsTreeOf text tokens tree → IsSourceOf text tokens (seen tree) }
{}

/// Tokens that a syntax tree spells are accepted with what it means, and refused where its meaning
/// is: for a name that is taken, a depth or a label, never for their syntax.
pub fn spelled_is_accepted()
    ensures accepted { (text : List ℕ) (tokens : List Token) (tree : DtsTree) → IsSourceOf text tokens (seen tree) → IsTreeOf text tokens tree }
    ensures means { (text : List ℕ) (source : Source) → FitsSource text source → spelled text (spelling source) ≡ meaning text source }
    ensures syntax { (text : List ℕ) (source : Source) → FitsSource text source → IfErr (spelled text (spelling source)) IsNotSyntax }
{}
