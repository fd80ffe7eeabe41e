//! Gates, and what is on of a clock.

ghost use Rattle.std.specs.Prelude.{◌≡◌, ℕ, ◌-◌, ◌<◌, ◌≤◌, true, false, [], ◌++◌, length, map, take, reverse, IfSome};
ghost use Rattle.std.specs.Option.{option_map, option_map_or};
ghost use Rattle.clk_base.specs.Description.{Description};
ghost use Rattle.clk_base.specs.Fields.{gate_of, power_of};
ghost use Rattle.clk_model.specs.Kinds.{is_open};
ghost use Rattle.clk_model.specs.Summary.{is_on};
ghost use Rattle.clk_model.specs.Lists.{is_in};
ghost use Rattle.clk_model.specs.State.{link_in};
ghost use Rattle.clk_model.specs.Tree.{path_within};
ghost use Rattle.clk_model.specs.Gates.{follow, gates_moved};
ghost use Rattle.core_parts.specs.Shape.{LinksLie};

use crate::window::Window;
use clk_base::{ClockId, Kind};
use clk_tree::Tree;
use reg_bank::Bank;

/// Whether a gate is open or a PLL powered. A clock of another kind has nothing to switch.
pub fn switch_state<B: Bank>(kind: Kind, window: &Window<B>) -> Option<bool>
    requires gate { IfSome (gate_of kind) (λ gate. (gate.word < window.now.size) × (gate.bit < 32)) }
    requires power { IfSome (power_of kind) (λ power. (power.word < window.now.size) × (power.bit < 32)) }
    ensures { IfSome window.now.words (λ regs. result ≡ is_on kind regs) }
{
    match kind {
        Kind::Gate {
            word,
            bit,
            set_to_disable,
        } => Some(window.is_set(word, bit) != set_to_disable),
        Kind::Pll {
            power_word,
            power_bit,
            ..
        } => Some(window.is_set(power_word, power_bit)),
        _ => None,
    }
}

/// Whether a gate is open. A clock of another kind has none.
pub fn is_open<B: Bank>(kind: Kind, window: &Window<B>) -> bool
    requires { IfSome (gate_of kind) (λ gate. (gate.word < window.now.size) × (gate.bit < 32)) }
    ensures { IfSome window.now.words (λ regs. result ≡ option_map_or (is_open regs) (gate_of kind) false) }
{
    match kind {
        Kind::Gate {
            word,
            bit,
            set_to_disable,
        } => window.is_set(word, bit) != set_to_disable,
        _ => false,
    }
}

// Opens a gate. A clock of another kind has none.
fn open_gate<B: Bank>(kind: Kind, window: &mut Window<B>)
    requires { IfSome (gate_of kind) (λ gate. (gate.word < window.old.size) × (gate.bit < 32)) }
    ensures size { window.new.size ≡ window.old.size }
    ensures words { window.new.words ≡ option_map (λ regs. option_map_or (follow regs false true) (gate_of kind) regs) window.old.words }
    ensures behind { window.new.behind ≡ window.old.behind }
    ensures locks { window.new.locks ≡ window.old.locks }
{
    if let Kind::Gate {
        word,
        bit,
        set_to_disable,
    } = kind
    {
        window.put_bit(word, bit, !set_to_disable);
    }
}

/// Closes a gate. A clock of another kind has none.
pub fn close_gate<B: Bank>(kind: Kind, window: &mut Window<B>)
    requires { IfSome (gate_of kind) (λ gate. (gate.word < window.old.size) × (gate.bit < 32)) }
    ensures size { window.new.size ≡ window.old.size }
    ensures words { window.new.words ≡ option_map (λ regs. option_map_or (follow regs true false) (gate_of kind) regs) window.old.words }
    ensures behind { window.new.behind ≡ window.old.behind }
    ensures locks { window.new.locks ≡ window.old.locks }
{
    if let Kind::Gate {
        word,
        bit,
        set_to_disable,
    } = kind
    {
        window.put_bit(word, bit, set_to_disable);
    }
}

// How many clocks of a path are gathered before those above them are opened.
const GATHERED: usize = 16;

// How many clocks of a path were gathered, and the one above them if the path goes on.
struct Gathered {
    count: usize,
    above: Option<ClockId>,
}

// Gathers the first so many clocks of a path, the clock itself first, as far as there is room.
fn gather(levels: usize, tree: &Tree, clock: ClockId, path: &mut [ClockId; GATHERED]) -> Gathered
    ensures path { path_within (link_in tree.now.clocks) levels clock.0
        ≡ map (λ c. c.0) (take result.count path.new)
        ++ option_map_or (λ c. path_within (link_in tree.now.clocks) (levels - result.count) c.0) result.above [] }
    ensures few { result.count ≤ 16 }
    ensures full { IfSome result.above (λ _. (result.count ≡ 16) × (16 ≤ levels)) }
    ensures inside { (defs : Description) → clock.0 < length defs → LinksLie defs tree.now.clocks
        → IfSome result.above (λ c. c.0 < length defs) }
{
    let mut at = clock;
    for place in 0..GATHERED {
        if place == levels {
            return Gathered {
                count: place,
                above: None,
            };
        }
        path[place] = at;
        let Some(parent) = tree.parent(at) else {
            return Gathered {
                count: place + 1,
                above: None,
            };
        };
        at = parent;
    }
    Gathered {
        count: GATHERED,
        above: Some(at),
    }
}

// Opens the gates of clocks that were gathered, the last of them first.
fn open_gathered<B: Bank>(path: &[ClockId], tree: &Tree, window: &mut Window<B>)
    requires inside { (c : ℕ) → is_in c (map (λ c. c.0) path.now) ≡ true → c < length tree.now.defs }
    requires words { window.old.size ≡ tree.now.words }
    ensures size { window.new.size ≡ window.old.size }
    ensures words { window.new.words ≡ option_map (gates_moved tree.now.defs (λ _. false) (λ _. true)
        (map (λ c. c.0) path.now)) window.old.words }
    ensures behind { window.new.behind ≡ window.old.behind }
    ensures locks { window.new.locks ≡ window.old.locks }
{
    for done in 0..path.len() {
        let clock = path[path.len() - 1 - done];
        open_gate(tree.def(clock).kind, window);
    }
}

/// Opens the gates of the first so many clocks of a path, parents first.
pub fn open_path<B: Bank>(levels: usize, tree: &Tree, window: &mut Window<B>, clock: ClockId)
    requires place { clock.0 < length tree.now.defs }
    requires links { LinksLie tree.now.defs tree.now.clocks }
    requires words { window.old.size ≡ tree.now.words }
    ensures size { window.new.size ≡ window.old.size }
    ensures words { window.new.words ≡ option_map (gates_moved tree.now.defs (λ _. false) (λ _. true)
        (path_within (link_in tree.now.clocks) levels clock.0)) window.old.words }
    ensures behind { window.new.behind ≡ window.old.behind }
    ensures locks { window.new.locks ≡ window.old.locks }
{
    let mut path = [clock; GATHERED];
    let Gathered { count, above } = gather(levels, tree, clock, &mut path);
    if let Some(parent) = above {
        open_path(levels - count, tree, window, parent);
    }
    open_gathered(&path[..count], tree, window);
}

/// Closes the gates of the first so many clocks of a path, the clock's own first.
pub fn close_path<B: Bank>(levels: usize, tree: &Tree, window: &mut Window<B>, clock: ClockId)
    requires place { clock.0 < length tree.now.defs }
    requires links { LinksLie tree.now.defs tree.now.clocks }
    requires words { window.old.size ≡ tree.now.words }
    ensures size { window.new.size ≡ window.old.size }
    ensures words { window.new.words ≡ option_map (gates_moved tree.now.defs (λ _. true) (λ _. false)
        (reverse (path_within (link_in tree.now.clocks) levels clock.0))) window.old.words }
    ensures behind { window.new.behind ≡ window.old.behind }
    ensures locks { window.new.locks ≡ window.old.locks }
{
    if levels == 0 {
        return;
    }
    close_gate(tree.def(clock).kind, window);
    if let Some(parent) = tree.parent(clock) {
        close_path(levels - 1, tree, window, parent);
    }
}
