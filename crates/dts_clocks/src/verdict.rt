//! Laws of what a tree says.

ghost use Rattle.std.specs.Prelude.{◌≡◌, ◌⊎◌, List};
ghost use Rattle.clk_base.specs.Description.{name_of, EachClock};
ghost use Rattle.bundle_text.specs.Names.{is_clock_name};
ghost use Rattle.clk_base.specs.Valid.{has_its_parents};
ghost use Rattle.dts_tree.specs.Tree.{SeenNode};
ghost use Rattle.dts_clocks.specs.declared.fault.DtsFault.{DtsFault};
ghost use Rattle.dts_clocks.specs.Loaded.{SeenLoaded};
ghost use Rattle.dts_clocks.specs.Verdict.{Accepts, Refuses};

/// A tree has one verdict: it says one thing, or is refused for one fault.
pub fn one_verdict()
    ensures one_meaning { (nodes : List SeenNode) (a b : SeenLoaded) → Accepts nodes a → Accepts nodes b → a ≡ b }
    ensures one_refusal { (nodes : List SeenNode) (fault other : DtsFault) → Refuses nodes fault → Refuses nodes other → fault ≡ other }
    ensures not_both { (nodes : List SeenNode) (a : SeenLoaded) (fault : DtsFault) → Accepts nodes a → Refuses nodes fault → ⊥ }
    ensures decided { (nodes : List SeenNode) → ((a : SeenLoaded) × Accepts nodes a) ⊎ ((fault : DtsFault) × Refuses nodes fault) }
{}

/// Where a tree is accepted, each of its clocks has its parents.
pub fn each_has_its_parents()
    ensures { (nodes : List SeenNode) (loaded : SeenLoaded) → Accepts nodes loaded → EachClock loaded.defs (has_its_parents loaded.defs) }
{}

/// If a tree is accepted, each of its clocks has a clock's name.
pub fn each_has_its_name()
    ensures { (nodes : List SeenNode) (loaded : SeenLoaded) → Accepts nodes loaded → EachClock loaded.defs (λ c. is_clock_name (name_of loaded.defs c)) }
{}
