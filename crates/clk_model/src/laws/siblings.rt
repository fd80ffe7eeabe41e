//! Laws of siblings.

ghost use Rattle.clk_model.specs.Laws.Siblings.{ChildrenTellLinks, RegistersAreListed, RegistersAttach, RegistersUnattached, RelinksAreListed, RelinksAttach};

/// Children and links tell the same tree: a clock is a child of another exactly where it is
/// registered and linked to it, and each registered clock is a root, an orphan or a child of one
/// clock, and no two of these.
pub fn children_tell_links()
    ensures law { ChildrenTellLinks }
{}

/// A clock that is attached, by its registration or by a new link, is the first of its parent's
/// children, and all other children and orphans stand in their order.
pub fn attached_come_first()
    ensures registers { RegistersAttach }
    // a registered clock without a parent is the first of the roots or of the orphans
    ensures unattached { RegistersUnattached }
    ensures relinks { RelinksAttach }
{}

/// The order of attaching lists the registered clocks after each registration and each new link,
/// where it did before.
pub fn registered_are_listed()
    ensures registers { RegistersAreListed }
    ensures relinks { RelinksAreListed }
{}
