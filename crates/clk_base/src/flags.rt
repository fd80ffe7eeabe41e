//! The flags of a clock.

ghost use Rattle.std.specs.Prelude.{⊤, [], ◌∷◌, codes};

use bitflags::{Flag, Flags, bitflag_items};

/// The framework's flags on a clock, one bit each.
#[derive(Clone, Copy, Debug, PartialEq, Eq)]
pub struct ClkFlags(u8);

bitflag_items! {
    impl ClkFlags: u8 {
        /// A prepared clock is protected as an exclusive holder would.
        const SET_RATE_GATE = 1;
        /// A prepared clock keeps its parent.
        const SET_PARENT_GATE = 2;
        /// A request for a rate is passed on to the parent.
        const SET_RATE_PARENT = 4;
        /// The unused sweep leaves the clock alone.
        const IGNORE_UNUSED = 8;
        /// A request for a rate doesn't move the clock to another parent.
        const NO_REPARENT = 16;
        /// The clock is active from its registration on.
        const CRITICAL = 32;
        /// The clock's parent runs while the clock is moved, or its setting is written.
        const OPS_PARENT_ENABLE = 64;
        /// The clock runs while its setting is written.
        const SET_RATE_UNGATE = 128;
    }
}

impl Flags for ClkFlags {
    type Bits = u8;

    ghost exact = { ⊤ };

    ghost table = { (codes "SET_RATE_GATE", 1) ∷ (codes "SET_PARENT_GATE", 2) ∷ (codes "SET_RATE_PARENT", 4)
        ∷ (codes "IGNORE_UNUSED", 8) ∷ (codes "NO_REPARENT", 16) ∷ (codes "CRITICAL", 32)
        ∷ (codes "OPS_PARENT_ENABLE", 64) ∷ (codes "SET_RATE_UNGATE", 128) ∷ [] };

    ghost set_of = { λ f. f.0 };

    fn flags<'a>() -> &'a [Flag<ClkFlags>] {
        ClkFlags::FLAGS
    }

    fn bits(&self) -> u8 {
        self.0
    }

    fn from_bits_retain(bits: u8) -> ClkFlags {
        ClkFlags(bits)
    }
}
