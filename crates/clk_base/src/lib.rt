//! The words of the clock framework: clocks and their description, calls, events, replies and
//! entries.
#![tactic(auto)]

mod call;
mod check;
mod clock;
mod command;
mod credits;
mod desc;
mod event;
mod fault;
mod flags;
mod handle;
mod name;
mod parents;
mod pause;
mod rules;
mod valid_desc;

pub use call::{Micro, Notice, Sleeping};
pub use clock::{ClockDef, ClockId, Kind};
pub use command::{Act, Answer, Command};
pub use credits::MOST_CREDITS;
pub use desc::Desc;
pub use event::{Entry, Errno, Event, Reply, Turn};
pub use fault::{AddFault, DescFault};
pub use flags::ClkFlags;
pub use handle::{Handle, Policy};
pub use name::ClockName;
pub use parents::Parents;
pub use pause::{NoPause, Pause, Place};
pub use rules::depth;
pub use valid_desc::ValidDesc;
