//! The parts of the core by themselves, and what an event does to one part at a time.
#![tactic(auto)]

mod adoption;
mod beginning;
mod behind;
mod course;
mod decision;
mod draft;
mod free;
mod gates;
mod handles;
mod held;
mod holds;
mod kinds;
mod letting;
mod lifting;
mod linking;
mod movable;
mod planning;
mod plls;
mod posting;
mod power;
mod register;
mod reparenting;
mod room;
mod rounding;
mod scripted;
mod seen;
mod settling;
mod visits;
mod window;
mod work;

pub use adoption::{is_held, push_adoption_by, push_registration};
pub use beginning::{no_holds, nobody};
pub use behind::Behind;
pub use course::Course;
pub use decision::Verdict;
pub use draft::Draft;
pub use free::is_among;
pub use gates::{close_gate, close_path, is_open, open_path, switch_state};
pub use handles::{holds_something, keeps_prepare};
pub use held::Held;
pub use holds::{HoldKind, add_hold, drop_hold, end_holds, pass_holds};
pub use kinds::is_critical;
pub use letting::{let_go_path, let_go_under};
pub use lifting::decide_lifted;
pub use linking::link_to;
pub use movable::can_go_along;
pub use planning::{decide_request, write_script};
pub use plls::{
    Sought, is_unprepared, is_unprepared_under, next_to_lower, next_to_raise, next_to_raise_under,
};
pub use posting::{Posting, posts_of};
pub use power::{is_running, set_power};
pub use register::{given_parent, register_clock};
pub use reparenting::{is_linked, plan_move, refusal};
pub use room::{ending, fits, most_to_lower, most_to_raise};
pub use rounding::round_lifted;
pub use scripted::told_clocks;
pub use seen::{OtherRange, Seen};
pub use settling::settle_below;
pub use visits::{set_along, set_to};
pub use window::Window;
pub use work::Made;
