//! The framework that drivers share: the core under the counted lock.
//!
//! An [`Unnamed`] framework and driver 0 come from one call. [`Framework::of`] gives it the name of
//! its lock, driver 0 makes further drivers, and each driver makes its calls from a thread of its
//! own: `enable`, `disable` and `running` take one turn of the lock; `call` has the baton from its
//! decision to its end, decides over a copy of the prepare tier, and takes a turn for its beginning and
//! for each step. At the end `close` takes all drivers and gives the core.
#![tactic(auto)]

mod calling;
mod closing;
mod courtesy;
mod desk;
mod enabling;
mod framework;
mod kernel;
mod making;
mod opened;

pub use closing::Closed;
pub use framework::{Driver, Framework, Unnamed};
pub use kernel::Kernel;
pub use opened::Opened;
