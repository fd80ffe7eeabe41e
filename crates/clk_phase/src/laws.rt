//! What holds of every command. A function here does nothing: its contract is the theorem.

ghost use Rattle.clk_phase.specs.Running.{RunsAreCommands};
ghost use Rattle.clk_phase.specs.Undone.{FailedLeaveHandles, FailedGetsLeaveNone};

/// The calls that a command under way makes, up to the moment when none is left, with their replies, are
/// the calls of the command, and it answers as the command does.
pub fn runs_are_commands()
    ensures law { RunsAreCommands }
{}

/// After a forward command that failed, made from any state of any run, each handle of the driver has the
/// prepares, enables and all else that it had before, whatever other drivers do between its calls and in
/// the middle of them. Left out is a handle whose undoing unprepare found no room for its steps. Of a
/// get that failed no handle is left.
pub fn failed_commands_leave_handles()
    ensures leaves { FailedLeaveHandles }
    ensures gets { FailedGetsLeaveNone }
{}
