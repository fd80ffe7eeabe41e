//! What holds of a call that goes on, over every interleaving: from its beginning to its end, whatever
//! the drivers' enables, disables and questions between.

ghost use Rattle.std.specs.Prelude.{◌≡◌, ℕ, List, Bool, Option, Some, None, IsTrue};
ghost use Rattle.std.specs.List.{list_any};
ghost use Rattle.clk_base.specs.declared.call.Sleeping.{Sleeping};
ghost use Rattle.clk_base.specs.declared.call.Micro.{Micro};
ghost use Rattle.clk_base.specs.declared.event.Entry.{Entry};
ghost use Rattle.clk_base.specs.declared.event.Errno.TheVariants as errno;
ghost use Rattle.clk_base.specs.declared.event.Event.TheVariants as event;
ghost use Rattle.clk_base.specs.declared.event.Reply.{Reply};
ghost use Rattle.clk_base.specs.declared.event.Reply.TheVariants as reply;
ghost use Rattle.clk_base.specs.declared.event.Turn.TheVariants as turn;
ghost use Rattle.clk_model.specs.State.{State};
ghost use Rattle.clk_model.specs.Notices.{is_veto};
ghost use Rattle.clk_model.specs.Machine.{next};
ghost use Rattle.clk_model.specs.Journal.{Legal};
ghost use Rattle.clk_model.specs.Laws.Flight.{Flight, QuietOrInFlight, IsUnderWay, IsCalledOff};
ghost use Rattle.clk_model.specs.Laws.HoldsLeft.{RunsLeaveNoHold};

/// Behind each front of a legal journal either no call is in flight, or one that began in the journal:
/// its steps stand in the journal behind its beginning, with events of the enable tier between them and
/// nothing else. So what holds of a flight holds in every interleaving.
pub fn quiet_or_in_flight()
    ensures known { (start : State) (journal : List Entry) →
        start.change ≡ None → Legal start journal → QuietOrInFlight start journal }
{}

/// While a call is in flight, the steps of the script that the state before the call gave it are made
/// in order, each once, less what a timeout drops; between them come only steps that a step has put in
/// front.
pub fn script_left()
    ensures left { (q s : State) (driver : ℕ) (what : Sleeping) (made : List Micro) →
        Flight q driver what s made → IsUnderWay q driver what s made }
{}

/// A call of which a notice before the change is a veto leaves nothing: at its end all is as before it
/// but what enables and disables of any driver have done meanwhile.
pub fn veto_leaves_nothing()
    ensures called_off { (q s t : State) (driver : ℕ) (what : Sleeping) (made : List Micro)
        (m : Micro) (answer : Option Bool) (r : Reply) →
        Flight q driver what s made → IsTrue (list_any is_veto made) →
        next s driver (event.Step m answer) ≡ Some (t, turn.Done r) →
        IsCalledOff q driver what made t r }
    // a call that goes on is refused by EBUSY for no other reason
    ensures cause { (q s t : State) (driver : ℕ) (what : Sleeping) (made : List Micro)
        (m : Micro) (answer : Option Bool) →
        Flight q driver what s made →
        next s driver (event.Step m answer) ≡ Some (t, turn.Done (reply.Refused errno.EBUSY)) →
        IsTrue (list_any is_veto made) }
{}

/// A call that isn't a registration leaves no hold behind its end, where there was none before it:
/// also one that is called off, and one of which a PLL doesn't lock. And behind each journal that
/// begins at an opening with a valid description nothing is held while no call is in flight,
/// registrations included.
pub fn calls_leave_no_hold()
    ensures runs { RunsLeaveNoHold }
{}
