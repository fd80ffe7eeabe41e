//! The first words of commands.

ghost use Rattle.std.specs.Prelude.{◌≡◌};
ghost use Rattle.drv_scripts.specs.Verbs.{rated_act, verb_of};

use clk_base::Act;

/// A command with a rate, on the clock of a handle.
#[derive(Clone, Copy)]
pub(crate) enum RateVerb {
    Round,
    Set,
    SetExclusive,
}

impl RateVerb {
    /// The act with this rate in Hz.
    #[tactic(auto, unfolding(crate::specs::Verbs::rated_act))]
    pub(crate) fn act(self, rate: u64) -> Act
        ensures { result ≡ rated_act self rate }
    {
        match self {
            RateVerb::Round => Act::RoundRate(rate),
            RateVerb::Set => Act::SetRate(rate),
            RateVerb::SetExclusive => Act::SetRateExclusive(rate),
        }
    }
}

/// What the first word of a command asks for.
#[derive(Clone, Copy)]
pub(crate) enum Verb {
    /// An act on the handle that a variable holds, which needs nothing else.
    Acts(Act),
    Get,
    Rated(RateVerb),
    Range,
    Reparent,
    Notify,
    Unnotify,
    Probe,
    Sweep,
}

/// The verb that a first word is, if it is one.
#[tactic(auto, unfolding(crate::specs::Verbs::verb_of))]
pub(crate) fn verb_of(word: &str) -> Option<Verb>
    ensures { result ≡ verb_of word.now }
{
    let verb = match word {
        "put" => Verb::Acts(Act::Put),
        "prepare" => Verb::Acts(Act::Prepare),
        "unprepare" => Verb::Acts(Act::Unprepare),
        "enable" => Verb::Acts(Act::Enable),
        "disable" => Verb::Acts(Act::Disable),
        "running" => Verb::Acts(Act::Running),
        "rate" => Verb::Acts(Act::GetRate),
        "parent" => Verb::Acts(Act::GetParent),
        "lock" => Verb::Acts(Act::ExclusiveGet),
        "unlock" => Verb::Acts(Act::ExclusivePut),
        "get" => Verb::Get,
        "round" => Verb::Rated(RateVerb::Round),
        "set" => Verb::Rated(RateVerb::Set),
        "setx" => Verb::Rated(RateVerb::SetExclusive),
        "range" => Verb::Range,
        "reparent" => Verb::Reparent,
        "notify" => Verb::Notify,
        "unnotify" => Verb::Unnotify,
        "probe" => Verb::Probe,
        "sweep" => Verb::Sweep,
        _ => return None,
    };
    Some(verb)
}
