//! The power of PLLs.

ghost use Rattle.std.specs.Prelude.{◌≡◌, ◌<◌, false, IfSome};
ghost use Rattle.std.specs.Option.{option_map, option_map_or};
ghost use Rattle.clk_base.specs.Fields.{power_of};
ghost use Rattle.clk_model.specs.Kinds.{is_powered, with_power};

use crate::window::Window;
use clk_base::Kind;
use reg_bank::Bank;

/// Whether a PLL is powered. A clock of another kind isn't.
pub fn is_running<B: Bank>(kind: Kind, window: &Window<B>) -> bool
    requires { IfSome (power_of kind) (λ power. (power.word < window.now.size) × (power.bit < 32)) }
    ensures { IfSome window.now.words (λ regs. result ≡ option_map_or (is_powered regs) (power_of kind) false) }
{
    match kind {
        Kind::Pll {
            power_word,
            power_bit,
            ..
        } => window.is_set(power_word, power_bit),
        _ => false,
    }
}

/// Powers a PLL, or switches it off. A clock of another kind has no power.
pub fn set_power<B: Bank>(kind: Kind, window: &mut Window<B>, powered: bool)
    requires { IfSome (power_of kind) (λ power. (power.word < window.old.size) × (power.bit < 32)) }
    ensures size { window.new.size ≡ window.old.size }
    ensures words { window.new.words ≡ option_map (λ regs. option_map_or (λ power. with_power regs power powered)
        (power_of kind) regs) window.old.words }
    ensures behind { window.new.behind ≡ window.old.behind }
    ensures locks { window.new.locks ≡ window.old.locks }
{
    if let Kind::Pll {
        power_word,
        power_bit,
        ..
    } = kind
    {
        window.put_bit(power_word, power_bit, powered);
    }
}
