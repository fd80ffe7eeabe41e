//! How a machine goes along with the adding of a notifier, by a chain that was made before.

ghost use Rattle.std.specs.Prelude.{◌≡◌, ◌<◌, false, List, Option, length, IfOk};
ghost use Rattle.clk_base.specs.declared.call.Sleeping.TheVariants as call;
ghost use Rattle.clk_base.specs.declared.event.Event.TheVariants.{Begin};
ghost use Rattle.clk_base.specs.declared.event.Reply.TheVariants.{Fine};
ghost use Rattle.clk_base.specs.declared.event.Turn.TheVariants.{Done};
ghost use Rattle.notifiers.specs.Chains.{row_on, IsWith};
ghost use Rattle.notifiers.specs.declared.notifier.Notifier.{Notifier};
ghost use Rattle.clk_machine.specs.Along.{GoesAlong, KeepsShape};
ghost use Rattle.clk_machine.specs.Holding.{notified};
ghost use Rattle.clk_machine.specs.Places.{IsReadyToAdd};
ghost use Rattle.clk_machine.specs.Stands.{nothing, Becomes};

use super::Machine;
use clk_base::{ClockId, Handle, Policy};
use clk_io::NoMemory;
use notifiers::{Chain, ChainFault, Notifier};
use reg_bank::Bank;

impl<B: Bank> Machine<B> {
    /// The chain by which a driver's notifier is added to the clock of a handle, if it is. The one
    /// refusal is want of memory.
    pub(crate) fn ready_notifier(
        &self,
        driver: u32,
        handle: Handle,
        id: u32,
        priority: i32,
        policy: Policy,
    ) -> Result<Option<Chain>, NoMemory>
        ensures { IfOk result (IsReadyToAdd self.now driver handle (record { id = id; priority = priority; policy = policy })) }
    {
        let Some(row) = self.own_paid(driver, handle) else {
            return Ok(None);
        };
        let notifier = Notifier {
            id,
            priority,
            policy,
        };
        match self.notifiers.chain_with(self.alloc, row.clock, notifier) {
            Ok(chain) => Ok(Some(chain)),
            Err(ChainFault::Exists) => Ok(None),
            Err(ChainFault::Full) => Ok(None),
            Err(ChainFault::NoMemory) => Err(NoMemory),
        }
    }

    // A clock gets the chain that was made with a notifier more.
    fn put_chain(&mut self, clock: ClockId, chain: &mut Chain)
        requires credit { self.old.spent < self.old.credits }
        requires quiet { self.old.flight.going ≡ false }
        requires place { clock.0 < length self.old.desc.defs }
        requires made { (n : Notifier) × IsWith self.old.chains (row_on clock.0 n) chain.old }
        ensures { (n : Notifier) → IsWith self.old.chains (row_on clock.0 n) chain.old
            → Becomes self.old nothing (notified clock.0 n.id n.priority n.policy) self.new }
    {
        self.notifiers.put_chain(clock, chain);
        self.spent += 1;
    }

    /// A driver's notifier is added by the chain that was made for it, if it is added.
    pub(crate) fn notifier_add_along(
        &mut self,
        chain: &mut Option<Chain>,
        driver: u32,
        handle: Handle,
    )
        requires quiet { self.old.flight.going ≡ false }
        requires ready { (n : Notifier) × IsReadyToAdd self.old driver handle n chain.old }
        ensures along { (n : Notifier) → IsReadyToAdd self.old driver handle n chain.old
            → GoesAlong self.old driver (Begin (call.NotifierAdd handle n.id n.priority n.policy)) (Done Fine) self.new }
        ensures same { KeepsShape self.old self.new }
        ensures quiet { self.new.flight.going ≡ false }
    {
        match chain {
            Some(chain) => {
                let row = self.known(driver, handle);
                self.put_chain(row.clock, chain);
            }
            None => {}
        }
    }
}
