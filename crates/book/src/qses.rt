// The calls that enrol QSEs and set their quantities.
ghost use Rattle.history.specs.Called.{Called};
ghost use Rattle.history.specs.Calls.{enrol as enrol_call, quantities as quantities_call};
ghost use Rattle.book.specs.View.{view, said};

use crate::book::Book;
use admission::qses::{enrolled, tested_enrol, tested_quantities};
use market::quantities::BareQuantities;
use terms::refusal::Refusal;

impl Book<'_> {
    // Enrols a QSE with its load, or gives a known QSE another load.
    pub fn enrol(&mut self, qse: u32, load: u32) -> Result<(), Refusal>
        ensures called { Called (view self.old) (enrol_call qse load) (said result) (view self.new) }
    {
        tested_enrol(self.drafted, qse, load)?;
        let account = enrolled(self.accounts.get(qse), qse, load);
        match self.accounts.put(account) {
            Ok(()) => Ok(()),
            Err(_) => Err(Refusal::NoFreeSlot),
        }
    }

    // Sets the ten quantities of an enrolled QSE in a service, given by its number: calls take raw figures and check them.
    pub fn quantities(
        &mut self,
        qse: u32,
        service: u32,
        bare: BareQuantities,
    ) -> Result<(), Refusal>
        ensures called { Called (view self.old) (quantities_call qse service bare) (said result) (view self.new) }
    {
        let service = tested_quantities(self.drafted, qse, service, &bare)?;
        let Some(mut account) = self.accounts.get(qse) else {
            return Err(Refusal::NotEnrolled);
        };
        account.row.quantities.set(service, bare);
        // a known QSE has its slot, so this is never refused
        let _ = self.accounts.put(account);
        Ok(())
    }
}
