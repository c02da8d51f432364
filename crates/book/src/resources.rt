// The calls that enter a resource in the hour and strike it out.
ghost use Rattle.history.specs.Called.{Called};
ghost use Rattle.history.specs.Calls.{enter as enter_call, strike as strike_call};
ghost use Rattle.book.specs.View.{view, said};

use crate::book::Book;
use admission::resources::{tested_enter, tested_strike};
use market::figures::BareFigures;
use market::resource::ResourceRow;
use terms::refusal::Refusal;

impl Book<'_> {
    // Enters a resource of an enrolled QSE, or gives a known resource its new figures. Its class is given by its number:
    // calls take raw figures and check them.
    pub fn enter(
        &mut self,
        resource: u32,
        qse: u32,
        class: u32,
        figures: BareFigures,
    ) -> Result<(), Refusal>
        ensures called { Called (view self.old) (enter_call resource qse class figures) (said result) (view self.new) }
    {
        let class = tested_enter(self.drafted, resource, qse, class, &figures)?;
        if self.accounts.get(qse).is_none() {
            return Err(Refusal::NotEnrolled);
        }
        let row = ResourceRow {
            number: resource,
            qse,
            class,
            figures,
        };
        match self.resources.put(row) {
            Ok(()) => Ok(()),
            Err(_) => Err(Refusal::NoFreeSlot),
        }
    }

    // Takes a resource out of the hour: its slot serves the next entry.
    pub fn strike(&mut self, resource: u32) -> Result<(), Refusal>
        ensures called { Called (view self.old) (strike_call resource) (said result) (view self.new) }
    {
        tested_strike(self.drafted, resource)?;
        match self.resources.remove(resource) {
            Ok(()) => Ok(()),
            Err(_) => Err(Refusal::NoSuchResource),
        }
    }
}
