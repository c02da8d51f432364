// The groups of a feed, with figures that a word can hold.
use crate::figure::Figure;
use market::figures::Figures;
use market::prices::{IntervalPrices, ServicePrices};
use market::quantities::Quantities;
use terms::service::Service;

// A group: one call of the book.
#[derive(Clone, Copy)]
pub enum Group {
    Enrol {
        qse: Figure,
        load: Figure,
    },
    Quantities {
        qse: Figure,
        service: Service,
        ten: Quantities<Figure>,
    },
    Resource {
        number: Figure,
        qse: Figure,
        class: Figure,
        told: Figures<Figure>,
    },
    Strike {
        number: Figure,
    },
    Prices {
        service: Service,
        prices: ServicePrices<Figure>,
    },
    Interval {
        number: Figure,
        prices: IntervalPrices<Figure>,
    },
}
