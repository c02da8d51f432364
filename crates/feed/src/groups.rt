// Groups of a feed: a head and its data words, tested and made as the call that they mean.
ghost use Rattle.std.specs.Prelude.{◌≡◌, ◌+◌, ◌^◌, ◌<◌, length, IfOk};
ghost use Rattle.history.specs.Called.{Called};
ghost use Rattle.book.specs.View.{view, said};
ghost use Rattle.feed.specs.Groups.{needed, first_other};
ghost use Rattle.feed.specs.Heads.{kind_number};
ghost use Rattle.feed.specs.Feeding.{group_answer, group_left};

use crate::head::{Head, Kind};
use crate::words::kind_of;
use book::book::Book;
use market::figures::BareFigures;
use market::prices::{BareIntervalPrices, BareServicePrices};
use market::quantities::BareQuantities;
use terms::fault::{Fault, Layer};
use terms::refusal::Refusal;
use terms::service::ByService;

// The place of the first word that is not data.
fn first_other(words: &[u32]) -> Option<usize>
    ensures answer { result ≡ first_other words.now }
{
    words.iter().position(|word| kind_of(*word) != 0)
}

// A head with the data words that its kind needs, and the index of the head in the feed.
#[derive(Clone, Copy)]
pub(crate) struct Group<'a> {
    index: usize,
    head: Head,
    words: &'a [u32],
    ghost whole: { length words.now ≡ needed (kind_number head.kind) },
}

impl<'a> Group<'a> {
    ghost use Rattle.feed.specs.Reading.{group_call, GroupRead};

    // Reads the group of a head word that stands at an index, with all the words after it: tests its kind, then whether
    // enough words remain, then the kinds of its data words.
    pub(crate) fn read(index: usize, word: u32, rest: &'a [u32]) -> Result<Group<'a>, Fault>
        requires { index + 1 + length rest.now < 2 ^ 64 }
        ensures read { GroupRead index word rest.now result }
    {
        match Head::try_from(word) {
            Ok(head) if rest.len() < head.kind.needed() => Err(Fault {
                refusal: Refusal::GroupCutShort,
                layer: Layer::Groups,
                index,
            }),
            Ok(head) => {
                let words = &rest[..head.kind.needed()];
                match first_other(words) {
                    Some(place) => Err(Fault {
                        refusal: Refusal::NotData,
                        layer: Layer::Groups,
                        index: index + 1 + place,
                    }),
                    None => Ok(Group { index, head, words }),
                }
            }
            Err(refusal) => Err(Fault {
                refusal,
                layer: Layer::Words,
                index,
            }),
        }
    }

    // Makes the call that this group means.
    fn call(&self, book: &mut Book) -> Result<(), Refusal>
        ensures called { Called (view book.old) (group_call self.now) (said result) (view book.new) }
    {
        let Head { kind, value } = self.head;
        match (kind, self.words) {
            (Kind::Enrol, &[load]) => book.enrol(value, load),
            (Kind::Quantities, &[service, dasa, rtsa, trs, rtpc, pc, ruc, trp, fq, rfq, inf]) => {
                let ten = BareQuantities {
                    dasa,
                    rtsa,
                    trs,
                    rtpc,
                    pc,
                    ruc,
                    trp,
                    fq,
                    rfq,
                    inf,
                };
                book.quantities(value, service, ten)
            }
            (Kind::Resource, &[qse, class, up, down, responsive, nonspin, ecrs, npf, lpc]) => {
                let telemetered = ByService {
                    up,
                    down,
                    responsive,
                    nonspin,
                    ecrs,
                };
                let figures = BareFigures {
                    telemetered,
                    npf,
                    lpc,
                };
                book.enter(value, qse, class, figures)
            }
            (Kind::Strike, []) => book.strike(value),
            (Kind::Prices, &[dam, sasm, rsasm]) => {
                book.prices(value, BareServicePrices { dam, sasm, rsasm })
            }
            (Kind::Interval, &[rtrsvpor, rtrdp]) => {
                book.interval(value, BareIntervalPrices { rtrsvpor, rtrdp })
            }
            // a group has the data words that its kind needs
            _ => unreachable(),
        }
    }

    // Makes the call that this group means; answers how many data words it has.
    pub(crate) fn make(&self, book: &mut Book) -> Result<usize, Fault>
        ensures answer { result ≡ group_answer self.now.index (length self.now.words.now) (Ok (group_call self.now)) (view book.old) }
        ensures after { view book.new ≡ group_left (Ok (group_call self.now)) (view book.old) }
        ensures count { IfOk result (λ n. n ≡ length self.now.words.now) }
    {
        let index = self.index;
        self.call(book).map_err(|refusal| Fault {
            refusal,
            layer: Layer::Book,
            index,
        })?;
        Ok(self.words.len())
    }
}
