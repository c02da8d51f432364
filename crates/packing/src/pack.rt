// A group as words: a head, then its data, in the feed's order.
ghost use Rattle.std.specs.Prelude.{◌≡◌, ◌≤◌, length, take};
ghost use Rattle.terms.specs.Services.{service_number};
ghost use Rattle.feed.specs.Heads.{kind_number};
ghost use Rattle.packing.specs.Packing.{head_word, call_of_group, words_of_call, ReadAs};
ghost use Rattle.packing.specs.Whole.{ReadInTurn, TakenWhole};

use crate::figure::Figure;
use crate::group::Group;
use feed::head::Kind;
use terms::service::Service;

// The words of a group: the first `count`. A struct, since the kit's fixed-room vectors are not `Copy`.
#[derive(Clone, Copy)]
pub struct GroupWords {
    words: [u32; 12],
    count: usize,
    ghost within: { count ≤ 12 },
}

impl GroupWords {
    // These words.
    pub fn as_slice(&self) -> &[u32]
        ensures answer { result.now ≡ take self.now.count self.now.words }
    {
        &self.words[0..self.count]
    }
}

// The number that stands for a service in a feed.
impl From<Service> for Figure {
    ghost from_gives = { λ service figure. figure.value ≡ service_number service };

    fn from(service: Service) -> Figure {
        Figure {
            value: service as u32,
        }
    }
}

// A head word: the kind in the top four bits, the value in the others.
fn head(kind: Kind, value: Figure) -> u32
    ensures answer { result ≡ head_word (kind_number kind) value.value }
{
    u32::from(kind) * (1 << 28) + value.value
}

// These words.
fn words(words: &[u32]) -> GroupWords
    requires few { length words.now ≤ 12 }
    ensures answer { take result.count result.words ≡ words.now }
{
    let mut made = [0; 12];
    made[..words.len()].copy_from_slice(words);
    GroupWords {
        words: made,
        count: words.len(),
    }
}

// The words of a group. The feed reads them as the group's call, wherever they stand, and the words of many groups as
// their calls in turn.
#[tactic(auto, using(crate::proofs::Feeds::read_in_turn, crate::proofs::Feeds::taken_whole))]
pub fn packed(group: &Group) -> GroupWords
    ensures words { take result.count result.words ≡ words_of_call (call_of_group group.now) }
    ensures read { ReadAs (call_of_group group.now) (take result.count result.words) }
    ensures turns { ReadInTurn }
    ensures whole { TakenWhole }
{
    match *group {
        Group::Enrol { qse, load } => words(&[head(Kind::Enrol, qse), load.value]),
        Group::Quantities { qse, service, ten } => words(&[
            head(Kind::Quantities, qse),
            Figure::from(service).value,
            ten.dasa.value,
            ten.rtsa.value,
            ten.trs.value,
            ten.rtpc.value,
            ten.pc.value,
            ten.ruc.value,
            ten.trp.value,
            ten.fq.value,
            ten.rfq.value,
            ten.inf.value,
        ]),
        Group::Resource {
            number,
            qse,
            class,
            told,
        } => words(&[
            head(Kind::Resource, number),
            qse.value,
            class.value,
            told.telemetered.up.value,
            told.telemetered.down.value,
            told.telemetered.responsive.value,
            told.telemetered.nonspin.value,
            told.telemetered.ecrs.value,
            told.npf.value,
            told.lpc.value,
        ]),
        Group::Strike { number } => words(&[head(Kind::Strike, number)]),
        Group::Prices { service, prices } => words(&[
            head(Kind::Prices, Figure::from(service)),
            prices.dam.value,
            prices.sasm.value,
            prices.rsasm.value,
        ]),
        Group::Interval { number, prices } => words(&[
            head(Kind::Interval, number),
            prices.rtrsvpor.value,
            prices.rtrdp.value,
        ]),
    }
}
