// The greatest feed: 16,384 words that fill a book with 64 QSEs and 256 resources; one row more is refused.
ghost use Rattle.std.specs.Prelude.{◌<◌};

use crate::printed::{fingerprint, printed};
use arrayvec::{ArrayVec, CapacityError};
use book::book::Book;
use checks::draws::Draws;
use feed::feed::feed;
use running::slots::Slots;
use std::test::Fail;
use terms::fault::{Fault, Layer};
use terms::refusal::Refusal;

type Pushed = Result<(), CapacityError<u32>>;

// The words so far, and the draws of their figures.
#[derive(Drop)]
struct Words {
    words: ArrayVec<u32, 16_384>,
    draws: Draws,
}

impl Words {
    fn push(&mut self, word: u32) -> Pushed {
        self.words.try_push(word)
    }

    // A figure up to this one.
    fn push_figure(&mut self, most: u32) -> Pushed
        requires { most < 1000000 }
    {
        let figure = self.draws.draw() % (u64::from(most) + 1);
        self.push((figure & 0xf_ffff) as u32)
    }

    fn push_figures(&mut self, count: usize, most: u32) -> Pushed
        requires { most < 1000000 }
    {
        for _ in 0..count {
            self.push_figure(most)?;
        }
        Ok(())
    }

    fn push_enrolments(&mut self, count: u32) -> Pushed {
        for place in 0..count {
            self.push(0x1000_0000 | qse(place))?;
            self.push_figure(20_000)?;
        }
        Ok(())
    }

    fn push_resources(&mut self) -> Pushed {
        for place in 0..256u32 {
            self.push(0x3000_0000 | (1 + 3_000 * place))?;
            self.push(qse(place))?;
            self.push(place % 3)?;
            self.push_figures(7, 3_000)?;
        }
        Ok(())
    }

    // Every QSE has quantities in every service, most of them more than once.
    fn push_quantities(&mut self) -> Pushed {
        for place in 0..1_138u32 {
            self.push(0x2000_0000 | qse(place))?;
            self.push(place / 64 % 5)?;
            self.push_figures(10, 20_000)?;
        }
        Ok(())
    }

    fn push_prices(&mut self) -> Pushed {
        for service in 0..5u32 {
            self.push(0x5000_0000 | service)?;
            self.push_figures(3, 999_999)?;
        }
        for interval in 0..4u32 {
            self.push(0x6000_0000 | interval)?;
            self.push_figures(2, 500_000)?;
        }
        Ok(())
    }
}

// The number of the QSE at a place: the last is the least.
fn qse(place: u32) -> u32 {
    999_999 - 15_000 * (place % 64)
}

fn greatest_feed() -> Result<Words, CapacityError<u32>> {
    let mut feed = Words {
        words: ArrayVec::new(),
        draws: Draws { state: 1 },
    };
    feed.push_enrolments(64)?;
    feed.push_resources()?;
    feed.push_quantities()?;
    feed.push_enrolments(4)?;
    feed.push_prices()?;
    Ok(feed)
}

// The length and the fingerprint of the three statements, as a second program reckoned them.
const LENGTH: usize = 23794;

const FINGERPRINT: u64 = 12238850288118605284;

// One row more than fits, by a feed of one group.
const NO_SLOT: Fault = Fault {
    refusal: Refusal::NoFreeSlot,
    layer: Layer::Book,
    index: 0,
};

#[test]
fn full_feed(rt: HostRuntime) -> Result<(), Fail> {
    let greatest = greatest_feed()?;
    assert_eq!(rt; greatest.words.len(), 16_384);
    let mut slots = Slots::<64, 256>::empty();
    let mut book = slots.open(7);
    let mut out = [0u8; 36_900];
    let end = printed(&mut book, greatest.words.as_slice(), &mut out)?;
    assert!(rt; end <= 36_900);
    assert_eq!(rt; end, LENGTH);
    assert_eq!(rt; fingerprint(&out[0..end]), FINGERPRINT);
    assert_eq!(rt; feed(&mut book, &[0x1000_0001, 1]), Err(NO_SLOT));
    assert_eq!(rt;
        feed(&mut book, &[0x3000_0002, 999_999, 0, 0, 0, 0, 0, 0, 0, 0]),
        Err(NO_SLOT)
    );
    Ok(())
}
