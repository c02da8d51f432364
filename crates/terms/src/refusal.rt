// Why a call was refused, each with the number that stands for it outside the program.
ghost use Rattle.std.specs.Prelude.{◌≡◌};
ghost use Rattle.terms.specs.Refusals.{refusal_number};

#[derive(Clone, Copy, PartialEq, Eq, Debug)]
pub enum Refusal {
    // a draft is open, so the rows rest
    DraftOpen = 1,
    // a QSE or resource number outside 1 to 999,999
    NumberOutOfRange = 2,
    // a load, quantity, class, figure, price, service, interval or letter outside its values
    FigureOutOfRange = 3,
    // the QSE is not enrolled
    NotEnrolled = 4,
    // no resource has this number
    NoSuchResource = 5,
    // a new row, and every usable slot is taken
    NoFreeSlot = 6,
    // the draft carries another book's number
    OtherBook = 7,
    // no draft is open
    NoDraft = 8,
    // a head word of an unknown kind
    UnknownHead = 9,
    // fewer words remain than the group needs
    GroupCutShort = 10,
    // a data word of another kind
    NotData = 11,
    // nothing was issued yet
    NothingIssued = 12,
    // the output is shorter than the text
    OutputTooShort = 13,
}

// The number that stands for a refusal outside the program.
impl From<Refusal> for u8 {
    ghost from_gives = { λ refusal number. number ≡ refusal_number refusal };

    fn from(refusal: Refusal) -> u8 {
        refusal as u8
    }
}
