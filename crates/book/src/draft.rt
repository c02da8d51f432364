// A draft of a book: a token that carries the book's number, and is spent once.
ghost use Rattle.std.specs.Prelude.{◌≡◌, true};

// It is neither Copy nor let go before it is spent: issue or drop it.
pub struct Draft {
    pub(crate) book: u32,
    // Only an issue or a drop makes it so, and takes the draft then. A flag and no type of its own, since the gate refuses a
    // `drop` that no draft could meet.
    pub(crate) spent: bool,
}

// No caller holds a draft that was spent, so a program that lets a draft vanish is not proved.
impl Drop for Draft {
    fn drop(self)
        requires { self.spent ≡ true }
    {
        let Draft { book: _, spent: _ } = self;
    }
}

impl Draft {
    // Ends the draft, whose statement was issued or which was dropped.
    pub(crate) fn spend(mut self) {
        self.spent = true;
    }
}
