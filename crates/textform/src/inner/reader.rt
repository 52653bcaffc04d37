// Where the reading of the text form stands. In a file of its own: its invariant cites `Kept`, and what is claimed of the reading cites it.
ghost use Rattle.textform.specs.Kept.{Sound};

// The place of the next byte, whether its row is B's, the digits of its float so far, and how many floats of A and of B are kept.
#[derive(Clone, Copy)]
pub struct Reader {
    pub place: usize,
    pub second: bool,
    pub word: u64,
    pub a: usize,
    pub b: usize,
    pub ghost sound: { Sound place word a b },
}
