//! Takes the bytes of a file in order, and cuts each line into its fields.
use arrayvec::ArrayVec;
use std::marker::Model;

mod reading;

// The most fields of a line that are kept: as many as the longest row line has.
const MOST_FIELDS: usize = 20;

// A line of the file. It is seen as all its fields. The first `MOST_FIELDS` are kept, in an array, since nothing is allocated
// here, and all are counted as they are read. The text is there for the view alone.
#[derive(Drop)]
pub(crate) struct Line<'a> {
    text: &'a [u8],
    kept: ArrayVec<&'a [u8], MOST_FIELDS>,
    count: usize,
}

impl<'a> Model for Line<'a> {
    ghost use Rattle.std.specs.Prelude.{◌≡◌, ℕ, List, length, take, map};
    ghost use Rattle.planfile.specs.declared.reader.TheConstants.{MOST_FIELDS};
    ghost use Rattle.planfile.specs.Text.{fields};

    ghost Value = { List (List ℕ) };

    ghost view = { λ l. fields l.text.now };

    ghost invariant = { λ l. (l.count ≡ length (fields l.text.now))
        × (map (λ f. f.now) l.kept.items ≡ take MOST_FIELDS (fields l.text.now)) };
}

// Where the reader stands in the line at hand. It changes with each byte, so that each byte is looked at once.
#[derive(Clone, Copy)]
enum State {
    // in the field of this index, which began at this place
    Field { index: usize, start: usize },
    // behind so many fields
    Ended(usize),
}

// A reader of the lines of a file: what is left of the file, and the first fields of the line at hand.
#[derive(Drop)]
pub(crate) struct Reader<'a> {
    text: &'a [u8],
    state: State,
    kept: ArrayVec<&'a [u8], MOST_FIELDS>,
}
