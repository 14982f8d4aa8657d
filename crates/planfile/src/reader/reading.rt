//! What a reader and a line are asked.
ghost use Rattle.std.specs.Prelude.{◌≡◌, ◌<◌, length, slice_index};
ghost use Rattle.planfile.specs.Text.{field};
ghost use Rattle.planfile.specs.Cut.{Keeps};
ghost use Rattle.planfile.specs.Steps.{Kept, IsBeforeByte, Stepped, kept_fields};

use super::{Line, Reader, State};
use arrayvec::ArrayVec;

impl<'a> Reader<'a> {
    pub(crate) fn new(text: &'a [u8]) -> Reader<'a>
        ensures { result.text.now ≡ text.now }
    {
        Reader {
            text,
            state: State::Ended(0),
            kept: ArrayVec::new(),
        }
    }

    // Keeps a field, if it is one of the first `MOST_FIELDS`.
    fn keep(&mut self, field: &'a [u8])
        ensures { Kept self.old field.now self.new }
    {
        let _ = self.kept.try_push(field);
    }

    // Takes a byte, which stands at this place.
    fn step(&mut self, at: usize, byte: u8)
        requires inside { at < length self.old.text.now }
        requires byte { byte ≡ slice_index self.old.text.now at }
        requires taking { IsBeforeByte self.old.text.now at (kept_fields self.old) self.old.state }
        ensures { Stepped self.old at self.new }
    {
        let text = self.text;
        match (self.state, byte) {
            (State::Field { index, start }, b'\t') => {
                self.keep(&text[start..at]);
                self.state = State::Field {
                    index: index + 1,
                    start: at + 1,
                };
            }
            (State::Field { index, start }, b'\n') => {
                self.keep(&text[start..at]);
                self.state = State::Ended(index + 1);
            }
            (State::Field { .. }, _) => {}
            (State::Ended(_), _) => {}
        }
    }
}

// The lines of the file in order, each seen as its fields.
impl<'a> Iterator for Reader<'a> {
    ghost use Rattle.std.specs.Iterator.{YieldsFirst, item_count};
    ghost use Rattle.planfile.specs.Cut.{lines_left};

    type Item = Line<'a>;

    ghost next_gives = { YieldsFirst lines_left };

    ghost remaining = { item_count lines_left };

    fn next(&mut self) -> Option<Line<'a>> {
        let text = self.text;
        self.state = State::Field { index: 0, start: 0 };
        self.kept.clear();
        for (at, byte) in text.iter().enumerate() {
            self.step(at, *byte);
            if let State::Ended(count) = self.state {
                self.text = &text[at + 1..];
                return Some(Line {
                    text: &text[..at],
                    kept: self.kept.take(),
                    count,
                });
            }
        }
        None
    }
}

impl<'a> Line<'a> {
    // How many fields it has.
    pub(crate) fn count(&self) -> usize
        ensures { result ≡ length self.now }
    {
        self.count
    }

    // The first field. There is always one.
    pub(crate) fn first(&self) -> &'a [u8]
        ensures { result.now ≡ field 1 self.now }
    {
        self.kept[0]
    }

    // The field with this number, from 1.
    pub(crate) fn field(&self, number: usize) -> &'a [u8]
        requires { Keeps self.now number 1 }
        ensures { result.now ≡ field number self.now }
    {
        self.kept[number - 1]
    }
}
