//! A text as the list of all its letters, kept by the textbook's scan: a letter goes after the one that it was typed
//! after, past each newer one. It has no revisions: an erased letter stays erased.
use pad_model::{Op, OpName, Part, Refusal, Run, Span, Stamp};
use std::alloc::Global;

#[derive(Drop)]
pub struct Letter {
    pub stamp: Stamp,
    pub character: char,
    pub is_erased: bool,
}

/// A comment: its first and its last letter, and its text.
#[derive(Drop)]
pub struct Remark {
    pub name: OpName,
    pub first: Stamp,
    pub last: Stamp,
    pub text: String,
    pub is_resolved: bool,
}

#[derive(Drop)]
pub struct PlainPage {
    alloc: Global,
    pub letters: Vec<Letter>,
    /// In ascending order of name.
    pub remarks: Vec<Remark>,
}

impl PlainPage {
    pub fn new(alloc: Global) -> PlainPage {
        PlainPage {
            alloc,
            letters: Vec::new(alloc),
            remarks: Vec::new(alloc),
        }
    }

    /// Applies an operation that fits.
    pub fn take(&mut self, op: &Op) -> Result<(), Refusal> {
        for part in op.parts.as_slice() {
            self.take_part(op.name, part)?;
        }
        Ok(())
    }

    fn take_part(&mut self, name: OpName, part: &Part) -> Result<(), Refusal> {
        match part {
            Part::Insert(run) => self.put_run(run),
            Part::Delete(spans) => {
                for span in spans.as_slice() {
                    self.erase(span);
                }
                Ok(())
            }
            Part::Comment { first, last, text } => {
                let text = text.to_string(self.alloc)?;
                self.note(Remark {
                    name,
                    first: *first,
                    last: *last,
                    text,
                    is_resolved: false,
                })
            }
            Part::Resolve { comment } => {
                self.resolve(*comment);
                Ok(())
            }
        }
    }

    fn put_run(&mut self, run: &Run) -> Result<(), Refusal> {
        let mut after = run.after;
        for (character, places) in run.text.as_slice().iter().zip(0..) {
            let counter = run.first.counter().saturating_add(places);
            let stamp = Stamp::new(counter, run.first.replica())?;
            self.put(stamp, after, *character)?;
            after = Some(stamp);
        }
        Ok(())
    }

    fn put(&mut self, stamp: Stamp, after: Option<Stamp>, character: char) -> Result<(), Refusal> {
        let behind = self.behind(after)?;
        let newer = self
            .letters
            .iter()
            .skip(behind)
            .take_while(|other| other.stamp.is_newer(stamp))
            .count();
        let place = behind.saturating_add(newer).min(self.letters.len());
        self.letters.insert(
            place,
            Letter {
                stamp,
                character,
                is_erased: false,
            },
        )?;
        Ok(())
    }

    /// The index after a letter; None is the start.
    fn behind(&self, after: Option<Stamp>) -> Result<usize, Refusal> {
        let Some(stamp) = after else {
            return Ok(0);
        };
        match self.letters.iter().position(|other| other.stamp == stamp) {
            Some(place) => Ok(place.saturating_add(1)),
            None => Err(Refusal::PeerFault),
        }
    }

    fn erase(&mut self, span: &Span) {
        for letter in &mut self.letters {
            let first = span.first.counter();
            let counter = letter.stamp.counter();
            if letter.stamp.replica() == span.first.replica()
                && counter >= first
                && counter - first < span.len
            {
                letter.is_erased = true;
            }
        }
    }

    fn note(&mut self, remark: Remark) -> Result<(), Refusal> {
        let name = remark.name;
        let place = self
            .remarks
            .iter()
            .take_while(|other| other.name.precedes(name))
            .count();
        let place = place.min(self.remarks.len());
        self.remarks.insert(place, remark)?;
        Ok(())
    }

    fn resolve(&mut self, name: OpName) {
        for remark in &mut self.remarks {
            if remark.name == name {
                remark.is_resolved = true;
            }
        }
    }
}
