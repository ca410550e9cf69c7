//! Where the labels of a case stand.

use crate::layouts::items::{Item, LabelName, Side};
use std::alloc::{AllocError, Global};

/// A place: how many rows stand before it, and how many plain bytes of its section.
#[derive(Clone, Copy)]
pub struct Place {
    pub row: u32,
    pub offset: u64,
}

impl Place {
    /// The beginning of a case.
    pub fn first() -> Place {
        Place { row: 0, offset: 0 }
    }

    /// The place behind an item, where it can be counted.
    pub fn behind(self, item: &Item) -> Option<Place> {
        let Place { row, offset } = self;
        match item {
            Item::Bytes(bytes) => {
                let offset = offset.checked_add(*bytes)?;
                Some(Place { row, offset })
            }
            Item::Label(_) => Some(self),
            Item::Section => {
                let row = row.checked_add(1)?;
                Some(Place { row, offset: 0 })
            }
            _ => {
                let row = row.checked_add(1)?;
                Some(Place { row, offset })
            }
        }
    }
}

/// A label, and where it stands.
#[derive(Clone, Copy)]
struct Label {
    number: u64,
    place: Place,
}

/// The labels of a case in their order, and how many of them were passed.
#[derive(Drop)]
pub struct Labels {
    labels: Vec<Label>,
    passed: usize,
}

impl Labels {
    /// The labels of the items, none of which was passed; none where their places can't be counted.
    pub fn of(alloc: Global, items: &[Item]) -> Result<Option<Labels>, AllocError> {
        let mut labels = Vec::new(alloc);
        let mut place = Place::first();
        for item in items {
            if let Item::Label(number) = item {
                labels.push(Label {
                    number: *number,
                    place,
                })?;
            }
            place = match place.behind(item) {
                Some(place) => place,
                None => return Ok(None),
            };
        }
        Ok(Some(Labels { labels, passed: 0 }))
    }

    /// One label more is passed.
    pub fn pass(&mut self) {
        self.passed = self.passed.saturating_add(1);
    }

    /// The first label of this number that is not passed.
    fn behind(&self, number: u64) -> Option<Place> {
        let passed = self.passed.min(self.labels.len());
        for label in &self.labels[passed..] {
            if label.number == number {
                return Some(label.place);
            }
        }
        None
    }

    /// The last label of this number that is passed.
    fn before(&self, number: u64) -> Option<Place> {
        let passed = self.passed.min(self.labels.len());
        for label in self.labels[..passed].iter().rev() {
            if label.number == number {
                return Some(label.place);
            }
        }
        None
    }

    /// Where the label stands that an item names.
    pub fn place(&self, name: LabelName) -> Option<Place> {
        match name.side {
            Side::Before => self.before(name.number),
            Side::Behind => self.behind(name.number),
        }
    }
}
