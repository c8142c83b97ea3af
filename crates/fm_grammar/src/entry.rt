//! An entry of a score.

use crate::item::Item;
use crate::name::Name;
use crate::part_text::PartText;

/// A definition, or a statement that is played.
#[derive(Drop)]
pub enum Entry<'s> {
    Shape {
        name: Name<'s>,
        parts: Vec<PartText>,
    },
    Phrase {
        name: Name<'s>,
        body: Vec<Item<'s>>,
    },
    Play {
        item: Item<'s>,
    },
}
