//! The lines of a PRINT.

ghost use Rattle.std.specs.Prelude.{◌≡◌, map, IfOk};

use ss_code_instructions::item::ItemKind;
use ss_picture::Picture;
use std::alloc::{AllocError, Global};
use std::marker::Model;

/// The lines of a PRINT: a picture for each of them, and what the items are that go into their fields.
///
/// A contract sees it as a record of the bytes of the pictures, and of the items.
#[derive(Drop)]
pub struct Lines {
    pictures: Vec<Picture>,
    items: Vec<ItemKind>,
}

impl Model for Lines {
    ghost use Rattle.ss_code_instructions.specs.Carried.{RunningLines};

    ghost Value = { RunningLines };

    ghost view = { λ l. record { pictures = l.pictures.items; items = l.items.items } };
}

// The pictures of these bytes.
fn pictures_of(alloc: Global, lines: &[Vec<u8>]) -> Result<Vec<Picture>, AllocError>
    ensures { IfOk result (λ made. made.items ≡ map (λ line. line.items) lines.now) }
{
    let mut pictures = Vec::new(alloc);
    for line in lines {
        let picture = Picture::of(alloc, line)?;
        pictures.push(picture)?;
    }
    Ok(pictures)
}

impl Lines {
    /// The lines of these pictures, with these items. The error comes where memory was refused.
    pub fn of(alloc: Global, items: Vec<ItemKind>, lines: &[Vec<u8>]) -> Result<Lines, AllocError>
        ensures { IfOk result (λ made. made ≡ record { pictures = map (λ line. line.items) lines.now; items = items.items }) }
    {
        let pictures = pictures_of(alloc, lines)?;
        Ok(Lines { pictures, items })
    }

    /// The pictures, from the first line on.
    pub fn pictures(&self) -> &[Picture]
        ensures { result.now ≡ self.now.pictures }
    {
        &self.pictures
    }

    /// What the items are, in the order of their fields.
    pub fn items(&self) -> &[ItemKind]
        ensures { result.now ≡ self.now.items }
    {
        &self.items
    }
}
