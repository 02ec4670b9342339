ghost use Rattle.std.specs.Prelude.{◌≡◌, ◌≤◌, ◌++◌, ◌∷◌, length, [], IfOk, OnOk};
ghost use Rattle.ss_picture.specs.Pictures.{filled, picture_fields};
ghost use Rattle.ss_picture.specs.Fields.{starts};
ghost use Rattle.ss_picture.specs.Suited.{AreSuitedItems};

use crate::field::{Field, first_field};
use crate::items::{Item, fill_field};
use std::alloc::{AllocError, Global};

// The fields of a picture, from the left, and the place at which each begins.
#[derive(Debug, Drop)]
pub(crate) struct Fields {
    pub(crate) starts: Vec<usize>,
    pub(crate) shapes: Vec<Field>,
}

impl Fields {
    fn add(&mut self, start: usize, shape: Field) -> Result<(), AllocError>
        ensures starts { OnOk result (self.new.starts.items ≡ self.old.starts.items ++ start ∷ []) }
        ensures shapes { OnOk result (self.new.shapes.items ≡ self.old.shapes.items ++ shape ∷ []) }
    {
        self.starts.push(start)?;
        self.shapes.push(shape)?;
        Ok(())
    }

    // The fields of a picture.
    pub(crate) fn of(alloc: Global, picture: &[u8]) -> Result<Fields, AllocError>
        ensures starts { IfOk result (λ fields. fields.starts.items ≡ starts picture.now) }
        ensures shapes { IfOk result (λ fields. fields.shapes.items ≡ picture_fields picture.now) }
    {
        let mut fields = Fields {
            starts: Vec::new(alloc),
            shapes: Vec::new(alloc),
        };
        let mut place = 0;
        while place < picture.len() {
            if picture[place] == b'*' {
                let shape = first_field(&picture[place..]);
                fields.add(place, shape)?;
                place += shape.width;
            } else {
                place += 1;
            }
        }
        Ok(fields)
    }

    // Writes items over the fields of a picture, from the left.
    pub(crate) fn fill(&self, line: &mut [u8], items: &[Item])
        requires starts { self.now.starts.items ≡ starts line.old }
        requires shapes { self.now.shapes.items ≡ picture_fields line.old }
        requires a_field_each { length items.now ≤ length (picture_fields line.old) }
        requires suited { AreSuitedItems (picture_fields line.old) items.now }
        ensures { line.new ≡ filled line.old items.now }
    {
        for (field, item) in items.iter().enumerate() {
            let start = self.starts[field];
            let shape = self.shapes[field];
            fill_field(&mut line[start..start + shape.width], shape.decimals, item);
        }
    }
}
