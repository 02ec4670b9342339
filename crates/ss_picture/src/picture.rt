ghost use Rattle.std.specs.Cmp.{partial_equiv_from_equiv};
ghost use Rattle.std.specs.Cmp.Lexicographic.{pointwise, nat_list_eq_equiv};
ghost use Rattle.std.specs.Prelude.{nat_eq, ◌≡◌, ◌<◌, ◌≤◌, ◌+◌, ◌++◌, length, vec_len, vec_capacity, IfOk, OnOk, OnErr};
ghost use Rattle.ss_picture.specs.Pictures.{field_count, filled, picture_fields};
ghost use Rattle.ss_picture.specs.Suited.{AreSuitedItems};

use crate::field::Field;
use crate::fields::Fields;
use crate::items::Item;
use std::alloc::{AllocError, Global};
use std::marker::Model;

/// A line to be printed, with a field for each item: a field is a run of asterisks, as long as it can
/// be, and where a period and then an asterisk follow it directly, these belong to it as its decimals.
///
/// A contract sees a picture as its bytes.
#[derive(Debug, Drop)]
pub struct Picture {
    bytes: Vec<u8>,
    fields: Fields,
}

impl Model for Picture {
    ghost use Rattle.std.specs.Prelude.{◌≡◌, ℕ, List};
    ghost use Rattle.ss_picture.specs.Pictures.{picture_fields};
    ghost use Rattle.ss_picture.specs.Fields.{starts};

    ghost Value = { List ℕ };

    ghost view = { λ p. p.bytes.items };

    ghost invariant = { λ p. (p.fields.starts.items ≡ starts p.bytes.items) × (p.fields.shapes.items ≡ picture_fields p.bytes.items) };
}

impl Picture {
    /// The picture of these bytes, any at all; none of them is taken for a line end.
    ///
    /// The error comes where memory was refused.
    pub fn of(alloc: Global, bytes: &[u8]) -> Result<Picture, AllocError>
        ensures { IfOk result (λ picture. picture ≡ bytes.now) }
    {
        Ok(Picture {
            bytes: Vec::from_slice(alloc, bytes)?,
            fields: Fields::of(alloc, bytes)?,
        })
    }

    /// The fields, from the left.
    pub fn fields(&self) -> &[Field]
        ensures { result.now ≡ picture_fields self.now }
    {
        self.fields.shapes.as_slice()
    }

    /// The line with these items in its fields, from the left, without a line end. A whole number
    /// and a mean are put at the right end of their field, a text at the left; where an item is longer
    /// than its field, the field's own characters stay.
    ///
    /// A value goes into a field without decimals. A mean goes into any field of at most 9 decimals,
    /// with as many as the field has; its number is at least 0, and its quotient, where the number
    /// isn't 0, lies from -2^63 to 2^63.
    ///
    /// The error comes where memory was refused.
    pub fn fill(&self, alloc: Global, items: &[Item]) -> Result<Vec<u8>, AllocError>
        requires a_field_each { length items.now ≡ field_count self.now }
        requires suited { AreSuitedItems (picture_fields self.now) items.now }
        ensures { IfOk result (λ line. line.items ≡ filled self.now items.now) }
    {
        let mut line = Vec::new(alloc);
        self.fill_into(&mut line, items)?;
        Ok(line)
    }

    /// Adds to `line` the line with these items in its fields, from the left, as `fill` makes it.
    /// There may be fewer items than fields: a field without an item keeps its own characters.
    ///
    /// The error comes where memory was refused, and `line` is then as it was; it never comes where
    /// `line` had room for as many bytes as the picture has.
    pub fn fill_into(&self, line: &mut Vec<u8>, items: &[Item]) -> Result<(), AllocError>
        requires a_field_each { length items.now ≤ field_count self.now }
        requires suited { AreSuitedItems (picture_fields self.now) items.now }
        ensures ok { OnOk result (line.new.items ≡ line.old.items ++ filled self.now items.now) }
        ensures err { OnErr result (line.new.items ≡ line.old.items) }
        ensures full { OnErr result (vec_capacity line.old < vec_len line.old + length self.now) }
    {
        let start = line.len();
        line.extend_from_slice(self.bytes.as_slice())?;
        self.fields.fill(&mut line[start..], items);
        Ok(())
    }
}

/// Two pictures are equal where their bytes are.
impl PartialEq for Picture {
    ghost eq = { pointwise nat_eq };

    ghost laws = { partial_equiv_from_equiv nat_list_eq_equiv };

    fn eq(&self, other: &Picture) -> bool {
        self.bytes == other.bytes
    }
}

impl Eq for Picture {
    ghost laws = { nat_list_eq_equiv };
}
