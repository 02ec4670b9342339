//! A picture where memory may be refused.

use ss_base::Value;
use ss_picture::{Item, Picture};
use std::alloc::{AllocError, Global};

// A picture, where memory may be refused: then the next try succeeds.
fn pictured(alloc: Global, picture: &[u8]) -> Result<Picture, AllocError> {
    match Picture::of(alloc, picture) {
        Ok(picture) => Ok(picture),
        Err(_) => Picture::of(alloc, picture),
    }
}

// The line that a picture of one field, two wide, makes of 7.
fn filled(alloc: Global, picture: &Picture) -> Result<Vec<u8>, AllocError> {
    match picture.fields() {
        [field] if field.width == 2 && field.decimals == 0 => picture.fill(
            alloc,
            &[Item::Is(Value::Whole(7))],
        ),
        _ => Err(AllocError),
    }
}

// Whether that is this line.
fn is_filled(alloc: Global, picture: &Picture, line: &[u8]) -> bool {
    match filled(alloc, picture) {
        Ok(filled) => filled.as_slice() == line,
        Err(_) => false,
    }
}

// Whether the picture of these bytes makes this line, where memory may be refused: then the next try does.
fn makes(alloc: Global, picture: &[u8], line: &[u8]) -> bool {
    match pictured(alloc, picture) {
        Ok(picture) => is_filled(alloc, &picture, line) || is_filled(alloc, &picture, line),
        Err(_) => false,
    }
}

#[test]
fn refused_memory_leaves_the_picture(rt: HostRuntime) {
    assert!(rt; makes(rt.alloc(), b"A**", b"A 7"));
}
