//! Inputs, which are made of sections.
use std::alloc::{AllocError, Allocator};

/// The text of some sections.
pub fn joined<A: Allocator>(alloc: A, sections: &[&str]) -> Result<String<A>, AllocError> {
    let mut text = String::new(alloc);
    for section in sections {
        text.push_str(section)?;
    }
    Ok(text)
}

/// The text of some sections, with `changed` in the place of line `number`. Lines are counted from 1.
pub fn joined_with<A: Allocator + Copy>(
    alloc: A,
    sections: &[&str],
    number: usize,
    changed: &str,
) -> Result<String<A>, AllocError> {
    let mut text = String::new(alloc);
    let mut place = 0usize;
    for section in sections {
        for line in section.lines() {
            place = place.saturating_add(1);
            text.push_str(if place == number { changed } else { line })?;
            text.push('\n')?;
        }
    }
    Ok(text)
}
