//! Words, numbers and kinds of columns.
use std::alloc::Global;
use ur_base::{List, Memory, Text};
use ur_values::ColumnKind;

/// The first word of a line, and what stands behind it.
pub fn first(line: &str) -> (&str, &str) {
    line.split_once(' ').unwrap_or((line, ""))
}

pub fn text(alloc: Global, word: &str) -> Result<Text, Memory> {
    List::from_slice(alloc, word.as_bytes())
}

/// 0 where the word is no number.
pub fn number(word: &str) -> u32 {
    word.parse::<u32>().unwrap_or(0)
}

/// The numbers between commas.
pub fn numbers(alloc: Global, word: &str) -> Result<List<u32>, Memory> {
    let mut numbers = List::new(alloc);
    for part in word.split(',') {
        if let Ok(number) = part.parse::<u32>() {
            numbers.push(number)?;
        }
    }
    Ok(numbers)
}

/// `i`, `s` or `b`, and `I`, `S` or `B` for an option of it.
pub fn kind(letter: u8) -> Option<ColumnKind> {
    match letter {
        b'i' => Some(ColumnKind::Int),
        b's' => Some(ColumnKind::Str),
        b'b' => Some(ColumnKind::Bool),
        b'I' => Some(ColumnKind::OptInt),
        b'S' => Some(ColumnKind::OptStr),
        b'B' => Some(ColumnKind::OptBool),
        _ => None,
    }
}

/// The kinds of these letters.
pub fn kinds(alloc: Global, letters: &str) -> Result<List<ColumnKind>, Memory> {
    let mut kinds = List::new(alloc);
    for letter in letters.as_bytes() {
        if let Some(kind) = kind(*letter) {
            kinds.push(kind)?;
        }
    }
    Ok(kinds)
}
