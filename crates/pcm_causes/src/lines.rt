//! The lines of a text.

// Where the last line begins of the text before a place, which isn't the text's beginning.
pub(crate) fn line_before(text: &[u8], place: usize) -> usize {
    match text.get(..place.saturating_sub(1)) {
        Some(before) => last_begun(before),
        None => 0,
    }
}

// Where the last line of a text begins.
fn last_begun(text: &[u8]) -> usize {
    let mut begun = 0usize;
    let mut place = 0usize;
    for byte in text {
        place = place.saturating_add(1);
        if *byte == b'\n' {
            begun = place;
        }
    }
    begun
}

// Where the line ends that begins at a place, with its line feed.
pub(crate) fn line_end(text: &[u8], begun: usize) -> usize {
    let Some(rest) = text.get(begun..) else {
        return begun;
    };
    let mut place = begun;
    for byte in rest {
        place = place.saturating_add(1);
        if *byte == b'\n' {
            return place;
        }
    }
    place
}

// The number, from 1 on, of the line that comes after a text.
pub(crate) fn number_behind(text: &[u8]) -> usize {
    let mut line = 1usize;
    for byte in text {
        if *byte == b'\n' {
            line = line.saturating_add(1);
        }
    }
    line
}

// The number, from 1 on, of the character that comes after a text in its line.
pub(crate) fn column_behind(text: &[u8]) -> usize {
    let mut column = 1usize;
    for byte in text {
        if *byte == b'\n' {
            column = 1;
        } else if *byte & 0xC0 != 0x80 {
            column = column.saturating_add(1);
        }
    }
    column
}

// The line that begins at a place, without what ends it.
pub(crate) fn line_from(text: &[u8], begun: usize) -> Option<&[u8]> {
    let line = text.get(..line_end(text, begun))?.get(begun..)?;
    let line = line.strip_suffix(b"\n").unwrap_or(line);
    Some(line.strip_suffix(b"\r").unwrap_or(line))
}

// The line of a number, from 1 on.
pub(crate) fn line_at(text: &[u8], number: usize) -> Option<&[u8]> {
    line_from(text, place_of_line(text, number))
}

// Where the line of a number begins.
pub(crate) fn place_of_line(text: &[u8], number: usize) -> usize {
    let mut place = 0;
    for _ in 1..number {
        place = line_end(text, place);
    }
    place
}
