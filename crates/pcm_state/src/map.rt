//! The row of a mapped book.

ghost use Rattle.std.specs.Prelude.{◌≡◌, IfSome, Some};
ghost use Rattle.pcm_desk.specs.declared.map_book.MapBook.{MapBook};
ghost use Rattle.pcm_state.specs.MapRows.{map_book_row, FitsMap};

use crate::codes::{run_code, run_state, word};
use crate::opening::{opening_from_row, opening_row};
use pcm_desk::MapBook;

/// The numbers of a mapped book.
pub const MAP_NUMBERS: usize = 11;

/// The row of a book.
pub fn map_row(book: &MapBook) -> [u64; MAP_NUMBERS]
    ensures row { result ≡ map_book_row book.now }
    ensures fits { FitsMap book.now }
{
    let (volume, eaten, given) = (book.volume, book.eaten, book.given);
    let (volume, state) = (u64::from(volume), run_code(book.state));
    let [format, rate, channels, count, log, trigger, told] = opening_row(&book.opening);
    [
        format, rate, channels, count, log, trigger, told, volume, state, eaten, given,
    ]
}

/// The book that has this row, if one has.
pub fn map_from_row(row: &[u64; MAP_NUMBERS]) -> Option<MapBook>
    ensures row { IfSome result (λ book. map_book_row book ≡ row.now) }
    ensures some { (book : MapBook) → FitsMap book → map_book_row book ≡ row.now → result ≡ Some book }
{
    let opening = [row[0], row[1], row[2], row[3], row[4], row[5], row[6]];
    Some(MapBook {
        opening: opening_from_row(&opening)?,
        volume: word(row[7])?,
        state: run_state(row[8])?,
        eaten: row[9],
        given: row[10],
    })
}
