//! The row of a book that records.

ghost use Rattle.std.specs.Prelude.{◌≡◌, IfSome, Some};
ghost use Rattle.pcm_desk.specs.declared.record_book.RecordBook.{RecordBook};
ghost use Rattle.pcm_state.specs.RecordRows.{record_book_row, FitsRecord};

use crate::codes::{run_code, run_state, word};
use crate::opening::{opening_from_row, opening_row};
use pcm_desk::RecordBook;

/// The numbers of a book that records.
pub const RECORD_NUMBERS: usize = 13;

/// The row of a book.
pub fn record_row(book: &RecordBook) -> [u64; RECORD_NUMBERS]
    ensures row { result ≡ record_book_row book.now }
    ensures fits { FitsRecord book.now }
{
    let (captured, given) = (book.captured, book.given);
    let (kept, read, overruns) = (book.kept, book.read, book.overruns);
    let (state, overruns) = (run_code(book.state), u64::from(overruns));
    let [format, rate, channels, count, log, trigger, told] = opening_row(&book.opening);
    [
        format, rate, channels, count, log, trigger, told, state, captured, given, kept, read,
        overruns,
    ]
}

/// The book that has this row, if one has.
pub fn record_from_row(row: &[u64; RECORD_NUMBERS]) -> Option<RecordBook>
    ensures row { IfSome result (λ book. record_book_row book ≡ row.now) }
    ensures some { (book : RecordBook) → FitsRecord book → record_book_row book ≡ row.now → result ≡ Some book }
{
    let opening = [row[0], row[1], row[2], row[3], row[4], row[5], row[6]];
    Some(RecordBook {
        opening: opening_from_row(&opening)?,
        state: run_state(row[7])?,
        captured: row[8],
        given: row[9],
        kept: row[10],
        read: row[11],
        overruns: word(row[12])?,
    })
}
