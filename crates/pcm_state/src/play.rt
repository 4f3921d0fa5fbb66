//! The row of a book that plays.

ghost use Rattle.std.specs.Prelude.{◌≡◌, IfSome, Some};
ghost use Rattle.pcm_desk.specs.declared.play_book.PlayBook.{PlayBook};
ghost use Rattle.pcm_desk.specs.declared.play_book.PlayState.{PlayState};
ghost use Rattle.pcm_state.specs.PlayRows.{play_book_row, play_code, FitsPlay};

use crate::codes::word;
use crate::opening::{opening_from_row, opening_row};
use pcm_desk::{PlayBook, PlayState};

/// The numbers of a book that plays.
pub const PLAY_NUMBERS: usize = 15;

/// The row of a book.
pub fn play_row(book: &PlayBook) -> [u64; PLAY_NUMBERS]
    ensures row { result ≡ play_book_row book.now }
    ensures fits { FitsPlay book.now }
{
    let (volume, underruns) = (book.volume, book.underruns);
    let (written, eaten, given) = (book.written, book.eaten, book.given);
    let (done, last) = (book.done, book.last);
    let (volume, underruns) = (u64::from(volume), u64::from(underruns));
    let state = play_code(book.state);
    let [format, rate, channels, count, log, trigger, told] = opening_row(&book.opening);
    [
        format, rate, channels, count, log, trigger, told, volume, state, written, eaten, given,
        done, underruns, last,
    ]
}

/// The book that has this row, if one has.
pub fn play_from_row(row: &[u64; PLAY_NUMBERS]) -> Option<PlayBook>
    ensures row { IfSome result (λ book. play_book_row book ≡ row.now) }
    ensures some { (book : PlayBook) → FitsPlay book → play_book_row book ≡ row.now → result ≡ Some book }
{
    let opening = [row[0], row[1], row[2], row[3], row[4], row[5], row[6]];
    Some(PlayBook {
        opening: opening_from_row(&opening)?,
        volume: word(row[7])?,
        state: play_state(row[8])?,
        written: row[9],
        eaten: row[10],
        given: row[11],
        done: row[12],
        underruns: word(row[13])?,
        last: row[14],
    })
}

// A state as a number.
fn play_code(state: PlayState) -> u64
    ensures { result ≡ play_code state }
{
    match state {
        PlayState::Free => 0,
        PlayState::Setup => 1,
        PlayState::Primed => 2,
        PlayState::Running => 3,
        PlayState::Draining { closed } => 4 + u64::from(closed),
    }
}

// The state that a number is.
fn play_state(code: u64) -> Option<PlayState>
    ensures same { IfSome result (λ state. play_code state ≡ code) }
    ensures some { (state : PlayState) → play_code state ≡ code → result ≡ Some state }
{
    match code {
        0 => Some(PlayState::Free),
        1 => Some(PlayState::Setup),
        2 => Some(PlayState::Primed),
        3 => Some(PlayState::Running),
        4 => Some(PlayState::Draining { closed: false }),
        5 => Some(PlayState::Draining { closed: true }),
        _ => None,
    }
}
