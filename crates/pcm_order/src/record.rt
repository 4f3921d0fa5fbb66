//! The order of a book that records.

ghost use Rattle.std.specs.Prelude.{◌≡◌, ◌↔◌, true};
ghost use Rattle.pcm_desk.specs.RecordSafe.{IsRecordInOrder};
ghost use Rattle.pcm_order.specs.Orders.{RecordCanBe};

use crate::opening::{are_fragments, is_rate, is_ratio};
use pcm_desk::{RecordBook, RunState};
use pcm_rate::Rate;

/// Whether a book that records is in order, by the rate between the device and its client.
pub fn record_is_in_order(rate: Rate, book: &RecordBook) -> bool
    ensures { (result ≡ true) ↔ RecordCanBe rate book.now }
{
    is_ratio(rate)
        && is_rate(book.opening.settings.rate)
        && are_fragments(book.opening.fragments)
        && book.read <= book.kept
        && book.kept - book.read <= u64::from(book.opening.fragments.size())
        && book.opening.told <= book.kept
        && u128::from(book.given) == rate.can(book.captured)
        && counts(book)
}

// Whether the counts of a book are those of its state.
fn counts(book: &RecordBook) -> bool
    ensures { (result ≡ true) ↔ IsRecordInOrder book.now.state book.now }
{
    match book.state {
        RunState::Free | RunState::Setup => {
            book.captured == 0 && book.kept == 0 && book.read == 0
        }
        RunState::Running => true,
    }
}
