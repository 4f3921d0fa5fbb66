//! The order of a mapped book.

ghost use Rattle.std.specs.Prelude.{◌≡◌, ◌↔◌, true};
ghost use Rattle.pcm_desk.specs.MapSafe.{IsMapInOrder};
ghost use Rattle.pcm_order.specs.Orders.{MapCanBe};

use crate::opening::{are_fragments, bytes_of, is_rate, is_ratio};
use pcm_desk::{MapBook, RunState};
use pcm_oss::is_volume;
use pcm_rate::Rate;

/// Whether a mapped book is in order, by the rate between its client and the mix.
pub fn map_is_in_order(rate: Rate, book: &MapBook) -> bool
    ensures { (result ≡ true) ↔ MapCanBe rate book.now }
{
    is_ratio(rate)
        && is_rate(book.opening.settings.rate)
        && are_fragments(book.opening.fragments)
        && is_volume(book.volume)
        && u128::from(book.opening.told) <= bytes_of(book.eaten, book.opening.settings)
        && u128::from(book.eaten) == rate.need(book.given)
        && counts(book)
}

// Whether the counts of a book are those of its state.
fn counts(book: &MapBook) -> bool
    ensures { (result ≡ true) ↔ IsMapInOrder book.now.state book.now }
{
    match book.state {
        RunState::Free | RunState::Setup => book.given == 0,
        RunState::Running => true,
    }
}
