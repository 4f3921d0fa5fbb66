//! The order of a book that plays.

ghost use Rattle.std.specs.Prelude.{◌≡◌, ◌↔◌, ◌+◌, ◌-◌, ◌<◌, true};
ghost use Rattle.pcm_rate.specs.Rates.{need, IsRatio};
ghost use Rattle.pcm_desk.specs.PlayBooks.{frames_written};
ghost use Rattle.pcm_desk.specs.PlaySafe.{IsPlayInOrder, IsPlayUnstarted};
ghost use Rattle.pcm_order.specs.Orders.{PlayCanBe};

use crate::opening::{are_fragments, bytes_of, is_rate, is_ratio};
use pcm_desk::{PlayBook, PlayState};
use pcm_num::quotient;
use pcm_oss::is_volume;
use pcm_rate::Rate;

/// Whether a book that plays is in order, by the rate between its client and the mix.
pub fn play_is_in_order(rate: Rate, book: &PlayBook) -> bool
    ensures { (result ≡ true) ↔ PlayCanBe rate book.now }
{
    let written = u128::from(book.written);
    let eaten = bytes_of(book.eaten, book.opening.settings);
    is_ratio(rate)
        && is_rate(book.opening.settings.rate)
        && are_fragments(book.opening.fragments)
        && eaten <= written
        && written - eaten <= u128::from(book.opening.fragments.size())
        && is_volume(book.volume)
        && u128::from(book.opening.told) <= u128::from(book.done) + eaten
        && counts(rate, book)
}

// Whether the counts of a book are those of its state.
fn counts(rate: Rate, book: &PlayBook) -> bool
    requires ratio { IsRatio rate }
    ensures { (result ≡ true) ↔ IsPlayInOrder rate book.now.state book.now }
{
    let frames = frames_written(book);
    let (eaten, given) = (u128::from(book.eaten), u128::from(book.given));
    let need = rate.need(book.given);
    let eats = book.eaten <= frames && eaten <= need.max(before_next(rate, book.given));
    match book.state {
        PlayState::Free | PlayState::Setup => book.written == 0 && is_unstarted(book),
        PlayState::Primed => 0 < book.written && is_unstarted(book),
        PlayState::Running => eats && need <= eaten && given <= rate.can(frames),
        PlayState::Draining { .. } => {
            eats && need.min(u128::from(frames)) <= eaten && given <= rate.len(frames)
        }
    }
}

fn is_unstarted(book: &PlayBook) -> bool
    ensures { (result ≡ true) ↔ IsPlayUnstarted book.now.eaten book.now.given }
{
    book.eaten == 0 && book.given == 0
}

fn frames_written(book: &PlayBook) -> u64
    ensures { result ≡ frames_written book.now }
{
    book.written / book.opening.settings.frame_bytes() as u64
}

// One frame less than the next output uses. It goes by the formula, since there may be no number of 64 bits for that output.
fn before_next(rate: Rate, given: u64) -> u128
    requires { 0 < rate.dst }
    ensures { result ≡ need rate (given + 1) - 1 }
{
    quotient(u128::from(given) * u128::from(rate.src), rate.dst) + u128::from(rate.lookahead)
}
