//! The state of a channel that plays: its book, the bytes that wait and, unless it is free, the samples of the past.

ghost use Rattle.std.specs.Prelude.{IfOk, IsOk};
ghost use Rattle.pcm_desk.specs.declared.play_book.PlayBook.{PlayBook};
ghost use Rattle.pcm_play.specs.Channels.{IsPlayReady};
ghost use Rattle.pcm_state.specs.PlayRows.{FitsPlay};
ghost use Rattle.pcm_save.specs.Playing.{play-state-known, play_state, HasPlayBook};

use crate::front::{load_rest, load_row};
use crate::past::past_samples;
use crate::path::{path_size, put_path};
use crate::planned::planned;
use crate::{Saved, StateFault, Told};
use pcm_desk::PlayBook;
use pcm_feeder::{Feeder, Tables};
use pcm_order::play_is_in_order;
use pcm_oss::Way;
use pcm_play::PlayChannelOf;
use pcm_state::{PLAY_NUMBERS, play_from_row, play_row, put_numbers};

// The bytes of its book.
const BOOK_BYTES: usize = 8 * PLAY_NUMBERS;

impl<B: Feeder> Saved<B> for PlayChannelOf<B> {
    ghost state = { play_state B.kept };

    ghost ready = { IsPlayReady B.kind B.kept };

    ghost fits = { λ channel. FitsPlay channel.book };

    ghost known = { play-state-known B.kind B.kept };

    fn state_size(&self) -> usize {
        BOOK_BYTES + path_size(self.is_free(), &self.path)
    }

    fn save(&self, out: &mut [u8]) {
        let row = play_row(&self.book);
        let (front, rest) = out.split_at_mut(BOOK_BYTES);
        put_numbers(&row, front);
        put_path(self.is_free(), &self.path, rest);
    }

    fn load(&mut self, tables: &Tables, bytes: &[u8], past: &mut [i32]) -> Told {
        let book = book_in(bytes)?;
        let plan = planned(Way::Play, tables, &self.path.device, &book.opening)?;
        if !play_is_in_order(plan.rate(), &book) {
            return Err(StateFault::OutOfOrder);
        }
        let past = &mut past[..past_samples(book.is_free(), &plan)];
        let waiting = load_rest(bytes, BOOK_BYTES, book.fill() as usize, past)?;
        self.tell(tables, book, waiting, past);
        Ok(BOOK_BYTES + waiting.len() + 4 * past.len())
    }
}

// The book at the front.
fn book_in(bytes: &[u8]) -> Result<PlayBook, StateFault>
    ensures book { IfOk result (HasPlayBook bytes.now) }
    ensures taken { (book : PlayBook) → FitsPlay book → HasPlayBook bytes.now book → IsOk result }
{
    let mut row = [0; PLAY_NUMBERS];
    load_row(bytes, &mut row)?;
    play_from_row(&row).ok_or(StateFault::Unspelled)
}
