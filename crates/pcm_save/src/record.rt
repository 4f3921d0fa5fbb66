//! The state of a channel that records: its book, the bytes that wait and, unless it is free, the samples of the past.

ghost use Rattle.std.specs.Prelude.{IfOk, IsOk};
ghost use Rattle.pcm_desk.specs.declared.record_book.RecordBook.{RecordBook};
ghost use Rattle.pcm_record.specs.Channels.{IsRecordReady};
ghost use Rattle.pcm_state.specs.RecordRows.{FitsRecord};
ghost use Rattle.pcm_save.specs.Recording.{record-state-known, record_state, HasRecordBook};

use crate::front::{load_rest, load_row};
use crate::past::past_samples;
use crate::path::{path_size, put_path};
use crate::planned::planned;
use crate::{Saved, StateFault, Told};
use pcm_desk::RecordBook;
use pcm_feeder::{Feeder, Tables};
use pcm_order::record_is_in_order;
use pcm_oss::Way;
use pcm_record::RecordChannelOf;
use pcm_state::{RECORD_NUMBERS, put_numbers, record_from_row, record_row};

// The bytes of its book.
const BOOK_BYTES: usize = 8 * RECORD_NUMBERS;

impl<B: Feeder> Saved<B> for RecordChannelOf<B> {
    ghost state = { record_state B.kept };

    ghost ready = { IsRecordReady B.kind B.kept };

    ghost fits = { λ channel. FitsRecord channel.book };

    ghost known = { record-state-known B.kind B.kept };

    fn state_size(&self) -> usize {
        BOOK_BYTES + path_size(self.is_free(), &self.path)
    }

    fn save(&self, out: &mut [u8]) {
        let row = record_row(&self.book);
        let (front, rest) = out.split_at_mut(BOOK_BYTES);
        put_numbers(&row, front);
        put_path(self.is_free(), &self.path, rest);
    }

    fn load(&mut self, tables: &Tables, bytes: &[u8], past: &mut [i32]) -> Told {
        let book = book_in(bytes)?;
        let plan = planned(Way::Record, tables, &self.path.device, &book.opening)?;
        if !record_is_in_order(plan.rate(), &book) {
            return Err(StateFault::OutOfOrder);
        }
        let past = &mut past[..past_samples(book.is_free(), &plan)];
        let waiting = load_rest(bytes, BOOK_BYTES, book.fill() as usize, past)?;
        self.tell(tables, book, waiting, past);
        Ok(BOOK_BYTES + waiting.len() + 4 * past.len())
    }
}

// The book at the front.
fn book_in(bytes: &[u8]) -> Result<RecordBook, StateFault>
    ensures book { IfOk result (HasRecordBook bytes.now) }
    ensures taken { (book : RecordBook) → FitsRecord book → HasRecordBook bytes.now book → IsOk result }
{
    let mut row = [0; RECORD_NUMBERS];
    load_row(bytes, &mut row)?;
    record_from_row(&row).ok_or(StateFault::Unspelled)
}
