//! The state of a mapped channel: its book, what stands in its area and, unless it is free, the samples of the past.

ghost use Rattle.std.specs.Prelude.{◌≡◌, ◌≤◌, length, take, IfOk, IsOk};
ghost use Rattle.pcm_desk.specs.declared.map_book.MapBook.{MapBook};
ghost use Rattle.pcm_oss.specs.Fragments.{AreFragments};
ghost use Rattle.pcm_desk.specs.Openings.{ring_bytes};
ghost use Rattle.pcm_map.specs.Channels.{IsMapReady};
ghost use Rattle.pcm_state.specs.MapRows.{FitsMap};
ghost use Rattle.pcm_save.specs.Mapping.{map-state-known, map_state, HasMapBook};

use crate::front::{load_rest, load_row};
use crate::past::{past_samples, past_size, put_past};
use crate::planned::planned;
use crate::{Saved, StateFault, Told};
use pcm_desk::MapBook;
use pcm_feeder::{Feeder, Tables};
use pcm_map::MapChannelOf;
use pcm_order::map_is_in_order;
use pcm_oss::Way;
use pcm_state::{MAP_NUMBERS, map_from_row, map_row, put_numbers};

// The bytes of its book.
const BOOK_BYTES: usize = 8 * MAP_NUMBERS;

impl<B: Feeder> Saved<B> for MapChannelOf<B> {
    ghost state = { map_state B.kept };

    ghost ready = { IsMapReady B.kind B.kept };

    ghost fits = { λ channel. FitsMap channel.book };

    ghost known = { map-state-known B.kind B.kept };

    fn state_size(&self) -> usize {
        BOOK_BYTES + area_size(&self.book) + past_size(self.is_free(), &self.path.chain)
    }

    fn save(&self, out: &mut [u8]) {
        let row = map_row(&self.book);
        let (front, rest) = out.split_at_mut(BOOK_BYTES);
        let size = area_size(&self.book);
        let (area, past) = rest.split_at_mut(size);
        put_numbers(&row, front);
        area.copy_from_slice(&self.area[..size]);
        put_past(self.is_free(), &self.path.chain, past);
    }

    fn load(&mut self, tables: &Tables, bytes: &[u8], past: &mut [i32]) -> Told {
        let book = book_in(bytes)?;
        let plan = planned(Way::Map, tables, &self.path.device, &book.opening)?;
        if !map_is_in_order(plan.rate(), &book) {
            return Err(StateFault::OutOfOrder);
        }
        let past = &mut past[..past_samples(book.is_free(), &plan)];
        let area = load_rest(bytes, BOOK_BYTES, area_size(&book), past)?;
        put_front(&mut self.area, area);
        self.tell(tables, book, past);
        Ok(BOOK_BYTES + area.len() + 4 * past.len())
    }
}

// The bytes of a book's area.
fn area_size(book: &MapBook) -> usize
    requires { AreFragments book.now.opening.fragments }
    ensures { result ≡ ring_bytes book.now.opening }
{
    book.opening.fragments.size() as usize
}

// The first bytes of an area become these.
fn put_front(area: &mut [u8], bytes: &[u8])
    requires room { length bytes.now ≤ length area.old }
    ensures { take (length bytes.now) area.new ≡ bytes.now }
{
    area[..bytes.len()].copy_from_slice(bytes);
}

// The book at the front.
fn book_in(bytes: &[u8]) -> Result<MapBook, StateFault>
    ensures book { IfOk result (HasMapBook bytes.now) }
    ensures taken { (book : MapBook) → FitsMap book → HasMapBook bytes.now book → IsOk result }
{
    let mut row = [0; MAP_NUMBERS];
    load_row(bytes, &mut row)?;
    map_from_row(&row).ok_or(StateFault::Unspelled)
}
