//! A mapped channel: its book, its area, and the path by whose ring and chain the device takes what stands there.

ghost use Rattle.std.specs.Prelude.{◌≡◌, ◌+◌, ◌*◌, ◌<◌, ◌≤◌, [], length, All, IsTrue, IfOk};
ghost use Rattle.pcm_sequence.specs.Fixed.{fixed_len};
ghost use Rattle.pcm_format.specs.Formats.{bits_of};
ghost use Rattle.pcm_format.specs.Layouts.{channels_of};
ghost use Rattle.pcm_num.specs.Limit.{FitsBits};
ghost use Rattle.pcm_feeder.specs.Limits.{IsRate};
ghost use Rattle.pcm_oss.specs.declared.event.Way.TheVariants.{Map};
ghost use Rattle.pcm_oss.specs.declared.fragments.TheConstants.{RING_BYTES};
ghost use Rattle.pcm_rate.specs.Rates.{IsRatio};
ghost use Rattle.pcm_ring.specs.Ring.{empty_ring};
ghost use Rattle.pcm_desk.specs.Device.{HasRates, seen};
ghost use Rattle.pcm_desk.specs.RunStates.{is_unheld, is_running, is_in_setup};
ghost use Rattle.pcm_desk.specs.MapBooks.{map_begun, poke_turn};
ghost use Rattle.pcm_desk.specs.MapRequests.{map_ask};
ghost use Rattle.pcm_desk.specs.MapSafe.{MapIsSafe};
ghost use Rattle.pcm_desk.specs.Channels.{map_mixing};
ghost use Rattle.pcm_desk.proofs.Props.{map_props};
ghost use Rattle.pcm_chain.specs.Chains.{marks_in, HasRack};
ghost use Rattle.pcm_path.specs.Paths.{path_rate, CanBegin, CanServe, ChannelMoves, HasBoxes, IsEmpty, IsPlanned};
ghost use Rattle.std.proofs.Props.{props};

use crate::area::{copy_front, put_round, recut, silence};
use pcm_desk::{Device, MapBook, Opening, RunState};
use pcm_feeder::{Feeder, Gain, RackOf, Tables, apply_gain};
use pcm_format::Settings;
use pcm_mix::mix_into;
use pcm_oss::{Answer, Errno, RING_BYTES, Request, Way, gain_of};
use pcm_path::{Channel, Made, PathOf};
use pcm_sequence::Fixed;
use std::alloc::Global;

/// How many frames a piece of a refill has at most.
const PIECE_FRAMES: usize = 64;

/// A channel of the device whose area is mapped.
#[derive(Drop)]
pub struct MapChannelOf<B> {
    pub book: MapBook,
    pub path: PathOf<B>,
    // As many bytes as the greatest area has.
    pub area: Fixed<u8>,
    ghost rates: { HasRates path.device } by { Prim.hlevel props },
    ghost rate: { IsRate book.opening.settings.rate } by { Prim.hlevel props },
    ghost ratio: { IsRatio (path_rate path) } by { Prim.hlevel props },
    // Between two calls no byte waits, and all of the ring's room is free.
    ghost ring: { path.ring ≡ empty_ring RING_BYTES },
    ghost safe: { MapIsSafe (path_rate path) book } by { Prim.hlevel map_props },
    ghost size: { fixed_len area ≡ RING_BYTES },
}

impl<B: Feeder> MapChannelOf<B> {
    ghost use Rattle.pcm_feeder.specs.Filters.{Filters};
    ghost use Rattle.pcm_map.specs.declared.channel.TheConstants.{PIECE_FRAMES};
    ghost use Rattle.pcm_map.specs.Pieces.{MapGives};
    ghost use Rattle.pcm_map.specs.Channels.{area_of, CanMixMap, ClosesMap, CountsFit, IsMapReady, MapAddsTo, MapMoves, MapTakes, MapTurns, MayAskMap, PokesArea, RecutsArea};
    ghost use Rattle.pcm_map.specs.Telling.{CanTellMap, HasToldMap};

    /// Whether the channel is open, and hasn't started.
    pub fn is_at_rest(&self) -> bool
        ensures { result ≡ is_in_setup self.now.book.state }
    {
        self.book.is_setup()
    }

    /// Whether nobody has the channel.
    pub fn is_free(&self) -> bool
        ensures { result ≡ is_unheld self.now.book.state }
    {
        self.book.is_free()
    }

    /// Writes `bytes` into the area from its byte `offset` on, if they fit.
    pub fn poke(&mut self, offset: u32, bytes: &[u8]) -> Result<Answer, Errno>
        ensures { MapTurns (poke_turn offset (length bytes.now) self.old.book) (PokesArea offset bytes.now)
            (λ old new. (filters : Filters) → MapMoves B.kind B.kept filters [] 0 old new) result self.old self.new }
    {
        let turn = self.book.poke(offset, bytes.len() as u64);
        let answer = turn.reply?;
        let start = offset as usize;
        self.area[start..start + bytes.len()].copy_from_slice(bytes);
        Ok(answer)
    }

    /// Does what a request asks. Where it hasn't started, the chain begins again, and another format, other channels or other fragments
    /// make the area silent.
    pub fn ioctl(&mut self, tables: &Tables, request: Request) -> Result<Answer, Errno>
        requires { MayAskMap B.kind tables.now self.old }
        ensures { MapTurns (map_ask request self.old.book) RecutsArea (MapMoves B.kind B.kept tables.now [] 0) result self.old self.new }
    {
        let turn = self.book.asked(request);
        let answer = turn.reply?;
        recut(&mut self.area, &self.book.opening, &turn.book.opening);
        self.book = turn.book;
        if self.book.given == 0 {
            begin_run(&mut self.path, tables, &self.book.opening);
        }
        Ok(answer)
    }

    /// No descriptor has the channel any more: nothing more is taken.
    pub fn close(&mut self)
        requires kinds { HasBoxes B.kind self.old.path }
        ensures { ClosesMap B.kind B.kept self.old self.new }
    {
        self.book = self.book.closed();
        self.path.restart();
    }

    /// Goes on as the channel whose book this was and, unless it is free, with the samples that its chain kept of the past. The area
    /// stays as it is: what stood in that one's is put there by the caller. Takes no memory.
    pub fn tell(&mut self, tables: &Tables, book: MapBook, past: &[i32])
        requires { CanTellMap B.kind tables.now book past.now self.old }
        ensures { HasToldMap B.kind B.kept B.mark tables.now book past.now self.old self.new }
    {
        self.book = book;
        let opening = book.opening;
        if book.is_free() {
            begin_run(&mut self.path, tables, &opening);
        } else {
            let (eaten, given) = (book.eaten, book.given);
            self.path
                .tell(Way::Map, tables, &opening, &[], eaten, given, past);
            self.path.ring.set_size(RING_BYTES as usize);
        }
    }

    /// Adds the channel's frames to a block of the mix at the gain of its slot, as many as an interrupt that mixes `n` frames gets: what they
    /// need is taken out of the area as it stands. `frames` holds them meanwhile.
    pub fn refill(
        &mut self,
        tables: &Tables,
        n: usize,
        slot_gain: Gain,
        frames: &mut [i32],
        sum: &mut [i32],
    )
        requires { CanMixMap B.kind B.kept tables.now n slot_gain frames.old sum.old self.old }
        ensures book { self.new.book ≡ map_mixing (seen tables.now self.old.path.device) n self.old.book }
        ensures device { self.new.path.device ≡ self.old.path.device }
        ensures area { area_of self.new ≡ area_of self.old }
        ensures moves { MapTakes B.kind B.kept tables.now n self.old self.new }
        ensures sum { MapAddsTo B.kept tables.now self.old.path.device n slot_gain sum.old sum.new self.old }
        ensures fits { All (FitsBits (bits_of self.old.path.device.mix.format)) sum.new }
    {
        if !self.book.is_running() {
            return;
        }
        let settings = self.path.device.mix;
        self.give(tables, n, frames);
        apply_gain(slot_gain, settings.layout, frames);
        mix_into(sum, frames, settings.format.bits());
    }

    // A started channel gives its next frames, piece by piece.
    fn give(&mut self, tables: &Tables, n: usize, frames: &mut [i32])
        requires running { IsTrue (is_running self.old.book.state) }
        requires ready { IsMapReady B.kind B.kept tables.now self.old }
        requires room { n * channels_of self.old.path.device.mix.layout ≤ length frames.old }
        requires count { CountsFit tables.now n self.old }
        ensures gives { MapGives B.kind B.kept tables.now n self.old self.new frames.new }
    {
        let channels = self.path.device.mix.layout.channels();
        let mut done = 0;
        while done < n {
            let piece = (n - done).min(PIECE_FRAMES);
            self.give_piece(tables, piece, &mut frames[done * channels..]);
            done += piece;
        }
    }

    // A started channel gives so few frames that all that they need has room in the ring.
    fn give_piece(&mut self, tables: &Tables, n: usize, frames: &mut [i32])
        requires running { IsTrue (is_running self.old.book.state) }
        requires few { n ≤ PIECE_FRAMES }
        requires ready { IsMapReady B.kind B.kept tables.now self.old }
        requires room { n * channels_of self.old.path.device.mix.layout ≤ length frames.old }
        requires count { CountsFit tables.now n self.old }
        ensures gives { MapGives B.kind B.kept tables.now n self.old self.new frames.new }
    {
        let Opening {
            settings,
            fragments,
            ..
        } = self.book.opening;
        let book = self.book.refilled(self.path.chain.plan().rate(), n as u64);
        let count = (book.eaten - self.book.eaten) as usize * settings.frame_bytes();
        let gain = gain_of(self.book.volume);
        let area = &self.area[..fragments.size() as usize];
        let PathOf { ring, chain, .. } = &mut self.path;
        put_round(ring, area, self.book.taken(), count);
        chain.pull(tables, gain, ring, settings.format, false, n, frames);
        self.book = book;
    }
}

impl<B: Feeder> Channel<B> for MapChannelOf<B> {
    ghost use Rattle.pcm_map.specs.Channels.{IsMapUnopened, MapBegins, MapStandsAs};

    ghost path = { λ channel. channel.path };

    ghost is_free = { λ channel. is_unheld channel.book.state };

    ghost is_unopened = { IsMapUnopened B.kind B.kept };

    ghost begins = { λ filters settings.
        ChannelMoves (λ channel. channel.path) (λ channel. channel.book) (map_begun settings) (MapBegins B.kind B.kept filters) };

    ghost stands_as = { MapStandsAs B.kept };

    fn new(alloc: Global, device: Device, tables: &Tables, rack: RackOf<B>) -> Made<Self>
        requires { CanServe B.kind device rack }
        ensures unopened { IfOk result (IsMapUnopened B.kind B.kept tables.now device) }
        ensures boxes { IfOk result (λ made. HasRack B.mark rack made.path.chain) }
    {
        let mut path = PathOf::new(alloc, device, rack)?;
        let mut area = Fixed::new(vec![in alloc; 0u8; RING_BYTES as usize]?);
        let book = MapBook {
            state: RunState::Free,
            ..MapBook::begun(device.mix)
        };
        begin_run(&mut path, tables, &book.opening);
        silence(&mut area, &book.opening);
        Ok(MapChannelOf { book, path, area })
    }

    fn is_free(&self) -> bool {
        self.is_free()
    }

    // The area of the opening is silent.
    fn begin(&mut self, tables: &Tables, settings: Settings) {
        self.book = MapBook::begun(settings);
        begin_run(&mut self.path, tables, &self.book.opening);
        silence(&mut self.area, &self.book.opening);
    }

    fn resume_from(&mut self, other: &Self) {
        self.book = other.book;
        self.path.resume_from(&other.path, !other.is_free());
        let size = other.book.opening.fragments.size() as usize;
        copy_front(&mut self.area, &other.area, size);
    }
}

// A run of an opening begins, with all of the ring's room for a piece of it.
fn begin_run<B: Feeder>(path: &mut PathOf<B>, tables: &Tables, opening: &Opening)
    requires can { CanBegin B.kind opening.now path.old }
    ensures device { path.new.device ≡ path.old.device }
    ensures ratio { IsRatio (path_rate path.new) }
    ensures ring { path.new.ring ≡ empty_ring RING_BYTES }
    ensures planned { IsPlanned Map tables.now opening.now.settings path.new }
    ensures kinds { HasBoxes B.kind path.new }
    ensures marks { marks_in B.mark path.new.chain ≡ marks_in B.mark path.old.chain }
    ensures empty { IsEmpty B.kept path.new }
{
    path.begin(Way::Map, tables, opening);
    path.ring.set_size(RING_BYTES as usize);
}

/// A channel whose rack holds boxes.
pub type MapChannel = MapChannelOf<Box<dyn Feeder>>;
