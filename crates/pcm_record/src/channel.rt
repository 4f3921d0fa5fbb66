//! A channel that records: its book, and the path with the chain that captured frames go through and the bytes that wait.

ghost use Rattle.std.specs.Prelude.{◌≡◌, ◌+◌, ◌*◌, ◌^◌, ◌<◌, ◌≤◌, [], length, IfOk};
ghost use Rattle.pcm_format.specs.Layouts.{channels_of};
ghost use Rattle.pcm_oss.specs.declared.fragments.TheConstants.{RING_BYTES};
ghost use Rattle.pcm_desk.specs.declared.limits.TheConstants.{RING_FRAMES};
ghost use Rattle.pcm_desk.specs.Device.{seen};
ghost use Rattle.pcm_desk.specs.RunStates.{is_unheld, is_in_setup};
ghost use Rattle.pcm_desk.specs.RecordBooks.{closed, record_begun, record_fill_of};
ghost use Rattle.pcm_desk.specs.RecordRequests.{record_ask};
ghost use Rattle.pcm_desk.specs.RecordSafe.{RecordIsSafe};
ghost use Rattle.pcm_desk.proofs.Props.{record_props};
ghost use Rattle.pcm_chain.specs.Chains.{HasRack};
ghost use Rattle.pcm_path.specs.Paths.{path_rate, CanServe, ChannelMoves, HasBoxes, Serves};
ghost use Rattle.std.proofs.Props.{props};
ghost use Rattle.pcm_desk.specs.Channels.{capturing};

use pcm_desk::{Device, RecordBook, RunState};
use pcm_feeder::{Feeder, RackOf, Tables};
use pcm_format::Settings;
use pcm_oss::{Answer, Errno, Request, Way};
use pcm_path::{Channel, Made, PathOf};
use std::alloc::Global;

/// A channel that records from the device.
#[derive(Drop)]
pub struct RecordChannelOf<B> {
    pub book: RecordBook,
    pub path: PathOf<B>,
    ghost serves: { Serves book.opening path } by { Prim.hlevel props },
    ghost fill: { length path.ring.bytes ≡ record_fill_of book },
    ghost within: { book.read ≤ book.kept },
    ghost safe: { RecordIsSafe (path_rate path) book } by { Prim.hlevel record_props },
}

impl<B: Feeder> RecordChannelOf<B> {
    ghost use Rattle.pcm_feeder.specs.Filters.{Filters};
    ghost use Rattle.pcm_record.specs.Channels.{CaptureFits, CaptureMoves, IsRecordServed, MayAskRecord, RecordIsSoFar, RecordLeaves, RecordMoves, RecordReads, RecordTurns};
    ghost use Rattle.pcm_record.specs.Telling.{CanTellRecord, HasToldRecord};

    /// Whether nobody has the channel.
    pub fn is_free(&self) -> bool
        ensures { result ≡ is_unheld self.now.book.state }
    {
        self.book.is_free()
    }

    /// Whether the channel is open, and nothing of a recording is there.
    pub fn is_at_rest(&self) -> bool
        ensures { result ≡ is_in_setup self.now.book.state }
    {
        self.book.is_setup()
    }

    /// Moves the bytes that have waited longest to the front of `out`, as many as there are, and answers how many.
    pub fn read(&mut self, out: &mut [u8]) -> Result<Answer, Errno>
        ensures { RecordReads B.kind B.kept result self.old self.new out.old out.new }
    {
        let turn = self.book.read(out.len() as u64);
        let answer = turn.reply?;
        // As many bytes wait in the ring as the book tells.
        self.path.ring.take(out);
        self.book = turn.book;
        Ok(answer)
    }

    /// Does what a request asks. Where the channel isn't running then, the ring and the chain begin again, as the book says.
    pub fn ioctl(&mut self, tables: &Tables, request: Request) -> Result<Answer, Errno>
        requires { MayAskRecord B.kind tables.now self.old }
        ensures { RecordTurns (record_ask request self.old.book) (RecordMoves B.kind B.kept tables.now [] 0) result self.old self.new }
    {
        let turn = self.book.asked(request);
        let answer = turn.reply?;
        self.book = turn.book;
        if !turn.book.is_running() {
            self.path.begin(Way::Record, tables, &self.book.opening);
        }
        Ok(answer)
    }

    /// No descriptor has the channel any more: what wasn't read is dropped.
    pub fn close(&mut self)
        requires kinds { HasBoxes B.kind self.old.path }
        ensures { RecordLeaves (closed self.old.book) (λ old new. (filters : Filters) → RecordMoves B.kind B.kept filters [] 0 old new) self.old self.new }
    {
        self.book = self.book.closed();
        self.path.restart();
    }

    /// Goes on as the channel whose book this was, with the bytes that waited in its ring and, unless it is free, the samples that its
    /// chain kept of the past. Takes no memory.
    pub fn tell(&mut self, tables: &Tables, book: RecordBook, waiting: &[u8], past: &[i32])
        requires { CanTellRecord B.kind tables.now book waiting.now past.now self.old }
        ensures { HasToldRecord B.kind B.kept B.mark tables.now book waiting.now past.now self.old self.new }
    {
        self.book = book;
        let opening = book.opening;
        if book.is_free() {
            self.path.begin(Way::Record, tables, &opening);
        } else {
            let (eaten, given) = (book.captured, book.given);
            self.path
                .tell(Way::Record, tables, &opening, waiting, eaten, given, past);
        }
    }

    /// Captures `frames` frames of the device, which are `input`, where the channel is running: all go through the chain, and of the
    /// frames that come of them the first ones are kept, as many as have room.
    pub fn capture(&mut self, tables: &Tables, frames: usize, input: &[i32])
        requires few { frames ≤ RING_FRAMES }
        requires whole { length input.now ≡ frames * channels_of self.old.path.device.settings.layout }
        requires planned { IsRecordServed tables.now self.old }
        requires far { RecordIsSoFar B.kept tables.now self.old }
        requires count { CaptureFits tables.now frames self.old }
        requires kept { self.old.book.kept + RING_BYTES < 2 ^ 64 }
        ensures { RecordLeaves (capturing (seen tables.now self.old.path.device) frames self.old.book)
            (CaptureMoves B.kind B.kept tables.now frames input.now) self.old self.new }
    {
        if !self.book.is_running() {
            return;
        }
        let format = self.book.opening.settings.format;
        let PathOf { ring, chain, .. } = &mut self.path;
        chain.push(tables, input, ring, format);
        let rate = self.path.chain.plan().rate();
        self.book = self.book.captured(rate, frames as u64);
    }
}

impl<B: Feeder> Channel<B> for RecordChannelOf<B> {
    ghost use Rattle.pcm_record.specs.Channels.{IsRecordUnopened, RecordMoves, RecordStandsAs};

    ghost path = { λ channel. channel.path };

    ghost is_free = { λ channel. is_unheld channel.book.state };

    ghost is_unopened = { IsRecordUnopened B.kind B.kept };

    ghost begins = { λ filters settings.
        ChannelMoves (λ channel. channel.path) (λ channel. channel.book) (record_begun settings) (RecordMoves B.kind B.kept filters [] 0) };

    ghost stands_as = { RecordStandsAs B.kept };

    fn new(alloc: Global, device: Device, tables: &Tables, rack: RackOf<B>) -> Made<Self>
        requires { CanServe B.kind device rack }
        ensures unopened { IfOk result (IsRecordUnopened B.kind B.kept tables.now device) }
        ensures boxes { IfOk result (λ made. HasRack B.mark rack made.path.chain) }
    {
        let mut path = PathOf::new(alloc, device, rack)?;
        let book = RecordBook {
            state: RunState::Free,
            ..RecordBook::begun(device.settings)
        };
        path.begin(Way::Record, tables, &book.opening);
        Ok(RecordChannelOf { book, path })
    }

    fn is_free(&self) -> bool {
        self.is_free()
    }

    fn begin(&mut self, tables: &Tables, settings: Settings) {
        self.book = RecordBook::begun(settings);
        self.path.begin(Way::Record, tables, &self.book.opening);
    }

    fn resume_from(&mut self, other: &Self) {
        self.book = other.book;
        self.path.resume_from(&other.path, !other.is_free());
    }
}

/// A channel whose rack holds boxes.
pub type RecordChannel = RecordChannelOf<Box<dyn Feeder>>;
