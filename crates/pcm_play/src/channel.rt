//! A channel that plays: its book, and the path with the bytes that wait and the chain that they go through.

ghost use Rattle.std.specs.Prelude.{◌≡◌, ◌+◌, ◌*◌, ◌^◌, ◌<◌, ◌≤◌, [], length, All, IfOk};
ghost use Rattle.pcm_format.specs.Formats.{bits_of};
ghost use Rattle.pcm_format.specs.Frames.{frame_bytes};
ghost use Rattle.pcm_num.specs.Limit.{FitsBits};
ghost use Rattle.pcm_desk.specs.Device.{seen};
ghost use Rattle.pcm_desk.specs.PlayBooks.{is_play_free, is_play_setup, play_begun, play_fill_of, play_is_ready, write_turn};
ghost use Rattle.pcm_desk.specs.PlaySafe.{PlayIsSafe};
ghost use Rattle.pcm_desk.proofs.Props.{book_props};
ghost use Rattle.pcm_chain.specs.Chains.{HasRack};
ghost use Rattle.pcm_path.specs.Paths.{path_rate, CanServe, ChannelMoves, Serves};
ghost use Rattle.std.proofs.Props.{props};
ghost use Rattle.pcm_desk.specs.Channels.{asking, mixing};

use pcm_desk::{Device, Here, PlayBook, PlayState};
use pcm_feeder::{Feeder, Gain, RackOf, Tables, apply_gain};
use pcm_format::Settings;
use pcm_mix::mix_into;
use pcm_oss::{Answer, Errno, Request, Way, gain_of};
use pcm_path::{Channel, Made, PathOf};
use std::alloc::Global;

/// A channel of the device that plays.
#[derive(Drop)]
pub struct PlayChannelOf<B> {
    pub book: PlayBook,
    pub path: PathOf<B>,
    ghost serves: { Serves book.opening path } by { Prim.hlevel props },
    ghost fill: { length path.ring.bytes ≡ play_fill_of book },
    ghost within: { book.eaten * frame_bytes book.opening.settings ≤ book.written },
    ghost safe: { PlayIsSafe (path_rate path) book } by { Prim.hlevel book_props },
}

impl<B: Feeder> PlayChannelOf<B> {
    ghost use Rattle.pcm_feeder.specs.Filters.{Filters};
    ghost use Rattle.pcm_play.specs.Channels.{AddsTo, CanMixPlay, ClosesBook, MayAskPlay, MayEndRun, PlayLeaves, PlayMoves, PlayTurns, SettlesBook};
    ghost use Rattle.pcm_play.specs.Telling.{CanTellPlay, HasToldPlay};

    /// Whether nobody has the channel, and nothing of it is left to play.
    pub fn is_free(&self) -> bool
        ensures { result ≡ is_play_free self.now.book.state }
    {
        self.book.is_free()
    }

    /// Whether the channel is open, and nothing of a run is there.
    pub fn is_at_rest(&self) -> bool
        ensures { result ≡ is_play_setup self.now.book.state }
    {
        self.book.is_setup()
    }

    /// Whether a run may start at any moment: it waits with a whole frame.
    pub fn is_ready(&self) -> bool
        ensures { result ≡ play_is_ready self.now.book }
    {
        self.book.is_ready()
    }

    /// Takes the front of `bytes`, as much as fits. A run that starts by it starts where the mix is.
    pub fn write(&mut self, bytes: &[u8], here: Here) -> Result<Answer, Errno>
        requires count { self.old.book.written + length bytes.now < 2 ^ 64 }
        ensures { PlayTurns (write_turn here (length bytes.now) self.old.book)
            (λ old new. (filters : Filters) → PlayMoves B.kind B.kept filters bytes.now 0 old new) result self.old self.new }
    {
        let turn = self.book.write(here, bytes.len() as u64);
        let answer = turn.reply?;
        // The ring has room for as many as the book accepts.
        self.path.ring.put(bytes);
        self.book = turn.book;
        Ok(answer)
    }

    /// Does what a request asks, where the mix and the device are. Where nothing of a run is left, the ring and the chain begin again, as
    /// the book says.
    pub fn ioctl(&mut self, tables: &Tables, request: Request, here: Here) -> Result<Answer, Errno>
        requires { MayAskPlay B.kind tables.now here self.old }
        ensures { PlayTurns (asking (seen tables.now self.old.path.device) here request self.old.book)
            (PlayMoves B.kind B.kept tables.now [] 0) result self.old self.new }
    {
        let rate = self.path.chain.plan().rate();
        let turn = self
            .book
            .asked(rate, self.path.device.mix.rate, here, request);
        let answer = turn.reply?;
        self.book = turn.book;
        if self.book.written == 0 {
            self.path.begin(Way::Play, tables, &self.book.opening);
        }
        Ok(answer)
    }

    /// No descriptor has the channel any more: what was written plays to its end.
    pub fn close(&mut self, here: Here)
        requires { MayEndRun B.kind self.old }
        ensures { PlayLeaves B.kind B.kept (ClosesBook here) self.old self.new }
    {
        let rate = self.path.chain.plan().rate();
        self.book = self.book.closed(rate, here);
        if self.book.written == 0 {
            self.path.restart();
        }
    }

    /// After a hand-over: a draining run of which nothing is left to pass ends.
    pub fn settle(&mut self, here: Here)
        requires { MayEndRun B.kind self.old }
        ensures { PlayLeaves B.kind B.kept (SettlesBook here) self.old self.new }
    {
        // No other run ends by what passes.
        if !self.book.is_draining() {
            return;
        }
        let rate = self.path.chain.plan().rate();
        self.book = self.book.settled(rate, here);
        if self.book.written == 0 {
            self.path.restart();
        }
    }

    /// Goes on as the channel whose book this was, with the bytes that waited in its ring and, unless it is free, the samples that its
    /// chain kept of the past. Takes no memory.
    pub fn tell(&mut self, tables: &Tables, book: PlayBook, waiting: &[u8], past: &[i32])
        requires { CanTellPlay B.kind tables.now book waiting.now past.now self.old }
        ensures { HasToldPlay B.kind B.kept B.mark tables.now book waiting.now past.now self.old self.new }
    {
        self.book = book;
        let opening = book.opening;
        if book.is_free() {
            self.path.begin(Way::Play, tables, &opening);
        } else {
            let (eaten, given) = (book.eaten, book.given);
            self.path
                .tell(Way::Play, tables, &opening, waiting, eaten, given, past);
        }
    }

    /// Adds the channel's frames to the front of a block of the mix at the gain of its slot, as many as an interrupt that mixes `n` frames
    /// gets, where the mix was before it. `frames` holds them meanwhile.
    pub fn refill(
        &mut self,
        tables: &Tables,
        n: usize,
        here: Here,
        slot_gain: Gain,
        frames: &mut [i32],
        sum: &mut [i32],
    )
        requires { CanMixPlay B.kind B.kept tables.now here n slot_gain frames.old sum.old self.old }
        ensures book { self.new.book ≡ mixing (seen tables.now self.old.path.device) here.mixed n self.old.book }
        ensures device { self.new.path.device ≡ self.old.path.device }
        ensures moves { PlayMoves B.kind B.kept tables.now [] n self.old self.new }
        ensures sum { AddsTo B.kept tables.now self.old.path.device n slot_gain sum.old sum.new self.old }
        ensures fits { All (FitsBits (bits_of self.old.path.device.mix.format)) sum.new }
    {
        if !self.book.is_started() {
            return;
        }
        let settings = self.path.device.mix;
        let format = self.book.opening.settings.format;
        let ended = self.book.is_draining();
        let gain = gain_of(self.book.volume);
        let PathOf { ring, chain, .. } = &mut self.path;
        let pulled = chain.pull(tables, gain, ring, format, ended, n, frames);
        let samples = pulled.given * settings.layout.channels();
        let given = &mut frames[..samples];
        apply_gain(slot_gain, settings.layout, given);
        mix_into(&mut sum[..samples], given, settings.format.bits());
        self.book = self
            .book
            .refilled(self.path.chain.plan().rate(), here.mixed, n as u64);
    }
}

impl<B: Feeder> Channel<B> for PlayChannelOf<B> {
    ghost use Rattle.pcm_play.specs.Channels.{IsPlayUnopened, PlayMoves, PlayStandsAs};

    ghost path = { λ channel. channel.path };

    ghost is_free = { λ channel. is_play_free channel.book.state };

    ghost is_unopened = { IsPlayUnopened B.kind B.kept };

    ghost begins = { λ filters settings.
        ChannelMoves (λ channel. channel.path) (λ channel. channel.book) (play_begun settings) (PlayMoves B.kind B.kept filters [] 0) };

    ghost stands_as = { PlayStandsAs B.kept };

    fn new(alloc: Global, device: Device, tables: &Tables, rack: RackOf<B>) -> Made<Self>
        requires { CanServe B.kind device rack }
        ensures unopened { IfOk result (IsPlayUnopened B.kind B.kept tables.now device) }
        ensures boxes { IfOk result (λ made. HasRack B.mark rack made.path.chain) }
    {
        let mut path = PathOf::new(alloc, device, rack)?;
        let book = PlayBook {
            state: PlayState::Free,
            ..PlayBook::begun(device.mix)
        };
        path.begin(Way::Play, tables, &book.opening);
        Ok(PlayChannelOf { book, path })
    }

    fn is_free(&self) -> bool {
        self.is_free()
    }

    fn begin(&mut self, tables: &Tables, settings: Settings) {
        self.book = PlayBook::begun(settings);
        self.path.begin(Way::Play, tables, &self.book.opening);
    }

    fn resume_from(&mut self, other: &Self) {
        self.book = other.book;
        self.path.resume_from(&other.path, !other.is_free());
    }
}

/// A channel whose rack holds boxes.
pub type PlayChannel = PlayChannelOf<Box<dyn Feeder>>;
