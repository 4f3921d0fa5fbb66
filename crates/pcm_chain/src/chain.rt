//! A chain of stages between a client's ring and the frames of a device.

ghost use Rattle.std.specs.Prelude.{◌≡◌, ◌≤◌, ◌*◌};
ghost use Rattle.std.proofs.Props.{props};
ghost use Rattle.pcm_sequence.specs.Fixed.{fixed_len};
ghost use Rattle.pcm_plan.specs.Plans.{rate_in_plan};
ghost use Rattle.pcm_chain.specs.Counts.{AreBounded};
ghost use Rattle.pcm_chain.specs.declared.staging.TheConstants.{BLOCK_SAMPLES};

use crate::counts::{Counts, RatedCounts};
use crate::past::{keep_stages, plan_past, tell_stages};
use crate::stages::{feed_stages, fit_stages, resume_stages};
use crate::staging::{BLOCK_SAMPLES, Staging};
use pcm_feeder::{Feeder, Gain, RackOf, SevenOf, Tables, UNITY};
use pcm_format::{Format, Layout};
use pcm_plan::Plan;
use pcm_ring::ByteRing;
use pcm_sequence::Fixed;
use std::alloc::{AllocError, Global};

/// How many frames are pushed at once, at most.
pub const PUSHED_FRAMES: usize = 262_144;

/// The boxes of a rack, and the plan that says which of them a stream goes through, and in what order.
#[derive(Drop)]
pub struct ChainOf<B> {
    boxes: SevenOf<B>,
    plan: Plan,
    staging: Staging,
    // The frames of a block that come of a push.
    block: Fixed<i32>,
    counts: Counts,
    ghost bounded: { AreBounded (rate_in_plan plan) counts } by { Prim.hlevel props },
    ghost block_size: { fixed_len block ≡ BLOCK_SAMPLES },
}

/// How many frames a pull gave, and how many of the waiting ones it ate.
#[derive(Clone, Copy, Debug, PartialEq, Eq)]
pub struct Pulled {
    pub given: usize,
    pub eaten: usize,
}

/// How many frames came of a push, and how many of them, the first ones, were kept.
#[derive(Clone, Copy, Debug, PartialEq, Eq)]
pub struct Pushed {
    pub came: usize,
    pub kept: usize,
}

impl<B: Feeder> ChainOf<B> {
    ghost use Rattle.std.specs.Prelude.{◌%◌, [], length, min, take, All, IfOk};
    ghost use Rattle.pcm_num.specs.Limit.{FitsBits};
    ghost use Rattle.pcm_format.specs.Layouts.{channels_of};
    ghost use Rattle.pcm_feeder.specs.Filters.{Filters};
    ghost use Rattle.pcm_feeder.specs.Layouts.{unity};
    ghost use Rattle.pcm_feeder.specs.Racks.{IsRack, boxes_of};
    ghost use Rattle.pcm_plan.specs.Fits.{HaveBits, HaveTables, IsPlan};
    ghost use Rattle.pcm_chain.specs.Chains.{boxes_in, counts_in, marks_in, plan_in, AreFitted, IsOfKinds, ChainStands, StaysFitted};
    ghost use Rattle.pcm_chain.specs.Counts.{MakeABlock, AllowABlock};
    ghost use Rattle.pcm_chain.specs.Gives.{filling_frames, CanGive, GivesABlock, GivesABlockFar, GivesExactly, GivesOn, GivesOnFar};
    ghost use Rattle.pcm_chain.specs.Pasts.{past_of, past_sizes, CanBeTold, HasTold};
    ghost use Rattle.pcm_chain.specs.Pulls.{waiting_frames, CanPull, GoesOnFar, LeavesBehind, PullsOn};
    ghost use Rattle.pcm_chain.specs.Pushes.{pushed_frames, room_for, CanRecord, HasRecorded, PushesOn, StaysRecording};
    ghost use Rattle.pcm_chain.specs.Resumes.{Resumes};
    ghost use Rattle.pcm_chain.specs.Rings.{put_bytes, GrowsBy};
    ghost use Rattle.pcm_chain.specs.declared.staging.TheConstants.{BLOCK_FRAMES};
    ghost use Rattle.pcm_chain.specs.declared.chain.TheConstants.{PUSHED_FRAMES};
    ghost use Rattle.pcm_chain.specs.declared.past.TheConstants.{PAST_SAMPLES};

    /// A chain with the boxes of a rack and no stage. All memory of the chain is taken here.
    pub fn new(alloc: Global, rack: RackOf<B>) -> Result<ChainOf<B>, AllocError>
        ensures boxes { IfOk result (λ made. boxes_in made ≡ boxes_of rack) }
        ensures kinds { IsRack B.kind rack → IfOk result (IsOfKinds B.kind) }
        ensures plan { IfOk result (λ made. (plan_in made).stages ≡ []) }
    {
        let staging = Staging::new(alloc)?;
        let block = Fixed::new(vec![in alloc; 0i32; BLOCK_SAMPLES]?);
        Ok(ChainOf {
            boxes: rack.into_boxes(),
            plan: Plan::straight(Layout::One),
            staging,
            block,
            counts: Counts::none(),
        })
    }

    /// Lends the plan.
    pub fn plan(&self) -> &Plan
        ensures { result.now ≡ plan_in self.now }
    {
        &self.plan
    }

    /// Begins an empty stream by a plan. Takes no memory.
    pub fn reset(&mut self, plan: &Plan)
        requires kinds { IsOfKinds B.kind self.old }
        ensures plan { plan_in self.new ≡ plan.now }
        ensures kinds { IsOfKinds B.kind self.new }
        ensures marks { marks_in B.mark self.new ≡ marks_in B.mark self.old }
        ensures fitted { AreFitted B.kept self.new }
        ensures begins { (tables : Filters) → ChainStands B.kept tables self.new [] 0 0 }
        ensures records { (tables : Filters) → HasRecorded B.kept tables self.new [] }
        ensures exactly { (tables : Filters) → GivesExactly B.kept tables self.new [] 0 }
    {
        self.go_by(plan);
        self.restart();
    }

    // Goes by another plan. The old counts are of the old plan's rate, so there are none then.
    fn go_by(&mut self, plan: &Plan)
        ensures plan { plan_in self.new ≡ plan.now }
        ensures boxes { boxes_in self.new ≡ boxes_in self.old }
    {
        self.counts = Counts::none();
        self.plan = plan.copy();
    }

    /// Begins an empty stream by the same plan. Takes no memory.
    pub fn restart(&mut self)
        requires { IsOfKinds B.kind self.old }
        ensures plan { plan_in self.new ≡ plan_in self.old }
        ensures kinds { IsOfKinds B.kind self.new }
        ensures marks { marks_in B.mark self.new ≡ marks_in B.mark self.old }
        ensures fitted { AreFitted B.kept self.new }
        ensures begins { (tables : Filters) → ChainStands B.kept tables self.new [] 0 0 }
        ensures records { (tables : Filters) → HasRecorded B.kept tables self.new [] }
        ensures exactly { (tables : Filters) → GivesExactly B.kept tables self.new [] 0 }
    {
        self.counts = Counts::none();
        fit_stages(&mut self.boxes, self.plan.stages());
    }

    /// Goes on where another chain is, by its plan: whatever frames that one stands for, this one stands for too. Takes no memory.
    pub fn resume_from(&mut self, other: &ChainOf<B>)
        requires kinds { IsOfKinds B.kind self.old }
        requires fitted { AreFitted B.kept other.now }
        ensures { Resumes B.kind B.kept B.mark other.now self.old self.new }
    {
        self.go_by(&other.plan);
        self.counts = other.counts;
        resume_stages(
            &mut self.boxes,
            &other.boxes,
            self.plan.stages(),
            &mut self.staging.now,
        );
    }

    /// How many samples of the past the chain keeps.
    pub fn past_size(&self) -> usize
        ensures size { result ≡ past_sizes (plan_in self.now).stages }
        ensures most { result ≤ PAST_SAMPLES }
    {
        plan_past(&self.plan)
    }

    /// Copies these samples, those of one stage after those of another, frame by frame.
    pub fn keep(&self, past: &mut [i32])
        requires fitted { AreFitted B.kept self.now }
        requires size { length past.old ≡ past_sizes (plan_in self.now).stages }
        ensures { past.new ≡ past_of B.kept self.now }
    {
        keep_stages(&self.boxes, self.plan.stages(), past);
    }

    /// Goes on, by a plan, where so many frames were eaten and given and these samples were kept of them. Takes no memory.
    pub fn tell(&mut self, plan: &Plan, eaten: u64, given: u64, past: &[i32])
        requires { CanBeTold B.kind plan.now eaten given past.now self.old }
        ensures { HasTold B.kind B.kept B.mark plan.now eaten given past.now self.old self.new }
    {
        self.go_by(plan);
        let all = Counts { eaten, given };
        let told = RatedCounts::told(self.plan.rate(), self.plan.period(), all);
        self.counts = told.counts;
        tell_stages(&mut self.boxes, self.plan.stages(), told.progress(), past);
    }

    /// Takes frames out of a ring, and gives at most `want` frames at the front of `out`. Where the stream
    /// has ended, the last frames are heard to their end. Takes no memory.
    pub fn pull(
        &mut self,
        tables: &Tables,
        gain: Gain,
        ring: &mut ByteRing,
        format: Format,
        ended: bool,
        want: usize,
        out: &mut [i32],
    ) -> Pulled
        requires { CanPull B.kept tables.now gain self.old want (length out.old) }
        ensures leaves { LeavesBehind B.kind B.kept format want
            self.old self.new result ring.old ring.new }
        ensures far { GoesOnFar B.kept tables.now ended want format ring.old
            self.old self.new result out.new }
        ensures pulls { PullsOn B.kept tables.now gain ended want format ring.old
            self.old self.new result out.old out.new }
    {
        let waiting = ring.fill() / (self.plan.source().channels() * format.bytes());
        let channels = self.plan.target().channels();
        let mut pulled = Pulled { given: 0, eaten: 0 };
        let mut asked = 0;
        while asked < want && pulled.given == asked {
            let block = self.rated_counts().block(want - asked);
            let rest = &mut out[asked * channels..];
            let left = waiting - pulled.eaten;
            let more = self.pull_block(tables, gain, ring, format, ended, left, block, rest);
            asked += block;
            pulled = Pulled {
                given: pulled.given + more.given,
                eaten: pulled.eaten + more.eaten,
            };
        }
        pulled
    }

    // Pulls `want` frames, few enough for those that they need to fit in a block, where `waiting` frames wait.
    fn pull_block(
        &mut self,
        tables: &Tables,
        gain: Gain,
        ring: &mut ByteRing,
        format: Format,
        ended: bool,
        waiting: usize,
        want: usize,
        out: &mut [i32],
    ) -> Pulled
        requires can { CanPull B.kept tables.now gain self.old want (length out.old) }
        requires waiting { waiting
            ≡ length (waiting_frames (plan_in self.old) format ring.old.bytes) }
        requires block { MakeABlock (rate_in_plan (plan_in self.old)) (counts_in self.old) want }
        ensures leaves { LeavesBehind B.kind B.kept format want
            self.old self.new result ring.old ring.new }
        ensures there { result.eaten ≤ waiting }
        ensures far { GoesOnFar B.kept tables.now ended want format ring.old
            self.old self.new result out.new }
        ensures pulls { PullsOn B.kept tables.now gain ended want format ring.old
            self.old self.new result out.old out.new }
    {
        let source = self.plan.source().channels();
        let counts = self.rated_counts();
        let advance = counts.advance(ended, waiting, want);
        self.staging.load(
            ring,
            format,
            advance.eaten * source,
            advance.silent * source,
        );
        feed_stages(
            &mut self.boxes,
            self.plan.stages(),
            source,
            tables,
            gain,
            advance.eaten + advance.silent,
            want,
            &mut self.staging,
            out,
        );
        self.counts = counts.after(self.plan.period(), advance);
        Pulled {
            given: advance.given,
            eaten: advance.eaten,
        }
    }

    /// Puts all frames of `input` through the chain, and the frames that come of them after what waits in a ring. Those that have
    /// no room there are lost: the first ones are kept, and no part of one. Takes no memory.
    pub fn push(
        &mut self,
        tables: &Tables,
        input: &[i32],
        ring: &mut ByteRing,
        format: Format,
    ) -> Pushed
        requires can { CanRecord B.kept tables.now format self.old }
        requires whole { length input.now % channels_of (plan_in self.old).source ≡ 0 }
        requires few { length (pushed_frames (plan_in self.old) input.now) ≤ PUSHED_FRAMES }
        ensures stays { StaysRecording B.kind B.kept tables.now
            (length (pushed_frames (plan_in self.old) input.now)) self.old self.new result }
        // The type of the samples keeps them within 32 bits.
        ensures fits { HaveBits 32 (pushed_frames (plan_in self.old) input.now) }
        ensures kept { result.kept ≡ min result.came (room_for (plan_in self.old) format ring.old) }
        ensures count { GrowsBy (put_bytes (plan_in self.old) format result.kept) ring.old ring.new }
        ensures ring { ring.new ≡ record ring.old { bytes = ring.new.bytes } }
        ensures pushes { PushesOn B.kept tables.now format input.now
            self.old self.new result ring.old ring.new }
    {
        let channels = self.plan.source().channels();
        let frames = input.len() / channels;
        let mut pushed = Pushed { came: 0, kept: 0 };
        let mut eaten = 0;
        while eaten < frames {
            let block = self.rated_counts().piece(frames - eaten);
            let piece = &input[eaten * channels..(eaten + block) * channels];
            let more = self.push_block(tables, piece, block, ring, format);
            eaten += block;
            pushed = Pushed {
                came: pushed.came + more.came,
                kept: pushed.kept + more.kept,
            };
        }
        pushed
    }

    // Pushes few enough frames for them to fit in a block, and for those that come of them to do so too.
    fn push_block(
        &mut self,
        tables: &Tables,
        input: &[i32],
        frames: usize,
        ring: &mut ByteRing,
        format: Format,
    ) -> Pushed
        requires can { CanRecord B.kept tables.now format self.old }
        requires whole { length input.now ≡ frames * channels_of (plan_in self.old).source }
        requires few { frames ≤ BLOCK_FRAMES }
        requires reach { AllowABlock (rate_in_plan (plan_in self.old)) (counts_in self.old) frames }
        ensures stays { StaysRecording B.kind B.kept tables.now frames self.old self.new result }
        ensures fits { All (FitsBits 32) input.now }
        ensures most { result.came ≤ BLOCK_FRAMES }
        ensures kept { result.kept ≡ min result.came (room_for (plan_in self.old) format ring.old) }
        ensures count { GrowsBy (put_bytes (plan_in self.old) format result.kept) ring.old ring.new }
        ensures ring { ring.new ≡ record ring.old { bytes = ring.new.bytes } }
        ensures pushes { PushesOn B.kept tables.now format input.now
            self.old self.new result ring.old ring.new }
    {
        let source = self.plan.source().channels();
        let target = self.plan.target().channels();
        let counts = self.rated_counts();
        let advance = counts.advance_whole(frames);
        self.staging.copy(input);
        // One more is asked for than comes: so all frames are eaten.
        feed_stages(
            &mut self.boxes,
            self.plan.stages(),
            source,
            tables,
            UNITY,
            frames,
            advance.given + 1,
            &mut self.staging,
            &mut self.block,
        );
        self.counts = counts.after(self.plan.period(), advance);
        let came = advance.given;
        let kept = self.staging.spell(&self.block, target, came, ring, format);
        Pushed { came, kept }
    }

    /// Puts all frames of `input` through the chain, and fills `out` with the frames that come of them, at a
    /// gain of one. Takes no memory.
    pub fn give(&mut self, tables: &Tables, input: &[i32], out: &mut [i32])
        requires tables { HaveTables (plan_in self.old).stages tables.now }
        requires whole { length input.now % channels_of (plan_in self.old).source ≡ 0 }
        requires fills { length out.old % channels_of (plan_in self.old).target ≡ 0 }
        requires can { CanGive B.kept tables.now self.old input.now
            (filling_frames (plan_in self.old) out.old) }
        ensures stays { StaysFitted B.kind B.kept self.old self.new }
        // The type of the samples keeps them within 32 bits.
        ensures fits { HaveBits 32 (pushed_frames (plan_in self.old) input.now) }
        ensures far { GivesOnFar B.kept tables.now input.now
            (filling_frames (plan_in self.old) out.old) self.old self.new out.new }
        ensures gives { GivesOn B.kept tables.now input.now
            (filling_frames (plan_in self.old) out.old) self.old self.new out.new }
    {
        let source = self.plan.source().channels();
        let target = self.plan.target().channels();
        let frames = input.len() / source;
        let want = out.len() / target;
        let mut asked = 0;
        let mut eaten = 0;
        while asked < want {
            let block = self.rated_counts().block(want - asked);
            let piece = &input[eaten * source..];
            let rest = &mut out[asked * target..];
            eaten += self.give_block(tables, piece, frames - eaten, block, rest);
            asked += block;
        }
    }

    // Gives `want` frames, few enough for those that they need to fit in a block, where `waiting` frames wait. Returns how many were eaten.
    fn give_block(
        &mut self,
        tables: &Tables,
        input: &[i32],
        waiting: usize,
        want: usize,
        out: &mut [i32],
    ) -> usize
        requires can { CanPull B.kept tables.now unity self.old want (length out.old) }
        requires waiting { waiting ≡ length (pushed_frames (plan_in self.old) input.now) }
        requires block { MakeABlock (rate_in_plan (plan_in self.old)) (counts_in self.old) want }
        ensures stays { StaysFitted B.kind B.kept self.old self.new }
        ensures there { result ≤ waiting }
        ensures fits { All (FitsBits 32)
            (take (result * channels_of (plan_in self.old).source) input.now) }
        ensures far { GivesABlockFar B.kept tables.now want input.now
            self.old self.new result out.new }
        ensures gives { GivesABlock B.kept tables.now want input.now
            self.old self.new result out.old out.new }
    {
        let source = self.plan.source().channels();
        let counts = self.rated_counts();
        let advance = counts.advance(false, waiting, want);
        self.staging.copy(&input[..advance.eaten * source]);
        feed_stages(
            &mut self.boxes,
            self.plan.stages(),
            source,
            tables,
            UNITY,
            advance.eaten,
            want,
            &mut self.staging,
            out,
        );
        self.counts = counts.after(self.plan.period(), advance);
        advance.eaten
    }

    // The counts, by the rate of the plan.
    fn rated_counts(&self) -> RatedCounts
        ensures rate { result.rate ≡ rate_in_plan (plan_in self.now) }
        ensures counts { result.counts ≡ counts_in self.now }
        ensures fits { IsPlan (plan_in self.now) }
    {
        RatedCounts {
            rate: self.plan.rate(),
            counts: self.counts,
        }
    }
}

/// A chain of a run.
pub type Chain = ChainOf<Box<dyn Feeder>>;
