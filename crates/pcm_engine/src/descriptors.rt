//! Which descriptor holds which channel, which channels start together, and what a descriptor is refused for.

ghost use Rattle.std.specs.Prelude.{◌≡◌, ◌<◌, ◌++◌, ℕ, List, All, IfOk, IsOkUnless, None, Some, length, replicate, slice_index_or};
ghost use Rattle.pcm_group.specs.Groups.{no_groups};
ghost use Rattle.pcm_save.specs.Parts.{IsPart};
ghost use Rattle.pcm_state.specs.HeldRows.{held_row, FitsHeld};
ghost use Rattle.pcm_desk.specs.Channels.{member_refusal};
ghost use Rattle.pcm_desk.specs.Desk.{left_by};
ghost use Rattle.pcm_engine.specs.declared.load_fault.LoadFault.TheVariants.{Memory};
ghost use Rattle.pcm_engine.specs.Descriptors.{holding, shut, slot_of};
ghost use Rattle.pcm_engine.specs.Desks.{with_held};
ghost use Rattle.pcm_engine.specs.Judged.{StandOnce};
ghost use Rattle.pcm_engine.specs.Saved.{descriptors_state, AreWhole};

use crate::LoadFault;
use crate::load_fault::ordered;
use crate::places::are_apart;
use pcm_desk::{DESCRIPTORS, Held, has_other_bits};
use pcm_group::Groups;
use pcm_oss::{Errno, Request, Way};
use pcm_save::load_row;
use pcm_state::{GROUP_NUMBERS, groups_from_row, groups_row, load_held, put_held, put_numbers};
use std::alloc::{AllocError, Global};

/// The bytes of the groups, and of all that descriptors keep.
const GROUP_BYTES: usize = 8 * GROUP_NUMBERS;

pub const DESCRIPTOR_BYTES: usize = GROUP_BYTES + 8 * DESCRIPTORS;

/// What each descriptor holds, if it is open, and which of these channels start together.
#[derive(Drop)]
pub struct Descriptors {
    // In a block of its own, so that an engine is moved by few bytes.
    held: Box<[Option<Held>; DESCRIPTORS]>,
    groups: Groups,
}

impl Descriptors {
    ghost use Rattle.pcm_desk.specs.declared.limits.TheConstants.{DESCRIPTORS};
    ghost use Rattle.pcm_engine.specs.declared.descriptors.Descriptors.{Descriptors};
    ghost use Rattle.pcm_engine.specs.declared.descriptors.TheConstants.{DESCRIPTOR_BYTES};

    /// All are shut, and there is no group.
    // Not inlined: the list stands on the stack only while it is made.
    #[inline(never)]
    pub fn all_shut(alloc: Global) -> Result<Descriptors, AllocError>
        ensures held { IfOk result (λ made. made.held.value ≡ replicate DESCRIPTORS None) }
        ensures groups { IfOk result (λ made. made.groups ≡ no_groups) }
    {
        Ok(Descriptors {
            held: Box::new(alloc, [None; DESCRIPTORS])?,
            groups: Groups::new(),
        })
    }

    /// Descriptors that hold the same channels, in the same groups.
    // Not inlined: the list stands on the stack only while it is copied.
    #[inline(never)]
    pub fn try_clone(&self, alloc: Global) -> Result<Descriptors, AllocError>
        ensures held { IfOk result (λ clone. clone.held.value ≡ self.now.held.value) }
        ensures groups { IfOk result (λ clone. clone.groups ≡ self.now.groups) }
    {
        Ok(Descriptors {
            held: Box::new(alloc, *self.held)?,
            groups: self.groups,
        })
    }

    /// How many bytes spell them.
    pub fn size(&self) -> usize
        ensures size { result ≡ length (descriptors_state self.now) }
        ensures is { result ≡ DESCRIPTOR_BYTES }
        ensures whole { AreWhole self.now }
    {
        let row = groups_row(&self.groups);
        8 * (row.len() + self.all_held().len())
    }

    /// Spells them.
    // Not inlined: the rows stand on the stack only meanwhile.
    #[inline(never)]
    pub fn save(&self, out: &mut [u8])
        requires slots { All FitsHeld self.now.held.value }
        requires size { length out.old ≡ DESCRIPTOR_BYTES }
        ensures state { out.new ≡ descriptors_state self.now }
        ensures whole { AreWhole self.now }
    {
        let (front, rest) = out.split_at_mut(GROUP_BYTES);
        put_numbers(&groups_row(&self.groups), front);
        let mut numbers = [0; DESCRIPTORS];
        put_held(&*self.held, &mut numbers);
        put_numbers(&numbers, rest);
    }

    /// Those whose bytes are the front of these, of which no two hold one channel.
    // Not inlined: the rows stand on the stack only meanwhile.
    #[inline(never)]
    pub fn load(alloc: Global, bytes: &[u8]) -> Result<Descriptors, LoadFault>
        ensures state { IfOk result (λ loaded. IsPart bytes.now 0 DESCRIPTOR_BYTES (descriptors_state loaded)) }
        ensures whole { IfOk result AreWhole }
        ensures apart { IfOk result (λ loaded. StandOnce (held_row loaded.held.value)) }
        ensures taken { (saved : Descriptors) (rest : List ℕ) → AreWhole saved → StandOnce (held_row saved.held.value)
            → bytes.now ≡ descriptors_state saved ++ rest → IsOkUnless result Memory }
    {
        let mut row = [0; GROUP_NUMBERS];
        load_row(bytes, &mut row)?;
        let groups = groups_from_row(&row).ok_or(LoadFault::Unspelled)?;
        let mut numbers = [0; DESCRIPTORS];
        load_row(&bytes[GROUP_BYTES..], &mut numbers)?;
        ordered(are_apart(&numbers))?;
        let mut descriptors = Descriptors::all_shut(alloc)?;
        load_held(&numbers, &mut *descriptors.held);
        descriptors.regroup(groups);
        Ok(descriptors)
    }

    /// What each holds.
    pub fn all_held(&self) -> &[Option<Held>]
        ensures is { result.now ≡ self.now.held.value }
        ensures count { length result.now ≡ DESCRIPTORS }
    {
        &*self.held
    }

    /// That a descriptor is shut, and may be opened.
    pub fn shut(&self, fd: u8) -> Result<(), Errno>
        ensures { result ≡ shut (slice_index_or self.now.held.value fd None) }
    {
        match self.held(fd) {
            Some(_) => Err(Errno::Exist),
            None => Ok(()),
        }
    }

    /// The channel that a descriptor holds, if it is open.
    pub fn held(&self, fd: u8) -> Option<Held>
        ensures { result ≡ slice_index_or self.now.held.value fd None }
    {
        match self.held.get(usize::from(fd)) {
            Some(held) => *held,
            None => None,
        }
    }

    /// The channel that a descriptor holds, which is open.
    pub fn holding(&self, fd: u8) -> Result<Held, Errno>
        ensures { result ≡ holding (slice_index_or self.now.held.value fd None) }
    {
        match self.held(fd) {
            Some(held) => Ok(held),
            None => Err(Errno::BadF),
        }
    }

    /// The slot of the channel that a descriptor holds, which is of this way.
    pub fn slot_of(&self, fd: u8, way: Way) -> Result<usize, Errno>
        ensures { result ≡ slot_of way (slice_index_or self.now.held.value fd None) }
    {
        let held = self.holding(fd)?;
        if held.way == way {
            Ok(held.slot)
        } else {
            Err(Errno::Inval)
        }
    }

    /// A descriptor holds a channel from now on, or none.
    pub fn set(&mut self, fd: u8, held: Option<Held>)
        requires { fd < DESCRIPTORS }
        ensures { self.new ≡ with_held self.old fd held }
    {
        self.held[usize::from(fd)] = held;
    }

    /// Which channels start together.
    pub fn groups(&self) -> Groups
        ensures { result ≡ self.now.groups }
    {
        self.groups
    }

    /// From now on these start together.
    pub fn regroup(&mut self, groups: Groups)
        ensures { self.new ≡ record self.old { groups = groups } }
    {
        self.groups = groups;
    }

    /// A sync leaves the group of its channel.
    pub fn leave_by(&mut self, held: Held, request: Request)
        ensures { self.new ≡ record self.old { groups = left_by request held self.old.groups } }
    {
        if matches!(request, Request::Sync) {
            self.groups.leave(held.way, held.slot);
        }
    }
}

/// What a request is refused for where its channel is a member: the trigger is the group's.
pub fn member_refusal(member: bool, request: Request) -> Option<Errno>
    ensures { result ≡ member_refusal member request }
{
    match request {
        Request::SetTrigger(bits) if member => {
            Some(if has_other_bits(bits) {
                Errno::Inval
            } else {
                Errno::Busy
            })
        }
        _ => None,
    }
}
