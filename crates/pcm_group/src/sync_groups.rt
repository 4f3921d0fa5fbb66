//! The group of each slot.

ghost use Rattle.std.specs.Prelude.{◌≡◌, ◌==◌, if◌then◌else◌, slice_index_or, slice_set};
ghost use Rattle.pcm_group.specs.Groups.{dissolved_in, has_group, may_join};

use pcm_oss::{Errno, SLOTS, Way};

/// How many groups there are, which have the numbers from 1 on.
pub const GROUPS: u32 = 8;

// All groups.
const NUMBERS: [u32; GROUPS as usize] = [1, 2, 3, 4, 5, 6, 7, 8];

/// Which group each slot is in, by way: 0 is none.
#[derive(Clone, Copy, Debug, PartialEq, Eq)]
pub struct Groups {
    pub play: [u32; SLOTS],
    pub recording: [u32; SLOTS],
}

impl Groups {
    ghost use Rattle.pcm_group.specs.Groups.{dissolved, group_at, is_used, groups_joined, joining, least_unused, no_groups, with_group};

    /// No slot is in a group.
    pub fn new() -> Groups
        ensures { result ≡ no_groups }
    {
        Groups {
            play: [0; SLOTS],
            recording: [0; SLOTS],
        }
    }

    /// The group that a slot is in, or 0. A channel of a mapped area is in none, and nor is a slot that isn't there.
    pub fn of(&self, way: Way, slot: usize) -> u32
        ensures { result ≡ group_at self.now way slot }
    {
        match way {
            Way::Play => group_at(&self.play, slot),
            Way::Record => group_at(&self.recording, slot),
            Way::Map => 0,
        }
    }

    /// Whether the group is one of the eight, and some slot is in it.
    pub fn is_used(&self, group: u32) -> bool
        ensures { result ≡ is_used self.now group }
    {
        0 < group
            && group <= GROUPS
            && (has_group(&self.play, group) || has_group(&self.recording, group))
    }

    /// Puts a slot into a group: by 0 into the least that no slot is in, else into this one. Returns the number of its group. A way
    /// that joins none and a group that is not in use are refused first, then a slot that has a group, and a new group where none is free.
    pub fn join(&mut self, way: Way, slot: usize, group: u32) -> Result<u32, Errno>
        ensures answer { result ≡ joining self.old way slot group }
        ensures groups { self.new ≡ groups_joined self.old way slot result }
    {
        let number = self.number_for(way, slot, group)?;
        self.set(way, slot, number);
        Ok(number)
    }

    /// Takes a slot out of its group.
    pub fn leave(&mut self, way: Way, slot: usize)
        ensures { self.new ≡ with_group self.old way slot 0 }
    {
        self.set(way, slot, 0);
    }

    /// Takes all slots out of this group.
    pub fn dissolve(&mut self, group: u32)
        ensures { self.new ≡ dissolved group self.old }
    {
        dissolve_in(&mut self.play, group);
        dissolve_in(&mut self.recording, group);
    }

    // The group that a slot gets when it asks for one.
    fn number_for(&self, way: Way, slot: usize, group: u32) -> Result<u32, Errno>
        ensures { result ≡ joining self.now way slot group }
    {
        if !may_join(way) || 0 < group && !self.is_used(group) {
            return Err(Errno::Inval);
        }
        if 0 < self.of(way, slot) {
            return Err(Errno::Busy);
        }
        if group == 0 {
            self.least_unused().ok_or(Errno::Busy)
        } else {
            Ok(group)
        }
    }

    // The least group that no slot is in.
    fn least_unused(&self) -> Option<u32>
        ensures { result ≡ least_unused self.now }
    {
        NUMBERS.iter().copied().find(|group| !self.is_used(*group))
    }

    // Puts a slot, where it is there, into this group, or into none by 0.
    fn set(&mut self, way: Way, slot: usize, group: u32)
        ensures { self.new ≡ with_group self.old way slot group }
    {
        match way {
            Way::Play => put(&mut self.play, slot, group),
            Way::Record => put(&mut self.recording, slot, group),
            Way::Map => {}
        }
    }
}

/// Whether a channel of this way may be in a group: one of a mapped area may not.
pub fn may_join(way: Way) -> bool
    ensures { result ≡ may_join way }
{
    !matches!(way, Way::Map)
}

// The group of a slot, and 0 where there is no such slot.
fn group_at(slots: &[u32], slot: usize) -> u32
    ensures { result ≡ slice_index_or slots.now slot 0 }
{
    match slots.get(slot) {
        Some(&its) => its,
        None => 0,
    }
}

// Puts a slot, where it is there, into the group.
fn put(slots: &mut [u32], slot: usize, group: u32)
    ensures { slots.new ≡ slice_set slots.old slot group }
{
    if slot < slots.len() {
        slots[slot] = group;
    }
}

// Whether some slot is in the group.
fn has_group(slots: &[u32], group: u32) -> bool
    ensures { result ≡ has_group group slots.now }
{
    slots.iter().any(|&its| its == group)
}

// Takes the slots of a way out of the group.
fn dissolve_in(slots: &mut [u32], group: u32)
    ensures { slots.new ≡ dissolved_in group slots.old }
{
    for slot in 0..slots.len() {
        slots[slot] = without(slots[slot], group);
    }
}

// A slot's group, or none where it is this one.
fn without(its: u32, group: u32) -> u32
    ensures { result ≡ (if its == group then 0 else its) }
{
    if its == group { 0 } else { its }
}
