//! The row of the groups.

ghost use Rattle.std.specs.Prelude.{◌≡◌, IfSome, Some};
ghost use Rattle.pcm_group.specs.declared.sync_groups.Groups.{Groups};
ghost use Rattle.pcm_state.specs.GroupRows.{groups_row, FitsGroups};

use crate::slots::{put_words, words};
use pcm_group::Groups;
use pcm_oss::SLOTS;

/// The numbers of the groups.
pub const GROUP_NUMBERS: usize = 32;

/// The row of the groups.
pub fn groups_row(groups: &Groups) -> [u64; GROUP_NUMBERS]
    ensures row { result ≡ groups_row groups.now }
    ensures fits { FitsGroups groups.now }
{
    let mut row = [0; GROUP_NUMBERS];
    put_words(&groups.play, &mut row[..SLOTS]);
    put_words(&groups.recording, &mut row[SLOTS..]);
    row
}

/// The groups that have this row, if some have.
pub fn groups_from_row(row: &[u64; GROUP_NUMBERS]) -> Option<Groups>
    ensures row { IfSome result (λ groups. groups_row groups ≡ row.now) }
    ensures fits { IfSome result FitsGroups }
    ensures some { (groups : Groups) → FitsGroups groups → groups_row groups ≡ row.now → result ≡ Some groups }
{
    Some(Groups {
        play: words(&row[..SLOTS])?,
        recording: words(&row[SLOTS..])?,
    })
}
