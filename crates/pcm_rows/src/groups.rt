//! Clients that start together.
#![tactic(auto, unfolding(crate::proofs::Computing::row))]

ghost use Rattle.std.specs.Prelude.{◌≡◌, ◌++◌, [], replicate, Some};
ghost use Rattle.pcm_wave.specs.declared.pool.Pool.{Pool};
ghost use Rattle.pcm_group.specs.Groups.{no_groups};
ghost use Rattle.pcm_desk.specs.Usual.{usual_device};
ghost use Rattle.pcm_sound.specs.Together.{newest_start};
ghost use Rattle.pcm_verdict.specs.Transcript.{transcript};
ghost use Rattle.pcm_rows.specs.Calls.{accepted, judged, played, printed, ring_of_silence, small_device};
ghost use Rattle.pcm_rows.specs.GroupRows.{both_ways_story, frame_of_both, member_lines, halted_member, numbers_again, numbers_lines, refusals_lines, refusals_script, refusals_text, together_lines, together_script, together_text};

/// A post starts no member, and a group starts once each of its members has a frame: both are heard from
/// the frame that is mixed next.
pub fn members_start_together()
    ensures verdict { judged usual_device together_text ≡ accepted together_script }
    ensures device { played usual_device together_script ≡ ring_of_silence ++ replicate 8 0 ++ frame_of_both }
    ensures lines { printed usual_device together_script ≡ together_lines }
{}

/// Members that play start where the mix is, and one that records where the device is. Then nobody is in the group.
pub fn members_of_both_ways_start()
    ensures first { newest_start (both_ways_story.runs 0) ≡ Some 3 }
    ensures second { newest_start (both_ways_story.runs 1) ≡ Some 3 }
    ensures recording { (both_ways_story.recordings 0).start ≡ 4 }
    ensures groups { both_ways_story.desk.groups ≡ no_groups }
{}

/// A group that nobody is in isn't there, the trigger of a member is refused, and a sync leaves the group.
pub fn group_numbers_and_refusals()
    ensures verdict { judged usual_device refusals_text ≡ accepted refusals_script }
    ensures device { played usual_device refusals_script ≡ [] }
    ensures lines { printed usual_device refusals_script ≡ refusals_lines }
{}

/// The number of a group that its last member left is the next one's.
pub fn numbers_are_used_again()
    ensures lines { (pool : Pool) → transcript small_device pool numbers_again ≡ numbers_lines }
{}

/// A member that is halted stays one and isn't ready, and a channel with a frame joins no group.
pub fn halted_member_stays()
    ensures lines { (pool : Pool) → transcript small_device pool halted_member ≡ member_lines }
{}
