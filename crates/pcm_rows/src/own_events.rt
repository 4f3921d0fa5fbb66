//! What one client is answered among others.
#![tactic(auto, unfolding(crate::proofs::Computing::row))]

ghost use Rattle.std.specs.Prelude.{◌≡◌};
ghost use Rattle.pcm_oss.specs.declared.event.Way.TheVariants.{Play};
ghost use Rattle.pcm_desk.specs.Channels.{channel_begun};
ghost use Rattle.pcm_desk.specs.OwnEvents.{own_events, own_replies, replies_to};
ghost use Rattle.pcm_desk.specs.Usual.{usual_device, usual_settings};
ghost use Rattle.pcm_rows.specs.OwnRows.{among_others, by_itself, desk_of_one, its_events, its_replies};

/// A client gets the same answers among others and by itself, at any descriptor.
pub fn client_among_others()
    ensures among { own_events 0 among_others ≡ its_events }
    ensures alone { own_events 5 by_itself ≡ its_events }
    ensures replies { own_replies usual_device 0 (channel_begun Play usual_settings) its_events ≡ its_replies }
    ensures told_among { replies_to usual_device 0 (desk_of_one 0) among_others ≡ its_replies }
    ensures told_alone { replies_to usual_device 5 (desk_of_one 5) by_itself ≡ its_replies }
{}
