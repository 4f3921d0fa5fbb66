//! What holds of all books and desks: the functions here have no work, and their contracts are the laws.

ghost use Rattle.std.specs.Prelude.{◌≡◌, ◌<◌, ◌≤◌, ◌+◌, ◌^◌, ℕ, ℤ, false, true, All, List, Some};
ghost use Rattle.pcm_format.specs.declared.settings.Settings.{Settings};
ghost use Rattle.pcm_oss.specs.declared.event.Event.{Event};
ghost use Rattle.pcm_oss.specs.declared.event.Event.TheVariants.{Mixer};
ghost use Rattle.pcm_oss.specs.declared.event.Way.{Way};
ghost use Rattle.pcm_oss.specs.declared.mix_request.MixRequest.{MixRequest};
ghost use Rattle.pcm_oss.specs.declared.request.Request.{Request};
ghost use Rattle.pcm_rate.specs.declared.rate.Rate.{Rate};
ghost use Rattle.pcm_rate.specs.Rates.{IsRatio};
ghost use Rattle.pcm_mixdev.specs.Mixers.{mixer_after};
ghost use Rattle.pcm_desk.specs.declared.here.Here.{Here};
ghost use Rattle.pcm_desk.specs.Here.{IsHere};
ghost use Rattle.pcm_desk.specs.declared.play_book.PlayBook.{PlayBook};
ghost use Rattle.pcm_desk.specs.PlayBooks.{close_turn, is_play_setup, is_started, play_begun, play_settled, refilled, write_turn};
ghost use Rattle.pcm_desk.specs.PlayRequests.{play_ask};
ghost use Rattle.pcm_desk.specs.PlaySafe.{PlayIsHere, PlayIsSafe};
ghost use Rattle.pcm_desk.specs.declared.record_book.RecordBook.{RecordBook};
ghost use Rattle.pcm_desk.specs.RecordBooks as records;
ghost use Rattle.pcm_desk.specs.RunStates.{is_in_setup};
ghost use Rattle.pcm_desk.specs.RecordBooks.{record_begun};
ghost use Rattle.pcm_desk.specs.RecordRequests.{record_ask};
ghost use Rattle.pcm_desk.specs.RecordSafe.{RecordIsSafe};
ghost use Rattle.pcm_desk.specs.declared.map_book.MapBook.{MapBook};
ghost use Rattle.pcm_desk.specs.MapBooks.{map_begun, map_closed, map_refilled, poke_turn};
ghost use Rattle.pcm_desk.specs.MapRequests.{map_ask};
ghost use Rattle.pcm_desk.specs.MapSafe.{MapIsSafe};
ghost use Rattle.pcm_desk.specs.Device.{DeviceSeen, IsInLimits, here_at, mixed_for, mixed_slots};
ghost use Rattle.pcm_desk.specs.declared.device.Held.{Held};
ghost use Rattle.pcm_desk.specs.Channels.{channel_begun};
ghost use Rattle.pcm_desk.specs.Desk.{Desk, after, channel_at, desk_at_start, held_by, is_member, mixer_by};
ghost use Rattle.pcm_desk.specs.Own.{HoldApart, IsIsolated, MembersWait};
ghost use Rattle.pcm_desk.specs.OwnEvents.{JoinsNone, Opens, OpensAlone, closes, own_after, own_events, own_replies, replies_to};
ghost use Rattle.pcm_desk.specs.Events.{after_all};

/// The counts of a book stay in order through every event, for every rate between its client and the mix.
pub fn books_stay_in_order()
    ensures begun { (rate : Rate) (settings : Settings) → PlayIsSafe rate (play_begun settings) }
    ensures written { (rate : Rate) (here : Here) (length : ℕ) (book : PlayBook) → IsRatio rate
        → PlayIsSafe rate book → PlayIsSafe rate (write_turn here length book).book }
    // A request may change the rate, of a book that has nothing written.
    ensures asked { (rate now : Rate) (mix_rate : ℕ) (here : Here) (request : Request) (book : PlayBook) → IsRatio rate
        → (is_play_setup book.state ≡ false → now ≡ rate)
        → PlayIsSafe rate book → PlayIsSafe now (play_ask rate mix_rate here request book).book }
    ensures closed { (rate : Rate) (here : Here) (book : PlayBook) → IsRatio rate
        → PlayIsSafe rate book → PlayIsSafe rate (close_turn rate here book) }
    ensures refilled { (rate : Rate) (mixed n : ℕ) (book : PlayBook) → IsRatio rate
        → PlayIsSafe rate book → PlayIsSafe rate (refilled rate mixed n book) }
    ensures settled { (rate : Rate) (passed : ℤ) (book : PlayBook)
        → PlayIsSafe rate book → PlayIsSafe rate (play_settled rate passed book) }
{}

/// No run gives a frame past what is mixed, and none that drains is over, through every event and wherever the device is.
pub fn books_stay_here()
    ensures begun { (rate : Rate) (here : Here) (settings : Settings) → PlayIsHere rate here (play_begun settings) }
    ensures written { (rate : Rate) (here : Here) (length : ℕ) (book : PlayBook)
        → PlayIsHere rate here book → PlayIsHere rate here (write_turn here length book).book }
    // A request may change the rate, of a book that has nothing written.
    ensures asked { (rate now : Rate) (mix_rate : ℕ) (here : Here) (request : Request) (book : PlayBook) → IsRatio rate
        → (is_play_setup book.state ≡ false → now ≡ rate)
        → PlayIsSafe rate book → PlayIsHere rate here book → PlayIsHere now here (play_ask rate mix_rate here request book).book }
    ensures closed { (rate : Rate) (here : Here) (book : PlayBook) → IsRatio rate
        → PlayIsSafe rate book → PlayIsHere rate here book → PlayIsHere rate here (close_turn rate here book) }
    // What was given before is given of what was mixed before.
    ensures refilled { (rate : Rate) (mixed n : ℕ) (book : PlayBook) → (is_started book.state ≡ true → book.last ≤ mixed)
        → is_started (refilled rate mixed n book).state ≡ true → (refilled rate mixed n book).last ≤ mixed + n }
    ensures settled { (rate : Rate) (here : Here) (book : PlayBook) → (is_started book.state ≡ true → book.last ≤ here.mixed)
        → PlayIsHere rate here (play_settled rate here.passed book) }
{}

/// However many frames the device has been given, they were mixed, and no more are in its ring than it and a filter hold.
pub fn devices_hold_what_is_mixed()
    ensures { (device : DeviceSeen) (handed : ℕ) → IsInLimits device → mixed_for device handed < 2 ^ 56
        → IsHere (here_at device handed) }
{}

/// The counts of a record book stay in order through every event, for every rate between the device and its client.
pub fn record_books_stay_in_order()
    ensures begun { (rate : Rate) (settings : Settings) → RecordIsSafe rate (record_begun settings) }
    ensures read { (rate : Rate) (length : ℕ) (book : RecordBook)
        → RecordIsSafe rate book → RecordIsSafe rate (records.read_turn length book).book }
    // A request may change the rate, of a book that has nothing captured.
    ensures asked { (rate now : Rate) (request : Request) (book : RecordBook)
        → (is_in_setup book.state ≡ false → now ≡ rate)
        → RecordIsSafe rate book → RecordIsSafe now (record_ask request book).book }
    ensures closed { (rate : Rate) (book : RecordBook)
        → RecordIsSafe rate book → RecordIsSafe rate (records.closed book) }
    ensures captured { (rate : Rate) (n : ℕ) (book : RecordBook)
        → RecordIsSafe rate book → RecordIsSafe rate (records.captured rate n book) }
{}

/// The counts of a mapped book stay in order through every event, for every rate between its client and the mix.
pub fn map_books_stay_in_order()
    ensures begun { (rate : Rate) (settings : Settings) → MapIsSafe rate (map_begun settings) }
    ensures poked { (rate : Rate) (offset count : ℕ) (book : MapBook)
        → MapIsSafe rate book → MapIsSafe rate (poke_turn offset count book).book }
    // A request may change the rate, of a book that has nothing taken.
    ensures asked { (rate now : Rate) (request : Request) (book : MapBook)
        → (is_in_setup book.state ≡ false → now ≡ rate)
        → MapIsSafe rate book → MapIsSafe now (map_ask request book).book }
    ensures closed { (rate : Rate) (book : MapBook)
        → MapIsSafe rate book → MapIsSafe rate (map_closed book) }
    ensures refilled { (rate : Rate) (n : ℕ) (book : MapBook)
        → MapIsSafe rate book → MapIsSafe rate (map_refilled rate n book) }
{}

/// Two open descriptors never hold one channel, from the start on and through every event.
pub fn descriptors_hold_apart()
    ensures start { (device : DeviceSeen) → HoldApart (desk_at_start device) }
    ensures after { (device : DeviceSeen) (desk : Desk) (event : Event) → HoldApart desk
        → HoldApart (after device desk event).desk }
    ensures always { (device : DeviceSeen) (events : List Event)
        → HoldApart (after_all device (desk_at_start device) events) }
{}

/// Each member of a group waits for its start, from the start on and through every event: it is in Setup or has bytes, and its trigger is off.
pub fn members_wait_for_their_group()
    ensures start { (device : DeviceSeen) → MembersWait device (desk_at_start device) }
    ensures after { (device : DeviceSeen) (desk : Desk) (event : Event) → HoldApart desk → MembersWait device desk
        → MembersWait device (after device desk event).desk }
    ensures always { (device : DeviceSeen) (events : List Event)
        → MembersWait device (after_all device (desk_at_start device) events) }
{}

/// The volumes and mutes of the mixer device change by its own requests alone, which change nothing else: they stay when their slot is closed.
pub fn the_mixer_alone_sets_volumes()
    ensures stay { (device : DeviceSeen) (desk : Desk) (event : Event)
        → (after device desk event).desk.mixer ≡ mixer_by device event desk.mixer }
    ensures alone { (device : DeviceSeen) (desk : Desk) (request : MixRequest)
        → (after device desk (Mixer request)).desk
        ≡ record desk { mixer = mixer_after (mixed_slots device) request desk.mixer } }
{}

/// No client learns what others do, but that no slot is free and which one it got, and what a group that it joins is: its replies go by its
/// settings, its own events and the interrupts between them.
pub fn openings_stand_alone()
    ensures isolated { (device : DeviceSeen) (event : Event) (desk : Desk) → HoldApart desk
        → IsIsolated device event desk (after device desk event).desk (after device desk event).reply }
    ensures begun { (device : DeviceSeen) (fd : ℕ) (way : Way) (settings : Settings) (held : Held) (old new : Desk)
        → Opens device fd way settings held old new → channel_at device new held ≡ channel_begun way settings }
    // along a list of events, of an opening that joins no group
    ensures told { (device : DeviceSeen) (desk : Desk) (fd : ℕ) (held : Held) (events : List Event)
        → HoldApart desk → held_by desk fd ≡ Some held → is_member desk held ≡ false → JoinsNone device fd desk events
        → replies_to device fd desk events
        ≡ own_replies device desk.handed (channel_at device desk held) (own_events fd events) }
    ensures holds { (device : DeviceSeen) (desk : Desk) (fd : ℕ) (held : Held) (events : List Event)
        → HoldApart desk → held_by desk fd ≡ Some held → All (λ event. closes fd event ≡ false) events
        → held_by (after_all device desk events) fd ≡ Some held }
    ensures book { (device : DeviceSeen) (desk : Desk) (fd : ℕ) (held : Held) (events : List Event)
        → HoldApart desk → held_by desk fd ≡ Some held → is_member desk held ≡ false → JoinsNone device fd desk events
        → All (λ event. closes fd event ≡ false) events
        → channel_at device (after_all device desk events) held
        ≡ own_after device desk.handed (channel_at device desk held) (own_events fd events) }
    // two openings, of one script or of two
    ensures alike { (device : DeviceSeen) (fd at : ℕ) (way : Way) (settings : Settings) (held theirs : Held)
        (one new other anew : Desk) (events others : List Event) → one.handed ≡ other.handed
        → OpensAlone device fd way settings held one new events → OpensAlone device at way settings theirs other anew others
        → own_events fd events ≡ own_events at others → replies_to device fd new events ≡ replies_to device at anew others }
    ensures books_alike { (device : DeviceSeen) (fd at : ℕ) (way : Way) (settings : Settings) (held theirs : Held)
        (one new other anew : Desk) (events others : List Event) → one.handed ≡ other.handed
        → OpensAlone device fd way settings held one new events → OpensAlone device at way settings theirs other anew others
        → All (λ event. closes fd event ≡ false) events → All (λ event. closes at event ≡ false) others
        → own_events fd events ≡ own_events at others → channel_at device (after_all device new events) held
        ≡ channel_at device (after_all device anew others) theirs }
{}
