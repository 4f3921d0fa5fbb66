//! What holds of all recordings and of all runs, and more of runs without a shortage: the functions here have no work, and their contracts are the laws.

ghost use Rattle.std.specs.Prelude.{◌≡◌, ◌<◌, ◌≤◌, ◌+◌, ◌-◌, ◌^◌, ◌↔◌, ◌++◌, ◌∷◌, ℕ, true, false, min, List, length, take, drop, slice_index_or, All, IsOk, Ok, Some};
ghost use Rattle.pcm_format.specs.declared.settings.Settings.{Settings};
ghost use Rattle.pcm_oss.specs.declared.event.Event.{Event};
ghost use Rattle.pcm_oss.specs.declared.event.Event.TheVariants.{Mixer, Open, Poke, StartGroup};
ghost use Rattle.pcm_oss.specs.declared.event.Way.{Way};
ghost use Rattle.pcm_oss.specs.declared.event.Way.TheVariants.{Map};
ghost use Rattle.pcm_oss.specs.declared.mix_request.MixRequest.{MixRequest};
ghost use Rattle.pcm_oss.specs.declared.reply.Answer.TheVariants.{Pointer};
ghost use Rattle.pcm_oss.specs.declared.request.Request.TheVariants.{GetOPtr};
ghost use Rattle.pcm_wave.specs.declared.pool.Pool.{Pool};
ghost use Rattle.pcm_wave.specs.declared.pool.Source.TheVariants.{Inline};
ghost use Rattle.pcm_wave.specs.Pools.{IsCaptureIn, bytes_at, capture_frames, source_bytes};
ghost use Rattle.pcm_mixdev.specs.Mixers.{master_gain, slot_gain};
ghost use Rattle.pcm_desk.specs.declared.play_book.PlayBook.{PlayBook};
ghost use Rattle.pcm_desk.specs.declared.device.Held.{Held};
ghost use Rattle.pcm_desk.specs.Device.{DeviceSeen, IsDevice, device_settings};
ghost use Rattle.pcm_desk.specs.Channels.{mixing};
ghost use Rattle.pcm_desk.specs.Desk.{after, held_by, map_at, record_at};
ghost use Rattle.pcm_desk.specs.Own.{HoldApart, MembersWait, descriptor_of};
ghost use Rattle.pcm_desk.specs.OwnEvents.{JoinsNone, Opens, closes, own_events};
ghost use Rattle.pcm_desk.specs.MapRequests.{map_ask};
ghost use Rattle.pcm_desk.specs.Events.{Fits, IsDescriptor};
ghost use Rattle.pcm_desk.specs.RunStates.{is_running};
ghost use Rattle.pcm_sound.specs.Apart.{AreApart, all_by_pieces, all_by_spans, sum_of_all};
ghost use Rattle.pcm_sound.specs.DeviceList.{device_text, faded_table, sum_at, table_of};
ghost use Rattle.pcm_sound.specs.OwnAreas.{ChangesOneArea, mapped_slot, own_pokes};
ghost use Rattle.pcm_sound.specs.OwnReplies.{client_replies};
ghost use Rattle.pcm_sound.specs.Plain.{AgreeInCommon, HasNoShortage, IsInPlace, IsUnbroken, SoundAlike, plain_table, plain_text};
ghost use Rattle.pcm_sound.specs.Gains.{master_gain_at, slot_gain_at};
ghost use Rattle.pcm_sound.specs.Given.{recorded_bytes};
ghost use Rattle.pcm_sound.specs.MapRuns.{area_taken};
ghost use Rattle.pcm_sound.specs.Pools.{AreAlike, IsLonger};
ghost use Rattle.pcm_sound.specs.Recordings.{recorded_frames};
ghost use Rattle.pcm_sound.specs.Runs.{piece_of};
ghost use Rattle.pcm_sound.specs.Story.{Story, story_of, told, told_all};
ghost use Rattle.pcm_sound.specs.Together.{StartAsOne};

/// What all reads of a running recording got, joined, is a prefix of all that is recorded from its start on, as long as no interrupt lost
/// a frame.
pub fn reads_get_what_is_recorded()
    ensures { (device : DeviceSeen) (pool : Pool) (events : List Event) (slot : ℕ) → IsDevice device
        → IsCaptureIn (device_settings device).layout pool → All (Fits device pool) events
        → let story = story_of device pool events in
        let book = record_at device story.desk slot in
        let recording = story.recordings slot in
        is_running book.state ≡ true → recording.whole ≡ true
        → recording.got ≡ take book.read
        (recorded_bytes device book.opening.settings (recorded_frames pool recording.start) 0 book.given) }
{}

/// The pieces of a run without a shortage cover the positions from its start to its end, each once, and no other, and at each they
/// give the frame that is as far into its stream as the position is past the start.
pub fn pieces_stand_in_their_place()
    ensures { (device : DeviceSeen) (pool : Pool) (events : List Event) (slot : ℕ) → IsDevice device
        → All (Fits device pool) events
        → let story = story_of device pool events in
        All (λ run. IsUnbroken run → IsInPlace device story.desk.mixed run) (story.runs slot) }
{}

/// No position has two pieces of the runs of a slot, nor two of their spans, whatever was short. So what all runs give there, by their pieces or by
/// their spans, has the sum of what each slot gives.
pub fn runs_of_a_slot_lie_apart()
    ensures apart { (device : DeviceSeen) (pool : Pool) (events : List Event) (slot : ℕ) → IsDevice device
        → All (Fits device pool) events
        → let story = story_of device pool events in
        AreApart device story.desk.mixed (story.runs slot) × AreApart device story.desk.mixed (story.map_runs slot) }
    ensures mix { (device : DeviceSeen) (pool : Pool) (events : List Event) (position : ℕ) → IsDevice device
        → All (Fits device pool) events
        → let story = story_of device pool events in
        sum_of_all device story.faders (all_by_pieces device story) position
        ≡ sum_at device (faded_table device story.faders (table_of device story)) position }
    ensures plain { (device : DeviceSeen) (pool : Pool) (events : List Event) (position : ℕ) → IsDevice device
        → All (Fits device pool) events
        → let story = story_of device pool events in
        sum_of_all device story.faders (all_by_spans device story) position
        ≡ sum_at device (faded_table device story.faders (plain_table device story)) position }
{}

/// A run of a mapped channel is never short, so its pieces stand in their place whatever happens: at each position of the run its slot gives
/// the frame that is as far into what was taken as the position is past the start.
pub fn mapped_runs_are_never_short()
    ensures { (device : DeviceSeen) (pool : Pool) (events : List Event) (slot : ℕ) → IsDevice device
        → All (Fits device pool) events
        → let story = story_of device pool events in
        All (λ run. IsUnbroken run × IsInPlace device story.desk.mixed run) (story.map_runs slot) }
{}

/// An accepted poke writes its bytes where it says, and changes nothing that was taken: what is taken next begins at the place in the area that
/// the channel answers as its pointer.
pub fn pokes_change_what_was_not_taken()
    ensures written { (device : DeviceSeen) (pool : Pool) (events : List Event) (fd offset at count slot : ℕ)
        → let story = story_of device pool events in
        let area = story.areas slot in
        held_by story.desk fd ≡ Some (record { way = Map; slot = slot }) → at + count ≤ length (source_bytes pool Inline)
        → IsOk (after device story.desk (Poke fd offset at count)).reply
        → (told device pool story (Poke fd offset at count)).areas slot
        ≡ take offset area ++ bytes_at pool Inline at count ++ drop (offset + count) area }
    ensures taken { (device : DeviceSeen) (pool : Pool) (story : Story) (fd offset at count slot : ℕ)
        → (told device pool story (Poke fd offset at count)).map_runs slot ≡ story.map_runs slot }
    ensures next { (device : DeviceSeen) (pool : Pool) (events : List Event) (slot n first bytes blocks ptr : ℕ) (rest : List ℕ)
        → let story = story_of device pool events in
        let book = map_at device story.desk slot in
        let area = story.areas slot in
        area_taken device n book area ≡ first ∷ rest → (map_ask GetOPtr book).reply ≡ Ok (Pointer bytes blocks ptr)
        → first ≡ slice_index_or area ptr 0 }
{}

/// Without a shortage the device gets what the runs are from their starts to their ends: no count has a part in it.
pub fn runs_are_heard_from_start_to_end()
    ensures { (device : DeviceSeen) (pool : Pool) (events : List Event) → IsDevice device
        → All (Fits device pool) events
        → HasNoShortage (story_of device pool events)
        → device_text device pool events ≡ plain_text device pool events }
{}

/// Two scripts without a shortage whose runs sound alike give the device equal bytes, as far as both go.
pub fn what_sounds_alike_has_equal_bytes()
    ensures { (device : DeviceSeen) (pool more : Pool) (events others : List Event) → IsDevice device
        → All (Fits device pool) events → All (Fits device more) others
        → let one = story_of device pool events in
        let other = story_of device more others in
        HasNoShortage one → HasNoShortage other
        → SoundAlike device (min one.desk.mixed other.desk.mixed) one other
        → AgreeInCommon (device_text device pool events) (device_text device more others) }
{}

/// From the next frame that is mixed on, each slot has the gain that the mixer device gives it after a request, accepted or refused, and all that
/// is mixed has the master's; frames that were mixed keep theirs. No request changes a run, an area or a recording.
pub fn the_mixer_sets_gains_from_the_next_frame()
    ensures past { (device : DeviceSeen) (pool : Pool) (story : Story) (request : MixRequest) (slot position : ℕ)
        → let new = told device pool story (Mixer request) in
        position < story.desk.mixed
        → (slot_gain_at new.faders slot position ≡ slot_gain_at story.faders slot position)
        × (master_gain_at new.faders position ≡ master_gain_at story.faders position) }
    ensures next { (device : DeviceSeen) (pool : Pool) (events : List Event) (request : MixRequest) (slot position : ℕ) → IsDevice device
        → All (Fits device pool) events
        → let story = story_of device pool events in
        let new = told device pool story (Mixer request) in
        story.desk.mixed ≤ position
        → (slot_gain_at new.faders slot position ≡ slot_gain new.desk.mixer slot)
        × (master_gain_at new.faders position ≡ master_gain new.desk.mixer) }
    ensures rest { (device : DeviceSeen) (pool : Pool) (events : List Event) (request : MixRequest) (slot : ℕ) → IsDevice device
        → All (Fits device pool) events
        → let story = story_of device pool events in
        let new = told device pool story (Mixer request) in
        (new.runs slot ≡ story.runs slot) × (new.map_runs slot ≡ story.map_runs slot) × (new.areas slot ≡ story.areas slot)
        × (new.recordings slot ≡ story.recordings slot) }
{}

/// Where a start of a group is accepted, each of its members starts: those that play at the frame that is mixed next, and those that record at the
/// frame that the device is given next.
pub fn members_start_as_one()
    ensures { (device : DeviceSeen) (pool : Pool) (events : List Event) (fd group : ℕ) → IsDevice device
        → All (Fits device pool) events
        → let story = story_of device pool events in
        IsOk (after device story.desk (StartGroup fd group)).reply
        → StartAsOne device group story (told device pool story (StartGroup fd group)) }
{}

/// An interrupt leaves a run short exactly where it counts an underrun, as long as the count can rise: so answers report every shortage.
pub fn shortages_are_counted()
    ensures { (device : DeviceSeen) (position n : ℕ) (book : PlayBook) → 0 < n → book.underruns < 2 ^ 32 - 1
        → ((piece_of device position n book).short ≡ 0) ↔ ((mixing device position n book).underruns ≡ book.underruns) }
{}

/// A story knows a pool by the bytes of its events and the frames that are recorded: pools that are alike give one story, and one that has
/// more bytes after those of another is like it to all events that fit that one.
pub fn alike_pools_tell_one_story()
    ensures story { (device : DeviceSeen) (one other : Pool) (events : List Event) → AreAlike one other events
        → story_of device other events ≡ story_of device one events }
    ensures longer { (device : DeviceSeen) (one other : Pool) (events : List Event) → IsLonger one other
        → All (Fits device one) events → AreAlike one other events }
    ensures fits { (device : DeviceSeen) (one other : Pool) (event : Event) → IsLonger one other
        → Fits device one event → Fits device other event }
{}

/// Two openings with equal settings, equal events of their own and equal interrupts between them get equal replies, the bytes of reads
/// included, whatever others do: in one script or in two, as long as the same is captured, the device was given as many frames before, and
/// they join no group. Two that are mapped, whose pokes bring equal bytes, have equal areas until they are closed.
pub fn clients_are_told_alike()
    ensures replies { (device : DeviceSeen) (pool more : Pool) (fd at : ℕ) (way : Way) (settings : Settings) (held theirs : Held)
        (one other : Story) (events others : List Event)
        → capture_frames more ≡ capture_frames pool → one.desk.handed ≡ other.desk.handed
        → HoldApart one.desk → HoldApart other.desk → MembersWait device one.desk → MembersWait device other.desk
        → let new = told device pool one (Open fd way settings) in
        let anew = told device more other (Open at way settings) in
        Opens device fd way settings held one.desk new.desk → Opens device at way settings theirs other.desk anew.desk
        → JoinsNone device fd new.desk events → JoinsNone device at anew.desk others
        → own_events fd events ≡ own_events at others
        → client_replies device pool fd new events ≡ client_replies device more at anew others }
    ensures areas { (device : DeviceSeen) (pool more : Pool) (fd at slot place : ℕ) (settings : Settings)
        (one other : Story) (events others : List Event)
        → one.desk.handed ≡ other.desk.handed → HoldApart one.desk → HoldApart other.desk
        → let new = told device pool one (Open fd Map settings) in
        let anew = told device more other (Open at Map settings) in
        Opens device fd Map settings (mapped_slot slot) one.desk new.desk → Opens device at Map settings (mapped_slot place) other.desk anew.desk
        → All (λ event. closes fd event ≡ false) events → All (λ event. closes at event ≡ false) others
        → own_events fd events ≡ own_events at others → own_pokes pool fd events ≡ own_pokes more at others
        → (told_all device pool new events).areas slot ≡ (told_all device more anew others).areas place }
{}

/// An event changes at most the area of the channel that its descriptor holds, by the book of that channel and the bytes that it brings: what
/// others do leaves an area alone.
pub fn areas_go_alone()
    ensures { (device : DeviceSeen) (pool : Pool) (events : List Event) (event : Event) → IsDescriptor (descriptor_of event)
        → let story = story_of device pool events in
        ChangesOneArea device pool event story (told device pool story event) }
{}
