//! Every request in every state, and writes and closes beside them.
#![tactic(auto)]

ghost use Rattle.std.specs.Prelude.{◌≡◌, ℕ, true, false};
ghost use Rattle.pcm_oss.specs.declared.event.Event.TheVariants.{Write, Ioctl, Close};
ghost use Rattle.pcm_wave.specs.declared.pool.Source.TheVariants.{Inline};
ghost use Rattle.pcm_oss.specs.declared.reply.Errno.TheVariants.{Again, Busy, BadF};
ghost use Rattle.pcm_oss.specs.declared.request.Request.{Request};
ghost use Rattle.pcm_oss.specs.declared.request.Request.TheVariants.{GetODelay, Sync};
ghost use Rattle.pcm_rate.specs.declared.rate.Rate.{Rate};
ghost use Rattle.pcm_rate.specs.Rates.{unchanged};
ghost use Rattle.pcm_desk.specs.declared.play_book.PlayBook.{PlayBook};
ghost use Rattle.pcm_desk.specs.declared.play_book.PlayState.TheVariants.{Free, Setup, Primed, Running, Draining};
ghost use Rattle.pcm_desk.specs.PlayBooks.{close_turn, write_turn};
ghost use Rattle.pcm_desk.specs.Desk.{after, play_at, refusing};
ghost use Rattle.pcm_desk.specs.PlayRequests.{play_ask};
ghost use Rattle.pcm_desk.specs.declared.here.Here.{Here};
ghost use Rattle.pcm_rows.specs.Calls.{last_at, small_device};
ghost use Rattle.pcm_rows.specs.RequestTable.{AnswersAs, AnswersThere, asked_there, twelve_mixed, cut_book, setup_book, primed_book, running_book, draining_book, full_book, rows_in_every_state, setup_rows, primed_rows, running_rows, draining_rows, full_rows, full_running_book, full_running_rows, part_book, part_rows, played_book, ended_book, half_rate, half_given, accepts, refuses, done, new_desk, closed_desk};

/// Some requests are answered alike in every state, whatever the book and its rate: what asks for
/// settings and counts, what is outside its set, a volume, and a halt.
pub fn requests_in_every_state()
    ensures { (rate : Rate) (mix_rate : ℕ) (here : Here) (book : PlayBook)
        → AnswersAs rate mix_rate here book (rows_in_every_state book) }
{}

/// With nothing written all settings are free, and there is nothing to start or to drain.
pub fn each_request_in_setup()
    ensures { AnswersThere setup_book setup_rows }
{}

/// What waits with a whole frame is started by a post and by the trigger, and drained by a sync.
pub fn each_request_when_primed()
    ensures { AnswersThere primed_book primed_rows }
{}

/// A running channel is only drained or halted.
pub fn each_request_while_running()
    ensures { AnswersThere running_book running_rows }
{}

/// A drain goes on whatever is asked, but for a halt.
pub fn each_request_while_draining()
    ensures { AnswersThere draining_book draining_rows }
{}

/// A full ring refuses no request that its state allows. While the trigger is off, a post starts nothing.
pub fn each_request_on_a_full_ring()
    ensures waiting { AnswersThere full_book full_rows }
    ensures running { AnswersThere full_running_book full_running_rows }
{}

/// A part of a frame alone isn't started, and what would drain it drops it.
pub fn part_of_a_frame_starts_nothing()
    ensures requests { AnswersThere part_book part_rows }
    ensures closed { close_turn unchanged twelve_mixed part_book ≡ cut_book Free 0 0 }
{}

/// Where all whole frames were given and have left the device's ring, a drain is over at once, and a
/// part of a frame is dropped.
pub fn what_is_played_is_over_at_once()
    ensures synced { asked_there Sync (played_book Running 8) ≡ done (ended_book Setup 8) }
    ensures closed { close_turn unchanged twelve_mixed (played_book Running 8) ≡ ended_book Free 8 }
{}

/// Where one of them is still in the ring, it goes on. Then the delay counts up to that one, and not
/// what is mixed after it.
pub fn what_the_ring_holds_drains()
    ensures synced { asked_there Sync (played_book Running 9) ≡ done (played_book (Draining false) 9) }
    ensures closed { close_turn unchanged twelve_mixed (played_book Running 9) ≡ played_book (Draining true) 9 }
    ensures running { asked_there GetODelay (played_book Running 9) ≡ accepts 18 (played_book Running 9) }
    ensures draining { asked_there GetODelay (played_book (Draining false) 9) ≡ accepts 6 (played_book (Draining false) 9) }
{}

/// At half the rate a drain goes on where all that was sure was given, until the last frame has faded.
pub fn what_is_not_faded_drains()
    ensures synced { (mix_rate : ℕ) (here : Here)
        → play_ask half_rate mix_rate here Sync (half_given Running) ≡ done (half_given (Draining false)) }
    ensures closed { (here : Here) → close_turn half_rate here (half_given Running) ≡ half_given (Draining true) }
{}

/// Nothing can be asked of a channel that drains after its close, nor of one that nobody opened.
pub fn no_request_of_a_closed_descriptor()
    ensures draining { (play_at small_device closed_desk 0).state ≡ Draining true }
    ensures request { (any : Request) → after small_device closed_desk (Ioctl 0 any) ≡ refusing closed_desk BadF }
    ensures written { after small_device closed_desk (Write 0 Inline 8 4) ≡ refusing closed_desk BadF }
    ensures closed { after small_device closed_desk (Close 0) ≡ refusing closed_desk BadF }
    ensures never { (any : Request) → after small_device new_desk (Ioctl 63 any) ≡ refusing new_desk BadF }
{}

/// A write takes what fits, and a full fragment starts.
pub fn write_in_each_state()
    ensures setup { write_turn twelve_mixed 10 setup_book ≡ accepts 10 primed_book }
    ensures fragment { write_turn twelve_mixed 16 setup_book ≡ accepts 16 (last_at 12 (cut_book Running 16 0)) }
    ensures primed { write_turn twelve_mixed 5 primed_book ≡ accepts 5 (cut_book Primed 15 0) }
    ensures full { write_turn twelve_mixed 6 primed_book ≡ accepts 6 (last_at 12 (cut_book Running 16 0)) }
    ensures running { write_turn twelve_mixed 43 running_book ≡ accepts 42 full_running_book }
    ensures draining { write_turn twelve_mixed 1 draining_book ≡ refuses Busy draining_book }
    ensures again { write_turn twelve_mixed 1 full_book ≡ refuses Again full_book }
    ensures full_running { write_turn twelve_mixed 1 full_running_book ≡ refuses Again full_running_book }
{}

/// A write of no bytes is refused by a drain alone.
pub fn write_of_no_bytes_in_each_state()
    ensures setup { write_turn twelve_mixed 0 setup_book ≡ accepts 0 setup_book }
    ensures primed { write_turn twelve_mixed 0 primed_book ≡ accepts 0 primed_book }
    ensures running { write_turn twelve_mixed 0 running_book ≡ accepts 0 running_book }
    ensures draining { write_turn twelve_mixed 0 draining_book ≡ refuses Busy draining_book }
    ensures full { write_turn twelve_mixed 0 full_book ≡ accepts 0 full_book }
{}

/// A close drains what has a whole frame, whatever the trigger.
pub fn close_in_each_state()
    ensures setup { close_turn unchanged twelve_mixed setup_book ≡ cut_book Free 0 0 }
    ensures primed { close_turn unchanged twelve_mixed primed_book ≡ last_at 12 (cut_book (Draining true) 10 0) }
    ensures running { close_turn unchanged twelve_mixed running_book ≡ cut_book (Draining true) 30 2 }
    ensures draining { close_turn unchanged twelve_mixed draining_book ≡ cut_book (Draining true) 30 2 }
    ensures full { close_turn unchanged twelve_mixed full_book ≡ last_at 12 (record full_book { state = Draining true }) }
{}
