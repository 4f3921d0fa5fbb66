//! An engine as C holds it: a session, which is ready for the next call.

ghost use Rattle.std.specs.Prelude.{◌≡◌, IfSome, IsSome, None, Some, is_some};
ghost use Rattle.std.specs.declared.option.Option.{Option};
ghost use Rattle.pcm_engine.specs.Engines.{AreReady};
ghost use Rattle.pcm_engine_c.specs.Held.{owned, session_coded, value_in};
ghost use Rattle.pcm_engine_c.specs.declared.session.Session.{Session};

use crate::session::Session;
use feed_stages::Stage;
use pcm_feeder::Feeder;
use raw_box::RawBox;
use std::alloc::Global;
use std::marker::Model;
use std::{mem, ptr};

/// The pointer of a session's box, or null.
#[repr(C)]
pub struct Slot {
    at: *mut u8,
    pub ghost session: { Option Session } by { session_coded },
}

impl Model for Slot {
    ghost also_owns = { λ slot. owned (λ session. AreReady
        ⟦<Stage as Feeder>⟧.kind ⟦<Stage as Feeder>⟧.kept session.of.engine) slot.at slot.session };
}

impl Slot {
    // No session.
    fn empty() -> Slot
        ensures { result.session ≡ None }
    {
        Slot {
            at: ptr::null_mut(),
        }
    }

    // A session out of its box.
    fn of(session: RawBox<Session>) -> Slot
        requires { AreReady
            ⟦<Stage as Feeder>⟧.kind ⟦<Stage as Feeder>⟧.kept session.value.of.engine }
        ensures { result.session ≡ Some session.value }
    {
        let RawBox { at } = session;
        Slot { at: at as *mut u8 }
    }

    // The session.
    fn into_raw(self) -> RawBox<Session>
        requires { IsSome self.session }
        ensures { (Some result.value ≡ self.session) × AreReady
            ⟦<Stage as Feeder>⟧.kind ⟦<Stage as Feeder>⟧.kept result.value.of.engine }
    {
        let Slot { at } = self;
        RawBox {
            at: at as *mut Session,
        }
    }

    // Lets go of no session.
    fn forget(self)
        requires { self.session ≡ None }
    {
        let Slot { at: _ } = self;
    }
}

/// A session, or none, as C holds it: whether it is there, and its pointer. All of it 0 is none.
#[repr(C)]
pub struct Handle {
    there: bool,
    pub slot: Slot,
    pub ghost told: { there ≡ is_some slot.session },
}

impl Handle {
    // No session.
    fn empty() -> Handle
        ensures { result.slot.session ≡ None }
    {
        Handle {
            there: false,
            slot: Slot::empty(),
        }
    }

    // A session in its box.
    fn of(session: Box<Session>) -> Handle
        requires { AreReady
            ⟦<Stage as Feeder>⟧.kind ⟦<Stage as Feeder>⟧.kept session.value.of.engine }
        ensures { result.slot.session ≡ Some session.value }
    {
        Handle {
            there: true,
            slot: Slot::of(RawBox::of(session)),
        }
    }

    // The session in its box again, if there is one.
    fn into_box(self, alloc: Global) -> Option<Box<Session>>
        ensures value { value_in result ≡ self.slot.session }
        ensures ready { IfSome result (λ session. AreReady
            ⟦<Stage as Feeder>⟧.kind ⟦<Stage as Feeder>⟧.kept session.value.of.engine) }
    {
        let Handle { there, slot } = self;
        if there {
            Some(slot.into_raw().into_box(alloc))
        } else {
            slot.forget();
            None
        }
    }

    /// Whether there is a session.
    pub fn is_there(&self) -> bool
        ensures { result ≡ is_some self.now.slot.session }
    {
        self.there
    }

    /// Takes the session out, if there is one.
    pub fn take(&mut self, alloc: Global) -> Option<Box<Session>>
        ensures value { value_in result ≡ self.old.slot.session }
        ensures empty { self.new.slot.session ≡ None }
        ensures ready { IfSome result (λ session. AreReady
            ⟦<Stage as Feeder>⟧.kind ⟦<Stage as Feeder>⟧.kept session.value.of.engine) }
    {
        mem::replace(self, Handle::empty()).into_box(alloc)
    }

    /// Puts a session into an empty handle.
    pub fn put(&mut self, session: Box<Session>)
        requires empty { self.old.slot.session ≡ None }
        requires ready { AreReady
            ⟦<Stage as Feeder>⟧.kind ⟦<Stage as Feeder>⟧.kept session.value.of.engine }
        ensures { self.new.slot.session ≡ Some session.value }
    {
        let Handle { there: _, slot } = mem::replace(self, Handle::of(session));
        slot.forget();
    }
}
