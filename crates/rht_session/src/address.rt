//! The address of a session, or of none. Only this module, `lending` below it and `parts` have raw pointers.

ghost use Rattle.std.specs.Prelude.{◌≡◌, List, [], ◌∷◌};
ghost use Rattle.rht_session.specs.Held.{sessions_coded, address_owns};
ghost use Rattle.rht_session.specs.declared.session.Session.{Session as SessionOf};

mod lending;

use crate::parts::Parts;
use crate::session::Session;
use std::alloc::Global;
use std::marker::Model;
use std::ptr::null_mut;

/// Where a session lies that it owns; or it has none, and then its pointer means nothing. Dropped, it forgets
/// its session.
#[repr(C)]
#[derive(Drop)]
pub struct Address {
    at: *mut u8,
    alloc: Global,
    pub ghost sessions: { List SessionOf } by { sessions_coded },
}

impl Model for Address {
    ghost also_owns = { λ a. address_owns a.alloc a.at a.sessions };
}

impl Address {
    /// The address of no session.
    pub fn blank(alloc: Global) -> Address
        ensures { result.sessions ≡ [] }
    {
        Address {
            at: null_mut(),
            alloc,
        }
    }

    /// The address of the session in this box.
    pub fn of(session: Box<Session>) -> Address
        ensures { result.sessions ≡ session.value ∷ [] }
    {
        Address::of_parts(Parts::of(session))
    }

    /// The session.
    pub fn into_box(self) -> Box<Session>
        requires { (s : SessionOf) × (self.sessions ≡ s ∷ []) }
        ensures { self.sessions ≡ result.value ∷ [] }
    {
        self.into_parts().into_box()
    }

    fn of_parts(parts: Parts<Session, Global>) -> Address
        ensures { result.sessions ≡ parts.value ∷ [] }
    {
        let Parts { ptr, alloc } = parts;
        Address {
            at: ptr as *mut u8,
            alloc,
        }
    }

    fn into_parts(self) -> Parts<Session, Global>
        requires { (s : SessionOf) × (self.sessions ≡ s ∷ []) }
        ensures { self.sessions ≡ result.value ∷ [] }
    {
        let Address { at, alloc } = self;
        Parts {
            ptr: at as *mut Session,
            alloc,
        }
    }
}

unsafe impl Send for Address {}
