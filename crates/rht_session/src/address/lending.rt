//! A session that is lent where it lies, so that a call neither takes it out of its handle nor puts it back.

ghost use Rattle.std.specs.Prelude.{◌≡◌, [], ◌∷◌};
ghost use Rattle.std.specs.Borrow.{sem};
ghost use Rattle.rht_session.specs.declared.session.Session.{Session as SessionOf};
ghost use Rattle.rht_session.specs.Lending.{LendsSession};

use super::Address;
use crate::session::Session;

impl Address {
    /// Lends the session.
    pub fn session(&mut self) -> &mut Session
        requires { (s : SessionOf) × (self.old.sessions ≡ s ∷ []) }
        ensures* writes_back { sem 𝓛 (LendsSession self.entry result) }
        ensures value { self.old.sessions ≡ result.now ∷ [] }
    {
        unsafe { &mut *(self.at as *mut Session) }
    }
}
