//! What a program that isn't Rattle holds of a table: a handle for each of its threads.
//!
//! Stands on `session`, whose calls it makes. Each call here asks for nothing but a handle that a call has left or
//! that is blank, and says why it wasn't made where it wasn't.

ghost use Rattle.std.specs.Prelude.{◌≡◌, length};
ghost use Rattle.rht_session.specs.Held.{one_if};

use crate::address::Address;
use crate::lists::{write_owners, write_pairs};
use crate::plain::CPair;
use crate::refused::Refused;
use crate::session::Session;
use rht_model::{Call, Cursor, Reply};
use rht_words::Port;
use std::alloc::Global;
use std::mem::replace;

/// It is open, and has a session; or it is blank, as it is where all its bytes are 0. A handle that is dropped
/// closes.
#[repr(C)]
pub struct Handle {
    address: Address,
    in_use: bool,
    ghost told: { length address.sessions ≡ one_if in_use },
}

impl Handle {
    ghost use Rattle.std.specs.Prelude.{true, false, IfOk, IfErr, IfSome, IfNone, [], ◌∷◌, map};
    ghost use Rattle.rht_session.specs.Plain.{c_pair};
    ghost use Rattle.rht_model.specs.declared.history.Call.TheVariants.{Find, Walk, Tidy, Count};
    ghost use Rattle.rht_session.specs.Held.{is_some};
    ghost use Rattle.rht_session.specs.Sessions.{is_free, owners_of, pairs_of, Ends, LooksUp, Begins, SetsOut};
    ghost use Rattle.rht_session.specs.Handles.{sessions_of, IsBlank, Holds, HadFree, HadUntidied, HadBusy, IsFitHandle, IsNotFree, IsNotTidied, IsNotBusy, IsAnswered, IsGoneOn, Shows};

    /// A handle without a session.
    pub fn blank(alloc: Global) -> Handle
        ensures { IsBlank result }
    {
        Handle {
            address: Address::blank(alloc),
            in_use: false,
        }
    }

    /// A handle of the session in this box.
    pub fn of(session: Box<Session>) -> Handle
        ensures { Holds result session.value }
    {
        Handle {
            address: Address::of(session),
            in_use: true,
        }
    }

    /// Whether the handle has a session.
    pub fn is_open(&self) -> bool
        ensures { result ≡ is_some (sessions_of self.now) }
    {
        self.in_use
    }

    /// The session, where the handle is open.
    pub fn into_box(self) -> Option<Box<Session>>
        ensures none { IfNone result (IsBlank self) }
        ensures some { IfSome result (λ session. Holds self session.value) }
    {
        let Handle { address, in_use } = self;
        if in_use {
            Some(address.into_box())
        } else {
            None
        }
    }

    /// Takes the session out, where the handle is open, and leaves a blank handle.
    pub fn take(&mut self, alloc: Global) -> Option<Box<Session>>
        ensures blank { IsBlank self.new }
        ensures none { IfNone result (IsBlank self.old) }
        ensures some { IfSome result (λ session. Holds self.old session.value) }
    {
        replace(self, Handle::blank(alloc)).into_box()
    }

    /// Whether a call can be made that asks for a session in no call, and otherwise why not.
    fn need_free(&mut self) -> Result<(), Refused>
        ensures same { sessions_of self.new ≡ sessions_of self.old }
        ensures free { IfOk result (λ _. HadFree self.new) }
        ensures refused { IfErr result (λ refused. IsNotFree refused self.old self.new) }
    {
        if !self.in_use {
            return Err(Refused::NotOpen);
        }
        if !self.address.session().is_free() {
            return Err(Refused::InCall);
        }
        Ok(())
    }

    /// How many nodes the handle hasn't tidied, where it can be closed, and otherwise why it can't.
    fn untidied(&mut self) -> Result<u32, Refused>
        ensures same { sessions_of self.new ≡ sessions_of self.old }
        ensures nodes { IfOk result (HadUntidied self.new) }
        ensures refused { IfErr result (λ refused. IsNotFree refused self.old self.new) }
    {
        self.need_free()?;
        Ok(self.address.session().untidied())
    }

    /// Whether a call can be gone on with, and otherwise why not.
    fn need_busy(&mut self) -> Result<(), Refused>
        ensures same { sessions_of self.new ≡ sessions_of self.old }
        ensures busy { IfOk result (λ _. HadBusy self.new) }
        ensures refused { IfErr result (λ refused. IsNotBusy refused self.old self.new) }
    {
        if !self.in_use {
            return Err(Refused::NotOpen);
        }
        if self.address.session().is_free() {
            return Err(Refused::NoCall);
        }
        Ok(())
    }

    /// Looks a port up, as `Session::find`. Refused are `NotOpen` and `InCall`.
    pub fn find(&mut self, port: Port) -> Result<Reply, Refused>
        requires { IsFitHandle self.old }
        ensures fit { IsFitHandle self.new }
        ensures answer { IsAnswered (λ reply old new. Ends (Find port) reply old new × LooksUp port reply old new) self.old result self.new }
    {
        self.need_free()?;
        Ok(self.address.session().find(port))
    }

    /// Walks the table, as `Session::walk`. Refused are `NotOpen` and `InCall`.
    pub fn walk(&mut self, from: Option<Cursor>, limit: u32) -> Result<Reply, Refused>
        requires { IsFitHandle self.old }
        ensures fit { IsFitHandle self.new }
        ensures answer { IsAnswered (Ends (Walk from limit)) self.old result self.new }
    {
        self.need_free()?;
        Ok(self.address.session().walk(from, limit))
    }

    /// Gives nodes back, as `Session::tidy`. Refused are `NotOpen` and `InCall`.
    pub fn tidy(&mut self) -> Result<Reply, Refused>
        requires { IsFitHandle self.old }
        ensures fit { IsFitHandle self.new }
        ensures answer { IsAnswered (Ends Tidy) self.old result self.new }
    {
        self.need_free()?;
        Ok(self.address.session().tidy())
    }

    /// Counts the bound ports, as `Session::count`. Refused are `NotOpen` and `InCall`.
    pub fn count(&mut self) -> Result<Reply, Refused>
        requires { IsFitHandle self.old }
        ensures fit { IsFitHandle self.new }
        ensures answer { IsAnswered (Ends Count) self.old result self.new }
    {
        self.need_free()?;
        Ok(self.address.session().count())
    }

    /// Begins a call, as `Session::begin`. Refused are `NotOpen` and `InCall`.
    pub fn begin(&mut self, call: Call) -> Result<Option<Reply>, Refused>
        requires { IsFitHandle self.old }
        ensures fit { IsFitHandle self.new }
        ensures answer { IsAnswered (Begins call) self.old result self.new }
    {
        self.need_free()?;
        Ok(self.address.session().begin(call))
    }

    /// Begins a call, as `Session::set_out`. Refused are `NotOpen` and `InCall`.
    #[inline(always)]
    pub fn set_out(&mut self, call: Call, rounds: u32) -> Result<Option<Reply>, Refused>
        requires { IsFitHandle self.old }
        ensures fit { IsFitHandle self.new }
        ensures answer { IsAnswered (SetsOut call) self.old result self.new }
    {
        self.need_free()?;
        Ok(self.address.session().set_out(call, rounds))
    }

    /// Goes on with the call in progress, as `Session::go_on`. Refused are `NoSteps` where `most` is 0,
    /// `NotOpen` and `NoCall`, of which the first that holds is answered.
    pub fn go_on(&mut self, most: u32) -> Result<Option<Reply>, Refused>
        requires { IsFitHandle self.old }
        ensures fit { IsFitHandle self.new }
        ensures answer { IsGoneOn most self.old result self.new }
    {
        if most == 0 {
            return Err(Refused::NoSteps);
        }
        self.need_busy()?;
        Ok(self.address.session().go_on(most))
    }

    /// Writes the owners that came with the last call, from the place `skip` on, as many as there is room for,
    /// and says how many these are, as `Session::owners`. Refused are `NotOpen` and `InCall`.
    pub fn owners(&mut self, skip: usize, into: &mut [u32]) -> Result<usize, Refused>
        requires { IsFitHandle self.old }
        ensures fit { IsFitHandle self.new }
        ensures answer { IsAnswered (Shows owners_of skip into.old into.new) self.old result self.new }
        ensures same { IfErr result (λ _. into.new ≡ into.old) }
    {
        self.need_free()?;
        Ok(write_owners(self.address.session().owners(), skip, into))
    }

    /// Writes the pairs that came with the last call, as `owners` does with owners.
    pub fn pairs(&mut self, skip: usize, into: &mut [CPair]) -> Result<usize, Refused>
        requires { IsFitHandle self.old }
        ensures fit { IsFitHandle self.new }
        ensures answer { IsAnswered (Shows (λ s. map c_pair (pairs_of s)) skip into.old into.new) self.old result self.new }
        ensures same { IfErr result (λ _. into.new ≡ into.old) }
    {
        self.need_free()?;
        Ok(write_pairs(self.address.session().pairs(), skip, into))
    }

    /// Closes the handle, which is blank then. Its number is given to no other. The last one of a table frees all
    /// (tested). Refused are `NotOpen`, `InCall`, and `Waiting` where its calls took nodes out that it hasn't
    /// tidied: closed it couldn't, and they would be lost to the others. The kernel's counterpart is
    /// `rhashtable_destroy`.
    pub fn close(&mut self, alloc: Global) -> Result<(), Refused>
        requires { IsFitHandle self.old }
        ensures fit { IsFitHandle self.new }
        ensures closed { IfOk result (λ _. IsBlank self.new × HadUntidied self.old 0) }
        ensures refused { IfErr result (λ refused. IsNotTidied refused self.old self.new) }
    {
        let nodes = self.untidied()?;
        if nodes > 0 {
            return Err(Refused::Waiting);
        }
        self.let_go(alloc);
        Ok(())
    }

    /// Closes the handle, as `close`, also where nodes aren't tidied. Those are given up: they stay taken until
    /// the table ends, and it says how many they are. Refused are `NotOpen` and `InCall`.
    pub fn close_now(&mut self, alloc: Global) -> Result<u32, Refused>
        requires { IsFitHandle self.old }
        ensures fit { IsFitHandle self.new }
        ensures closed { IfOk result (λ given_up. IsBlank self.new × HadUntidied self.old given_up) }
        ensures refused { IfErr result (λ refused. IsNotFree refused self.old self.new) }
    {
        let given_up = self.untidied()?;
        self.let_go(alloc);
        Ok(given_up)
    }

    /// Lets the session go, where there is one, and leaves a blank handle.
    fn let_go(&mut self, alloc: Global)
        ensures { IsBlank self.new }
    {
        if let Some(session) = self.take(alloc) {
            Box::into_inner(session).give_up();
        }
    }
}

impl Drop for Handle {
    fn drop(self) {
        if let Some(session) = self.into_box() {
            Box::into_inner(session).give_up();
        }
    }
}
