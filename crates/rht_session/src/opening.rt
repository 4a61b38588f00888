//! How a table is opened: each of its callers gets a handle.

ghost use Rattle.std.specs.Prelude.{◌≡◌, true, IfOk, IfErr, vec_len};
ghost use Rattle.std.specs.List.{AllByRecursion, list_all};
ghost use Rattle.rht_words.specs.Settled.{IsSettled};
ghost use Rattle.rht_session.specs.Handles.{is_blank, IsFitHandle, AreToOpen, AreOpenedHandles, IsWhyNotOpened};

use crate::handle::Handle;
use crate::refused::NotOpened;
use crate::session::Session;
use rht_words::Config;
use std::alloc::{AllocError, Global};

impl Handle {
    /// Opens a table, and makes each of these handles one of its callers: the handle at place i has the caller
    /// with the number i. There have to be as many as the config's callers, from 1 to 16, and all blank. Each
    /// may go to a thread of its own. All memory is taken here, and want of it is found before any handle is
    /// opened. A refusal is the first that holds, in the order of `NotOpened`. The kernel's counterpart is
    /// `rhashtable_init`.
    pub fn open(alloc: Global, config: Config, into: &mut [Handle]) -> Result<(), NotOpened>
        ensures opened { IfOk result (λ _. AreOpenedHandles config into.new) }
        ensures fit { IfOk result (λ _. AllByRecursion IsFitHandle into.new) }
        ensures due { IfOk result (λ _. AreToOpen config into.old) }
        ensures why { IfErr result (IsWhyNotOpened config into.old) }
        ensures same { IfErr result (λ _. into.new ≡ into.old) }
    {
        if !config.is_settled() {
            return Err(NotOpened::Config);
        }
        if into.len() != config.callers as usize {
            return Err(NotOpened::Count);
        }
        if !are_blank(into) {
            return Err(NotOpened::Open);
        }
        let Ok(mut handles) = opened(alloc, config) else {
            return Err(NotOpened::Memory);
        };
        into.swap_with_slice(handles.as_mut_slice());
        Ok(())
    }
}

/// Whether all of these are blank.
fn are_blank(handles: &[Handle]) -> bool
    ensures { result ≡ list_all is_blank handles.now }
{
    handles.iter().all(|handle| !handle.is_open())
}

/// A handle for each caller of a table that is opened with this config.
fn opened(alloc: Global, config: Config) -> Result<Vec<Handle>, AllocError>
    requires { IsSettled config }
    ensures opened { IfOk result (λ handles. AreOpenedHandles config handles.items) }
    ensures count { IfOk result (λ handles. vec_len handles ≡ config.callers) }
    ensures fit { IfOk result (λ handles. AllByRecursion IsFitHandle handles.items) }
{
    let sessions = Session::open(alloc, config)?;
    let mut handles = Vec::with_capacity(alloc, sessions.len())?;
    for session in sessions {
        handles.push(Handle::of(Box::new(alloc, session)?))?;
    }
    Ok(handles)
}
