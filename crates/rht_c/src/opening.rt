//! Opening and closing.

ghost use Rattle.std.specs.Prelude.{◌≡◌};
ghost use Rattle.std.specs.List.{AllByRecursion};
ghost use Rattle.rht_words.specs.Settled.{plain_config};
ghost use Rattle.rht_session.specs.Plain.{c_config};
ghost use Rattle.rht_session.specs.Handles.{IsFitHandle};
ghost use Rattle.rht_session.specs.Closings.{AreOfOneTable};
ghost use Rattle.rht_c.specs.Exports.{HasOpened, HasClosed, HasClosedNow, HasClosedAll};

use rht_session::{
    CClosed, CConfig, CPair, Handle, NotOpened, told_closing, told_closing_all, told_closing_now,
    told_opening,
};
use rht_words::Config;
use std::alloc::Global;

/// Fills a config, as `Config::plain`.
#[unsafe(no_mangle)]
pub extern "C" fn rht_config_plain(config: &mut CConfig)
    ensures { config.new ≡ c_config plain_config }
{
    *config = CConfig::of(Config::plain());
}

/// Opens a table, as `Handle::open`, with the config rounded as `CConfig::config` does. Where it is opened the
/// config says with what. With spare words that aren't 0 it is refused as one with which no table can be opened.
#[unsafe(no_mangle)]
pub extern "C" fn rht_open(alloc: Global, config: &mut CConfig, handles: &mut [Handle]) -> u32
    ensures { HasOpened config.old handles.old result config.new handles.new }
{
    if !config.has_no_spare() {
        return told_opening(Err(NotOpened::Config));
    }
    let rounded = config.config();
    match Handle::open(alloc, rounded, handles) {
        Ok(()) => {
            *config = CConfig::of(rounded);
            told_opening(Ok(()))
        }
        Err(why) => told_opening(Err(why)),
    }
}

/// Closes a handle, as `Handle::close`.
#[unsafe(no_mangle)]
pub extern "C" fn rht_close(alloc: Global, handle: &mut Handle) -> u32
    requires { IsFitHandle handle.old }
    ensures fit { IsFitHandle handle.new }
    ensures closed { HasClosed handle.old result handle.new }
{
    told_closing(handle.close(alloc))
}

/// Closes a handle, as `Handle::close_now`, and says how many nodes that gives up.
#[unsafe(no_mangle)]
pub extern "C" fn rht_close_now(alloc: Global, handle: &mut Handle, given_up: &mut u32) -> u32
    requires { IsFitHandle handle.old }
    ensures fit { IsFitHandle handle.new }
    ensures closed { HasClosedNow handle.old given_up.old result given_up.new handle.new }
{
    told_closing_now(handle.close_now(alloc), given_up)
}

/// Closes these handles, which are of one table, as `Handle::close_all`. Where the table is closed with that its
/// bindings are written, as many as there is room for.
#[unsafe(no_mangle)]
pub extern "C" fn rht_close_all(
    alloc: Global,
    handles: &mut [Handle],
    into: &mut [CPair],
    closed: &mut CClosed,
) -> u32
    requires fit { AllByRecursion IsFitHandle handles.old }
    requires one { AreOfOneTable handles.old }
    ensures fit { AllByRecursion IsFitHandle handles.new }
    ensures closed { HasClosedAll handles.old into.old closed.old result into.new closed.new handles.new }
{
    told_closing_all(Handle::close_all(alloc, handles), into, closed)
}
