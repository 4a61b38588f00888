//! Calls that may have to wait for another caller: each begins with one operation, and one export goes on with
//! any of them.

ghost use Rattle.std.specs.Prelude.{◌≡◌, true, false};
ghost use Rattle.rht_model.specs.declared.history.Call.TheVariants.{Bind, Release, Rebind, All, Work};
ghost use Rattle.rht_session.specs.Plain.{port_said};
ghost use Rattle.rht_session.specs.Handles.{IsFitHandle};
ghost use Rattle.rht_c.specs.Exports.{HasBegun, HasSetOut, HasGoneOn};

use rht_model::Call;
use rht_session::{CPort, CReply, Handle, told};

/// Begins to bind a port, as `Table::bind` does.
#[unsafe(no_mangle)]
pub extern "C" fn rht_bind_begin(
    handle: &mut Handle,
    port: CPort,
    owner: u32,
    reply: &mut CReply,
) -> u32
    requires { IsFitHandle handle.old }
    ensures fit { IsFitHandle handle.new }
    ensures begun { HasBegun (Bind (port_said port) owner false) handle.old reply.old result reply.new handle.new }
{
    let call = Call::Bind {
        port: port.port(),
        owner,
        once: false,
    };
    told(handle.begin(call), reply)
}

/// Begins to bind a port once, as `Table::bind_once` does.
#[unsafe(no_mangle)]
pub extern "C" fn rht_bind_once_begin(
    handle: &mut Handle,
    port: CPort,
    owner: u32,
    reply: &mut CReply,
) -> u32
    requires { IsFitHandle handle.old }
    ensures fit { IsFitHandle handle.new }
    ensures begun { HasBegun (Bind (port_said port) owner true) handle.old reply.old result reply.new handle.new }
{
    let call = Call::Bind {
        port: port.port(),
        owner,
        once: true,
    };
    told(handle.begin(call), reply)
}

/// Binds a port as `Table::bind` does, with at most `rounds` tries to lock a bucket.
#[unsafe(no_mangle)]
pub extern "C" fn rht_bind_in(
    handle: &mut Handle,
    port: CPort,
    owner: u32,
    rounds: u32,
    reply: &mut CReply,
) -> u32
    requires { IsFitHandle handle.old }
    ensures fit { IsFitHandle handle.new }
    ensures set_out { HasSetOut (Bind (port_said port) owner false) handle.old reply.old result reply.new handle.new }
{
    let once = false;
    let call = Call::Bind {
        port: port.port(),
        owner,
        once,
    };
    told(handle.set_out(call, rounds), reply)
}

/// Binds a port as `Table::bind_once` does, with at most `rounds` tries to lock a bucket.
#[unsafe(no_mangle)]
pub extern "C" fn rht_bind_once_in(
    handle: &mut Handle,
    port: CPort,
    owner: u32,
    rounds: u32,
    reply: &mut CReply,
) -> u32
    requires { IsFitHandle handle.old }
    ensures fit { IsFitHandle handle.new }
    ensures set_out { HasSetOut (Bind (port_said port) owner true) handle.old reply.old result reply.new handle.new }
{
    let once = true;
    let call = Call::Bind {
        port: port.port(),
        owner,
        once,
    };
    told(handle.set_out(call, rounds), reply)
}

/// Begins to take a binding out, as `Table::release` does.
#[unsafe(no_mangle)]
pub extern "C" fn rht_release_begin(
    handle: &mut Handle,
    port: CPort,
    owner: u32,
    reply: &mut CReply,
) -> u32
    requires { IsFitHandle handle.old }
    ensures fit { IsFitHandle handle.new }
    ensures begun { HasBegun (Release (port_said port) owner) handle.old reply.old result reply.new handle.new }
{
    let port = port.port();
    told(handle.begin(Call::Release { port, owner }), reply)
}

/// Takes a binding out as `Table::release` does, with at most `rounds` tries to lock a bucket.
#[unsafe(no_mangle)]
pub extern "C" fn rht_release_in(
    handle: &mut Handle,
    port: CPort,
    owner: u32,
    rounds: u32,
    reply: &mut CReply,
) -> u32
    requires { IsFitHandle handle.old }
    ensures fit { IsFitHandle handle.new }
    ensures set_out { HasSetOut (Release (port_said port) owner) handle.old reply.old result reply.new handle.new }
{
    let port = port.port();
    told(handle.set_out(Call::Release { port, owner }, rounds), reply)
}

/// Begins to put a new owner in the place of this one, as `Table::rebind` does.
#[unsafe(no_mangle)]
pub extern "C" fn rht_rebind_begin(
    handle: &mut Handle,
    port: CPort,
    owner: u32,
    with: u32,
    reply: &mut CReply,
) -> u32
    requires { IsFitHandle handle.old }
    ensures fit { IsFitHandle handle.new }
    ensures begun { HasBegun (Rebind (port_said port) owner with) handle.old reply.old result reply.new handle.new }
{
    let call = Call::Rebind {
        port: port.port(),
        owner,
        new: with,
    };
    told(handle.begin(call), reply)
}

/// Begins to list the owners of a port, as `Table::all` does.
#[unsafe(no_mangle)]
pub extern "C" fn rht_all_begin(handle: &mut Handle, port: CPort, reply: &mut CReply) -> u32
    requires { IsFitHandle handle.old }
    ensures fit { IsFitHandle handle.new }
    ensures begun { HasBegun (All (port_said port)) handle.old reply.old result reply.new handle.new }
{
    let port = port.port();
    told(handle.begin(Call::All { port }), reply)
}

/// Begins to resize the table where that is due, as `Table::work` does.
#[unsafe(no_mangle)]
pub extern "C" fn rht_work_begin(handle: &mut Handle, reply: &mut CReply) -> u32
    requires { IsFitHandle handle.old }
    ensures fit { IsFitHandle handle.new }
    ensures begun { HasBegun Work handle.old reply.old result reply.new handle.new }
{
    told(handle.begin(Call::Work), reply)
}

/// Goes on with the call in progress, as `Handle::go_on`.
#[unsafe(no_mangle)]
pub extern "C" fn rht_go_on(handle: &mut Handle, steps: u32, reply: &mut CReply) -> u32
    requires { IsFitHandle handle.old }
    ensures fit { IsFitHandle handle.new }
    ensures gone_on { HasGoneOn steps handle.old reply.old result reply.new handle.new }
{
    told(handle.go_on(steps), reply)
}
