//! Calls that wait for nobody, each made as a whole.

ghost use Rattle.std.specs.Prelude.{◌≡◌};
ghost use Rattle.rht_model.specs.declared.history.Call.TheVariants.{Find, Walk, Tidy, Count};
ghost use Rattle.rht_session.specs.Plain.{port_said, cursor_said};
ghost use Rattle.rht_session.specs.Sessions.{Ends, LooksUp};
ghost use Rattle.rht_session.specs.Handles.{IsFitHandle};
ghost use Rattle.rht_c.specs.Exports.{HasFound, HasMade};

use rht_session::{CCursor, CPort, CReply, Handle, told_found, told_whole};

/// Looks a port up, as `Handle::find`. Where it is found its first owner is written.
#[unsafe(no_mangle)]
pub extern "C" fn rht_find(handle: &mut Handle, port: CPort, owner: &mut u32) -> u32
    requires { IsFitHandle handle.old }
    ensures fit { IsFitHandle handle.new }
    ensures found { HasFound (port_said port) handle.old owner.old result owner.new handle.new }
{
    told_found(handle.find(port.port()), owner)
}

/// Walks the table, as `Handle::walk`, from the cursor on.
#[unsafe(no_mangle)]
pub extern "C" fn rht_walk(
    handle: &mut Handle,
    from: CCursor,
    limit: u32,
    reply: &mut CReply,
) -> u32
    requires { IsFitHandle handle.old }
    ensures fit { IsFitHandle handle.new }
    ensures made { HasMade (Walk (cursor_said from) limit) handle.old reply.old result reply.new handle.new }
{
    told_whole(handle.walk(from.cursor(), limit), reply)
}

/// Gives nodes back, as `Handle::tidy`.
#[unsafe(no_mangle)]
pub extern "C" fn rht_tidy(handle: &mut Handle, reply: &mut CReply) -> u32
    requires { IsFitHandle handle.old }
    ensures fit { IsFitHandle handle.new }
    ensures made { HasMade Tidy handle.old reply.old result reply.new handle.new }
{
    told_whole(handle.tidy(), reply)
}

/// Counts the bound ports, as `Handle::count`.
#[unsafe(no_mangle)]
pub extern "C" fn rht_count(handle: &mut Handle, reply: &mut CReply) -> u32
    requires { IsFitHandle handle.old }
    ensures fit { IsFitHandle handle.new }
    ensures made { HasMade Count handle.old reply.old result reply.new handle.new }
{
    told_whole(handle.count(), reply)
}
