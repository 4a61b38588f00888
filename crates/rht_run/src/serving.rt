//! Commands. Each is a call, once more where it found no node, and the work that its reply asks for.

ghost use Rattle.std.specs.Prelude.{◌≡◌, ◌≢◌, ◌↔◌, ℕ, true, IsTrue};
ghost use Rattle.rht_model.specs.declared.history.Call.TheVariants.{Find};
ghost use Rattle.rht_model.specs.declared.history.Reply.TheVariants.{Moved};
ghost use Rattle.rht_core.specs.Locals.{is_idle};
ghost use Rattle.rht_core.specs.Replies.{IsReplyTo};
ghost use Rattle.rht_core.specs.Serving.{asks_for_work};
ghost use Rattle.rht_run.specs.Rule.{MayBegin};
ghost use Rattle.rht_run.specs.Passes.{IsPassOf, HasCalled};
ghost use Rattle.rht_run.specs.Caused.{IsCaused};
ghost use Rattle.rht_run.specs.Served.{HasServed, HasTried, HasWorked};

use crate::pass::Pass;
use crate::table::Table;
use rht_model::{Call, Reply};
use rht_policy::Mix;
use std::sync::Wait;

impl<M: Mix> Table<M> {
    /// Does a command: makes its call and, where `auto` is set, the work that the reply asks for. That is
    /// `work` after a `Bound` or a `Released` with a kick, after `Busy`, and after `NoTable` of a bind, until
    /// it doesn't answer `Moved` with more to do. After `NoNode` it tidies once and makes the call again,
    /// and the second reply is the command's, whatever it is.
    ///
    /// The answer is the command's reply. What the tidying and `work` were answered, and a first `NoNode`,
    /// stand among the pass's finished calls alone. Each reply comes when it does of the call itself, which
    /// may wait; so may `work`. The owners of a `Listed` stand in `Pass::owners`, and the pairs of a
    /// `Walked` in `Pass::pairs`. It takes no memory.
    pub fn serve<R: Wait>(&self, rt: &R, pass: &mut Pass<M>, call: Call, auto: bool) -> Reply
        requires pass { IsPassOf M.mix_of self.now pass.old }
        requires idle { is_idle pass.old.local ≡ true }
        ensures served { HasServed M.mix_of self.now auto call result pass.old pass.new }
        ensures reply { IsReplyTo call result }
        ensures cause { IsCaused M.mix_of self.now call result pass.old pass.new }
    {
        // A look-up needs no node, and asks for no work.
        if let Call::Find { port } = call {
            return self.find(pass, port);
        }
        let again = call;
        let reply = self.tried(rt, pass, call);
        if auto && asks_for_work(again, reply) {
            self.work_off(rt, pass);
        }
        reply
    }

    /// Makes a call other than a look-up. Where it finds no node the pass gives back those that it may, and
    /// makes the call once more.
    fn tried<R: Wait>(&self, rt: &R, pass: &mut Pass<M>, call: Call) -> Reply
        requires pass { IsPassOf M.mix_of self.now pass.old }
        requires idle { is_idle pass.old.local ≡ true }
        requires other { (port : ℕ) → call ≢ Find port }
        ensures { HasTried M.mix_of self.now call result pass.old pass.new }
    {
        let again = call;
        match self.answer(rt, pass, call) {
            Reply::NoNode => {
                self.tidy(pass);
                self.answer_again(rt, pass, again)
            }
            reply => reply,
        }
    }

    /// Makes a call other than a look-up, where it is made for the second time.
    #[cold]
    #[inline(never)]
    fn answer_again<R: Wait>(&self, rt: &R, pass: &mut Pass<M>, call: Call) -> Reply
        requires pass { IsPassOf M.mix_of self.now pass.old }
        requires may { MayBegin self.now.env pass.old.number call pass.old.local }
        requires other { (port : ℕ) → call ≢ Find port }
        ensures { HasCalled M.mix_of self.now call result pass.old pass.new }
    {
        self.answer(rt, pass, call)
    }

    /// Makes a call other than a look-up.
    #[inline(always)]
    fn answer<R: Wait>(&self, rt: &R, pass: &mut Pass<M>, call: Call) -> Reply
        requires pass { IsPassOf M.mix_of self.now pass.old }
        requires may { MayBegin self.now.env pass.old.number call pass.old.local }
        requires other { (port : ℕ) → call ≢ Find port }
        ensures { HasCalled M.mix_of self.now call result pass.old pass.new }
    {
        match call {
            Call::Bind { port, owner, once } => {
                if once {
                    self.bind_once(rt, pass, port, owner)
                } else {
                    self.bind(rt, pass, port, owner)
                }
            }
            Call::All { port } => self.all(rt, pass, port),
            Call::Release { port, owner } => self.release(rt, pass, port, owner),
            Call::Rebind { port, owner, new } => self.rebind(rt, pass, port, owner, new),
            Call::Work => self.work(rt, pass),
            Call::Tidy => self.tidy(pass),
            Call::Count => self.count(pass),
            Call::Walk { from, limit } => self.walk(pass, from, limit),
            Call::Find { .. } => unreachable!(),
        }
    }

    /// Makes `work` until it no longer answers that it is to be made again.
    fn work_off<R: Wait>(&self, rt: &R, pass: &mut Pass<M>)
        requires pass { IsPassOf M.mix_of self.now pass.old }
        requires idle { is_idle pass.old.local ≡ true }
        ensures { HasWorked M.mix_of self.now pass.old pass.new }
    {
        for _ in rt.forever() {
            if !is_again(self.work(rt, pass)) {
                return;
            }
        }
        unreachable!()
    }
}

/// Whether the reply to this call asks for `work`: it says that there is something to do, or it
/// refuses a bind until tables have been moved, or for want of a further one.
fn asks_for_work(call: Call, reply: Reply) -> bool
    ensures { result ≡ asks_for_work call reply }
{
    match reply {
        Reply::Bound { kick } | Reply::Released { kick } => kick,
        Reply::Busy { .. } => true,
        Reply::NoTable { .. } => matches!(call, Call::Bind { .. }),
        _ => false,
    }
}

/// Whether `work` answered that it moved, and is to be made again.
fn is_again(reply: Reply) -> bool
    ensures { IsTrue result ↔ (reply ≡ Moved true) }
{
    matches!(reply, Reply::Moved { again: true })
}
