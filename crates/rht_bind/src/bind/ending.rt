//! How an attempt of a bind ends: its read section is closed, and then the bind has ended, gives its
//! node back, or begins anew.

ghost use Rattle.std.specs.Prelude.{◌≡◌, ◌<◌};
ghost use Rattle.rht_bind.specs.Endings.{answering, closed, giving, IsEndingIn};

use super::{Attempt, BindAt};
use rht_arena::GiveNode;
use rht_model::Reply;
use rht_words::{Env, Next};

/// How an attempt has ended, which says what comes behind the closing of its section.
#[derive(Clone, Copy, Debug, PartialEq, Eq)]
pub enum Ending {
    /// The node is linked and the port bound: the bind ends.
    Bound { kick: bool },
    /// The node is given back, and then the bind has this answer.
    Answered { node: u32, reply: Reply },
    /// The bind begins anew with its node.
    Anew { attempt: Attempt },
}

/// The end of an attempt with this answer, behind which the node is given back.
#[inline(always)]
pub fn answering(node: u32, reply: Reply) -> BindAt
    ensures { result ≡ answering node reply }
{
    let ending = Ending::Answered { node, reply };
    BindAt::Closing { ending }
}

/// After the section was closed.
#[inline(always)]
pub fn closed(env: Env, ending: Ending) -> (BindAt, Next<Reply>)
    requires { IsEndingIn env.geometry ending }
    ensures { result ≡ closed env ending }
{
    match ending {
        Ending::Bound { kick } => (
            BindAt::Closing { ending },
            Next::Done(Reply::Bound { kick }),
        ),
        Ending::Answered { node, reply } => (giving(env, node, reply), Next::Go),
        Ending::Anew { attempt } => (BindAt::Opening { attempt }, Next::Go),
    }
}

/// The giving back of the node, behind which the bind has this answer.
#[inline(always)]
pub fn giving(env: Env, node: u32, reply: Reply) -> BindAt
    requires { node < env.geometry.nodes }
    ensures { result ≡ giving env node reply }
{
    let give = GiveNode::new(env.geometry, node);
    BindAt::Giving { give, reply }
}
