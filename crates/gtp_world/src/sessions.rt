//! Sessions as the engines of one side.
ghost use Rattle.std.specs.Prelude.{◌≡◌, [], take};
ghost use Rattle.gtp_wire.specs.Lines.{lines};
ghost use Rattle.gtp_world.specs.private.Room.{ReadsAndReplies, HasReplyRoom};

use crate::engines::Engines;
use crate::lane::{MOST_TO_CONTROLLER, MOST_TO_ENGINE, cut_front};
use crate::maker::Maker;
use arrayvec::ArrayVec;
use go_base::push;
use go_board::KoRule;
use gtp_session::policy::Policy;
use gtp_session::session::Session;
use std::marker::Model;

/// What one side's sessions are made of: the maker of their policies, and their ko rule.
#[derive(Drop)]
pub(crate) struct Sessions<M: Maker> {
    maker: M,
    rule: KoRule,
}

impl<M: Maker> Model for Sessions<M> {
    ghost use Rattle.gtp_world.specs.Worlds.{Making};

    ghost Value = { Making M };

    ghost view = { λ s. record { maker = s.maker; rule = s.rule } };
}

/// Lets the engine read these bytes, and appends its replies to `out`.
fn serve_all<P: Policy>(
    session: &mut Session<P>,
    input: &[u8],
    out: &mut ArrayVec<u8, MOST_TO_CONTROLLER>,
)
    requires held { lines session.old.rest ≡ [] }
    requires room { HasReplyRoom session.old input.now out.old.items }
    ensures { ReadsAndReplies P.may session.old input.now session.new out.old.items out.new.items }
{
    let mut at = 0;
    while at < input.len() && !session.ended() {
        let fed = session.feed(&input[at..]);
        at += fed.used;
        if let Some(reply) = fed.reply {
            push(out, reply.as_slice());
        }
    }
}

impl<M: Maker> Sessions<M> {
    /// The policies of this maker, and this ko rule.
    pub fn new(maker: M, rule: KoRule) -> Sessions<M>
        ensures { result ≡ record { maker = maker; rule = rule } }
    {
        Sessions { maker, rule }
    }
}

impl<M: Maker> Engines for Sessions<M> {
    ghost use Rattle.gtp_world.specs.Worlds.{policies_by, sessions_by};

    type Engine = Session<M::Made>;

    ghost kind = { sessions_by (policies_by M.Made.may M.may_make) };

    ghost has_room = { λ engine count coming out. HasReplyRoom engine (take count coming) out };

    fn start(&self) -> Session<M::Made> {
        Session::with_rule(self.maker.make(), self.rule)
    }

    fn deliver(
        &self,
        engine: &mut Session<M::Made>,
        count: usize,
        to_engine: &mut ArrayVec<u8, MOST_TO_ENGINE>,
        to_controller: &mut ArrayVec<u8, MOST_TO_CONTROLLER>,
    ) {
        // A look: the session holds no whole line back.
        let _ = engine.ended();
        let used = count.min(to_engine.len());
        serve_all(engine, &to_engine.as_slice()[..used], to_controller);
        cut_front(to_engine, used);
    }
}
