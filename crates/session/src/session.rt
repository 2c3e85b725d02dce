// The lines of a session, one after the other.
ghost use Rattle.std.specs.Prelude.{◌≡◌, [], ◌++◌};
ghost use Rattle.fixed.specs.Items.{items_of};
ghost use Rattle.session.specs.Shown.{LedBy, Led, PlaysLine, KeepsThePromise};

use crate::gather::Gathered;
use crate::played::play;
use crate::reply::Reply;
use group::Group;
use quorum::EitherRule;

// The group that is open, if one is. Lines have led to it, and nothing else.
#[derive(Drop)]
pub struct Session {
    group: Option<Group<EitherRule>>,
    ghost led: { ∥ Led group ∥₁ },
}

impl Session {
    // Before the first line nothing is open.
    #[tactic(auto, unfolding(crate::specs::Standing::stands_after))]
    pub fn new() -> Session
        ensures { LedBy result.group [] }
    {
        Session { group: None }
    }

    // Plays a line, with its line feed.
    pub fn play(&mut self, line: &[u8]) -> Reply
        ensures plays { PlaysLine self.old.group line.now self.new.group result }
        ensures keeps { KeepsThePromise self.new.group }
    {
        play(&mut self.group, line)
    }

    // Plays the line that was begun and that these bytes end, with its line feed; after it nothing is begun.
    #[inline(always)]
    pub fn play_ended(&mut self, begun: &mut Gathered, end: &[u8]) -> Reply
        ensures plays { PlaysLine self.old.group (items_of begun.old.bytes ++ end.now) self.new.group result }
        ensures keeps { KeepsThePromise self.new.group }
        ensures nothing_is_begun { items_of begun.new.bytes ≡ [] }
    {
        let reply = self.play(begun.ended(end));
        begun.clear();
        reply
    }
}
