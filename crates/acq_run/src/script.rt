ghost use Rattle.std.specs.Prelude.{◌≡◌};
ghost use Rattle.acq_run.specs.Feeds.{before_end};

use crate::{Fed, Feed};
use mdf_num::Rows;
use std::alloc::Global;
use std::marker::Model;
use std::sync::Wait;
use std::vec::IntoIter;

/// The feed of a list. Contracts see it as the list of what is left.
#[derive(Drop)]
pub struct ScriptFeed {
    rest: IntoIter<Fed, Global>,
    ended: bool,
}

impl Model for ScriptFeed {
    ghost use Rattle.std.specs.Prelude.{List, [], if◌then◌else◌};
    ghost use Rattle.std.specs.Vec.Iter.{into_iter_items};
    ghost use Rattle.acq_run.specs.Feeds.{before_end};
    ghost use Rattle.acq_run.specs.declared.feed.Fed.{Fed};

    ghost Value = { List Fed };

    ghost view = { λ feed. if feed.ended then [] else before_end (into_iter_items feed.rest) };
}

impl ScriptFeed {
    /// Feeds the items before the first `End` of the list, or all where it has none.
    pub fn new(list: Rows<Fed>) -> ScriptFeed
        ensures { result ≡ before_end list }
    {
        ScriptFeed {
            rest: list.into_vec().into_iter(),
            ended: false,
        }
    }
}

impl Feed for ScriptFeed {
    ghost use Rattle.acq_run.specs.Listed.{IsAny, IsBehind, IsEmpty, behind_none, behind_more};

    ghost hands = { IsBehind };

    ghost waits = { IsAny };

    ghost ends = { IsEmpty };

    ghost hands_none = { behind_none };

    ghost hands_more = { behind_more };

    fn next<R: Wait>(&mut self, _rt: &R) -> Fed {
        if self.ended {
            return Fed::End;
        }
        match self.rest.next() {
            Some(Fed::End) | None => {
                self.ended = true;
                Fed::End
            }
            Some(task) => task,
        }
    }

    fn leave(&mut self) {}
}
