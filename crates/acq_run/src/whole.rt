//! The workers of a recording, before they work and when they have worked.
ghost use Rattle.std.specs.Prelude.{◌≡◌, ◌≤◌, [], length, map, All};
ghost use Rattle.std.specs.Vec.{vec_capacity};
ghost use Rattle.acq_run.specs.Workers.{IsIdle, driven_of};

use crate::work::{Driven, Ended, Worker};
use book_shared::SourceSeat;

/// Gives each seat its feed and its follower, in order. None of them has worked.
pub fn seat_all<F: Drop, L: Drop>(
    workers: &mut Vec<Worker<F, L>>,
    seats: Vec<SourceSeat>,
    feeds: Vec<F>,
    followers: Vec<L>,
)
    requires count { length seats.items ≡ length feeds.items }
    requires followers { length followers.items ≡ length feeds.items }
    requires empty { workers.old.items ≡ [] }
    requires room { length feeds.items ≤ vec_capacity workers.old }
    ensures seats { map (λ worker. worker.seat) workers.new.items ≡ seats.items }
    ensures feeds { map (λ worker. worker.feed) workers.new.items ≡ feeds.items }
    ensures followers { map (λ worker. worker.follower) workers.new.items ≡ followers.items }
    ensures idle { All IsIdle workers.new.items }
{
    let mut seats = seats.into_iter();
    let mut followers = followers.into_iter();
    for feed in feeds {
        match (seats.next(), followers.next()) {
            (Some(seat), Some(follower)) => workers.push_reserved(Worker {
                seat,
                feed,
                follower,
                accepted: 0,
                ended: Ended::Running,
            }),
            _ => unreachable!(),
        }
    }
}

/// Takes the workers apart: their seats, what they did, their feeds, and their followers, in order.
pub fn part_all<F: Drop, L: Drop>(
    workers: Vec<Worker<F, L>>,
    seats: &mut Vec<SourceSeat>,
    all: &mut Vec<Driven>,
    feeds: &mut Vec<F>,
    followers: &mut Vec<L>,
)
    requires empty { (seats.old.items ≡ []) × (all.old.items ≡ []) × (feeds.old.items ≡ []) × (followers.old.items ≡ []) }
    requires room { (length workers.items ≤ vec_capacity seats.old) × (length workers.items ≤ vec_capacity all.old)
        × (length workers.items ≤ vec_capacity feeds.old) × (length workers.items ≤ vec_capacity followers.old) }
    ensures seats { seats.new.items ≡ map (λ worker. worker.seat) workers.items }
    ensures driven { all.new.items ≡ map driven_of workers.items }
    ensures feeds { feeds.new.items ≡ map (λ worker. worker.feed) workers.items }
    ensures followers { followers.new.items ≡ map (λ worker. worker.follower) workers.items }
{
    for worker in workers {
        let Worker {
            seat,
            feed,
            follower,
            accepted,
            ended,
        } = worker;
        seats.push_reserved(seat);
        all.push_reserved(Driven { accepted, ended });
        feeds.push_reserved(feed);
        followers.push_reserved(follower);
    }
}
