//! One round, shared out among workers: by threads, or share by share.

ghost use Rattle.std.specs.Prelude.{◌≡◌, ◌*◌, ◌<◌, length};
ghost use Rattle.std.specs.Thread.{IsSync};
ghost use Rattle.trounds.specs.RoundNodes.{stations_of, parts_so_far, parts_by, IsReadyFrom};
ghost use Rattle.trounds.specs.AwakeNodes.{RestOutside};

use crate::awake::Awake;
use crate::gate::Gate;
use crate::round_node::RoundNode;
use crate::shared_round::SharedRound;
use std::thread::{Threads, join_mut};

/// The share of one worker, which has entered: each of its nodes that is in the set does its part of the round, and the
/// others rest. Worker 0 has the first `size` nodes of the net, worker 1 the next, and so on.
fn do_share<G: Gate>(
    shared: &SharedRound<'_, G>,
    _worker: usize,
    awake: Awake,
    share: &mut [RoundNode],
)
    requires entered { G.has_entered shared.now.gate.now _worker shared.now.rule.round }
    requires ready { IsReadyFrom _worker shared.now.size share.old }
    requires rest { RestOutside awake share.old }
    ensures parts { parts_so_far share.new ≡ parts_by shared.now.rule (stations_of share.old) }
    ensures rest { RestOutside awake share.new }
{
    let mut left = awake;
    let mut place = left.first();
    while place < share.len() {
        share[place].part_of_round(&shared.rule);
        place = left.after(place);
    }
}

/// A worker enters, and does its share, of which the nodes that are not in the set rest.
fn enter_share<G: Gate>(
    shared: &SharedRound<'_, G>,
    worker: usize,
    awake: Awake,
    share: &mut [RoundNode],
)
    requires ready { IsReadyFrom worker shared.now.size share.old }
    requires rest { RestOutside awake share.old }
    ensures parts { parts_so_far share.new ≡ parts_by shared.now.rule (stations_of share.old) }
    ensures rest { RestOutside awake share.new }
{
    shared.gate.enter(worker, shared.rule.round);
    do_share(shared, worker, awake, share);
}

/// One round of each node, without threads: shares one after another, the first for this worker, the next for the next.
/// The nodes that are not in the set rest.
pub fn do_in_turn<G: Gate>(
    shared: &SharedRound<'_, G>,
    worker: usize,
    awake: Awake,
    share: &mut [RoundNode],
)
    requires ready { IsReadyFrom worker shared.now.size share.old }
    requires rest { RestOutside awake share.old }
    ensures parts { parts_so_far share.new ≡ parts_by shared.now.rule (stations_of share.old) }
    ensures rest { RestOutside awake share.new }
{
    if share.len() <= shared.size {
        enter_share(shared, worker, awake, share);
        return;
    }
    let behind = awake.behind(shared.size);
    let (front, back) = share.split_at_mut(shared.size);
    enter_share(shared, worker, awake, front);
    do_in_turn(shared, worker + 1, behind, back);
}

/// How many shares of `size` nodes the first half takes, where there are at least two.
fn half_of(len: usize, size: usize) -> usize
    requires size { 0 < size }
    requires two { size < len }
    ensures some { 0 < result }
    ensures within { result * size < len }
{
    len.div_ceil(size) / 2
}

/// One round of each node, the first of which is the first of this worker. The nodes that are not in the set rest. The
/// nodes are split down to shares, each done by a thread of its own where one can be started; with one share none is.
#[cycle(split)]
pub fn do_shares<R: Threads + Sync, G: Gate + Sync>(
    rt: &R,
    shared: &SharedRound<'_, G>,
    worker: usize,
    awake: Awake,
    share: &mut [RoundNode],
)
    requires ready { IsReadyFrom worker shared.now.size share.old }
    requires rest { RestOutside awake share.old }
    ensures parts { parts_so_far share.new ≡ parts_by shared.now.rule (stations_of share.old) }
    ensures rest { RestOutside awake share.new }
{
    if share.len() <= shared.size {
        enter_share(shared, worker, awake, share);
        return;
    }
    let half = half_of(share.len(), shared.size);
    let mid = half * shared.size;
    let behind = awake.behind(mid);
    let (front, back) = share.split_at_mut(mid);
    do_both(
        rt,
        shared,
        worker,
        awake,
        front,
        worker + half,
        behind,
        back,
    );
}

/// The shares in front, from this worker on, and those behind them, from the next one on, each with its set.
#[cycle(split)]
fn do_both<R: Threads + Sync, G: Gate + Sync>(
    rt: &R,
    shared: &SharedRound<'_, G>,
    worker: usize,
    awake: Awake,
    front: &mut [RoundNode],
    next: usize,
    behind: Awake,
    back: &mut [RoundNode],
)
    requires some { 0 < length front.old }
    requires more { 0 < length back.old }
    requires front { IsReadyFrom worker shared.now.size front.old }
    requires front_rest { RestOutside awake front.old }
    requires back { IsReadyFrom next shared.now.size back.old }
    requires back_rest { RestOutside behind back.old }
    ensures front { parts_so_far front.new ≡ parts_by shared.now.rule (stations_of front.old) }
    ensures front_rest { RestOutside awake front.new }
    ensures back { parts_so_far back.new ≡ parts_by shared.now.rule (stations_of back.old) }
    ensures back_rest { RestOutside behind back.new }
{
    let mut first = ||
        requires { IsSync R.row × IsSync G.row × IsReadyFrom worker shared.now.size front.now
            × RestOutside awake front.now }
        ensures { (parts_so_far front.exit.now ≡ parts_by shared.entry.now.rule (stations_of front.entry.now))
            × RestOutside awake front.exit.now }
    { do_shares(rt, shared, worker, awake, front) };
    let mut second = ||
        requires { IsSync R.row × IsSync G.row × IsReadyFrom next shared.now.size back.now
            × RestOutside behind back.now }
        ensures { (parts_so_far back.exit.now ≡ parts_by shared.entry.now.rule (stations_of back.entry.now))
            × RestOutside behind back.exit.now }
    { do_shares(rt, shared, next, behind, back) };
    join_mut(rt, &mut first, &mut second);
}
