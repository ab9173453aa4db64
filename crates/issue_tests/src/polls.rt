ghost use Rattle.std.specs.Prelude.{◌≡◌, [], IfOk};
ghost use Rattle.snow_sample.specs.Model.Sampling.{draw_count, AreOfDistinctNodes};

use snow_base::{Id, NodeId, Vote};
use snow_flake::Params;
use snow_poll::{Answered, PollFault, Polls};
use snow_sample::{Draws, Node, Roster, Words};
use std::test::Fail;

// The node with this number in each of its bytes, and this weight.
fn node(number: u8, weight: u64) -> Node {
    Node {
        id: NodeId::from_bytes([number; 20]),
        weight,
    }
}

// All units of these nodes are drawn, in order.
fn drawn(rt: &HostRuntime, nodes: &[Node], k: u32) -> Result<Draws, Fail>
    ensures whole { IfOk result (λ draws. draw_count draws ≡ k) }
    ensures nodes { IfOk result (λ draws. AreOfDistinctNodes draws) }
{
    let roster = Roster::new(rt.alloc(), nodes)?;
    let mut words = Words::new(rt.alloc());
    words.push_all(&[0; 8])?;
    let mut draws = Draws::new(rt.alloc());
    roster.sample(k, &mut words, &mut draws)?;
    Ok(draws)
}

// Begins polls of these draws, until there is a fault.
fn fill(polls: &mut Polls, draws: &Draws) -> Result<(), PollFault>
    requires empty { polls.old.polls ≡ [] }
    requires whole { draw_count draws.now ≡ polls.old.parameters.k }
    requires nodes { AreOfDistinctNodes draws.now }
{
    for number in 0..2048u32 {
        polls.begin(number, draws)?;
    }
    Ok(())
}

#[test]
fn the_table_is_full_at_1024(rt: HostRuntime) -> Result<(), Fail> {
    let nodes = [node(1, 1)];
    let draws = drawn(&rt, &nodes, 1)?;
    let mut polls = Polls::new(rt.alloc(), Params::check(1, 1, 1, 1, 1)?);
    assert_eq!(rt; fill(&mut polls, &draws), Err(PollFault::Full));
    assert_eq!(rt; polls.len(), 1024);
    assert!(rt; polls.take_finished().is_none());
    assert!(rt; polls.awaits(1023, &nodes[0].id) && !polls.awaits(1024, &nodes[0].id));
    Ok(())
}

#[test]
fn polls_leave_in_order_of_beginning(rt: HostRuntime) -> Result<(), Fail> {
    let nodes = [node(1, 1), node(2, 1), node(3, 1)];
    let draws = drawn(&rt, &nodes, 3)?;
    let block = Id::from_bytes([7; 32]);
    let mut polls = Polls::new(rt.alloc(), Params::check(3, 2, 2, 1, 1)?);
    polls.begin(1, &draws)?;
    polls.begin(2, &draws)?;
    for (number, place, id, answer) in [
        (2, 0, Some(block), Answered::Counted),
        (2, 1, Some(block), Answered::Counted),
        (2, 1, None, Answered::NotAwaited),
        (1, 0, None, Answered::Counted),
        (1, 1, None, Answered::Counted),
        (2, 2, Some(block), Answered::Counted),
        (3, 0, None, Answered::NotAwaited),
    ] {
        assert_eq!(rt; polls.vote(number, &nodes[place].id, id), answer);
    }
    let first = polls.take_finished();
    let second = polls.take_finished();
    assert!(rt; first.is_some_and(|closed| closed.number == 1 && closed.votes.total() == 0));
    assert!(rt; second.is_some_and(|closed| closed.number == 2 && closed.votes.total() == 3));
    assert_eq!(rt; polls.len(), 0);
    Ok(())
}

#[test]
fn a_node_that_was_drawn_twice_counts_twice(rt: HostRuntime) -> Result<(), Fail> {
    let nodes = [node(1, 2), node(2, 1)];
    let draws = drawn(&rt, &nodes, 3)?;
    let block = Id::from_bytes([7; 32]);
    let mut polls = Polls::new(rt.alloc(), Params::check(3, 2, 3, 1, 1)?);
    polls.begin(9, &draws)?;
    assert_eq!(rt; polls.vote(9, &nodes[0].id, Some(block)), Answered::Counted);
    assert!(rt; polls.take_finished().is_none());
    assert_eq!(rt; polls.vote(9, &nodes[1].id, None), Answered::Counted);
    let twice = Vote {
        id: block,
        count: 2,
    };
    let closed = polls.take_finished();
    assert!(rt; closed.is_some_and(|closed| closed.votes.entries() == [twice].as_slice()));
    Ok(())
}
