ghost use Rattle.std.specs.Prelude.{◌≤◌, length};

use snow_base::NodeId;
use snow_sample::{Draw, Draws, Node, Roster, RosterFault, SampleFault, Words};
use std::alloc::{AllocError, Global};
use std::test::Fail;

// The node with this number in each of its bytes, and this weight.
fn node(number: u8, weight: u64) -> Node {
    Node {
        id: NodeId::from_bytes([number; 20]),
        weight,
    }
}

// Why there is no roster of these nodes.
fn refusal(alloc: Global, nodes: &[Node]) -> Option<RosterFault> {
    Roster::new(alloc, nodes).err()
}

// Whether there is none for this reason.
fn refuses(alloc: Global, nodes: &[Node], fault: RosterFault) -> bool {
    refusal(alloc, nodes) == Some(fault)
}

#[test]
fn the_first_fault_refuses_a_roster(rt: HostRuntime) {
    let repeated = RosterFault::Duplicate {
        node: node(1, 1).id,
    };
    let weightless = RosterFault::ZeroWeight {
        node: node(2, 0).id,
    };
    let nodes = [node(1, 1), node(2, 0), node(1, 1)];
    assert!(rt; refuses(rt.alloc(), &nodes[..0], RosterFault::Empty));
    assert!(rt; refuses(rt.alloc(), &nodes, repeated));
    assert!(rt; refuses(rt.alloc(), &nodes[..2], weightless));
    let heavy = [node(1, 0x7fff_ffff_ffff_ffff), node(2, 1)];
    assert!(rt; refuses(rt.alloc(), &heavy, RosterFault::TooHeavy));
    assert!(rt; refusal(rt.alloc(), &heavy[..1]).is_none());
}

// How many units of weight a roster has, where it shows the nodes of which it was made.
fn total_of(alloc: Global, nodes: &[Node]) -> Result<Option<u64>, RosterFault> {
    let roster = Roster::new(alloc, nodes)?;
    let total = (roster.nodes() == nodes).then_some(roster.total());
    drop(roster);
    Ok(total)
}

// These words alone.
fn queue(alloc: Global, words: &[u64]) -> Result<Words, AllocError>
    requires { length words.now ≤ 65536 }
{
    let mut queue = Words::new(alloc);
    queue.push_all(words)?;
    Ok(queue)
}

// The one node that is drawn, how often, and how many words are left; none where others are drawn too.
type Told = Option<(NodeId, u32, usize)>;

fn told(
    roster: &Roster,
    k: u32,
    words: &mut Words,
    draws: &mut Draws,
) -> Result<Told, SampleFault> {
    roster.sample(k, words, draws)?;
    match draws.list() {
        [draw] => Ok(Some((draw.node, draw.count, words.len()))),
        _ => Ok(None),
    }
}

// What is told of a sample of these nodes by these words.
fn sampled(alloc: Global, nodes: &[Node], k: u32, words: &[u64]) -> Result<Told, Fail>
    requires { length words.now ≤ 65536 }
{
    let mut words = queue(alloc, words)?;
    let roster = Roster::new(alloc, nodes)?;
    let mut draws = Draws::new(alloc);
    let told = told(&roster, k, &mut words, &mut draws);
    drop(draws);
    drop(roster);
    drop(words);
    Ok(told?)
}

#[test]
fn both_draws_are_of_the_first_node(rt: HostRuntime) -> Result<(), Fail> {
    let nodes = [node(1, 3), node(2, 1)];
    assert!(rt; total_of(rt.alloc(), &nodes)? == Some(4));
    let told = sampled(rt.alloc(), &nodes, 2, &[5, 7])?;
    assert!(rt; told == Some((nodes[0].id, 2, 0)));
    Ok(())
}

// The fault of a sample, how many words are left, and how many draws.
type Fault = (Option<SampleFault>, usize, usize);

fn fault_of(roster: &Roster, k: u32, words: &mut Words, draws: &mut Draws) -> Fault {
    let fault = roster.sample(k, words, draws).err();
    (fault, words.len(), draws.list().len())
}

// One draw.
fn drawn(alloc: Global) -> Result<Draws, AllocError> {
    let node = node(3, 0).id;
    let mut draws = Draws::new(alloc);
    draws.push(Draw { node, count: 1 })?;
    Ok(draws)
}

// The faults of samples of five and of two of these nodes by one word, behind a sample of another.
fn faults_of(alloc: Global, nodes: &[Node]) -> Result<[Fault; 2], Fail> {
    let mut words = queue(alloc, &[5])?;
    let mut draws = drawn(alloc)?;
    let roster = Roster::new(alloc, nodes)?;
    let five = fault_of(&roster, 5, &mut words, &mut draws);
    let two = fault_of(&roster, 2, &mut words, &mut draws);
    draws.clear();
    drop(draws);
    drop(roster);
    drop(words);
    Ok([five, two])
}

#[test]
fn a_fault_leaves_no_draws(rt: HostRuntime) -> Result<(), Fail> {
    let [five, two] = faults_of(rt.alloc(), &[node(1, 3), node(2, 1)])?;
    assert!(rt; five == (Some(SampleFault::TooFewUnits { total: 4 }), 1, 0));
    assert!(rt; two == (Some(SampleFault::WordsOut), 0, 0));
    Ok(())
}

#[test]
fn a_word_is_passed_over(rt: HostRuntime) -> Result<(), Fail> {
    let half = 0x4000_0000_0000_0000;
    let nodes = [node(1, half), node(2, half - 1)];
    let told = sampled(rt.alloc(), &nodes, 1, &[u64::MAX, half])?;
    assert!(rt; told == Some((nodes[1].id, 1, 0)));
    Ok(())
}

#[test]
fn all_draws_are_of_one_node(rt: HostRuntime) -> Result<(), Fail> {
    let nodes = [node(1, 4096)];
    let told = sampled(rt.alloc(), &nodes, 1024, &[0; 1024])?;
    assert!(rt; told == Some((nodes[0].id, 1024, 0)));
    Ok(())
}
