ghost use Rattle.std.specs.Prelude.{◌≡◌, ◌<◌, true, length};
ghost use Rattle.snow_boot.specs.Clauses.Calling.{AreDrawn};
ghost use Rattle.snow_boot.specs.Model.Asking.{asked_node, asked_one, asked};
ghost use Rattle.snow_boot.specs.Clauses.Requesting.{Asks};

use crate::fetching::Fetching;
use snow_base::{Id, NodeId, Numbers};
use snow_gets::{Get, Gets};
use snow_interval::Kept;
use snow_lines::{Line, Lines};
use snow_sample::Node;
use snow_store::BootStop;

// What the targets miss is asked for, in their order, each once.
pub(crate) fn ask_all<H: Kept>(
    nodes: &[Node],
    fetching: &Fetching<H>,
    requests: &mut Gets,
    numbers: &mut Numbers,
    log: &mut Lines,
) -> Result<(), BootStop>
    requires whole { fetching.now.whole ≡ true }
    requires nodes { 0 < length nodes.now }
    requires drawn { AreDrawn requests.old numbers.old }
    ensures { Asks result log.old log.new requests.new numbers.new (asked nodes.now fetching.now.fetch fetching.now.fetch.targets requests.old numbers.old) }
{
    for target in fetching.targets() {
        if let Err(stop) = ask_one(nodes, requests, numbers, fetching.missed(target), log) {
            return Err(stop);
        }
    }
    Ok(())
}

// What a target misses is asked for, with its ancestors, where no open request names it.
pub(crate) fn ask_one(
    nodes: &[Node],
    requests: &mut Gets,
    numbers: &mut Numbers,
    missed: Option<Id>,
    log: &mut Lines,
) -> Result<(), BootStop>
    requires nodes { 0 < length nodes.now }
    requires drawn { AreDrawn requests.old numbers.old }
    ensures { Asks result log.old log.new requests.new numbers.new (asked_one nodes.now requests.old numbers.old missed) }
{
    let Some(id) = missed else {
        return Ok(());
    };
    if requests.asks_for(&id) {
        return Ok(());
    }
    let Some(number) = numbers.draw() else {
        return Err(BootStop::Requests);
    };
    let node = asked_node(nodes, number);
    requests.open(Get { number, node, id })?;
    log.push(Line::Ancestors { number, node, id })?;
    Ok(())
}

// The node that is asked with a number.
fn asked_node(nodes: &[Node], number: u32) -> NodeId
    requires { 0 < length nodes.now }
    ensures { result ≡ asked_node nodes.now number }
{
    nodes[number as usize % nodes.len()].id
}
