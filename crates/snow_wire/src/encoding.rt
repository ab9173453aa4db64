ghost use Rattle.std.specs.Prelude.{◌≡◌, ◌<◌, ◌^◌, ◌∷◌, ◌++◌, length, All, IfOk, OnOk};
ghost use Rattle.snow_wire.specs.Model.Spelling.{IsWithinLimits, spelling, start, parameters, flag, number, sender, sized, counted};

use crate::event::{Event, Start};
use crate::field::{Field, write_counted, write_sized, write_u32, write_u64};
use snow_base::{Bytes, Id, Items, NodeId};
use std::alloc::{AllocError, Global};

/// Returns the one spelling of an event whose counts and lengths are in their ranges: a block has
/// at most 65,536 bytes, a Poll 1,024 votes, an Ancestors 2,048 blocks, a Line 1,100,000 bytes, and
/// any other list 4,096 items. On want of memory it returns `AllocError`; it refuses nothing else.
/// Rule: this project's own.
pub fn encode(alloc: Global, event: &Event) -> Result<Bytes, AllocError>
    requires { IsWithinLimits event.now }
    ensures { IfOk result (λ bytes. bytes ≡ spelling event.now) }
{
    let mut out = Bytes::new(alloc);
    write_event(&mut out, event)?;
    Ok(out)
}

/// Appends the event's spelling.
#[tactic(auto, unfolding(crate::specs::Model::Spelling::spelling))]
fn write_event(out: &mut Bytes, event: &Event) -> Result<(), AllocError>
    requires { IsWithinLimits event.now }
    ensures { OnOk result (out.new ≡ out.old ++ spelling event.now) }
{
    match event {
        Event::Start(start) => write_start(out, start),
        Event::Block {
            node,
            request,
            bytes,
        } => with_bytes(out, 2, node, *request, bytes),
        Event::Poll { ids } => write_list(out, 3, ids),
        Event::Words { words } => write_list(out, 4, words),
        Event::Chits { node, request, id } => with_id(out, 5, node, *request, id),
        Event::Timeout { node, request } => sent(out, 6, node, *request),
        Event::Frontier { node, request, id } => with_id(out, 7, node, *request, id),
        Event::Accepted { node, request, ids } => with_list(out, 8, node, *request, ids),
        Event::Ancestors {
            node,
            request,
            blocks,
        } => with_list(out, 9, node, *request, blocks),
        Event::Stored { bytes } => text(out, 10, bytes),
        Event::Validators { nodes } => write_list(out, 11, nodes),
        Event::AskQuery { node, request } => sent(out, 12, node, *request),
        Event::AskFrontier { node, request } => sent(out, 13, node, *request),
        Event::AskAccepted { node, request, ids } => with_list(out, 14, node, *request, ids),
        Event::AskAncestors { node, request, id } => with_id(out, 15, node, *request, id),
        Event::AskBlock { node, request, id } => with_id(out, 16, node, *request, id),
        Event::Line { text: line } => text(out, 17, line),
    }
}

/// Appends a tag and a counted list.
fn write_list<T: Field>(out: &mut Bytes, tag: u8, items: &Items<T>) -> Result<(), AllocError>
    requires count { length items.now < 2 ^ 16 }
    requires fits { All (λ x. T.fits x) items.now }
    ensures { OnOk result (out.new ≡ out.old ++ tag ∷ counted T.spelled items.now) }
{
    out.push(tag)?;
    write_counted(out, items)
}

/// Appends a tag, and bytes behind their length.
fn text(out: &mut Bytes, tag: u8, bytes: &Bytes) -> Result<(), AllocError>
    requires { length bytes.now < 2 ^ 32 }
    ensures { OnOk result (out.new ≡ out.old ++ tag ∷ sized bytes.now) }
{
    out.push(tag)?;
    write_sized(out, bytes)
}

/// Appends a tag, a node and a request.
fn sent(out: &mut Bytes, tag: u8, node: &NodeId, request: u32) -> Result<(), AllocError>
    ensures { OnOk result (out.new ≡ out.old ++ tag ∷ sender node.now request) }
{
    out.push(tag)?;
    out.append(node.as_bytes())?;
    write_u32(out, request)
}

/// Appends a tag, a node, a request and an identifier.
fn with_id(out: &mut Bytes, tag: u8, node: &NodeId, request: u32, id: &Id) -> Result<(), AllocError>
    ensures { OnOk result (out.new ≡ out.old ++ tag ∷ sender node.now request ++ id.now) }
{
    sent(out, tag, node, request)?;
    out.append(id.as_bytes())
}

/// Appends a tag, a node, a request, and bytes behind their length.
fn with_bytes(
    out: &mut Bytes,
    tag: u8,
    node: &NodeId,
    request: u32,
    bytes: &Bytes,
) -> Result<(), AllocError>
    requires { length bytes.now < 2 ^ 32 }
    ensures { OnOk result (out.new ≡ out.old ++ tag ∷ sender node.now request ++ sized bytes.now) }
{
    sent(out, tag, node, request)?;
    write_sized(out, bytes)
}

/// Appends a tag, a node, a request and a counted list.
fn with_list<T: Field>(
    out: &mut Bytes,
    tag: u8,
    node: &NodeId,
    request: u32,
    items: &Items<T>,
) -> Result<(), AllocError>
    requires count { length items.now < 2 ^ 16 }
    requires fits { All (λ x. T.fits x) items.now }
    ensures { OnOk result (out.new ≡ out.old ++ tag ∷ sender node.now request ++ counted T.spelled items.now) }
{
    sent(out, tag, node, request)?;
    write_counted(out, items)
}

/// Appends a tag and the fields of a Start.
fn write_start(out: &mut Bytes, s: &Start) -> Result<(), AllocError>
    requires state { length s.now.state < 2 ^ 16 }
    requires nodes { length s.now.nodes < 2 ^ 16 }
    ensures { OnOk result (out.new ≡ out.old ++ 1 ∷ start s.now) }
{
    out.push(1)?;
    write_parameters(out, s)?;
    write_last(out, s)?;
    write_counted(out, &s.state)?;
    write_counted(out, &s.nodes)
}

/// Appends the parameters of the polls.
fn write_parameters(out: &mut Bytes, s: &Start) -> Result<(), AllocError>
    ensures { OnOk result (out.new ≡ out.old ++ parameters s.now) }
{
    write_u32(out, s.k)?;
    write_u32(out, s.alpha_preference)?;
    write_u32(out, s.alpha_confidence)?;
    write_u32(out, s.beta)?;
    write_u32(out, s.repolls)
}

/// Appends whether to bootstrap first, and the last accepted block with its height.
fn write_last(out: &mut Bytes, s: &Start) -> Result<(), AllocError>
    ensures { OnOk result (out.new ≡ out.old ++ flag s.now.boot ∷ s.now.last ++ number 8 s.now.height) }
{
    out.push(u8::from(s.boot))?;
    out.append(s.last.as_bytes())?;
    write_u64(out, s.height)
}
