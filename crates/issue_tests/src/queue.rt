use crate::calls::{
    NOTHING, Tale, ask, bubble, close, count, go, hold, is_next, issue, mark_quiet, named, offer,
    step, step_known, tale, told_flag,
};
use snow_board::Board;
use snow_flake::{Params, Snowball};
use snow_issue::Queue;
use snow_plain::PlainBoard;
use std::alloc::{AllocError, Global};
use std::test::Fail;

// What happens to a queue over a board.
#[derive(Clone, Copy)]
enum Case {
    Hopeless,
    Invalid,
    Bubbling,
    AtOnce,
    Next,
    Resting,
    ByItself,
    Forgetting,
    GetsFill,
    BlocksFill,
    OldestGoes,
}

// What is told in a case, over a board above the block 0.
fn told_in(alloc: Global, case: Case) -> Result<Tale, Fail> {
    let params = Params::check(1, 1, 1, 1, 1)?;
    let board = PlainBoard::<Snowball>::begin(alloc, params, named(0), 0)?;
    Ok(told_over(alloc, case, board)?)
}

// The same, by the queue of a node that begins there. The queue is let go by a call: the steps that let
// go of all that it holds are many, and are proved once then.
fn told_over<B: Board>(alloc: Global, case: Case, mut board: B) -> Result<Tale, AllocError> {
    let mut queue = Queue::new(alloc, named(0))?;
    let told = play(alloc, case, &mut queue, &mut board);
    drop(queue);
    told
}

fn play<B: Board>(
    alloc: Global,
    case: Case,
    queue: &mut Queue,
    board: &mut B,
) -> Result<Tale, AllocError> {
    match case {
        Case::Hopeless => hopeless(alloc, queue, board),
        Case::Invalid => invalid(alloc, queue, board),
        Case::Bubbling => bubbling(queue, board),
        Case::AtOnce => at_once(alloc, queue, board),
        Case::Next => next(alloc, queue, board),
        Case::Resting => resting(alloc, queue, board),
        Case::ByItself => by_itself(alloc, queue, board),
        Case::Forgetting => forgetting(queue, board),
        Case::GetsFill => gets_fill(queue, board),
        Case::BlocksFill => blocks_fill(alloc, queue, board),
        Case::OldestGoes => oldest_goes(alloc, queue, board),
    }
}

fn hopeless<B: Board>(alloc: Global, queue: &mut Queue, board: &B) -> Result<Tale, AllocError> {
    let first = offer(alloc, queue, board, (5, 4, 2))?;
    ask(queue, 1, 4)?;
    let again = offer(alloc, queue, board, (5, 4, 2))?;
    let second = offer(alloc, queue, board, (6, 5, 3))?;
    let waits = step(queue, board);
    let closed = close(queue, 1);
    let steps = (step(queue, board), step(queue, board));
    let after = step_known(queue, board);
    Ok([first, again, second, waits, closed, steps.0, steps.1, after])
}

#[test]
fn hopeless_blocks_go_one_after_another(rt: HostRuntime) -> Result<(), Fail> {
    let told = told_in(rt.alloc(), Case::Hopeless)?;
    let waits = tale(&[
        ('w', 4),
        ('k', 0),
        ('w', 0),
        NOTHING,
        ('c', 4),
        ('h', 5),
        ('h', 6),
    ]);
    assert_eq!(rt; told, waits);
    Ok(())
}

fn invalid<B: Board>(alloc: Global, queue: &mut Queue, board: &B) -> Result<Tale, AllocError> {
    go(queue, 4, Some(0));
    let waits = offer(alloc, queue, board, (5, 4, 2))?;
    let goes = step(queue, board);
    let again = offer(alloc, queue, board, (5, 4, 2))?;
    let low = offer(alloc, queue, board, (6, 4, 0))?;
    Ok(tale(&[waits, goes, again, low]))
}

#[test]
fn a_block_follows_its_invalid_parent(rt: HostRuntime) -> Result<(), Fail> {
    let told = told_in(rt.alloc(), Case::Invalid)?;
    assert_eq!(rt; told, tale(&[('w', 0), ('h', 5), ('i', 0), ('o', 0)]));
    Ok(())
}

fn bubbling<B: Board>(queue: &mut Queue, board: &mut B) -> Result<Tale, AllocError> {
    issue(board, 4, 0)?;
    go(queue, 5, Some(4));
    go(queue, 6, Some(5));
    go(queue, 8, Some(9));
    go(queue, 9, Some(8));
    Ok(tale(&[
        bubble(queue, board, 6),
        bubble(queue, board, 8),
        bubble(queue, board, 0),
    ]))
}

#[test]
fn a_reply_bubbles_twice_and_a_circle_ends(rt: HostRuntime) -> Result<(), Fail> {
    let told = told_in(rt.alloc(), Case::Bubbling)?;
    assert_eq!(rt; told, tale(&[('b', 4), NOTHING, NOTHING]));
    Ok(())
}

// Replies for a pending block, a gone one, the last accepted one, one that is asked for, one that waits,
// and one of which nothing is known.
fn at_once<B: Board>(alloc: Global, queue: &mut Queue, board: &mut B) -> Result<Tale, AllocError> {
    issue(board, 4, 0)?;
    go(queue, 5, Some(4));
    ask(queue, 1, 6)?;
    let waits = offer(alloc, queue, board, (7, 6, 3))?;
    let voted = (count(queue, board, 4), count(queue, board, 5));
    let last = count(queue, board, 0);
    let held = (count(queue, board, 6), count(queue, board, 7));
    let unknown = count(queue, board, 8);
    Ok(tale(&[waits, voted.0, voted.1, last, held.0, held.1, unknown]))
}

#[test]
fn a_reply_counts_as_it_comes(rt: HostRuntime) -> Result<(), Fail> {
    let told = told_in(rt.alloc(), Case::AtOnce)?;
    let counted = [('w', 0), ('b', 4), ('b', 4), NOTHING];
    assert_eq!(rt; told[..4], counted[..]);
    assert_eq!(rt; told[4..7], [('h', 0), ('h', 0), ('h', 0)][..]);
    Ok(())
}

// Blocks on a pending one, on an unknown one, at a height that is no longer to be issued; one that is on
// the board, one that was found invalid; and the first again, once it waits.
fn next<B: Board>(alloc: Global, queue: &mut Queue, board: &mut B) -> Result<Tale, AllocError> {
    issue(board, 4, 0)?;
    go(queue, 5, Some(4));
    let ready = is_next(queue, board, (6, 4, 2));
    let others = (
        is_next(queue, board, (7, 6, 3)),
        is_next(queue, board, (8, 4, 0)),
    );
    let known = (
        is_next(queue, board, (4, 0, 1)),
        is_next(queue, board, (5, 4, 2)),
    );
    let waits = offer(alloc, queue, board, (6, 4, 2))?;
    let again = is_next(queue, board, (6, 4, 2));
    Ok(tale(&[ready, others.0, others.1, known.0, known.1, waits, again]))
}

#[test]
fn a_child_of_the_board_is_next(rt: HostRuntime) -> Result<(), Fail> {
    let told = told_in(rt.alloc(), Case::Next)?;
    let no = ('n', 0);
    assert_eq!(rt; told, tale(&[('y', 0), no, no, no, no, ('w', 0), no]));
    Ok(())
}

// A block was asked for by its child, and is quiet like it once its own parent is asked for; not where a reply
// is held.
fn resting<B: Board>(alloc: Global, queue: &mut Queue, board: &mut B) -> Result<Tale, AllocError> {
    let child = offer(alloc, queue, board, (6, 5, 3))?;
    ask(queue, 1, 5)?;
    let closed = close(queue, 1);
    let block = offer(alloc, queue, board, (5, 4, 2))?;
    let before = mark_quiet(queue, (5, 4, 2));
    ask(queue, 2, 4)?;
    let both = mark_quiet(queue, (5, 4, 2));
    hold(queue, 3, 9)?;
    let held = mark_quiet(queue, (5, 4, 2));
    Ok(tale(&[child, closed, block, before, both, held]))
}

#[test]
fn a_block_rests_once_its_parent_is_asked_for(rt: HostRuntime) -> Result<(), Fail> {
    let told = told_in(rt.alloc(), Case::Resting)?;
    let (yes, no) = (('y', 0), ('n', 0));
    assert_eq!(rt; told, tale(&[('w', 5), ('c', 5), ('w', 4), no, yes, no]));
    Ok(())
}

fn by_itself<B: Board>(
    alloc: Global,
    queue: &mut Queue,
    board: &mut B,
) -> Result<Tale, AllocError> {
    ask(queue, 1, 4)?;
    hold(queue, 3, 4)?;
    let comes = offer(alloc, queue, board, (4, 0, 1))?;
    let ready = step(queue, board);
    issue(board, 4, 0)?;
    let waits = step_known(queue, board);
    let closed = close(queue, 1);
    let last = step(queue, board);
    Ok(tale(&[comes, ready, waits, closed, last]))
}

#[test]
fn a_block_comes_by_itself(rt: HostRuntime) -> Result<(), Fail> {
    let told = told_in(rt.alloc(), Case::ByItself)?;
    let comes = tale(&[('w', 0), ('r', 4), NOTHING, ('c', 4), ('v', 4)]);
    assert_eq!(rt; told, comes);
    Ok(())
}

fn forgetting<B: Board>(queue: &mut Queue, board: &B) -> Result<Tale, AllocError> {
    hold(queue, 5, 8)?;
    hold(queue, 6, 9)?;
    queue.forget(5);
    let steps = (step(queue, board), step(queue, board));
    queue.forget(6);
    Ok(tale(&[steps.0, steps.1]))
}

#[test]
fn a_poll_takes_its_replies(rt: HostRuntime) -> Result<(), Fail> {
    let told = told_in(rt.alloc(), Case::Forgetting)?;
    assert_eq!(rt; told, tale(&[('v', 9), NOTHING]));
    Ok(())
}

// Whether a block is wanted with 4,095 open gets, and with one more.
fn gets_fill<B: Board>(queue: &mut Queue, board: &B) -> Result<Tale, AllocError> {
    for number in 0..4095u16 {
        ask(queue, u32::from(number), 10_000 + number)?;
    }
    let wanted = queue.wants(&named(4), board);
    ask(queue, 5_000, 5)?;
    let more = queue.wants(&named(4), board);
    Ok(tale(&[told_flag(wanted), told_flag(more)]))
}

#[test]
fn no_more_than_4096_gets_are_open(rt: HostRuntime) -> Result<(), Fail> {
    let told = told_in(rt.alloc(), Case::GetsFill)?;
    assert_eq!(rt; told, tale(&[('y', 0), ('n', 0)]));
    Ok(())
}

// What a block is told where 4,096 wait, and the step that then applies.
fn blocks_fill<B: Board>(alloc: Global, queue: &mut Queue, board: &B) -> Result<Tale, AllocError> {
    ask(queue, 9_000, 10_000)?;
    for number in 10_000..14_096u16 {
        offer(alloc, queue, board, (number + 1, number, u64::from(number)))?;
    }
    let full = offer(alloc, queue, board, (5, 4, 2))?;
    let waits = step(queue, board);
    Ok(tale(&[full, waits]))
}

#[test]
fn no_more_than_4096_blocks_wait(rt: HostRuntime) -> Result<(), Fail> {
    let told = told_in(rt.alloc(), Case::BlocksFill)?;
    assert_eq!(rt; told, tale(&[('f', 0), NOTHING]));
    Ok(())
}

// What an invalid block is told where 8,191 others went after it, and where one more did.
fn oldest_goes<B: Board>(alloc: Global, queue: &mut Queue, board: &B) -> Result<Tale, AllocError> {
    go(queue, 1, Some(0));
    for number in 10_000..18_191u16 {
        go(queue, number, None);
    }
    let still = offer(alloc, queue, board, (1, 0, 1))?;
    go(queue, 9, None);
    let gone = offer(alloc, queue, board, (1, 0, 1))?;
    Ok(tale(&[still, gone]))
}

#[test]
fn the_oldest_entry_is_forgotten(rt: HostRuntime) -> Result<(), Fail> {
    let told = told_in(rt.alloc(), Case::OldestGoes)?;
    assert_eq!(rt; told, tale(&[('i', 0), ('w', 0)]));
    Ok(())
}
