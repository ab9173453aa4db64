ghost use Rattle.std.specs.Prelude.{◌≡◌, ◌+◌, ◌^◌, ◌<◌, ◌≤◌, length, map, All, vec_capacity};

use snow_base::{Bag, Header, Id, Vote};

/// Votes for a block on their way up its line: they look for their own block first, then for its
/// parent, and so on, past the latest pending block first.
/// Rule: AvalancheGo, snow/consensus/snowman.
#[derive(Clone, Copy)]
pub struct Cursor {
    /// The next block on the line.
    pub sought: Id,
    /// The last block on the line that was passed, at first their own.
    pub passed: Id,
    pub count: u32,
}

impl Cursor {
    ghost use Rattle.snow_board.specs.Kept.Cursors.{started, moved, child_at};

    fn new(vote: &Vote) -> Self
        ensures { result ≡ started vote.now }
    {
        Cursor {
            sought: vote.id,
            passed: vote.id,
            count: vote.count,
        }
    }

    // After a block, which is on the line where it is the one that is sought.
    fn moved(self, block: &Header) -> Self
        ensures { result ≡ moved block.now self }
    {
        if block.id == self.sought {
            Cursor {
                sought: block.parent,
                passed: block.id,
                count: self.count,
            }
        } else {
            self
        }
    }

    // The child of the parent by which the line came to it. No block is its own parent.
    fn child_at(&self, parent: &Id) -> Option<Id>
        ensures { result ≡ child_at parent.now self.now }
    {
        if self.sought == *parent && self.passed != *parent {
            Some(self.passed)
        } else {
            None
        }
    }
}

ghost use Rattle.snow_board.specs.Kept.Cursors.{started, moved, votes_at, cursor_total};
ghost use Rattle.snow_board.specs.Model.Conflict.{votes_on};

/// Puts all votes at their own blocks, in place of what `cursors` held. `cursors` has room for
/// them, so it takes no memory.
/// Rule: AvalancheGo, snow/consensus/snowman.
pub fn start_all(cursors: &mut Vec<Cursor>, votes: &[Vote])
    requires { length votes.now ≤ vec_capacity cursors.old }
    ensures cursors { cursors.new.items ≡ map started votes.now }
    ensures room { vec_capacity cursors.new ≡ vec_capacity cursors.old }
{
    cursors.clear();
    for vote in votes {
        cursors.push_reserved(Cursor::new(vote));
    }
}

/// Moves all votes past a block: those that looked for it look for its parent next.
/// Rule: AvalancheGo, snow/consensus/snowman.
pub fn advance(cursors: &mut [Cursor], block: &Header)
    ensures { cursors.new ≡ map (moved block.now) cursors.old }
{
    for cursor in cursors.iter_mut() {
        *cursor = cursor.moved(block);
    }
}

/// Puts the votes that came to a parent into `children`, by the child through which they came.
/// Their counts are above 0 and add up to less than 2^32. It takes no memory, since the bag has
/// places for them.
/// Rule: AvalancheGo, snow/consensus/snowman.
pub fn gather(cursors: &[Cursor], parent: &Id, children: &mut Bag)
    requires places { length cursors.now ≤ children.old.room + length children.old.list }
    requires counts { All (λ c. 0 < c.count) cursors.now }
    requires total { cursor_total cursors.now < 2 ^ 32 }
    ensures votes { votes_on children.new.list ≡ votes_at cursors.now parent.now }
    ensures places { children.old.room + length children.old.list ≤ children.new.room + length children.new.list }
{
    children.clear();
    for cursor in cursors {
        if let Some(child) = cursor.child_at(parent) {
            let _ = children.add(child, cursor.count);
        }
    }
}
