ghost use Rattle.std.specs.Prelude.{◌+◌, ◌<◌, ◌≤◌, true, false, length, take, drop};
ghost use Rattle.snow_base.specs.Kept.Split.{AgreeBelow, HaveBit};
ghost use Rattle.snow_base.specs.Model.Votes.{IsInBitOrder};

use crate::block::Vote;

/// Returns how many votes have a 0 at `bit`, which is below 256; they stand in front of those with
/// a 1 there. The votes stand in bit order and agree on all bits before `bit`. Each of the two
/// sides is then in bit order and agrees on the bits up to and with `bit`.
/// Rule: AvalancheGo, snow/consensus/snowball.
pub fn split(votes: &[Vote], bit: u16) -> usize
    requires bit { bit < 256 }
    requires order { IsInBitOrder votes.now }
    requires agree { AgreeBelow bit votes.now }
    ensures within { result ≤ length votes.now }
    ensures zeros { HaveBit bit false (take result votes.now) }
    ensures ones { HaveBit bit true (drop result votes.now) }
    ensures zeros_order { IsInBitOrder (take result votes.now) }
    ensures ones_order { IsInBitOrder (drop result votes.now) }
    ensures zeros_agree { AgreeBelow (bit + 1) (take result votes.now) }
    ensures ones_agree { AgreeBelow (bit + 1) (drop result votes.now) }
{
    votes.partition_point(|vote| !vote.id.bit(bit))
}

#[cfg(test)]
mod tests {
    use super::*;
    use crate::bag::Bag;
    use crate::identifier::Id;
    use std::test::Fail;

    #[test]
    fn splits(rt: HostRuntime) -> Result<(), Fail> {
        let mut votes = Bag::new(rt.alloc());
        votes.add(Id::from_bytes([1; 32]), 1)?;
        assert_eq!(rt; votes.total(), 1);
        votes.add(Id::from_bytes([2; 32]), 1)?;
        assert_eq!(rt; split(votes.entries(), 0), 1);
        Ok(())
    }
}
