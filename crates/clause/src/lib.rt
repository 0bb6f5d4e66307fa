// The ten encodings as definitions (specs/) and what their clauses mean (proofs/). The code is the choice of an encoding by its two numbers.
#![tactic(auto)]

ghost use Rattle.std.specs.Prelude.{◌≡◌};
ghost use Rattle.clause.specs.Encodings.{picked_of, GivesHard, GivesSide};

use refusal::Refusal;

// The hard part: how the clauses of a box say that it has one value.
#[derive(Clone, Copy)]
pub enum Hard {
    Standard,
    Regular,
}

// The side: how the clauses of a pair charge what it forbids.
#[derive(Clone, Copy)]
pub enum Side {
    Direct,
    Support,
    First,
    Literals,
    Score,
}

#[derive(Clone, Copy)]
pub struct Encoding {
    pub hard: Hard,
    pub side: Side,
}

impl TryFrom<u32> for Hard {
    type Error = Refusal;

    ghost try_from_gives = { GivesHard };

    fn try_from(number: u32) -> Result<Self, Refusal> {
        match number {
            0 => Ok(Hard::Standard),
            1 => Ok(Hard::Regular),
            _ => Err(Refusal::Choice),
        }
    }
}

impl TryFrom<u32> for Side {
    type Error = Refusal;

    ghost try_from_gives = { GivesSide };

    fn try_from(number: u32) -> Result<Self, Refusal> {
        match number {
            1 => Ok(Side::Direct),
            2 => Ok(Side::Support),
            3 => Ok(Side::First),
            4 => Ok(Side::Literals),
            5 => Ok(Side::Score),
            _ => Err(Refusal::Choice),
        }
    }
}

// The encoding with these numbers of document 01.
#[tactic(auto, unfolding(crate::specs::Encodings::picked_of))]
pub fn pick(hard: u32, side: u32) -> Result<Encoding, Refusal>
    ensures { result ≡ picked_of hard side }
{
    let hard = Hard::try_from(hard)?;
    let side = Side::try_from(side)?;
    Ok(Encoding { hard, side })
}
