// What the parties send.
#![tactic(auto)]

ghost use Rattle.std.specs.Prelude.{◌≡◌, IfOk};
ghost use Rattle.merkle.specs.Strings.{two_bytes};
ghost use Rattle.machine.specs.Machine.{run};
ghost use Rattle.witness.specs.Witness.{Collides, witness, first_difference};
ghost use Rattle.witness.specs.Laws.{machine};
ghost use Rattle.parties.specs.Parties.{own, side, in_range, LostAt};

mod player;

use dispute::Dispute;
use history::History;
use merkle::{Digester, Preimage};
pub use player::Player;
use std::alloc::AllocError;
use witness::{Party, Witness};

// The side that a party plays; a claimer's case is about 2^n steps.
#[derive(Clone, Copy)]
pub enum Role {
    Claimer(u8),
    Doubter,
}

impl Role {
    pub fn side(self) -> Party
        ensures { result ≡ side self }
    {
        match self {
            Role::Claimer(_) => Party::Claimer,
            Role::Doubter => Party::Doubter,
        }
    }

    // Whether a claimer's n is from 1 to 32.
    fn is_in_range(self) -> bool
        ensures { result ≡ in_range self }
    {
        match self {
            Role::Claimer(n) => (1..=32).contains(&n),
            Role::Doubter => true,
        }
    }
}

// The first two strings in which a shown step differs from the own run's there, what was shown first.
// Where a doubter that kept the rules has lost by that step, they are different strings with one digest.
#[tactic(auto, using(crate::proofs::Lost::found))]
pub fn collision<D: Digester>(
    history: &History,
    digester: &mut D,
    dispute: &Dispute,
    shown: &Witness,
) -> Result<Option<(Preimage, Preimage)>, AllocError>
    ensures value { IfOk result (λ o. two_bytes o ≡ first_difference D.hash shown.now (witness D.hash (run dispute.now.from (own history.now)))) }
    ensures collides { IfOk result (λ o. (LostAt (machine D.hash) (own history.now) dispute.now shown.now → Collides D.hash o)) }
{
    let own = history.witness_at(digester, u64::from(dispute.from))?;
    Ok(shown.difference(digester, &own))
}
