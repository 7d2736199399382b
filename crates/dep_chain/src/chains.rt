ghost use Rattle.std.specs.Prelude.{◌≡◌, ◌<◌, IfErr, IfOk, MatchOption};
ghost use Rattle.media_db.specs.declared.records.Record.{Record};
ghost use Rattle.dep_chain.specs.Chains.{Breaks, IsChain, IsComplete, IsNoChain, IsWhole};

use crate::states::is_complete;
use media_db::{MediaDb, Record};
use room_base::{Memory, Ssid};
use std::alloc::{AllocFailed, Global};

/// Why a set has no chain.
#[derive(Clone, Copy)]
pub enum ChainFault {
    /// This set has no complete record.
    BaseGone(Ssid),
    /// The index of this set was given up.
    Purged(Ssid),
    Memory,
}

impl<T: Drop> From<AllocFailed<T>> for ChainFault {
    ghost use Rattle.std.specs.Prelude.{◌≡◌};
    ghost use Rattle.dep_chain.specs.declared.chains.ChainFault.TheVariants.{Memory};

    ghost from_gives = { λ _ fault. fault ≡ Memory };

    fn from(_: AllocFailed<T>) -> ChainFault {
        ChainFault::Memory
    }
}

/// The set, its base and so on down to one that stands alone. A fault names the first set on the
/// way down that has no complete record or is purged.
pub fn chain(alloc: Global, db: &MediaDb, ssid: Ssid) -> Result<Vec<Ssid>, ChainFault>
    ensures chain { IfOk result (λ ssids. IsChain db.now.records ssid ssids.items) }
    ensures fault { IfErr result (λ fault. IsNoChain db.now.records ssid fault) }
{
    let mut ssids = Vec::new(alloc);
    let mut at = ssid;
    loop {
        let row = whole_record(db, at)?;
        ssids.push(at)?;
        if row.base.0 == 0 {
            return Ok(ssids);
        }
        at = row.base;
    }
}

// The set's record, which is complete and not purged.
fn whole_record(db: &MediaDb, ssid: Ssid) -> Result<&Record, ChainFault>
    ensures whole { IfOk result (λ row. IsWhole db.now.records ssid.0 row.now) }
    ensures base { IfOk result (λ row. row.now.base.0 < ssid.0) }
    ensures breaks { IfErr result (λ fault. Breaks db.now.records ssid fault) }
{
    let Some(row) = complete_record(db, ssid) else {
        return Err(ChainFault::BaseGone(ssid));
    };
    if row.purged {
        return Err(ChainFault::Purged(ssid));
    }
    Ok(row)
}

// The set's record, which is complete.
fn complete_record(db: &MediaDb, ssid: Ssid) -> Option<&Record>
    ensures complete { MatchOption result
        ((row : Record) → ¬ IsComplete db.now.records ssid.0 row)
        (λ row. IsComplete db.now.records ssid.0 row.now) }
    ensures base { MatchOption result (Unit {0}) (λ row. row.now.base.0 < ssid.0) }
{
    let row = db.record(ssid)?;
    if is_complete(row) { Some(row) } else { None }
}
