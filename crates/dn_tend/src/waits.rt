//! What comes after the services of a task's lane.

ghost use Rattle.std.specs.Prelude.{◌≡◌, ◌<◌, ◌≤◌, ◌↔◌, ℕ, true, false};
ghost use Rattle.dn_tend.specs.Tend.{seal_in, share_located, unshare_located, located_in, roomed_in, sealed_in};
ghost use Rattle.dn_tend.specs.Fit.{FitsFound, FitsLocate, FitsRoom, FitsSeal, FitsRecord, FitsThen, FitsAfter, FitsNext};
ghost use Rattle.dn_tend.specs.Rank.{rank_then, rank_after, rank_next, records_then, records_after, records_next, has_room_after, has_room_next};
ghost use Rattle.dn_tend.specs.Causes.{IsPlain, WasShared};

use crate::phases::{
    TendAct, TendAfter, TendLocate, TendNext, TendRoom, TendSealing, TendThen, Unshare,
};
use crate::tasks::{TaskAnswer, TendFound, TendSeal};

impl TendLocate {
    /// What comes once the key is located.
    pub fn located(self, lane: u8, found: TendFound) -> TendAfter
        requires phase { FitsLocate lane self }
        requires found { FitsFound found }
        ensures value { result ≡ located_in self found }
        ensures fits { FitsAfter lane result }
        ensures falls { rank_after result < 8 }
        ensures records { records_after result ≤ 1 }
        ensures room { has_room_after result ≡ false }
        ensures plain { (result ≡ TendAfter.Then (TendThen.Done TaskAnswer.Plain))
            ↔ IsPlain self found }
        ensures shared { (cell : ℕ) →
            (result ≡ TendAfter.Then (TendThen.Done (TaskAnswer.Shared cell)))
            ↔ WasShared cell self found }
    {
        let then = match (self, found) {
            (TendLocate::Share { key, look }, TendFound::Nothing) => {
                TendThen::Act(TendAct::ShareGate {
                    key,
                    look,
                    at: None,
                })
            }
            (TendLocate::Share { key, look }, TendFound::At(at)) => {
                TendThen::Act(TendAct::ShareGate {
                    key,
                    look,
                    at: Some(at),
                })
            }
            (TendLocate::Share { .. }, TendFound::Shared { cell, .. }) => {
                TendThen::Done(TaskAnswer::Shared { cell })
            }
            (TendLocate::Unshare { key, look }, TendFound::Shared { cell, opening }) => {
                TendThen::Act(TendAct::UnshareGate {
                    unshare: Unshare {
                        key,
                        look,
                        cell,
                        opening,
                    },
                })
            }
            (TendLocate::Unshare { .. }, TendFound::Nothing | TendFound::At(_)) => {
                TendThen::Done(TaskAnswer::Plain)
            }
        };
        TendAfter::Then(then)
    }
}

impl TendRoom {
    /// What comes once there is room.
    pub fn roomed(self, lane: u8) -> TendThen
        requires { FitsRoom lane self }
        ensures value { result ≡ roomed_in self }
        ensures fits { FitsThen lane result }
        ensures falls { rank_then result < 6 }
        ensures records { records_then result ≤ 1 }
    {
        match self {
            TendRoom::Share { share } => TendThen::Act(TendAct::Count { share }),
            TendRoom::Unshare { unshare, gate } => TendThen::Act(TendAct::Cell { unshare, gate }),
        }
    }
}

impl TendSealing {
    /// The record, and the gate word from which the exchange begins.
    pub fn sealing(self) -> TendSeal
        ensures value { result ≡ seal_in self }
        ensures fits { (lane : ℕ) → FitsSeal lane self → FitsRecord result }
    {
        match self {
            TendSealing::Share { share, cell } => TendSeal::Share {
                cell,
                opening: share.opening,
                gate: share.gate,
            },
            TendSealing::Unshare {
                at,
                stamp,
                gate,
                ..
            } => TendSeal::Unshare { at, stamp, gate },
        }
    }

    /// What comes once it is sealed.
    pub fn sealed(self, lane: u8) -> TendNext
        requires { FitsSeal lane self }
        ensures value { result ≡ sealed_in self }
        ensures fits { FitsNext lane result }
        ensures falls { rank_next result < 2 }
        ensures records { records_next result < 1 }
        ensures room { has_room_next result ≡ false }
    {
        match self {
            TendSealing::Share { share, cell } => TendNext::After(TendAfter::Then(TendThen::Act(
                TendAct::Open { share, cell },
            ))),
            TendSealing::Unshare { .. } => {
                TendNext::After(TendAfter::Then(TendThen::Done(TaskAnswer::Unshared)))
            }
        }
    }
}
