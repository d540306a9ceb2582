//! The sheet: what postings that were accepted move, account by account.

ghost use Rattle.std.specs.Prelude.{List, [], ◌++◌, length, OnOk, OnErr, IfErr};
ghost use Rattle.std.specs.List.{flat_map};
ghost use Rattle.lg_types.specs.Moves.{Placed};
ghost use Rattle.lg_types.specs.Trial.{tried_moves, trial_from, reverting, revert_trial_from};
ghost use Rattle.lg_sheet.specs.Working.{SameVolumes};
ghost use Rattle.lg_sheet.specs.Trials.{MayTry, HaveTotals, Accepted, StaysWithin, IsTold, IsLackBelow, IsNoLack};

use crate::lines::Order;
use crate::revert::book_revert;
use crate::stop::SheetStop;
use crate::trial::book;
use crate::working::{Working, open_all};
use lg_base::NoMemory;
use lg_maps::NameMap;
use lg_types::{Balances, Postings};
use std::alloc::Global;
use std::marker::Model;

/// What the accepted postings move of each account and asset, seen as these volumes.
#[derive(Drop)]
pub struct Sheet {
    alloc: Global,
    working: Working,
}

impl Model for Sheet {
    ghost use Rattle.lg_sheet.specs.Working.{Working, working_code};

    ghost Value = { Working };

    ghost coded = { working_code };

    ghost view = { λ s. s.working };
}

impl Sheet {
    /// The sheet that accepted nothing.
    pub fn new(alloc: Global) -> Sheet
        ensures { Accepted result [] }
    {
        Sheet {
            alloc,
            working: NameMap::new(alloc),
        }
    }

    /// Accepts the postings, each over the lent totals, what was accepted before and the postings before it; with
    /// `force` accounts may go below zero.
    pub fn try_postings<B: Balances>(
        &mut self,
        lent: &B,
        postings: &Postings,
        force: bool,
    ) -> Result<(), SheetStop>
        requires { MayTry (B.lends lent.now) (B.totals lent.now) self.old postings.now }
        ensures told { (ms accepted : List Placed) → HaveTotals (B.totals lent.now) postings.now ms → Accepted self.old accepted → IsTold postings.now result (trial_from (ms ++ accepted) 0 postings.now force) }
        ensures accepted { OnOk result ((accepted : List Placed) → Accepted self.old accepted → Accepted self.new (accepted ++ flat_map tried_moves postings.now)) }
        ensures within { OnOk result (StaysWithin (B.totals lent.now) self.old self.new) }
        ensures place { IfErr result (IsLackBelow (length postings.now)) }
        ensures stopped { OnErr result (SameVolumes self.old self.new) }
    {
        match open_all(self.alloc, &mut self.working, postings.as_slice()) {
            Ok(()) => book(
                lent,
                &mut self.working,
                postings.as_slice(),
                Order::Given,
                force,
            ),
            Err(NoMemory) => Err(SheetStop::NoMemory),
        }
    }

    /// Accepts the revert of a transaction with these postings; with `force` accounts may go below zero.
    pub fn try_revert<B: Balances>(
        &mut self,
        lent: &B,
        postings: &Postings,
        force: bool,
    ) -> Result<(), SheetStop>
        requires { MayTry (B.lends lent.now) (B.totals lent.now) self.old postings.now }
        ensures told { (ms accepted : List Placed) → HaveTotals (B.totals lent.now) postings.now ms → Accepted self.old accepted → IsTold (reverting postings.now) result (revert_trial_from (ms ++ accepted) (reverting postings.now) force) }
        ensures accepted { OnOk result ((accepted : List Placed) → Accepted self.old accepted → Accepted self.new (accepted ++ flat_map tried_moves (reverting postings.now))) }
        ensures within { OnOk result (StaysWithin (B.totals lent.now) self.old self.new) }
        ensures funds { IfErr result IsNoLack }
        ensures stopped { OnErr result (SameVolumes self.old self.new) }
    {
        match open_all(self.alloc, &mut self.working, postings.as_slice()) {
            Ok(()) => book_revert(
                self.alloc,
                lent,
                &mut self.working,
                postings.as_slice(),
                force,
            ),
            Err(NoMemory) => Err(SheetStop::NoMemory),
        }
    }
}
