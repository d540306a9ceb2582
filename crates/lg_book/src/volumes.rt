//! The volumes that first replies show.

ghost use Rattle.std.specs.Prelude.{◌≡◌, IfOk};

use lg_containers::Shared;
use lg_types::NoMemory;
use lg_views::AccountVolumes;
use std::alloc::Global;

/// The volumes of a transaction right after its entry, as the first reply shows them. Of what has no transaction all four are empty.
#[derive(Drop)]
pub struct FirstVolumes {
    /// Over all transactions of smaller ids.
    pub pre_commit_volumes: Shared<AccountVolumes>,
    /// The same with its own postings.
    pub post_commit_volumes: Shared<AccountVolumes>,
    /// Over all transactions whose pair of effective date and id is smaller.
    pub pre_commit_effective_volumes: Shared<AccountVolumes>,
    /// The same with its own postings.
    pub post_commit_effective_volumes: Shared<AccountVolumes>,
}

impl FirstVolumes {
    ghost use Rattle.lg_book.specs.FirstVolumes.{no_volumes};

    /// The volumes of what has no transaction.
    pub fn none(alloc: Global) -> Result<FirstVolumes, NoMemory>
        ensures { IfOk result (λ volumes. volumes ≡ no_volumes) }
    {
        let none = Shared::new(alloc, AccountVolumes::new(alloc))?;
        Ok(FirstVolumes {
            pre_commit_volumes: none.share()?,
            post_commit_volumes: none.share()?,
            pre_commit_effective_volumes: none.share()?,
            post_commit_effective_volumes: none,
        })
    }
}
