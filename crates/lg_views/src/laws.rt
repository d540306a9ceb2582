//! Laws of the definitions. Each function's contract is a law; there is nothing to run.

ghost use Rattle.lg_views.specs.PageLaws.{AccountPages, EntryPages, TransactionPages, VolumePages, LedgerPages};
ghost use Rattle.lg_views.specs.Laws.{OutcomesKeepLogs, OutcomesKeepEntries, LegalLogsFaultless, LegalLogsWellMade, AloneIsLegal, ReadsBack, LinesSplit, RefusedAppendsNothing, ChecksFaultless, ImportedAnswersAlike, AnsweredByOneLog, VolumesWithinLimit, NewMetadataShown};

/// Every outcome of every call, lists of writes and imports included, keeps every ledger's log faultless.
#[tactic(auto, using(crate::proofs::Outcomes::outcomes_keep_logs))]
pub fn outcomes_keep_logs()
    ensures { OutcomesKeepLogs }
{}

/// Every outcome of every good call keeps the entries of every ledger's log well made: names by their grammars, dates in the
/// range of moments, amounts and ids within their limits, hashes of 32 bytes.
#[tactic(auto, using(crate::proofs::MadeLogs::outcomes_keep_entries))]
pub fn outcomes_keep_entries()
    ensures { OutcomesKeepEntries }
{}

/// Every log of a legal history is faultless.
#[tactic(auto, using(crate::proofs::Histories::legal_logs_faultless))]
pub fn legal_logs_faultless()
    ensures { LegalLogsFaultless }
{}

/// In a legal history of good calls, with fewer events than ids, every entry of every log is well made.
#[tactic(auto, using(crate::proofs::Histories::legal_logs_well_made))]
pub fn legal_logs_well_made()
    ensures { LegalLogsWellMade }
{}

/// A history of one thread is legal.
#[tactic(auto, using(crate::proofs::Histories::alone_is_legal))]
pub fn alone_is_legal()
    ensures { AloneIsLegal }
{}

/// The lines of a faultless log read back as the log.
#[tactic(auto, using(crate::proofs::ReadBack::reads_back))]
pub fn reads_back()
    ensures { ReadsBack }
{}

/// Reading some lines and then others goes on from where the first ended.
#[tactic(auto, using(crate::proofs::ReadBack::lines_split))]
pub fn lines_split()
    ensures { LinesSplit }
{}

/// A refused call appends nothing.
#[tactic(auto, using(crate::proofs::Refused::refused_appends_nothing))]
pub fn refused_appends_nothing()
    ensures { RefusedAppendsNothing }
{}

/// What lines of an import come to is faultless.
#[tactic(auto, using(crate::proofs::Imported::checks_faultless))]
pub fn checks_faultless()
    ensures { ChecksFaultless }
{}

/// The log of one ledger, imported into another ledger without entries, answers there alike.
pub fn imported_answers_alike()
    ensures { ImportedAnswersAlike }
{}

/// What is asked of a ledger is answered by its own log alone.
#[tactic(auto, using(crate::proofs::Imported::answered_by_one_log))]
pub fn answered_by_one_log()
    ensures { AnsweredByOneLog }
{}

/// Following `next` from the first page of accounts gives the whole list, each once and in order.
pub fn account_pages()
    ensures { AccountPages }
{}

/// So it does for the entries and the transactions of a faultless log.
pub fn log_pages()
    ensures entries { EntryPages }
    ensures transactions { TransactionPages }
{}

/// So it does for volumes by account and asset, and for ledgers.
#[tactic(auto, using(crate::proofs::ListWalks::volume_pages, crate::proofs::ListWalks::ledger_pages))]
pub fn list_pages()
    ensures volumes { VolumePages }
    ensures ledgers { LedgerPages }
{}

/// In a faultless log no input and no output passes the limit, at any date and in either order.
pub fn volumes_within_limit()
    ensures { VolumesWithinLimit }
{}

/// What the first reply shows of metadata, those of the transaction alone, is what a reading after its entry shows.
pub fn new_metadata_shown()
    ensures { NewMetadataShown }
{}
