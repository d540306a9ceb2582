//! Laws of the definitions of an entry's line and of its reading.

ghost use Rattle.lg_entry_lines.specs.AnswerLaws.{WritesHaveOneAnswer, LedgersHaveOneAnswer, ElementsHaveOneAnswer, LinesHaveOneAnswer};
ghost use Rattle.lg_entry_lines.specs.Laws.{EntryReadsBack, FirstLineReadsBack, ExportReadsBack, WellMadeImportable, LegalLogsImportable, ExportedAnswersAlike, LinesRefuseMembers};

/// A line is refused as an entry's for one of its members alone.
pub fn lines_refuse_members()
    ensures { LinesRefuseMembers }
{}

/// The line of an entry is a JSON text within the limits, of one value, which is read as that entry, in log form 2, and as nothing else.
#[tactic(auto, using(crate::proofs::Entries::entry_reads_back))]
pub fn an_entry_reads_back()
    ensures { EntryReadsBack }
{}

/// So is its line of log form 1, in log form 1.
#[tactic(auto, using(crate::proofs::Entries::first_line_reads_back))]
pub fn a_first_line_reads_back()
    ensures { FirstLineReadsBack }
{}

/// The bytes of an export of a faultless log come, as an import's, to that log and to nothing else.
pub fn an_export_reads_back()
    ensures { ExportReadsBack }
{}

/// A faultless log whose entries are well made is importable: its export, read and checked as bytes, comes to it.
#[tactic(auto, using(crate::proofs::Exports::well_made_importable))]
pub fn well_made_logs_importable()
    ensures { WellMadeImportable }
{}

/// So is every log of a legal history of good calls.
pub fn legal_logs_importable()
    ensures { LegalLogsImportable }
{}

/// What the exported bytes of such a log come to, imported into a ledger without entries, answers there alike.
pub fn exported_answers_alike()
    ensures { ExportedAnswersAlike }
{}

/// What the body of a write, of a ledger or of a list of writes, and a line of a log, are read as is one answer.
#[tactic(auto, using(crate::proofs::OneAnswer::one_write, crate::proofs::OneAnswer::one_ledger, crate::proofs::OneAnswer::one_list, crate::proofs::OneAnswer::one_line))]
pub fn readings_have_one_answer()
    ensures writes { WritesHaveOneAnswer }
    ensures ledgers { LedgersHaveOneAnswer }
    ensures elements { ElementsHaveOneAnswer }
    ensures lines { LinesHaveOneAnswer }
{}
