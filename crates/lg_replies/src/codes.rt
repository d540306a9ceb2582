//! The codes and the statuses of refusals.

ghost use Rattle.std.specs.Prelude.{◌≡◌};
ghost use Rattle.lg_views.specs.RefusalTexts.{code_of as code_of_refusal, refusal_status as status_of_refusal};

use lg_types::Refusal;

/// The code of a refusal.
pub fn code_of(refusal: &Refusal) -> &'static [u8]
    ensures { result.now ≡ code_of_refusal refusal.now }
{
    match refusal {
        Refusal::NoRoute => b"NO_ROUTE",
        Refusal::Method => b"METHOD_NOT_ALLOWED",
        Refusal::LineJson { .. } => b"VALIDATION",
        Refusal::LineMember { .. } => b"VALIDATION",
        Refusal::BodyJson { .. } => b"VALIDATION",
        Refusal::Member { .. } => b"VALIDATION",
        Refusal::Parameter { .. } => b"VALIDATION",
        Refusal::Token => b"VALIDATION",
        Refusal::BadFilter { .. } => b"VALIDATION",
        Refusal::KeyInput { .. } => b"VALIDATION",
        Refusal::Script => b"COMPILATION_FAILED",
        Refusal::NoPostings => b"NO_POSTINGS",
        Refusal::BulkSize { .. } => b"BULK_SIZE_EXCEEDED",
        Refusal::NoLedger { .. } => b"LEDGER_NOT_FOUND",
        Refusal::LedgerThere { .. } => b"LEDGER_ALREADY_EXISTS",
        Refusal::NoTransaction { .. } => b"NOT_FOUND",
        Refusal::NoAccount { .. } => b"NOT_FOUND",
        Refusal::Already { .. } => b"ALREADY_REVERT",
        Refusal::Lack { .. } => b"INSUFFICIENT_FUND",
        Refusal::Below { .. } => b"INSUFFICIENT_FUND",
        Refusal::Limit { .. } => b"AMOUNT_LIMIT",
        Refusal::SumLimit { .. } => b"AMOUNT_LIMIT",
        Refusal::Used { .. } => b"CONFLICT",
        Refusal::Import { .. } => b"IMPORT",
        Refusal::NotBuilt => b"NOT_BUILT",
        Refusal::OutOfMemory => b"OUT_OF_MEMORY",
    }
}

/// The status of a refusal (RFC 9110, section 15).
pub fn refusal_status(refusal: &Refusal) -> u16
    ensures { result ≡ status_of_refusal refusal.now }
{
    match refusal {
        Refusal::NoRoute => 404,
        Refusal::Method => 405,
        Refusal::LineJson { .. } => 400,
        Refusal::LineMember { .. } => 400,
        Refusal::BodyJson { .. } => 400,
        Refusal::Member { .. } => 400,
        Refusal::Parameter { .. } => 400,
        Refusal::Token => 400,
        Refusal::BadFilter { .. } => 400,
        Refusal::KeyInput { .. } => 400,
        Refusal::Script => 400,
        Refusal::NoPostings => 400,
        Refusal::BulkSize { .. } => 413,
        Refusal::NoLedger { .. } => 404,
        Refusal::LedgerThere { .. } => 400,
        Refusal::NoTransaction { .. } => 404,
        Refusal::NoAccount { .. } => 404,
        Refusal::Already { .. } => 400,
        Refusal::Lack { .. } => 400,
        Refusal::Below { .. } => 400,
        Refusal::Limit { .. } => 400,
        Refusal::SumLimit { .. } => 400,
        Refusal::Used { .. } => 409,
        Refusal::Import { .. } => 400,
        Refusal::NotBuilt => 501,
        Refusal::OutOfMemory => 503,
    }
}
