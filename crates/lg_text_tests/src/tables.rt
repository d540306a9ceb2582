//! Tables of texts.

use std::alloc::Global;
use std::process::Abort;
use std::test::Fail;

/// What reads a text.
pub trait Reader {
    /// What the text is read as, in short.
    fn told(&self, alloc: Global, text: &str) -> Result<String, Fail>;
}

fn check_row<R: Reader>(rt: &impl Abort, alloc: Global, reader: &R, row: &str) -> Result<(), Fail> {
    match row.split_once(" => ") {
        Some((text, expected)) => {
            let told = reader.told(alloc, text)?;
            assert!(rt; told.as_str() == expected, "{row}: {told}");
        }
        None => assert!(rt; row.is_empty() || row.starts_with("# "), "{row}"),
    }
    Ok(())
}

/// Asserts that each text of a table is read as it says. A row is a text and, behind an arrow, what it is read as;
/// the other lines are empty, or comments behind a `#`.
pub fn check<R: Reader>(
    rt: &impl Abort,
    alloc: Global,
    reader: &R,
    table: &str,
) -> Result<(), Fail> {
    for row in table.lines() {
        check_row(rt, alloc, reader, row)?;
    }
    Ok(())
}
