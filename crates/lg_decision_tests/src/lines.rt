//! Calls, written as lines of scripts.

use lg_batch::{Script, read_script};
use lg_pages::Lists;
use lg_types::{Call, Duplicate, Meta, Postings, Transaction, Write};
use lg_views::ScriptLine;
use std::alloc::Global;
use std::test::Fail;

/// The script of a text.
pub fn script_of(alloc: Global, text: &str) -> Result<Script, Fail> {
    Ok(read_script::<Lists>(alloc, text.as_bytes())?)
}

/// The line at a place of a script, counted from 0.
pub fn line_at(script: &Script, place: usize) -> Result<&ScriptLine, Fail> {
    Ok(script.get(place).ok_or("no such line")?)
}

/// The script of one line at midnight of 2024-01-01, whose other members are the text.
pub fn request_of(alloc: Global, members: &str) -> Result<Script, Fail> {
    let line = format!(in alloc; "{{\"now\":\"2024-01-01T00:00:00Z\",{members}}}")?;
    script_of(alloc, line.as_str())
}

/// The write that a call asks for.
pub fn write_of(call: &Call) -> Result<&Write, Fail> {
    match call {
        Call::Write { write, .. } => Ok(write),
        _ => Err("no write".into()),
    }
}

/// The postings of a list in JSON.
pub fn postings_of(alloc: Global, list: &str) -> Result<Postings, Fail> {
    let members = format!(in alloc;
        "\"method\":\"POST\",\"path\":\"/v2/default/transactions\",\"body\":{{\"postings\":{list}}}"
    )?;
    let script = request_of(alloc, members.as_str())?;
    match write_of(&line_at(&script, 0)?.call)? {
        Write::Create { postings, .. } => Ok(postings.copy(alloc)?),
        _ => Err("no creation".into()),
    }
}

/// The transaction of id 1 and timestamp 5, of a list of postings in JSON.
pub fn transaction_of(alloc: Global, list: &str) -> Result<Transaction, Fail> {
    Ok(Transaction {
        id: 1,
        postings: postings_of(alloc, list)?,
        metadata: Meta::new(alloc),
        reference: None,
        timestamp: 5,
    })
}
