//! Tokens that another program wrote, and bytes that are no tokens.

use crate::kinds::kind_before;
use crate::lists::told_answer;
use crate::tables::{Reader, check};
use lg_tokens::read_token;
use std::alloc::Global;
use std::test::Fail;

/// Reads tokens behind the name of a list.
struct Tokens;

impl Reader for Tokens {
    fn told(&self, alloc: Global, text: &str) -> Result<String, Fail> {
        let (kind, token) = kind_before(' ', text)?;
        told_answer(alloc, &read_token(alloc, kind, token.as_bytes()))
    }
}

/// Tokens, and the page of each.
const TOKENS: &str = r#"
# {"kind":"ledgers","pageSize":1,"after":7}
ledgers eyJraW5kIjoibGVkZ2VycyIsInBhZ2VTaXplIjoxLCJhZnRlciI6N30 => 1 - 7 false false - - false 0 all
logs eyJraW5kIjoibGVkZ2VycyIsInBhZ2VTaXplIjoxLCJhZnRlciI6N30 => cursor
# {"kind":"transactions","pageSize":15,"pit":"2024-01-01T00:00:00Z","expand":["volumes","effectiveVolumes"],"filter":{"$match":{"id":5}},"after":3}
transactions eyJraW5kIjoidHJhbnNhY3Rpb25zIiwicGFnZVNpemUiOjE1LCJwaXQiOiIyMDI0LTAxLTAxVDAwOjAwOjAwWiIsImV4cGFuZCI6WyJ2b2x1bWVzIiwiZWZmZWN0aXZlVm9sdW1lcyJdLCJmaWx0ZXIiOnsiJG1hdGNoIjp7ImlkIjo1fX0sImFmdGVyIjozfQ => 15 1704067200000000 3 true true - - false 0 another filter
# {"kind":"accounts","pageSize":100,"expand":["effectiveVolumes"],"filter":{"$and":[{"$match":{"metadata[a,b]":"x\"y"}},{"$not":{"$exists":{"metadata":"k"}}}]},"after":"users:001"}
accounts eyJraW5kIjoiYWNjb3VudHMiLCJwYWdlU2l6ZSI6MTAwLCJleHBhbmQiOlsiZWZmZWN0aXZlVm9sdW1lcyJdLCJmaWx0ZXIiOnsiJGFuZCI6W3siJG1hdGNoIjp7Im1ldGFkYXRhW2EsYl0iOiJ4XCJ5In19LHsiJG5vdCI6eyIkZXhpc3RzIjp7Im1ldGFkYXRhIjoiayJ9fX1dfSwiYWZ0ZXIiOiJ1c2VyczowMDEifQ => 100 - users:001 false true - - false 0 another filter
balances eyJraW5kIjoiYWNjb3VudHMiLCJwYWdlU2l6ZSI6MTAwLCJleHBhbmQiOlsiZWZmZWN0aXZlVm9sdW1lcyJdLCJmaWx0ZXIiOnsiJGFuZCI6W3siJG1hdGNoIjp7Im1ldGFkYXRhW2EsYl0iOiJ4XCJ5In19LHsiJG5vdCI6eyIkZXhpc3RzIjp7Im1ldGFkYXRhIjoiayJ9fX1dfSwiYWZ0ZXIiOiJ1c2VyczowMDEifQ => cursor
# {"kind":"volumes","pageSize":10,"startTime":"1970-01-01T00:00:00Z","endTime":"1970-01-01T00:00:00.000001Z","insertionDate":true,"groupBy":4294967295,"after":"world USD/2"}
volumes eyJraW5kIjoidm9sdW1lcyIsInBhZ2VTaXplIjoxMCwic3RhcnRUaW1lIjoiMTk3MC0wMS0wMVQwMDowMDowMFoiLCJlbmRUaW1lIjoiMTk3MC0wMS0wMVQwMDowMDowMC4wMDAwMDFaIiwiaW5zZXJ0aW9uRGF0ZSI6dHJ1ZSwiZ3JvdXBCeSI6NDI5NDk2NzI5NSwiYWZ0ZXIiOiJ3b3JsZCBVU0QvMiJ9 => 10 - world USD/2 false false 0 1 true 4294967295 all
ledgers eyJraW5kIjoidm9sdW1lcyIsInBhZ2VTaXplIjoxMCwic3RhcnRUaW1lIjoiMTk3MC0wMS0wMVQwMDowMDowMFoiLCJlbmRUaW1lIjoiMTk3MC0wMS0wMVQwMDowMDowMC4wMDAwMDFaIiwiaW5zZXJ0aW9uRGF0ZSI6dHJ1ZSwiZ3JvdXBCeSI6NDI5NDk2NzI5NSwiYWZ0ZXIiOiJ3b3JsZCBVU0QvMiJ9 => cursor
"#;

#[test]
fn tokens_of_each_list(rt: HostRuntime) -> Result<(), Fail> {
    check(&rt, rt.alloc(), &Tokens, TOKENS)
}

/// Bytes that are no token of a list of ledgers.
const NO_TOKENS: &str = r#"
ledgers  => cursor
# with padding
ledgers eyJraW5kIjoibGVkZ2VycyIsInBhZ2VTaXplIjoxLCJhZnRlciI6N30= => cursor
# {"kind":"ledgers","pageSize":0,"after":7}
ledgers eyJraW5kIjoibGVkZ2VycyIsInBhZ2VTaXplIjowLCJhZnRlciI6N30 => cursor
# {"kind":"ledgers","pageSize":101,"after":7}
ledgers eyJraW5kIjoibGVkZ2VycyIsInBhZ2VTaXplIjoxMDEsImFmdGVyIjo3fQ => cursor
# {"pageSize":1,"kind":"ledgers","after":7}
ledgers eyJwYWdlU2l6ZSI6MSwia2luZCI6ImxlZGdlcnMiLCJhZnRlciI6N30 => cursor
# {"kind":"ledgers","pageSize":1,"after":"world"}
ledgers eyJraW5kIjoibGVkZ2VycyIsInBhZ2VTaXplIjoxLCJhZnRlciI6IndvcmxkIn0 => cursor
# {"kind":"ledgers","pageSize":1,"after":7} and a space
ledgers eyJraW5kIjoibGVkZ2VycyIsInBhZ2VTaXplIjoxLCJhZnRlciI6N30g => cursor
# {"kind":"ledgers","pageSize":1,"filter":{},"after":7}
ledgers eyJraW5kIjoibGVkZ2VycyIsInBhZ2VTaXplIjoxLCJmaWx0ZXIiOnt9LCJhZnRlciI6N30 => cursor
# {"kind":"ledgers","pageSize":1,"after":18446744073709551616}
ledgers eyJraW5kIjoibGVkZ2VycyIsInBhZ2VTaXplIjoxLCJhZnRlciI6MTg0NDY3NDQwNzM3MDk1NTE2MTZ9 => cursor
"#;

#[test]
fn what_is_no_token(rt: HostRuntime) -> Result<(), Fail> {
    check(&rt, rt.alloc(), &Tokens, NO_TOKENS)
}
