//! Worked calls with their answers, and what shards and the book are asked after them.

use crate::scenarios::check;
use std::test::Fail;

/// A deposit.
#[test]
fn a_deposit(rt: HostRuntime) -> Result<(), Fail> {
    check(
        &rt,
        rt.alloc(),
        r#"POST 1 /v2/default/transactions - {"postings":[{"source":"world","destination":"users:1","amount":100,"asset":"USD/2"}]} = 1 1 new 200 {"data":{"id":1,"postings":[{"source":"world","destination":"users:1","amount":100,"asset":"USD/2"}],"metadata":{},"timestamp":"2024-01-01T00:00:00Z","insertedAt":"2024-01-01T00:00:00Z","reverted":false,"preCommitVolumes":{"users:1":{"USD/2":{"input":0,"output":0,"balance":0}},"world":{"USD/2":{"input":0,"output":0,"balance":0}}},"postCommitVolumes":{"users:1":{"USD/2":{"input":100,"output":0,"balance":100}},"world":{"USD/2":{"input":0,"output":100,"balance":-100}}},"preCommitEffectiveVolumes":{"users:1":{"USD/2":{"input":0,"output":0,"balance":0}},"world":{"USD/2":{"input":0,"output":0,"balance":0}}},"postCommitEffectiveVolumes":{"users:1":{"USD/2":{"input":100,"output":0,"balance":100}},"world":{"USD/2":{"input":0,"output":100,"balance":-100}}}}}
default stripe users:1 = 2
default stripe world = 7
default moves users:1 USD/2 count = 1
default moves users:1 USD/2 total = (100,0,100)
default moves world USD/2 total = (0,100,-100)
default moves users:2 USD/2 total = none
default moves users:1 EUR total = none
default moves users:1 USD/2 inserted-to 2023-12-30T23:59:59.999999Z = (0,0,0)
default moves users:1 USD/2 inserted-to 2024-01-01T00:00:00Z = (100,0,100)
default moves users:1 USD/2 effective-to 2023-12-31T00:00:00Z = (0,0,0)
default moves users:1 USD/2 effective-to 2024-01-01T00:00:00Z = (100,0,100)
default moves world USD/2 transaction-to 0 = (0,0,0)
default moves world USD/2 transaction-to 1 = (0,100,-100)
default moves users:1 USD/2 rank-before 2024-01-01T00:00:00Z 1 = (0,0,0)
default moves users:1 USD/2 rank-to 2024-01-01T00:00:00Z 1 = (100,0,100)
default moves users:1 USD/2 any 2024-01-01T00:00:00Z 2024-01-01T00:00:00Z inserted = true
default moves users:1 USD/2 any 2024-01-02T00:00:00Z - inserted = false
default metadata users:1 first = none
default known users:1 = true
default known world = true
default known users:2 = false
default addresses users:1 = ["users:1"]
default addresses world = ["world"]
default addresses users:2 = []
default assets users:1 = ["USD/2"]
default assets users:2 = []
default key k1 = none
default reference r = none
default events = 2
default event 0 = {"event":0,"made":{"name":"default","addedAt":"1970-01-01T00:00:00Z","bucket":"_default","metadata":{}}}
default event 1 = {"event":1,"ledger":"default","entry":{"type":"NEW_TRANSACTION","data":{"transaction":{"id":1,"postings":[{"source":"world","destination":"users:1","amount":100,"asset":"USD/2"}],"metadata":{},"timestamp":"2024-01-01T00:00:00Z"},"accountMetadata":{}},"date":"2024-01-01T00:00:00Z","form":2,"id":1,"hash":"KYPhpXUWT2k0VAy5oXGx3lGIycWcBOQO+PJBn7qLsq8="}}
default event 2 = none
default ledger = {"name":"default","addedAt":"1970-01-01T00:00:00Z","bucket":"_default","metadata":{}}
default entries = 1
default transactions = 1
default entry 0 = none
default entry 1 = {"type":"NEW_TRANSACTION","data":{"transaction":{"id":1,"postings":[{"source":"world","destination":"users:1","amount":100,"asset":"USD/2"}],"metadata":{},"timestamp":"2024-01-01T00:00:00Z"},"accountMetadata":{}},"date":"2024-01-01T00:00:00Z","form":2,"id":1,"hash":"KYPhpXUWT2k0VAy5oXGx3lGIycWcBOQO+PJBn7qLsq8="}
default entry 2 = none
default transaction 0 = none
default transaction 1 = {"id":1,"postings":[{"source":"world","destination":"users:1","amount":100,"asset":"USD/2"}],"metadata":{},"timestamp":"2024-01-01T00:00:00Z"}
default transaction 2 = none
default inserted 1 = 2024-01-01T00:00:00Z
default inserted 2 = none
default reverted-by 1 = none
default transaction-metadata 1 first = 2024-01-01T00:00:00Z
default transaction-metadata 1 at - = {}
default transaction-metadata 1 value tier - = none
default transaction-metadata 2 first = none
default head = 2983e1a575164f6934540cb9a171b1de5188c9c59c04e40ef8f2419fba8bb2af
default date-for 2023-12-31T00:00:00Z = 2024-01-01T00:00:00Z
default date-for 2024-01-02T00:00:00Z = 2024-01-02T00:00:00Z
default first-reply 1 = {"data":{"id":1,"postings":[{"source":"world","destination":"users:1","amount":100,"asset":"USD/2"}],"metadata":{},"timestamp":"2024-01-01T00:00:00Z","insertedAt":"2024-01-01T00:00:00Z","reverted":false,"preCommitVolumes":{"users:1":{"USD/2":{"input":0,"output":0,"balance":0}},"world":{"USD/2":{"input":0,"output":0,"balance":0}}},"postCommitVolumes":{"users:1":{"USD/2":{"input":100,"output":0,"balance":100}},"world":{"USD/2":{"input":0,"output":100,"balance":-100}}},"preCommitEffectiveVolumes":{"users:1":{"USD/2":{"input":0,"output":0,"balance":0}},"world":{"USD/2":{"input":0,"output":0,"balance":0}}},"postCommitEffectiveVolumes":{"users:1":{"USD/2":{"input":100,"output":0,"balance":100}},"world":{"USD/2":{"input":0,"output":100,"balance":-100}}}}}
default first-reply 2 = none
other stripe users:1 = 1
other moves users:1 USD/2 total = none
other metadata users:1 first = none
other known users:1 = false
other addresses users:1 = []
other assets users:1 = []
other key k1 = none
other reference r = none
other events = 2
other ledger = none
other entries = none
other transactions = none
other entry 1 = none
other transaction 1 = none
other inserted 1 = none
other reverted-by 1 = none
other transaction-metadata 1 first = none
other head = none
other date-for 2023-12-31T00:00:00Z = 2023-12-31T00:00:00Z
other first-reply 1 = none"#,
    )
}

/// A deposit, a payment of more than was deposited, and a payment.
#[test]
fn a_payment(rt: HostRuntime) -> Result<(), Fail> {
    check(
        &rt,
        rt.alloc(),
        r#"POST 1 /v2/default/transactions - {"postings":[{"source":"world","destination":"users:1","amount":100,"asset":"USD/2"}]} = 1 1 new 200 {"data":{"id":1,"postings":[{"source":"world","destination":"users:1","amount":100,"asset":"USD/2"}],"metadata":{},"timestamp":"2024-01-01T00:00:00Z","insertedAt":"2024-01-01T00:00:00Z","reverted":false,"preCommitVolumes":{"users:1":{"USD/2":{"input":0,"output":0,"balance":0}},"world":{"USD/2":{"input":0,"output":0,"balance":0}}},"postCommitVolumes":{"users:1":{"USD/2":{"input":100,"output":0,"balance":100}},"world":{"USD/2":{"input":0,"output":100,"balance":-100}}},"preCommitEffectiveVolumes":{"users:1":{"USD/2":{"input":0,"output":0,"balance":0}},"world":{"USD/2":{"input":0,"output":0,"balance":0}}},"postCommitEffectiveVolumes":{"users:1":{"USD/2":{"input":100,"output":0,"balance":100}},"world":{"USD/2":{"input":0,"output":100,"balance":-100}}}}}
POST 2 /v2/default/transactions - {"postings":[{"source":"users:1","destination":"users:2","amount":101,"asset":"USD/2"}]} = 2 0 new 400 {"errorCode":"INSUFFICIENT_FUND","errorMessage":"posting 0: users:1 has 100 USD/2, needs 101"}
POST 2 /v2/default/transactions - {"postings":[{"source":"users:1","destination":"users:2","amount":100,"asset":"USD/2"}]} = 2 1 new 200 {"data":{"id":2,"postings":[{"source":"users:1","destination":"users:2","amount":100,"asset":"USD/2"}],"metadata":{},"timestamp":"2024-01-02T00:00:00Z","insertedAt":"2024-01-02T00:00:00Z","reverted":false,"preCommitVolumes":{"users:1":{"USD/2":{"input":100,"output":0,"balance":100}},"users:2":{"USD/2":{"input":0,"output":0,"balance":0}}},"postCommitVolumes":{"users:1":{"USD/2":{"input":100,"output":100,"balance":0}},"users:2":{"USD/2":{"input":100,"output":0,"balance":100}}},"preCommitEffectiveVolumes":{"users:1":{"USD/2":{"input":100,"output":0,"balance":100}},"users:2":{"USD/2":{"input":0,"output":0,"balance":0}}},"postCommitEffectiveVolumes":{"users:1":{"USD/2":{"input":100,"output":100,"balance":0}},"users:2":{"USD/2":{"input":100,"output":0,"balance":100}}}}}
default moves users:1 USD/2 count = 2
default moves users:1 USD/2 total = (100,100,0)
default moves users:2 USD/2 count = 1
default moves users:2 USD/2 total = (100,0,100)
default moves world USD/2 total = (0,100,-100)
default moves users:1 USD/2 inserted-to 2024-01-01T12:00:00Z = (100,0,100)
default moves users:2 USD/2 inserted-to 2024-01-01T12:00:00Z = (0,0,0)
default moves users:2 USD/2 effective-to 2024-01-02T00:00:00Z = (100,0,100)
default moves users:1 USD/2 transaction-to 1 = (100,0,100)
default moves users:1 USD/2 transaction-to 2 = (100,100,0)
default moves users:1 USD/2 between 2024-01-02T00:00:00Z - inserted = (0,100,-100)
default moves users:1 USD/2 between - 2024-01-01T00:00:00Z effective = (100,0,100)
default stripe users:2 = 15
default known users:2 = true
default addresses users:2 = ["users:2"]
default assets users:2 = ["USD/2"]
default reference users:2 = none
default events = 3
default entries = 2
default transactions = 2
default transaction 2 = {"id":2,"postings":[{"source":"users:1","destination":"users:2","amount":100,"asset":"USD/2"}],"metadata":{},"timestamp":"2024-01-02T00:00:00Z"}
default transaction 3 = none
default inserted 2 = 2024-01-02T00:00:00Z
default inserted 3 = none
default entry 2 = {"type":"NEW_TRANSACTION","data":{"transaction":{"id":2,"postings":[{"source":"users:1","destination":"users:2","amount":100,"asset":"USD/2"}],"metadata":{},"timestamp":"2024-01-02T00:00:00Z"},"accountMetadata":{}},"date":"2024-01-02T00:00:00Z","form":2,"id":2,"hash":"0TQWVrA0dbZTs6j9YzLqtEAYhYL8yBFSb/VHFgEBc6g="}
default entry 3 = none
default date-for 2024-01-01T00:00:00Z = 2024-01-02T00:00:00Z
default head = d1341656b03475b653b3a8fd6332eab440188582fcc811526ff54716010173a8
default first-reply 2 = {"data":{"id":2,"postings":[{"source":"users:1","destination":"users:2","amount":100,"asset":"USD/2"}],"metadata":{},"timestamp":"2024-01-02T00:00:00Z","insertedAt":"2024-01-02T00:00:00Z","reverted":false,"preCommitVolumes":{"users:1":{"USD/2":{"input":100,"output":0,"balance":100}},"users:2":{"USD/2":{"input":0,"output":0,"balance":0}}},"postCommitVolumes":{"users:1":{"USD/2":{"input":100,"output":100,"balance":0}},"users:2":{"USD/2":{"input":100,"output":0,"balance":100}}},"preCommitEffectiveVolumes":{"users:1":{"USD/2":{"input":100,"output":0,"balance":100}},"users:2":{"USD/2":{"input":0,"output":0,"balance":0}}},"postCommitEffectiveVolumes":{"users:1":{"USD/2":{"input":100,"output":100,"balance":0}},"users:2":{"USD/2":{"input":100,"output":0,"balance":100}}}}}
default first-reply 1 = {"data":{"id":1,"postings":[{"source":"world","destination":"users:1","amount":100,"asset":"USD/2"}],"metadata":{},"timestamp":"2024-01-01T00:00:00Z","insertedAt":"2024-01-01T00:00:00Z","reverted":false,"preCommitVolumes":{"users:1":{"USD/2":{"input":0,"output":0,"balance":0}},"world":{"USD/2":{"input":0,"output":0,"balance":0}}},"postCommitVolumes":{"users:1":{"USD/2":{"input":100,"output":0,"balance":100}},"world":{"USD/2":{"input":0,"output":100,"balance":-100}}},"preCommitEffectiveVolumes":{"users:1":{"USD/2":{"input":0,"output":0,"balance":0}},"world":{"USD/2":{"input":0,"output":0,"balance":0}}},"postCommitEffectiveVolumes":{"users:1":{"USD/2":{"input":100,"output":0,"balance":100}},"world":{"USD/2":{"input":0,"output":100,"balance":-100}}}}}"#,
    )
}

/// Two postings, the second of what the first brings.
#[test]
fn postings_in_a_chain(rt: HostRuntime) -> Result<(), Fail> {
    check(
        &rt,
        rt.alloc(),
        r#"POST 1 /v2/default/transactions - {"postings":[{"source":"world","destination":"a","amount":50,"asset":"EUR"},{"source":"a","destination":"b","amount":50,"asset":"EUR"}]} = 1 1 new 200 {"data":{"id":1,"postings":[{"source":"world","destination":"a","amount":50,"asset":"EUR"},{"source":"a","destination":"b","amount":50,"asset":"EUR"}],"metadata":{},"timestamp":"2024-01-01T00:00:00Z","insertedAt":"2024-01-01T00:00:00Z","reverted":false,"preCommitVolumes":{"a":{"EUR":{"input":0,"output":0,"balance":0}},"b":{"EUR":{"input":0,"output":0,"balance":0}},"world":{"EUR":{"input":0,"output":0,"balance":0}}},"postCommitVolumes":{"a":{"EUR":{"input":50,"output":50,"balance":0}},"b":{"EUR":{"input":50,"output":0,"balance":50}},"world":{"EUR":{"input":0,"output":50,"balance":-50}}},"preCommitEffectiveVolumes":{"a":{"EUR":{"input":0,"output":0,"balance":0}},"b":{"EUR":{"input":0,"output":0,"balance":0}},"world":{"EUR":{"input":0,"output":0,"balance":0}}},"postCommitEffectiveVolumes":{"a":{"EUR":{"input":50,"output":50,"balance":0}},"b":{"EUR":{"input":50,"output":0,"balance":50}},"world":{"EUR":{"input":0,"output":50,"balance":-50}}}}}
default moves a EUR count = 2
default moves a EUR total = (50,50,0)
default moves b EUR total = (50,0,50)
default moves world EUR total = (0,50,-50)
default moves a EUR transaction-to 0 = (0,0,0)
default moves a EUR transaction-to 1 = (50,50,0)
default moves a USD/2 count = none
default stripe a = 0
default stripe b = 9
default addresses a = ["a"]
default addresses b = ["b"]
default addresses c = []
default known c = false
default assets a = ["EUR"]
default assets c = []
default events = 2
default event 1 = {"event":1,"ledger":"default","entry":{"type":"NEW_TRANSACTION","data":{"transaction":{"id":1,"postings":[{"source":"world","destination":"a","amount":50,"asset":"EUR"},{"source":"a","destination":"b","amount":50,"asset":"EUR"}],"metadata":{},"timestamp":"2024-01-01T00:00:00Z"},"accountMetadata":{}},"date":"2024-01-01T00:00:00Z","form":2,"id":1,"hash":"7sDsDeivQCFTZiTvuZJ6tLYTGX5NiDbAQm7WrrrD1zI="}}
default entries = 1
default transactions = 1
default transaction 1 = {"id":1,"postings":[{"source":"world","destination":"a","amount":50,"asset":"EUR"},{"source":"a","destination":"b","amount":50,"asset":"EUR"}],"metadata":{},"timestamp":"2024-01-01T00:00:00Z"}
default reverted-by 1 = none
default first-reply 1 = {"data":{"id":1,"postings":[{"source":"world","destination":"a","amount":50,"asset":"EUR"},{"source":"a","destination":"b","amount":50,"asset":"EUR"}],"metadata":{},"timestamp":"2024-01-01T00:00:00Z","insertedAt":"2024-01-01T00:00:00Z","reverted":false,"preCommitVolumes":{"a":{"EUR":{"input":0,"output":0,"balance":0}},"b":{"EUR":{"input":0,"output":0,"balance":0}},"world":{"EUR":{"input":0,"output":0,"balance":0}}},"postCommitVolumes":{"a":{"EUR":{"input":50,"output":50,"balance":0}},"b":{"EUR":{"input":50,"output":0,"balance":50}},"world":{"EUR":{"input":0,"output":50,"balance":-50}}},"preCommitEffectiveVolumes":{"a":{"EUR":{"input":0,"output":0,"balance":0}},"b":{"EUR":{"input":0,"output":0,"balance":0}},"world":{"EUR":{"input":0,"output":0,"balance":0}}},"postCommitEffectiveVolumes":{"a":{"EUR":{"input":50,"output":50,"balance":0}},"b":{"EUR":{"input":50,"output":0,"balance":50}},"world":{"EUR":{"input":0,"output":50,"balance":-50}}}}}"#,
    )
}

/// Two postings, the first of what the second would bring.
#[test]
fn postings_in_the_wrong_order(rt: HostRuntime) -> Result<(), Fail> {
    check(
        &rt,
        rt.alloc(),
        r#"POST 1 /v2/default/transactions - {"postings":[{"source":"a","destination":"b","amount":50,"asset":"EUR"},{"source":"world","destination":"a","amount":50,"asset":"EUR"}]} = 1 0 new 400 {"errorCode":"INSUFFICIENT_FUND","errorMessage":"posting 0: a has 0 EUR, needs 50"}
default moves a EUR total = none
default moves b EUR total = none
default moves world EUR total = none
default known a = false
default known world = false
default addresses a = []
default assets a = []
default key k1 = none
default reference r = none
default metadata a first = none
default metadata a at - = none
default metadata a value tier - = none
default events = 1
default event 1 = none
default ledger = {"name":"default","addedAt":"1970-01-01T00:00:00Z","bucket":"_default","metadata":{}}
default entries = 0
default transactions = 0
default entry 1 = none
default transaction 1 = none
default inserted 1 = none
default reverted-by 1 = none
default transaction-metadata 1 first = none
default head = none
default date-for 2024-01-01T00:00:00Z = 2024-01-01T00:00:00Z
default first-reply 1 = none"#,
    )
}

/// A deposit, a payment that lacks, a payment, and a deposit of an earlier effective date.
#[test]
fn an_earlier_effective_date(rt: HostRuntime) -> Result<(), Fail> {
    check(
        &rt,
        rt.alloc(),
        r#"POST 1 /v2/default/transactions - {"postings":[{"source":"world","destination":"users:1","amount":100,"asset":"USD/2"}]} = 1 1 new 200 {"data":{"id":1,"postings":[{"source":"world","destination":"users:1","amount":100,"asset":"USD/2"}],"metadata":{},"timestamp":"2024-01-01T00:00:00Z","insertedAt":"2024-01-01T00:00:00Z","reverted":false,"preCommitVolumes":{"users:1":{"USD/2":{"input":0,"output":0,"balance":0}},"world":{"USD/2":{"input":0,"output":0,"balance":0}}},"postCommitVolumes":{"users:1":{"USD/2":{"input":100,"output":0,"balance":100}},"world":{"USD/2":{"input":0,"output":100,"balance":-100}}},"preCommitEffectiveVolumes":{"users:1":{"USD/2":{"input":0,"output":0,"balance":0}},"world":{"USD/2":{"input":0,"output":0,"balance":0}}},"postCommitEffectiveVolumes":{"users:1":{"USD/2":{"input":100,"output":0,"balance":100}},"world":{"USD/2":{"input":0,"output":100,"balance":-100}}}}}
POST 2 /v2/default/transactions - {"postings":[{"source":"users:1","destination":"users:2","amount":101,"asset":"USD/2"}]} = 2 0 new 400 {"errorCode":"INSUFFICIENT_FUND","errorMessage":"posting 0: users:1 has 100 USD/2, needs 101"}
POST 2 /v2/default/transactions - {"postings":[{"source":"users:1","destination":"users:2","amount":100,"asset":"USD/2"}]} = 2 1 new 200 {"data":{"id":2,"postings":[{"source":"users:1","destination":"users:2","amount":100,"asset":"USD/2"}],"metadata":{},"timestamp":"2024-01-02T00:00:00Z","insertedAt":"2024-01-02T00:00:00Z","reverted":false,"preCommitVolumes":{"users:1":{"USD/2":{"input":100,"output":0,"balance":100}},"users:2":{"USD/2":{"input":0,"output":0,"balance":0}}},"postCommitVolumes":{"users:1":{"USD/2":{"input":100,"output":100,"balance":0}},"users:2":{"USD/2":{"input":100,"output":0,"balance":100}}},"preCommitEffectiveVolumes":{"users:1":{"USD/2":{"input":100,"output":0,"balance":100}},"users:2":{"USD/2":{"input":0,"output":0,"balance":0}}},"postCommitEffectiveVolumes":{"users:1":{"USD/2":{"input":100,"output":100,"balance":0}},"users:2":{"USD/2":{"input":100,"output":0,"balance":100}}}}}
POST 3 /v2/default/transactions - {"postings":[{"source":"world","destination":"users:1","amount":7,"asset":"USD/2"}],"timestamp":"2023-12-31T00:00:00Z"} = 3 1 new 200 {"data":{"id":3,"postings":[{"source":"world","destination":"users:1","amount":7,"asset":"USD/2"}],"metadata":{},"timestamp":"2023-12-31T00:00:00Z","insertedAt":"2024-01-03T00:00:00Z","reverted":false,"preCommitVolumes":{"users:1":{"USD/2":{"input":100,"output":100,"balance":0}},"world":{"USD/2":{"input":0,"output":100,"balance":-100}}},"postCommitVolumes":{"users:1":{"USD/2":{"input":107,"output":100,"balance":7}},"world":{"USD/2":{"input":0,"output":107,"balance":-107}}},"preCommitEffectiveVolumes":{"users:1":{"USD/2":{"input":0,"output":0,"balance":0}},"world":{"USD/2":{"input":0,"output":0,"balance":0}}},"postCommitEffectiveVolumes":{"users:1":{"USD/2":{"input":7,"output":0,"balance":7}},"world":{"USD/2":{"input":0,"output":7,"balance":-7}}}}}
default moves users:1 USD/2 total = (107,100,7)
default moves world USD/2 total = (0,107,-107)
default moves users:2 USD/2 total = (100,0,100)
default moves users:1 USD/2 transaction-to 2 = (100,100,0)
default moves users:1 USD/2 transaction-to 3 = (107,100,7)
default moves world USD/2 transaction-to 2 = (0,100,-100)
default moves users:1 USD/2 rank-before 2023-12-31T00:00:00Z 3 = (0,0,0)
default moves users:1 USD/2 rank-to 2023-12-31T00:00:00Z 3 = (7,0,7)
default moves world USD/2 rank-to 2023-12-31T00:00:00Z 3 = (0,7,-7)
default moves users:1 USD/2 rank-before 2024-01-02T00:00:00Z 2 = (107,0,107)
default moves users:1 USD/2 rank-to 2024-01-02T00:00:00Z 2 = (107,100,7)
default moves users:2 USD/2 rank-before 2024-01-02T00:00:00Z 2 = (0,0,0)
default moves users:2 USD/2 rank-to 2024-01-02T00:00:00Z 2 = (100,0,100)
default moves users:1 USD/2 inserted-to 2024-01-01T12:00:00Z = (100,0,100)
default moves users:1 USD/2 effective-to 2024-01-01T12:00:00Z = (107,0,107)
default moves users:1 USD/2 inserted-to 2024-01-02T00:00:00Z = (100,100,0)
default moves users:1 USD/2 effective-to 2023-12-31T00:00:00Z = (7,0,7)
default moves users:1 USD/2 between 2024-01-01T00:00:00Z 2024-01-02T00:00:00Z effective = (100,100,0)
default moves users:1 USD/2 between 2024-01-03T00:00:00Z 2024-01-03T00:00:00Z inserted = (7,0,7)
default moves users:1 USD/2 between 2024-01-03T00:00:00Z 2024-01-01T00:00:00Z effective = (0,0,0)
default moves users:1 USD/2 any 2023-12-31T00:00:00Z 2023-12-31T00:00:00Z effective = true
default moves users:1 USD/2 any 2023-12-31T00:00:00Z 2023-12-31T00:00:00Z inserted = false
default events = 4
default transaction 3 = {"id":3,"postings":[{"source":"world","destination":"users:1","amount":7,"asset":"USD/2"}],"metadata":{},"timestamp":"2023-12-31T00:00:00Z"}
default inserted 3 = 2024-01-03T00:00:00Z
default entry 3 = {"type":"NEW_TRANSACTION","data":{"transaction":{"id":3,"postings":[{"source":"world","destination":"users:1","amount":7,"asset":"USD/2"}],"metadata":{},"timestamp":"2023-12-31T00:00:00Z"},"accountMetadata":{}},"date":"2024-01-03T00:00:00Z","form":2,"id":3,"hash":"nlk711fEg+DRwE3TCVkhMLXSxlpOlaeejVibuZo31C0="}
default date-for 2024-01-02T00:00:00Z = 2024-01-03T00:00:00Z
default date-for 2024-01-04T00:00:00Z = 2024-01-04T00:00:00Z
default first-reply 3 = {"data":{"id":3,"postings":[{"source":"world","destination":"users:1","amount":7,"asset":"USD/2"}],"metadata":{},"timestamp":"2023-12-31T00:00:00Z","insertedAt":"2024-01-03T00:00:00Z","reverted":false,"preCommitVolumes":{"users:1":{"USD/2":{"input":100,"output":100,"balance":0}},"world":{"USD/2":{"input":0,"output":100,"balance":-100}}},"postCommitVolumes":{"users:1":{"USD/2":{"input":107,"output":100,"balance":7}},"world":{"USD/2":{"input":0,"output":107,"balance":-107}}},"preCommitEffectiveVolumes":{"users:1":{"USD/2":{"input":0,"output":0,"balance":0}},"world":{"USD/2":{"input":0,"output":0,"balance":0}}},"postCommitEffectiveVolumes":{"users:1":{"USD/2":{"input":7,"output":0,"balance":7}},"world":{"USD/2":{"input":0,"output":7,"balance":-7}}}}}
default first-reply 2 = {"data":{"id":2,"postings":[{"source":"users:1","destination":"users:2","amount":100,"asset":"USD/2"}],"metadata":{},"timestamp":"2024-01-02T00:00:00Z","insertedAt":"2024-01-02T00:00:00Z","reverted":false,"preCommitVolumes":{"users:1":{"USD/2":{"input":100,"output":0,"balance":100}},"users:2":{"USD/2":{"input":0,"output":0,"balance":0}}},"postCommitVolumes":{"users:1":{"USD/2":{"input":100,"output":100,"balance":0}},"users:2":{"USD/2":{"input":100,"output":0,"balance":100}}},"preCommitEffectiveVolumes":{"users:1":{"USD/2":{"input":100,"output":0,"balance":100}},"users:2":{"USD/2":{"input":0,"output":0,"balance":0}}},"postCommitEffectiveVolumes":{"users:1":{"USD/2":{"input":100,"output":100,"balance":0}},"users:2":{"USD/2":{"input":100,"output":0,"balance":100}}}}}"#,
    )
}

/// Three deposits of one effective date.
#[test]
fn one_effective_date(rt: HostRuntime) -> Result<(), Fail> {
    check(
        &rt,
        rt.alloc(),
        r#"POST 1 /v2/default/transactions - {"postings":[{"source":"world","destination":"a","amount":10,"asset":"EUR"}],"timestamp":"2024-01-01T00:00:00Z"} = 1 1 new 200 {"data":{"id":1,"postings":[{"source":"world","destination":"a","amount":10,"asset":"EUR"}],"metadata":{},"timestamp":"2024-01-01T00:00:00Z","insertedAt":"2024-01-01T00:00:00Z","reverted":false,"preCommitVolumes":{"a":{"EUR":{"input":0,"output":0,"balance":0}},"world":{"EUR":{"input":0,"output":0,"balance":0}}},"postCommitVolumes":{"a":{"EUR":{"input":10,"output":0,"balance":10}},"world":{"EUR":{"input":0,"output":10,"balance":-10}}},"preCommitEffectiveVolumes":{"a":{"EUR":{"input":0,"output":0,"balance":0}},"world":{"EUR":{"input":0,"output":0,"balance":0}}},"postCommitEffectiveVolumes":{"a":{"EUR":{"input":10,"output":0,"balance":10}},"world":{"EUR":{"input":0,"output":10,"balance":-10}}}}}
POST 2 /v2/default/transactions - {"postings":[{"source":"world","destination":"a","amount":5,"asset":"EUR"}],"timestamp":"2024-01-01T00:00:00Z"} = 2 1 new 200 {"data":{"id":2,"postings":[{"source":"world","destination":"a","amount":5,"asset":"EUR"}],"metadata":{},"timestamp":"2024-01-01T00:00:00Z","insertedAt":"2024-01-02T00:00:00Z","reverted":false,"preCommitVolumes":{"a":{"EUR":{"input":10,"output":0,"balance":10}},"world":{"EUR":{"input":0,"output":10,"balance":-10}}},"postCommitVolumes":{"a":{"EUR":{"input":15,"output":0,"balance":15}},"world":{"EUR":{"input":0,"output":15,"balance":-15}}},"preCommitEffectiveVolumes":{"a":{"EUR":{"input":10,"output":0,"balance":10}},"world":{"EUR":{"input":0,"output":10,"balance":-10}}},"postCommitEffectiveVolumes":{"a":{"EUR":{"input":15,"output":0,"balance":15}},"world":{"EUR":{"input":0,"output":15,"balance":-15}}}}}
POST 3 /v2/default/transactions - {"postings":[{"source":"world","destination":"a","amount":1,"asset":"EUR"}],"timestamp":"2024-01-01T00:00:00Z"} = 3 1 new 200 {"data":{"id":3,"postings":[{"source":"world","destination":"a","amount":1,"asset":"EUR"}],"metadata":{},"timestamp":"2024-01-01T00:00:00Z","insertedAt":"2024-01-03T00:00:00Z","reverted":false,"preCommitVolumes":{"a":{"EUR":{"input":15,"output":0,"balance":15}},"world":{"EUR":{"input":0,"output":15,"balance":-15}}},"postCommitVolumes":{"a":{"EUR":{"input":16,"output":0,"balance":16}},"world":{"EUR":{"input":0,"output":16,"balance":-16}}},"preCommitEffectiveVolumes":{"a":{"EUR":{"input":15,"output":0,"balance":15}},"world":{"EUR":{"input":0,"output":15,"balance":-15}}},"postCommitEffectiveVolumes":{"a":{"EUR":{"input":16,"output":0,"balance":16}},"world":{"EUR":{"input":0,"output":16,"balance":-16}}}}}
default moves a EUR rank-to 2024-01-01T00:00:00Z 1 = (10,0,10)
default moves a EUR rank-to 2024-01-01T00:00:00Z 2 = (15,0,15)
default moves a EUR rank-to 2024-01-01T00:00:00Z 3 = (16,0,16)
default moves a EUR rank-before 2024-01-01T00:00:00Z 1 = (0,0,0)
default moves a EUR rank-before 2024-01-01T00:00:00Z 2 = (10,0,10)
default moves a EUR rank-before 2024-01-01T00:00:00Z 4 = (16,0,16)
default moves a EUR effective-to 2024-01-01T00:00:00Z = (16,0,16)
default moves a EUR inserted-to 2024-01-01T00:00:00Z = (10,0,10)
default moves a EUR inserted-to 2024-01-02T00:00:00Z = (15,0,15)
default moves a EUR inserted-to 2024-01-03T00:00:00Z = (16,0,16)
default moves a EUR effective-to 2023-12-31T00:00:00Z = (0,0,0)
default moves world EUR rank-to 2024-01-01T00:00:00Z 2 = (0,15,-15)
default transactions = 3
default inserted 1 = 2024-01-01T00:00:00Z
default inserted 2 = 2024-01-02T00:00:00Z
default inserted 3 = 2024-01-03T00:00:00Z
default transaction 3 = {"id":3,"postings":[{"source":"world","destination":"a","amount":1,"asset":"EUR"}],"metadata":{},"timestamp":"2024-01-01T00:00:00Z"}
default first-reply 3 = {"data":{"id":3,"postings":[{"source":"world","destination":"a","amount":1,"asset":"EUR"}],"metadata":{},"timestamp":"2024-01-01T00:00:00Z","insertedAt":"2024-01-03T00:00:00Z","reverted":false,"preCommitVolumes":{"a":{"EUR":{"input":15,"output":0,"balance":15}},"world":{"EUR":{"input":0,"output":15,"balance":-15}}},"postCommitVolumes":{"a":{"EUR":{"input":16,"output":0,"balance":16}},"world":{"EUR":{"input":0,"output":16,"balance":-16}}},"preCommitEffectiveVolumes":{"a":{"EUR":{"input":15,"output":0,"balance":15}},"world":{"EUR":{"input":0,"output":15,"balance":-15}}},"postCommitEffectiveVolumes":{"a":{"EUR":{"input":16,"output":0,"balance":16}},"world":{"EUR":{"input":0,"output":16,"balance":-16}}}}}"#,
    )
}

/// Two accounts of one stripe, with references and metadata.
#[test]
fn accounts_of_one_stripe(rt: HostRuntime) -> Result<(), Fail> {
    check(
        &rt,
        rt.alloc(),
        r#"POST 1 /v2/default/transactions - {"postings":[{"source":"world","destination":"users:2","amount":3,"asset":"EUR"},{"source":"world","destination":"d","amount":2,"asset":"EUR"}],"reference":"r1"} = 1 1 new 200 {"data":{"id":1,"postings":[{"source":"world","destination":"users:2","amount":3,"asset":"EUR"},{"source":"world","destination":"d","amount":2,"asset":"EUR"}],"metadata":{},"reference":"r1","timestamp":"2024-01-01T00:00:00Z","insertedAt":"2024-01-01T00:00:00Z","reverted":false,"preCommitVolumes":{"d":{"EUR":{"input":0,"output":0,"balance":0}},"users:2":{"EUR":{"input":0,"output":0,"balance":0}},"world":{"EUR":{"input":0,"output":0,"balance":0}}},"postCommitVolumes":{"d":{"EUR":{"input":2,"output":0,"balance":2}},"users:2":{"EUR":{"input":3,"output":0,"balance":3}},"world":{"EUR":{"input":0,"output":5,"balance":-5}}},"preCommitEffectiveVolumes":{"d":{"EUR":{"input":0,"output":0,"balance":0}},"users:2":{"EUR":{"input":0,"output":0,"balance":0}},"world":{"EUR":{"input":0,"output":0,"balance":0}}},"postCommitEffectiveVolumes":{"d":{"EUR":{"input":2,"output":0,"balance":2}},"users:2":{"EUR":{"input":3,"output":0,"balance":3}},"world":{"EUR":{"input":0,"output":5,"balance":-5}}}}}
POST 2 /v2/default/transactions - {"postings":[{"source":"users:2","destination":"d","amount":1,"asset":"EUR"},{"source":"world","destination":"d","amount":5,"asset":"USD/2"}],"reference":"r2","metadata":{"kind":"rent"},"accountMetadata":{"d":{"name":"Dora"},"world":{}}} = 2 1 new 200 {"data":{"id":2,"postings":[{"source":"users:2","destination":"d","amount":1,"asset":"EUR"},{"source":"world","destination":"d","amount":5,"asset":"USD/2"}],"metadata":{"kind":"rent"},"reference":"r2","timestamp":"2024-01-02T00:00:00Z","insertedAt":"2024-01-02T00:00:00Z","reverted":false,"preCommitVolumes":{"d":{"EUR":{"input":2,"output":0,"balance":2},"USD/2":{"input":0,"output":0,"balance":0}},"users:2":{"EUR":{"input":3,"output":0,"balance":3}},"world":{"USD/2":{"input":0,"output":0,"balance":0}}},"postCommitVolumes":{"d":{"EUR":{"input":3,"output":0,"balance":3},"USD/2":{"input":5,"output":0,"balance":5}},"users:2":{"EUR":{"input":3,"output":1,"balance":2}},"world":{"USD/2":{"input":0,"output":5,"balance":-5}}},"preCommitEffectiveVolumes":{"d":{"EUR":{"input":2,"output":0,"balance":2},"USD/2":{"input":0,"output":0,"balance":0}},"users:2":{"EUR":{"input":3,"output":0,"balance":3}},"world":{"USD/2":{"input":0,"output":0,"balance":0}}},"postCommitEffectiveVolumes":{"d":{"EUR":{"input":3,"output":0,"balance":3},"USD/2":{"input":5,"output":0,"balance":5}},"users:2":{"EUR":{"input":3,"output":1,"balance":2}},"world":{"USD/2":{"input":0,"output":5,"balance":-5}}}}}
default stripe users:2 = 15
default stripe d = 15
default addresses d = ["d","users:2"]
default addresses users:2 = ["d","users:2"]
default addresses world = ["world"]
default assets d = ["EUR","USD/2"]
default assets users:2 = ["EUR"]
default assets world = ["EUR","USD/2"]
default moves d EUR count = 2
default moves d EUR total = (3,0,3)
default moves users:2 EUR total = (3,1,2)
default moves d USD/2 total = (5,0,5)
default moves users:2 USD/2 total = none
default reference r1 = 1
default reference r2 = 2
default reference r = none
default metadata d first = 2024-01-02T00:00:00Z
default metadata d at - = {"name":"Dora"}
default metadata d at 2024-01-01T00:00:00Z = {}
default metadata d value name 2024-01-02T00:00:00Z = Dora
default metadata world first = 2024-01-02T00:00:00Z
default metadata world at - = {}
default metadata users:2 at - = none
default events = 3
default event 2 = {"event":2,"ledger":"default","entry":{"type":"NEW_TRANSACTION","data":{"transaction":{"id":2,"postings":[{"source":"users:2","destination":"d","amount":1,"asset":"EUR"},{"source":"world","destination":"d","amount":5,"asset":"USD/2"}],"metadata":{"kind":"rent"},"reference":"r2","timestamp":"2024-01-02T00:00:00Z"},"accountMetadata":{"d":{"name":"Dora"},"world":{}}},"date":"2024-01-02T00:00:00Z","form":2,"id":2,"hash":"nlMwKE9skYqQMgE5zOYRE3dmCLNeAZmeevVWzKpkyWo="}}
default transaction 2 = {"id":2,"postings":[{"source":"users:2","destination":"d","amount":1,"asset":"EUR"},{"source":"world","destination":"d","amount":5,"asset":"USD/2"}],"metadata":{"kind":"rent"},"reference":"r2","timestamp":"2024-01-02T00:00:00Z"}
default transaction-metadata 1 first = 2024-01-01T00:00:00Z
default transaction-metadata 2 first = 2024-01-02T00:00:00Z
default transaction-metadata 2 at - = {"kind":"rent"}
default transaction-metadata 2 at 2024-01-01T00:00:00Z = {}
default transaction-metadata 2 value kind 2024-01-02T00:00:00Z = rent
default transaction-metadata 2 value kind 2024-01-01T00:00:00Z = none
default first-reply 2 = {"data":{"id":2,"postings":[{"source":"users:2","destination":"d","amount":1,"asset":"EUR"},{"source":"world","destination":"d","amount":5,"asset":"USD/2"}],"metadata":{"kind":"rent"},"reference":"r2","timestamp":"2024-01-02T00:00:00Z","insertedAt":"2024-01-02T00:00:00Z","reverted":false,"preCommitVolumes":{"d":{"EUR":{"input":2,"output":0,"balance":2},"USD/2":{"input":0,"output":0,"balance":0}},"users:2":{"EUR":{"input":3,"output":0,"balance":3}},"world":{"USD/2":{"input":0,"output":0,"balance":0}}},"postCommitVolumes":{"d":{"EUR":{"input":3,"output":0,"balance":3},"USD/2":{"input":5,"output":0,"balance":5}},"users:2":{"EUR":{"input":3,"output":1,"balance":2}},"world":{"USD/2":{"input":0,"output":5,"balance":-5}}},"preCommitEffectiveVolumes":{"d":{"EUR":{"input":2,"output":0,"balance":2},"USD/2":{"input":0,"output":0,"balance":0}},"users:2":{"EUR":{"input":3,"output":0,"balance":3}},"world":{"USD/2":{"input":0,"output":0,"balance":0}}},"postCommitEffectiveVolumes":{"d":{"EUR":{"input":3,"output":0,"balance":3},"USD/2":{"input":5,"output":0,"balance":5}},"users:2":{"EUR":{"input":3,"output":1,"balance":2}},"world":{"USD/2":{"input":0,"output":5,"balance":-5}}}}}"#,
    )
}

/// A deposit with a key, one of an earlier effective date, and the first again.
#[test]
fn a_repeated_key(rt: HostRuntime) -> Result<(), Fail> {
    check(
        &rt,
        rt.alloc(),
        r#"POST 1 /v2/default/transactions k1 {"postings":[{"source":"world","destination":"users:1","amount":100,"asset":"USD/2"}]} = 1 1 new 200 {"data":{"id":1,"postings":[{"source":"world","destination":"users:1","amount":100,"asset":"USD/2"}],"metadata":{},"timestamp":"2024-01-01T00:00:00Z","insertedAt":"2024-01-01T00:00:00Z","reverted":false,"preCommitVolumes":{"users:1":{"USD/2":{"input":0,"output":0,"balance":0}},"world":{"USD/2":{"input":0,"output":0,"balance":0}}},"postCommitVolumes":{"users:1":{"USD/2":{"input":100,"output":0,"balance":100}},"world":{"USD/2":{"input":0,"output":100,"balance":-100}}},"preCommitEffectiveVolumes":{"users:1":{"USD/2":{"input":0,"output":0,"balance":0}},"world":{"USD/2":{"input":0,"output":0,"balance":0}}},"postCommitEffectiveVolumes":{"users:1":{"USD/2":{"input":100,"output":0,"balance":100}},"world":{"USD/2":{"input":0,"output":100,"balance":-100}}}}}
POST 2 /v2/default/transactions - {"postings":[{"source":"world","destination":"users:1","amount":7,"asset":"USD/2"}],"timestamp":"2023-12-31T00:00:00Z"} = 2 1 new 200 {"data":{"id":2,"postings":[{"source":"world","destination":"users:1","amount":7,"asset":"USD/2"}],"metadata":{},"timestamp":"2023-12-31T00:00:00Z","insertedAt":"2024-01-02T00:00:00Z","reverted":false,"preCommitVolumes":{"users:1":{"USD/2":{"input":100,"output":0,"balance":100}},"world":{"USD/2":{"input":0,"output":100,"balance":-100}}},"postCommitVolumes":{"users:1":{"USD/2":{"input":107,"output":0,"balance":107}},"world":{"USD/2":{"input":0,"output":107,"balance":-107}}},"preCommitEffectiveVolumes":{"users:1":{"USD/2":{"input":0,"output":0,"balance":0}},"world":{"USD/2":{"input":0,"output":0,"balance":0}}},"postCommitEffectiveVolumes":{"users:1":{"USD/2":{"input":7,"output":0,"balance":7}},"world":{"USD/2":{"input":0,"output":7,"balance":-7}}}}}
POST 3 /v2/default/transactions k1 {"postings":[{"source":"world","destination":"users:1","amount":100,"asset":"USD/2"}]} = 3 0 hit 200 {"data":{"id":1,"postings":[{"source":"world","destination":"users:1","amount":100,"asset":"USD/2"}],"metadata":{},"timestamp":"2024-01-01T00:00:00Z","insertedAt":"2024-01-01T00:00:00Z","reverted":false,"preCommitVolumes":{"users:1":{"USD/2":{"input":0,"output":0,"balance":0}},"world":{"USD/2":{"input":0,"output":0,"balance":0}}},"postCommitVolumes":{"users:1":{"USD/2":{"input":100,"output":0,"balance":100}},"world":{"USD/2":{"input":0,"output":100,"balance":-100}}},"preCommitEffectiveVolumes":{"users:1":{"USD/2":{"input":0,"output":0,"balance":0}},"world":{"USD/2":{"input":0,"output":0,"balance":0}}},"postCommitEffectiveVolumes":{"users:1":{"USD/2":{"input":100,"output":0,"balance":100}},"world":{"USD/2":{"input":0,"output":100,"balance":-100}}}}}
default key k1 = 1 06695a21f8a9d6f9e5fbfbb1c168104d4a8f1595419c984b585da8ac44b9b5f2
default key k2 = none
default moves users:1 USD/2 count = 2
default moves users:1 USD/2 total = (107,0,107)
default moves users:1 USD/2 rank-to 2024-01-01T00:00:00Z 1 = (107,0,107)
default moves users:1 USD/2 rank-to 2023-12-31T00:00:00Z 2 = (7,0,7)
default moves users:1 USD/2 inserted-to 2024-01-01T00:00:00Z = (100,0,100)
default moves users:1 USD/2 effective-to 2023-12-31T00:00:00Z = (7,0,7)
default moves world USD/2 total = (0,107,-107)
default events = 3
default event 1 = {"event":1,"ledger":"default","entry":{"type":"NEW_TRANSACTION","data":{"transaction":{"id":1,"postings":[{"source":"world","destination":"users:1","amount":100,"asset":"USD/2"}],"metadata":{},"timestamp":"2024-01-01T00:00:00Z"},"accountMetadata":{}},"date":"2024-01-01T00:00:00Z","idempotencyKey":"k1","idempotencyHash":"BmlaIfip1vnl+/uxwWgQTUqPFZVBnJhLWF2orES5tfI=","form":2,"id":1,"hash":"I5WtfKB4Gt21cBelaQ0xj15gEVxmMFTuDn+tH7SBl2k="}}
default event 2 = {"event":2,"ledger":"default","entry":{"type":"NEW_TRANSACTION","data":{"transaction":{"id":2,"postings":[{"source":"world","destination":"users:1","amount":7,"asset":"USD/2"}],"metadata":{},"timestamp":"2023-12-31T00:00:00Z"},"accountMetadata":{}},"date":"2024-01-02T00:00:00Z","form":2,"id":2,"hash":"pRDvnaMCcmFQ3szUMS3hJYj1/tn+2Cqxj7FrOde/V9w="}}
default event 3 = none
default entries = 2
default transactions = 2
default entry 1 = {"type":"NEW_TRANSACTION","data":{"transaction":{"id":1,"postings":[{"source":"world","destination":"users:1","amount":100,"asset":"USD/2"}],"metadata":{},"timestamp":"2024-01-01T00:00:00Z"},"accountMetadata":{}},"date":"2024-01-01T00:00:00Z","idempotencyKey":"k1","idempotencyHash":"BmlaIfip1vnl+/uxwWgQTUqPFZVBnJhLWF2orES5tfI=","form":2,"id":1,"hash":"I5WtfKB4Gt21cBelaQ0xj15gEVxmMFTuDn+tH7SBl2k="}
default entry 2 = {"type":"NEW_TRANSACTION","data":{"transaction":{"id":2,"postings":[{"source":"world","destination":"users:1","amount":7,"asset":"USD/2"}],"metadata":{},"timestamp":"2023-12-31T00:00:00Z"},"accountMetadata":{}},"date":"2024-01-02T00:00:00Z","form":2,"id":2,"hash":"pRDvnaMCcmFQ3szUMS3hJYj1/tn+2Cqxj7FrOde/V9w="}
default entry 3 = none
default date-for 2024-01-01T00:00:00Z = 2024-01-02T00:00:00Z
default head = a510ef9da302726150deccd4312de12588f5fed9fed82ab18fb16b39d7bf57dc
default first-reply 1 = {"data":{"id":1,"postings":[{"source":"world","destination":"users:1","amount":100,"asset":"USD/2"}],"metadata":{},"timestamp":"2024-01-01T00:00:00Z","insertedAt":"2024-01-01T00:00:00Z","reverted":false,"preCommitVolumes":{"users:1":{"USD/2":{"input":0,"output":0,"balance":0}},"world":{"USD/2":{"input":0,"output":0,"balance":0}}},"postCommitVolumes":{"users:1":{"USD/2":{"input":100,"output":0,"balance":100}},"world":{"USD/2":{"input":0,"output":100,"balance":-100}}},"preCommitEffectiveVolumes":{"users:1":{"USD/2":{"input":0,"output":0,"balance":0}},"world":{"USD/2":{"input":0,"output":0,"balance":0}}},"postCommitEffectiveVolumes":{"users:1":{"USD/2":{"input":100,"output":0,"balance":100}},"world":{"USD/2":{"input":0,"output":100,"balance":-100}}}}}
default first-reply 2 = {"data":{"id":2,"postings":[{"source":"world","destination":"users:1","amount":7,"asset":"USD/2"}],"metadata":{},"timestamp":"2023-12-31T00:00:00Z","insertedAt":"2024-01-02T00:00:00Z","reverted":false,"preCommitVolumes":{"users:1":{"USD/2":{"input":100,"output":0,"balance":100}},"world":{"USD/2":{"input":0,"output":100,"balance":-100}}},"postCommitVolumes":{"users:1":{"USD/2":{"input":107,"output":0,"balance":107}},"world":{"USD/2":{"input":0,"output":107,"balance":-107}}},"preCommitEffectiveVolumes":{"users:1":{"USD/2":{"input":0,"output":0,"balance":0}},"world":{"USD/2":{"input":0,"output":0,"balance":0}}},"postCommitEffectiveVolumes":{"users:1":{"USD/2":{"input":7,"output":0,"balance":7}},"world":{"USD/2":{"input":0,"output":7,"balance":-7}}}}}"#,
    )
}

/// A reference that is used twice.
#[test]
fn a_reference(rt: HostRuntime) -> Result<(), Fail> {
    check(
        &rt,
        rt.alloc(),
        r#"POST 1 /v2/default/transactions - {"postings":[{"source":"world","destination":"a","amount":5,"asset":"EUR"}],"reference":"r"} = 1 1 new 200 {"data":{"id":1,"postings":[{"source":"world","destination":"a","amount":5,"asset":"EUR"}],"metadata":{},"reference":"r","timestamp":"2024-01-01T00:00:00Z","insertedAt":"2024-01-01T00:00:00Z","reverted":false,"preCommitVolumes":{"a":{"EUR":{"input":0,"output":0,"balance":0}},"world":{"EUR":{"input":0,"output":0,"balance":0}}},"postCommitVolumes":{"a":{"EUR":{"input":5,"output":0,"balance":5}},"world":{"EUR":{"input":0,"output":5,"balance":-5}}},"preCommitEffectiveVolumes":{"a":{"EUR":{"input":0,"output":0,"balance":0}},"world":{"EUR":{"input":0,"output":0,"balance":0}}},"postCommitEffectiveVolumes":{"a":{"EUR":{"input":5,"output":0,"balance":5}},"world":{"EUR":{"input":0,"output":5,"balance":-5}}}}}
POST 1 /v2/default/transactions - {"postings":[{"source":"a","destination":"b","amount":6,"asset":"EUR"}],"reference":"r"} = 2 0 new 400 {"errorCode":"INSUFFICIENT_FUND","errorMessage":"posting 0: a has 5 EUR, needs 6"}
POST 1 /v2/default/transactions - {"postings":[{"source":"a","destination":"b","amount":5,"asset":"EUR"}],"reference":"r"} = 2 0 new 409 {"errorCode":"CONFLICT","errorMessage":"reference r is used by transaction 1"}
default reference r = 1
default reference s = none
default moves a EUR total = (5,0,5)
default moves b EUR total = none
default known b = false
default events = 2
default transaction 1 = {"id":1,"postings":[{"source":"world","destination":"a","amount":5,"asset":"EUR"}],"metadata":{},"reference":"r","timestamp":"2024-01-01T00:00:00Z"}
default entry 1 = {"type":"NEW_TRANSACTION","data":{"transaction":{"id":1,"postings":[{"source":"world","destination":"a","amount":5,"asset":"EUR"}],"metadata":{},"reference":"r","timestamp":"2024-01-01T00:00:00Z"},"accountMetadata":{}},"date":"2024-01-01T00:00:00Z","form":2,"id":1,"hash":"IEQJEXWyRMKkwkuKYn1tg35LKTpqXa4rP/RU3aWIKV8="}
default head = 2044091175b244c2a4c24b8a627d6d837e4b293a6a5dae2b3ff454dda588295f"#,
    )
}

/// A revert that lacks, one that is forced, one too many, and one of no transaction.
#[test]
fn reverts(rt: HostRuntime) -> Result<(), Fail> {
    check(
        &rt,
        rt.alloc(),
        r#"POST 1 /v2/default/transactions - {"postings":[{"source":"world","destination":"a","amount":10,"asset":"EUR"}]} = 1 1 new 200 {"data":{"id":1,"postings":[{"source":"world","destination":"a","amount":10,"asset":"EUR"}],"metadata":{},"timestamp":"2024-01-01T00:00:00Z","insertedAt":"2024-01-01T00:00:00Z","reverted":false,"preCommitVolumes":{"a":{"EUR":{"input":0,"output":0,"balance":0}},"world":{"EUR":{"input":0,"output":0,"balance":0}}},"postCommitVolumes":{"a":{"EUR":{"input":10,"output":0,"balance":10}},"world":{"EUR":{"input":0,"output":10,"balance":-10}}},"preCommitEffectiveVolumes":{"a":{"EUR":{"input":0,"output":0,"balance":0}},"world":{"EUR":{"input":0,"output":0,"balance":0}}},"postCommitEffectiveVolumes":{"a":{"EUR":{"input":10,"output":0,"balance":10}},"world":{"EUR":{"input":0,"output":10,"balance":-10}}}}}
POST 1 /v2/default/transactions - {"postings":[{"source":"a","destination":"b","amount":8,"asset":"EUR"}]} = 2 1 new 200 {"data":{"id":2,"postings":[{"source":"a","destination":"b","amount":8,"asset":"EUR"}],"metadata":{},"timestamp":"2024-01-01T00:00:00Z","insertedAt":"2024-01-01T00:00:00Z","reverted":false,"preCommitVolumes":{"a":{"EUR":{"input":10,"output":0,"balance":10}},"b":{"EUR":{"input":0,"output":0,"balance":0}}},"postCommitVolumes":{"a":{"EUR":{"input":10,"output":8,"balance":2}},"b":{"EUR":{"input":8,"output":0,"balance":8}}},"preCommitEffectiveVolumes":{"a":{"EUR":{"input":10,"output":0,"balance":10}},"b":{"EUR":{"input":0,"output":0,"balance":0}}},"postCommitEffectiveVolumes":{"a":{"EUR":{"input":10,"output":8,"balance":2}},"b":{"EUR":{"input":8,"output":0,"balance":8}}}}}
POST 1 /v2/default/transactions/1/revert - = 3 0 new 400 {"errorCode":"INSUFFICIENT_FUND","errorMessage":"revert: a would have -8 EUR"}
POST 1 /v2/default/transactions/1/revert?force=true - = 3 1 new 201 {"data":{"id":3,"postings":[{"source":"a","destination":"world","amount":10,"asset":"EUR"}],"metadata":{"com.formance.spec/state/reverts":"1"},"timestamp":"2024-01-01T00:00:00Z","insertedAt":"2024-01-01T00:00:00Z","reverted":false,"preCommitVolumes":{"a":{"EUR":{"input":10,"output":8,"balance":2}},"world":{"EUR":{"input":0,"output":10,"balance":-10}}},"postCommitVolumes":{"a":{"EUR":{"input":10,"output":18,"balance":-8}},"world":{"EUR":{"input":10,"output":10,"balance":0}}},"preCommitEffectiveVolumes":{"a":{"EUR":{"input":10,"output":8,"balance":2}},"world":{"EUR":{"input":0,"output":10,"balance":-10}}},"postCommitEffectiveVolumes":{"a":{"EUR":{"input":10,"output":18,"balance":-8}},"world":{"EUR":{"input":10,"output":10,"balance":0}}}}}
POST 1 /v2/default/transactions/1/revert?force=true - = 4 0 new 400 {"errorCode":"ALREADY_REVERT","errorMessage":"transaction 1 is reverted by 3"}
POST 1 /v2/default/transactions/9/revert - = 4 0 new 404 {"errorCode":"NOT_FOUND","errorMessage":"transaction 9"}
default moves a EUR count = 3
default moves a EUR total = (10,18,-8)
default moves b EUR total = (8,0,8)
default moves world EUR total = (10,10,0)
default moves a EUR transaction-to 2 = (10,8,2)
default moves a EUR transaction-to 3 = (10,18,-8)
default known b = true
default addresses a = ["a"]
default reference r = none
default events = 4
default event 3 = {"event":3,"ledger":"default","entry":{"type":"REVERTED_TRANSACTION","data":{"revertedTransactionID":1,"transaction":{"id":3,"postings":[{"source":"a","destination":"world","amount":10,"asset":"EUR"}],"metadata":{"com.formance.spec/state/reverts":"1"},"timestamp":"2024-01-01T00:00:00Z"}},"date":"2024-01-01T00:00:00Z","form":2,"id":3,"hash":"0BGs36ZB40awCyot8HLHDZ9/hLHY9uTuBlDlWKwyftY="}}
default entries = 3
default transactions = 3
default reverted-by 0 = none
default reverted-by 1 = 3
default reverted-by 2 = none
default reverted-by 3 = none
default reverted-by 9 = none
default transaction 3 = {"id":3,"postings":[{"source":"a","destination":"world","amount":10,"asset":"EUR"}],"metadata":{"com.formance.spec/state/reverts":"1"},"timestamp":"2024-01-01T00:00:00Z"}
default transaction 9 = none
default inserted 3 = 2024-01-01T00:00:00Z
default inserted 9 = none
default entry 3 = {"type":"REVERTED_TRANSACTION","data":{"revertedTransactionID":1,"transaction":{"id":3,"postings":[{"source":"a","destination":"world","amount":10,"asset":"EUR"}],"metadata":{"com.formance.spec/state/reverts":"1"},"timestamp":"2024-01-01T00:00:00Z"}},"date":"2024-01-01T00:00:00Z","form":2,"id":3,"hash":"0BGs36ZB40awCyot8HLHDZ9/hLHY9uTuBlDlWKwyftY="}
default transaction-metadata 3 at - = {"com.formance.spec/state/reverts":"1"}
default transaction-metadata 3 value com.formance.spec/state/reverts - = 1
default transaction-metadata 1 at - = {}
default transaction-metadata 9 at - = none
default first-reply 3 = {"data":{"id":3,"postings":[{"source":"a","destination":"world","amount":10,"asset":"EUR"}],"metadata":{"com.formance.spec/state/reverts":"1"},"timestamp":"2024-01-01T00:00:00Z","insertedAt":"2024-01-01T00:00:00Z","reverted":false,"preCommitVolumes":{"a":{"EUR":{"input":10,"output":8,"balance":2}},"world":{"EUR":{"input":0,"output":10,"balance":-10}}},"postCommitVolumes":{"a":{"EUR":{"input":10,"output":18,"balance":-8}},"world":{"EUR":{"input":10,"output":10,"balance":0}}},"preCommitEffectiveVolumes":{"a":{"EUR":{"input":10,"output":8,"balance":2}},"world":{"EUR":{"input":0,"output":10,"balance":-10}}},"postCommitEffectiveVolumes":{"a":{"EUR":{"input":10,"output":18,"balance":-8}},"world":{"EUR":{"input":10,"output":10,"balance":0}}}}}"#,
    )
}

/// Metadata of an account, set twice and taken out.
#[test]
fn metadata_of_an_account(rt: HostRuntime) -> Result<(), Fail> {
    check(
        &rt,
        rt.alloc(),
        r#"POST 1 /v2/default/accounts/a/metadata - {"tier":"gold"} = 1 1 new 204 null
POST 2 /v2/default/accounts/a/metadata - {"tier":"silver","x":"1"} = 2 1 new 204 null
DELETE 3 /v2/default/accounts/a/metadata/tier - = 3 1 new 204 null
default metadata a first = 2024-01-01T00:00:00Z
default metadata a at - = {"x":"1"}
default metadata a at 2023-12-31T00:00:00Z = {}
default metadata a at 2024-01-01T00:00:00Z = {"tier":"gold"}
default metadata a at 2024-01-02T00:00:00Z = {"tier":"silver","x":"1"}
default metadata a at 2024-01-03T00:00:00Z = {"x":"1"}
default metadata a value tier 2024-01-01T00:00:00Z = gold
default metadata a value tier 2024-01-02T00:00:00Z = silver
default metadata a value tier 2024-01-03T00:00:00Z = none
default metadata a value x 2024-01-01T00:00:00Z = none
default metadata a value x - = 1
default metadata a value tier 2023-12-31T00:00:00Z = none
default metadata b first = none
default metadata b at - = none
default metadata b value tier - = none
default known a = true
default known b = false
default addresses a = ["a"]
default addresses b = []
default assets a = []
default moves a EUR total = none
default events = 4
default event 1 = {"event":1,"ledger":"default","entry":{"type":"SET_METADATA","data":{"targetType":"ACCOUNT","targetId":"a","metadata":{"tier":"gold"}},"date":"2024-01-01T00:00:00Z","form":2,"id":1,"hash":"ZjeHiHxc3jMHNA/t2By8B61WDhASpA26NUbhekONhjk="}}
default event 2 = {"event":2,"ledger":"default","entry":{"type":"SET_METADATA","data":{"targetType":"ACCOUNT","targetId":"a","metadata":{"tier":"silver","x":"1"}},"date":"2024-01-02T00:00:00Z","form":2,"id":2,"hash":"7UD2UrP7pBNfigfySSCfu5VzHqnn3akdRNEIZ38K3xg="}}
default event 3 = {"event":3,"ledger":"default","entry":{"type":"DELETE_METADATA","data":{"targetType":"ACCOUNT","targetId":"a","key":"tier"},"date":"2024-01-03T00:00:00Z","form":2,"id":3,"hash":"dksh9+Hq3R0ceLmhWntMQHW/ap0qQ++HpLPwTMMRLiQ="}}
default entries = 3
default transactions = 0
default transaction 1 = none
default inserted 1 = none
default entry 3 = {"type":"DELETE_METADATA","data":{"targetType":"ACCOUNT","targetId":"a","key":"tier"},"date":"2024-01-03T00:00:00Z","form":2,"id":3,"hash":"dksh9+Hq3R0ceLmhWntMQHW/ap0qQ++HpLPwTMMRLiQ="}
default transaction-metadata 1 first = none
default head = 764b21f7e1eadd1d1c78b9a15a7b4c4075bf6a9d2a43ef87a4b3f04cc3112e24
default date-for 2024-01-02T00:00:00Z = 2024-01-03T00:00:00Z
default first-reply 1 = null
default first-reply 3 = null
default first-reply 4 = none"#,
    )
}
