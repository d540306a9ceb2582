//! Worked calls with their answers.

use crate::scenarios::check;
use std::test::Fail;

/// The greatest amount, what passes it, an amount that is none, and a payment.
#[test]
fn the_limit(rt: HostRuntime) -> Result<(), Fail> {
    check(
        &rt,
        rt.alloc(),
        r#"POST 1 /v2/default/transactions - {"postings":[{"source":"world","destination":"a","amount":170141183460469231731687303715884105727,"asset":"X"}]} = 1 1 new 200 {"data":{"id":1,"postings":[{"source":"world","destination":"a","amount":170141183460469231731687303715884105727,"asset":"X"}],"metadata":{},"timestamp":"2024-01-01T00:00:00Z","insertedAt":"2024-01-01T00:00:00Z","reverted":false,"preCommitVolumes":{"a":{"X":{"input":0,"output":0,"balance":0}},"world":{"X":{"input":0,"output":0,"balance":0}}},"postCommitVolumes":{"a":{"X":{"input":170141183460469231731687303715884105727,"output":0,"balance":170141183460469231731687303715884105727}},"world":{"X":{"input":0,"output":170141183460469231731687303715884105727,"balance":-170141183460469231731687303715884105727}}},"preCommitEffectiveVolumes":{"a":{"X":{"input":0,"output":0,"balance":0}},"world":{"X":{"input":0,"output":0,"balance":0}}},"postCommitEffectiveVolumes":{"a":{"X":{"input":170141183460469231731687303715884105727,"output":0,"balance":170141183460469231731687303715884105727}},"world":{"X":{"input":0,"output":170141183460469231731687303715884105727,"balance":-170141183460469231731687303715884105727}}}}}
POST 1 /v2/default/transactions - {"postings":[{"source":"world","destination":"a","amount":1,"asset":"X"}]} = 2 0 new 400 {"errorCode":"AMOUNT_LIMIT","errorMessage":"posting 0 passes the limit"}
POST 1 /v2/default/transactions - {"postings":[{"amount":170141183460469231731687303715884105728}]} = 2 0 new 400 {"errorCode":"VALIDATION","errorMessage":"body: too wide at byte 23"}
POST 1 /v2/default/transactions - {"postings":[{"source":"a","destination":"b","amount":1,"asset":"X"}]} = 2 1 new 200 {"data":{"id":2,"postings":[{"source":"a","destination":"b","amount":1,"asset":"X"}],"metadata":{},"timestamp":"2024-01-01T00:00:00Z","insertedAt":"2024-01-01T00:00:00Z","reverted":false,"preCommitVolumes":{"a":{"X":{"input":170141183460469231731687303715884105727,"output":0,"balance":170141183460469231731687303715884105727}},"b":{"X":{"input":0,"output":0,"balance":0}}},"postCommitVolumes":{"a":{"X":{"input":170141183460469231731687303715884105727,"output":1,"balance":170141183460469231731687303715884105726}},"b":{"X":{"input":1,"output":0,"balance":1}}},"preCommitEffectiveVolumes":{"a":{"X":{"input":170141183460469231731687303715884105727,"output":0,"balance":170141183460469231731687303715884105727}},"b":{"X":{"input":0,"output":0,"balance":0}}},"postCommitEffectiveVolumes":{"a":{"X":{"input":170141183460469231731687303715884105727,"output":1,"balance":170141183460469231731687303715884105726}},"b":{"X":{"input":1,"output":0,"balance":1}}}}}"#,
    )
}

/// A key with another input, and a key that is not kept after a refusal.
#[test]
fn keys(rt: HostRuntime) -> Result<(), Fail> {
    check(
        &rt,
        rt.alloc(),
        r#"POST 1 /v2/default/transactions k1 {"postings":[{"source":"world","destination":"users:1","amount":100,"asset":"USD/2"}]} = 1 1 new 200 {"data":{"id":1,"postings":[{"source":"world","destination":"users:1","amount":100,"asset":"USD/2"}],"metadata":{},"timestamp":"2024-01-01T00:00:00Z","insertedAt":"2024-01-01T00:00:00Z","reverted":false,"preCommitVolumes":{"users:1":{"USD/2":{"input":0,"output":0,"balance":0}},"world":{"USD/2":{"input":0,"output":0,"balance":0}}},"postCommitVolumes":{"users:1":{"USD/2":{"input":100,"output":0,"balance":100}},"world":{"USD/2":{"input":0,"output":100,"balance":-100}}},"preCommitEffectiveVolumes":{"users:1":{"USD/2":{"input":0,"output":0,"balance":0}},"world":{"USD/2":{"input":0,"output":0,"balance":0}}},"postCommitEffectiveVolumes":{"users:1":{"USD/2":{"input":100,"output":0,"balance":100}},"world":{"USD/2":{"input":0,"output":100,"balance":-100}}}}}
POST 2 /v2/default/transactions - {"postings":[{"source":"world","destination":"users:1","amount":7,"asset":"USD/2"}],"timestamp":"2023-12-31T00:00:00Z"} = 2 1 new 200 {"data":{"id":2,"postings":[{"source":"world","destination":"users:1","amount":7,"asset":"USD/2"}],"metadata":{},"timestamp":"2023-12-31T00:00:00Z","insertedAt":"2024-01-02T00:00:00Z","reverted":false,"preCommitVolumes":{"users:1":{"USD/2":{"input":100,"output":0,"balance":100}},"world":{"USD/2":{"input":0,"output":100,"balance":-100}}},"postCommitVolumes":{"users:1":{"USD/2":{"input":107,"output":0,"balance":107}},"world":{"USD/2":{"input":0,"output":107,"balance":-107}}},"preCommitEffectiveVolumes":{"users:1":{"USD/2":{"input":0,"output":0,"balance":0}},"world":{"USD/2":{"input":0,"output":0,"balance":0}}},"postCommitEffectiveVolumes":{"users:1":{"USD/2":{"input":7,"output":0,"balance":7}},"world":{"USD/2":{"input":0,"output":7,"balance":-7}}}}}
POST 3 /v2/default/transactions k1 {"postings":[{"source":"world","destination":"users:1","amount":100,"asset":"USD/2"}]} = 3 0 hit 200 {"data":{"id":1,"postings":[{"source":"world","destination":"users:1","amount":100,"asset":"USD/2"}],"metadata":{},"timestamp":"2024-01-01T00:00:00Z","insertedAt":"2024-01-01T00:00:00Z","reverted":false,"preCommitVolumes":{"users:1":{"USD/2":{"input":0,"output":0,"balance":0}},"world":{"USD/2":{"input":0,"output":0,"balance":0}}},"postCommitVolumes":{"users:1":{"USD/2":{"input":100,"output":0,"balance":100}},"world":{"USD/2":{"input":0,"output":100,"balance":-100}}},"preCommitEffectiveVolumes":{"users:1":{"USD/2":{"input":0,"output":0,"balance":0}},"world":{"USD/2":{"input":0,"output":0,"balance":0}}},"postCommitEffectiveVolumes":{"users:1":{"USD/2":{"input":100,"output":0,"balance":100}},"world":{"USD/2":{"input":0,"output":100,"balance":-100}}}}}
POST 3 /v2/default/transactions k1 {"postings":[{"source":"world","destination":"users:1","amount":101,"asset":"USD/2"}]} = 3 0 new 400 {"errorCode":"VALIDATION","errorMessage":"key k1: kept 06695a21f8a9d6f9e5fbfbb1c168104d4a8f1595419c984b585da8ac44b9b5f2, given 5ad359f2a3b0d16f93519104f8c31d4654c46cf10ee60042f6141fc03921ba67"}
POST 3 /v2/default/transactions k2 {"postings":[{"source":"users:9","destination":"users:1","amount":1,"asset":"USD/2"}]} = 3 0 new 400 {"errorCode":"INSUFFICIENT_FUND","errorMessage":"posting 0: users:9 has 0 USD/2, needs 1"}
POST 3 /v2/default/transactions k2 {"postings":[{"source":"world","destination":"users:1","amount":100,"asset":"USD/2"}]} = 3 1 new 200 {"data":{"id":3,"postings":[{"source":"world","destination":"users:1","amount":100,"asset":"USD/2"}],"metadata":{},"timestamp":"2024-01-03T00:00:00Z","insertedAt":"2024-01-03T00:00:00Z","reverted":false,"preCommitVolumes":{"users:1":{"USD/2":{"input":107,"output":0,"balance":107}},"world":{"USD/2":{"input":0,"output":107,"balance":-107}}},"postCommitVolumes":{"users:1":{"USD/2":{"input":207,"output":0,"balance":207}},"world":{"USD/2":{"input":0,"output":207,"balance":-207}}},"preCommitEffectiveVolumes":{"users:1":{"USD/2":{"input":107,"output":0,"balance":107}},"world":{"USD/2":{"input":0,"output":107,"balance":-107}}},"postCommitEffectiveVolumes":{"users:1":{"USD/2":{"input":207,"output":0,"balance":207}},"world":{"USD/2":{"input":0,"output":207,"balance":-207}}}}}"#,
    )
}

/// A list of all or nothing, and one that goes on after a failure.
#[test]
fn lists(rt: HostRuntime) -> Result<(), Fail> {
    check(
        &rt,
        rt.alloc(),
        r#"POST 1 /v2/default/transactions - {"postings":[{"source":"world","destination":"a","amount":10,"asset":"EUR"}]} = 1 1 new 200 {"data":{"id":1,"postings":[{"source":"world","destination":"a","amount":10,"asset":"EUR"}],"metadata":{},"timestamp":"2024-01-01T00:00:00Z","insertedAt":"2024-01-01T00:00:00Z","reverted":false,"preCommitVolumes":{"a":{"EUR":{"input":0,"output":0,"balance":0}},"world":{"EUR":{"input":0,"output":0,"balance":0}}},"postCommitVolumes":{"a":{"EUR":{"input":10,"output":0,"balance":10}},"world":{"EUR":{"input":0,"output":10,"balance":-10}}},"preCommitEffectiveVolumes":{"a":{"EUR":{"input":0,"output":0,"balance":0}},"world":{"EUR":{"input":0,"output":0,"balance":0}}},"postCommitEffectiveVolumes":{"a":{"EUR":{"input":10,"output":0,"balance":10}},"world":{"EUR":{"input":0,"output":10,"balance":-10}}}}}
POST 1 /v2/default/_bulk?atomic=true - [{"action":"CREATE_TRANSACTION","data":{"postings":[{"source":"a","destination":"b","amount":4,"asset":"EUR"}]}},{"action":"CREATE_TRANSACTION","data":{"postings":[{"source":"a","destination":"c","amount":4,"asset":"EUR"}]}},{"action":"CREATE_TRANSACTION","data":{"postings":[{"source":"a","destination":"d","amount":4,"asset":"EUR"}]}}] = 2 0 new 400 {"data":[{"responseType":"ERROR","errorCode":"INSUFFICIENT_FUND","errorDescription":"element 2: posting 0: a has 2 EUR, needs 4"}]}
POST 1 /v2/default/_bulk?continueOnFailure=true - [{"action":"CREATE_TRANSACTION","data":{"postings":[{"source":"a","destination":"b","amount":4,"asset":"EUR"}]}},{"action":"CREATE_TRANSACTION","data":{"postings":[{"source":"a","destination":"c","amount":4,"asset":"EUR"}]}},{"action":"CREATE_TRANSACTION","data":{"postings":[{"source":"a","destination":"d","amount":4,"asset":"EUR"}]}},{"action":"CREATE_TRANSACTION","data":{"postings":[{"source":"a","destination":"e","amount":2,"asset":"EUR"}]}}] = 2 3 new 400 {"data":[{"responseType":"CREATE_TRANSACTION","logID":2,"data":{"id":2,"postings":[{"source":"a","destination":"b","amount":4,"asset":"EUR"}],"metadata":{},"timestamp":"2024-01-01T00:00:00Z","insertedAt":"2024-01-01T00:00:00Z","reverted":false,"preCommitVolumes":{"a":{"EUR":{"input":10,"output":0,"balance":10}},"b":{"EUR":{"input":0,"output":0,"balance":0}}},"postCommitVolumes":{"a":{"EUR":{"input":10,"output":4,"balance":6}},"b":{"EUR":{"input":4,"output":0,"balance":4}}},"preCommitEffectiveVolumes":{"a":{"EUR":{"input":10,"output":0,"balance":10}},"b":{"EUR":{"input":0,"output":0,"balance":0}}},"postCommitEffectiveVolumes":{"a":{"EUR":{"input":10,"output":4,"balance":6}},"b":{"EUR":{"input":4,"output":0,"balance":4}}}}},{"responseType":"CREATE_TRANSACTION","logID":3,"data":{"id":3,"postings":[{"source":"a","destination":"c","amount":4,"asset":"EUR"}],"metadata":{},"timestamp":"2024-01-01T00:00:00Z","insertedAt":"2024-01-01T00:00:00Z","reverted":false,"preCommitVolumes":{"a":{"EUR":{"input":10,"output":4,"balance":6}},"c":{"EUR":{"input":0,"output":0,"balance":0}}},"postCommitVolumes":{"a":{"EUR":{"input":10,"output":8,"balance":2}},"c":{"EUR":{"input":4,"output":0,"balance":4}}},"preCommitEffectiveVolumes":{"a":{"EUR":{"input":10,"output":4,"balance":6}},"c":{"EUR":{"input":0,"output":0,"balance":0}}},"postCommitEffectiveVolumes":{"a":{"EUR":{"input":10,"output":8,"balance":2}},"c":{"EUR":{"input":4,"output":0,"balance":4}}}}},{"responseType":"ERROR","errorCode":"INSUFFICIENT_FUND","errorDescription":"element 2: posting 0: a has 2 EUR, needs 4"},{"responseType":"CREATE_TRANSACTION","logID":4,"data":{"id":4,"postings":[{"source":"a","destination":"e","amount":2,"asset":"EUR"}],"metadata":{},"timestamp":"2024-01-01T00:00:00Z","insertedAt":"2024-01-01T00:00:00Z","reverted":false,"preCommitVolumes":{"a":{"EUR":{"input":10,"output":8,"balance":2}},"e":{"EUR":{"input":0,"output":0,"balance":0}}},"postCommitVolumes":{"a":{"EUR":{"input":10,"output":10,"balance":0}},"e":{"EUR":{"input":2,"output":0,"balance":2}}},"preCommitEffectiveVolumes":{"a":{"EUR":{"input":10,"output":8,"balance":2}},"e":{"EUR":{"input":0,"output":0,"balance":0}}},"postCommitEffectiveVolumes":{"a":{"EUR":{"input":10,"output":10,"balance":0}},"e":{"EUR":{"input":2,"output":0,"balance":2}}}}}]}"#,
    )
}

/// A list of two equal elements with one key.
#[test]
fn a_list_of_one_key(rt: HostRuntime) -> Result<(), Fail> {
    check(
        &rt,
        rt.alloc(),
        r#"POST 1 /v2/default/_bulk - [{"action":"ADD_METADATA","ik":"q","data":{"targetType":"ACCOUNT","targetId":"a","metadata":{"t":"1"}}},{"action":"ADD_METADATA","ik":"q","data":{"targetType":"ACCOUNT","targetId":"a","metadata":{"t":"1"}}}] = 1 1 new 200 {"data":[{"responseType":"ADD_METADATA","logID":1},{"responseType":"ADD_METADATA","logID":1}]}"#,
    )
}

/// A list without elements.
#[test]
fn an_empty_list(rt: HostRuntime) -> Result<(), Fail> {
    check(
        &rt,
        rt.alloc(),
        r#"POST 1 /v2/default/_bulk - [] = 1 0 new 200 {"data":[]}"#,
    )
}

/// A payment of what is not there.
#[test]
fn a_forced_payment(rt: HostRuntime) -> Result<(), Fail> {
    check(
        &rt,
        rt.alloc(),
        r#"POST 1 /v2/default/transactions - {"postings":[{"source":"a","destination":"b","amount":5,"asset":"EUR"}],"force":true} = 1 1 new 200 {"data":{"id":1,"postings":[{"source":"a","destination":"b","amount":5,"asset":"EUR"}],"metadata":{},"timestamp":"2024-01-01T00:00:00Z","insertedAt":"2024-01-01T00:00:00Z","reverted":false,"preCommitVolumes":{"a":{"EUR":{"input":0,"output":0,"balance":0}},"b":{"EUR":{"input":0,"output":0,"balance":0}}},"postCommitVolumes":{"a":{"EUR":{"input":0,"output":5,"balance":-5}},"b":{"EUR":{"input":5,"output":0,"balance":5}}},"preCommitEffectiveVolumes":{"a":{"EUR":{"input":0,"output":0,"balance":0}},"b":{"EUR":{"input":0,"output":0,"balance":0}}},"postCommitEffectiveVolumes":{"a":{"EUR":{"input":0,"output":5,"balance":-5}},"b":{"EUR":{"input":5,"output":0,"balance":5}}}}}"#,
    )
}

/// A payment from below zero.
#[test]
fn a_payment_from_below_zero(rt: HostRuntime) -> Result<(), Fail> {
    check(
        &rt,
        rt.alloc(),
        r#"POST 1 /v2/default/transactions - {"postings":[{"source":"a","destination":"b","amount":5,"asset":"EUR"}],"force":true} = 1 1 new 200 {"data":{"id":1,"postings":[{"source":"a","destination":"b","amount":5,"asset":"EUR"}],"metadata":{},"timestamp":"2024-01-01T00:00:00Z","insertedAt":"2024-01-01T00:00:00Z","reverted":false,"preCommitVolumes":{"a":{"EUR":{"input":0,"output":0,"balance":0}},"b":{"EUR":{"input":0,"output":0,"balance":0}}},"postCommitVolumes":{"a":{"EUR":{"input":0,"output":5,"balance":-5}},"b":{"EUR":{"input":5,"output":0,"balance":5}}},"preCommitEffectiveVolumes":{"a":{"EUR":{"input":0,"output":0,"balance":0}},"b":{"EUR":{"input":0,"output":0,"balance":0}}},"postCommitEffectiveVolumes":{"a":{"EUR":{"input":0,"output":5,"balance":-5}},"b":{"EUR":{"input":5,"output":0,"balance":5}}}}}
POST 1 /v2/default/transactions - {"postings":[{"source":"a","destination":"b","amount":1,"asset":"EUR"}]} = 2 0 new 400 {"errorCode":"INSUFFICIENT_FUND","errorMessage":"posting 0: a has -5 EUR, needs 1"}"#,
    )
}

/// A payment of nothing from below zero.
#[test]
fn a_payment_of_nothing_from_below_zero(rt: HostRuntime) -> Result<(), Fail> {
    check(
        &rt,
        rt.alloc(),
        r#"POST 1 /v2/default/transactions - {"postings":[{"source":"a","destination":"b","amount":5,"asset":"EUR"}],"force":true} = 1 1 new 200 {"data":{"id":1,"postings":[{"source":"a","destination":"b","amount":5,"asset":"EUR"}],"metadata":{},"timestamp":"2024-01-01T00:00:00Z","insertedAt":"2024-01-01T00:00:00Z","reverted":false,"preCommitVolumes":{"a":{"EUR":{"input":0,"output":0,"balance":0}},"b":{"EUR":{"input":0,"output":0,"balance":0}}},"postCommitVolumes":{"a":{"EUR":{"input":0,"output":5,"balance":-5}},"b":{"EUR":{"input":5,"output":0,"balance":5}}},"preCommitEffectiveVolumes":{"a":{"EUR":{"input":0,"output":0,"balance":0}},"b":{"EUR":{"input":0,"output":0,"balance":0}}},"postCommitEffectiveVolumes":{"a":{"EUR":{"input":0,"output":5,"balance":-5}},"b":{"EUR":{"input":5,"output":0,"balance":5}}}}}
POST 1 /v2/default/transactions - {"postings":[{"source":"a","destination":"b","amount":0,"asset":"EUR"}]} = 2 1 new 200 {"data":{"id":2,"postings":[{"source":"a","destination":"b","amount":0,"asset":"EUR"}],"metadata":{},"timestamp":"2024-01-01T00:00:00Z","insertedAt":"2024-01-01T00:00:00Z","reverted":false,"preCommitVolumes":{"a":{"EUR":{"input":0,"output":5,"balance":-5}},"b":{"EUR":{"input":5,"output":0,"balance":5}}},"postCommitVolumes":{"a":{"EUR":{"input":0,"output":5,"balance":-5}},"b":{"EUR":{"input":5,"output":0,"balance":5}}},"preCommitEffectiveVolumes":{"a":{"EUR":{"input":0,"output":5,"balance":-5}},"b":{"EUR":{"input":5,"output":0,"balance":5}}},"postCommitEffectiveVolumes":{"a":{"EUR":{"input":0,"output":5,"balance":-5}},"b":{"EUR":{"input":5,"output":0,"balance":5}}}}}"#,
    )
}

/// A key with and without force.
#[test]
fn a_key_with_and_without_force(rt: HostRuntime) -> Result<(), Fail> {
    check(
        &rt,
        rt.alloc(),
        r#"POST 1 /v2/default/transactions - {"postings":[{"source":"a","destination":"b","amount":5,"asset":"EUR"}],"force":true} = 1 1 new 200 {"data":{"id":1,"postings":[{"source":"a","destination":"b","amount":5,"asset":"EUR"}],"metadata":{},"timestamp":"2024-01-01T00:00:00Z","insertedAt":"2024-01-01T00:00:00Z","reverted":false,"preCommitVolumes":{"a":{"EUR":{"input":0,"output":0,"balance":0}},"b":{"EUR":{"input":0,"output":0,"balance":0}}},"postCommitVolumes":{"a":{"EUR":{"input":0,"output":5,"balance":-5}},"b":{"EUR":{"input":5,"output":0,"balance":5}}},"preCommitEffectiveVolumes":{"a":{"EUR":{"input":0,"output":0,"balance":0}},"b":{"EUR":{"input":0,"output":0,"balance":0}}},"postCommitEffectiveVolumes":{"a":{"EUR":{"input":0,"output":5,"balance":-5}},"b":{"EUR":{"input":5,"output":0,"balance":5}}}}}
POST 1 /v2/default/transactions k3 {"postings":[{"source":"b","destination":"a","amount":5,"asset":"EUR"}],"force":false} = 2 1 new 200 {"data":{"id":2,"postings":[{"source":"b","destination":"a","amount":5,"asset":"EUR"}],"metadata":{},"timestamp":"2024-01-01T00:00:00Z","insertedAt":"2024-01-01T00:00:00Z","reverted":false,"preCommitVolumes":{"a":{"EUR":{"input":0,"output":5,"balance":-5}},"b":{"EUR":{"input":5,"output":0,"balance":5}}},"postCommitVolumes":{"a":{"EUR":{"input":5,"output":5,"balance":0}},"b":{"EUR":{"input":5,"output":5,"balance":0}}},"preCommitEffectiveVolumes":{"a":{"EUR":{"input":0,"output":5,"balance":-5}},"b":{"EUR":{"input":5,"output":0,"balance":5}}},"postCommitEffectiveVolumes":{"a":{"EUR":{"input":5,"output":5,"balance":0}},"b":{"EUR":{"input":5,"output":5,"balance":0}}}}}
POST 1 /v2/default/transactions k3 {"postings":[{"source":"b","destination":"a","amount":5,"asset":"EUR"}],"force":true} = 3 0 new 400 {"errorCode":"VALIDATION","errorMessage":"key k3: kept e5c41651f1209fcd07876fb82629f4c7cf65e3052f9317c5274d8c042feedc83, given 381f11bebb2fd22082ddbd7fdd4e3a26867aedf39286b25cfdd0e314badf44ed"}"#,
    )
}

/// A revert of what was forced.
#[test]
fn a_revert_of_a_forced_payment(rt: HostRuntime) -> Result<(), Fail> {
    check(
        &rt,
        rt.alloc(),
        r#"POST 1 /v2/default/transactions - {"postings":[{"source":"a","destination":"b","amount":5,"asset":"EUR"}],"force":true} = 1 1 new 200 {"data":{"id":1,"postings":[{"source":"a","destination":"b","amount":5,"asset":"EUR"}],"metadata":{},"timestamp":"2024-01-01T00:00:00Z","insertedAt":"2024-01-01T00:00:00Z","reverted":false,"preCommitVolumes":{"a":{"EUR":{"input":0,"output":0,"balance":0}},"b":{"EUR":{"input":0,"output":0,"balance":0}}},"postCommitVolumes":{"a":{"EUR":{"input":0,"output":5,"balance":-5}},"b":{"EUR":{"input":5,"output":0,"balance":5}}},"preCommitEffectiveVolumes":{"a":{"EUR":{"input":0,"output":0,"balance":0}},"b":{"EUR":{"input":0,"output":0,"balance":0}}},"postCommitEffectiveVolumes":{"a":{"EUR":{"input":0,"output":5,"balance":-5}},"b":{"EUR":{"input":5,"output":0,"balance":5}}}}}
POST 1 /v2/default/transactions/1/revert - = 2 1 new 201 {"data":{"id":2,"postings":[{"source":"b","destination":"a","amount":5,"asset":"EUR"}],"metadata":{"com.formance.spec/state/reverts":"1"},"timestamp":"2024-01-01T00:00:00Z","insertedAt":"2024-01-01T00:00:00Z","reverted":false,"preCommitVolumes":{"a":{"EUR":{"input":0,"output":5,"balance":-5}},"b":{"EUR":{"input":5,"output":0,"balance":5}}},"postCommitVolumes":{"a":{"EUR":{"input":5,"output":5,"balance":0}},"b":{"EUR":{"input":5,"output":5,"balance":0}}},"preCommitEffectiveVolumes":{"a":{"EUR":{"input":0,"output":5,"balance":-5}},"b":{"EUR":{"input":5,"output":0,"balance":5}}},"postCommitEffectiveVolumes":{"a":{"EUR":{"input":5,"output":5,"balance":0}},"b":{"EUR":{"input":5,"output":5,"balance":0}}}}}"#,
    )
}
