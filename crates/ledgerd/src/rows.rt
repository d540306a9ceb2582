//! Worked scripts with their outputs.

/// A script and what its run writes.
pub struct Row {
    pub name: &'static str,
    pub script: &'static [u8],
    pub output: &'static [u8],
}

/// Worked scripts.
pub const ROWS: [Row; 26] = [
    Row {
        name: "postings are tried in their order",
        script: br#"{"now":"2024-01-01T00:00:00Z","method":"POST","path":"/v2/default/transactions","body":{"postings":[{"source":"world","destination":"a","amount":50,"asset":"EUR"},{"source":"a","destination":"b","amount":50,"asset":"EUR"}]}}
"#,
        output: br#"{"line":1,"front":1,"events":1,"hit":false,"status":200,"body":{"data":{"id":1,"postings":[{"source":"world","destination":"a","amount":50,"asset":"EUR"},{"source":"a","destination":"b","amount":50,"asset":"EUR"}],"metadata":{},"timestamp":"2024-01-01T00:00:00Z","insertedAt":"2024-01-01T00:00:00Z","reverted":false,"preCommitVolumes":{"a":{"EUR":{"input":0,"output":0,"balance":0}},"b":{"EUR":{"input":0,"output":0,"balance":0}},"world":{"EUR":{"input":0,"output":0,"balance":0}}},"postCommitVolumes":{"a":{"EUR":{"input":50,"output":50,"balance":0}},"b":{"EUR":{"input":50,"output":0,"balance":50}},"world":{"EUR":{"input":0,"output":50,"balance":-50}}},"preCommitEffectiveVolumes":{"a":{"EUR":{"input":0,"output":0,"balance":0}},"b":{"EUR":{"input":0,"output":0,"balance":0}},"world":{"EUR":{"input":0,"output":0,"balance":0}}},"postCommitEffectiveVolumes":{"a":{"EUR":{"input":50,"output":50,"balance":0}},"b":{"EUR":{"input":50,"output":0,"balance":50}},"world":{"EUR":{"input":0,"output":50,"balance":-50}}}}}}
{"event":0,"made":{"name":"default","addedAt":"1970-01-01T00:00:00Z","bucket":"_default","metadata":{}}}
{"event":1,"ledger":"default","entry":{"type":"NEW_TRANSACTION","data":{"transaction":{"id":1,"postings":[{"source":"world","destination":"a","amount":50,"asset":"EUR"},{"source":"a","destination":"b","amount":50,"asset":"EUR"}],"metadata":{},"timestamp":"2024-01-01T00:00:00Z"},"accountMetadata":{}},"date":"2024-01-01T00:00:00Z","form":2,"id":1,"hash":"7sDsDeivQCFTZiTvuZJ6tLYTGX5NiDbAQm7WrrrD1zI="}}
"#,
    },
    Row {
        name: "funds come too late",
        script: br#"{"now":"2024-01-01T00:00:00Z","method":"POST","path":"/v2/default/transactions","body":{"postings":[{"source":"a","destination":"b","amount":50,"asset":"EUR"},{"source":"world","destination":"a","amount":50,"asset":"EUR"}]}}
"#,
        output: br#"{"line":1,"front":1,"events":0,"hit":false,"status":400,"body":{"errorCode":"INSUFFICIENT_FUND","errorMessage":"posting 0: a has 0 EUR, needs 50"}}
{"event":0,"made":{"name":"default","addedAt":"1970-01-01T00:00:00Z","bucket":"_default","metadata":{}}}
"#,
    },
    Row {
        name: "an earlier effective date",
        script: br#"{"now":"2024-01-01T00:00:00Z","method":"POST","path":"/v2/default/transactions","body":{"postings":[{"source":"world","destination":"users:1","amount":100,"asset":"USD/2"}]}}
{"now":"2024-01-02T00:00:00Z","method":"POST","path":"/v2/default/transactions","body":{"postings":[{"source":"users:1","destination":"users:2","amount":101,"asset":"USD/2"}]}}
{"now":"2024-01-02T00:00:00Z","method":"POST","path":"/v2/default/transactions","body":{"postings":[{"source":"users:1","destination":"users:2","amount":100,"asset":"USD/2"}]}}
{"now":"2024-01-03T00:00:00Z","method":"POST","path":"/v2/default/transactions","body":{"postings":[{"source":"world","destination":"users:1","amount":7,"asset":"USD/2"}],"timestamp":"2023-12-31T00:00:00Z"}}
"#,
        output: br#"{"line":1,"front":1,"events":1,"hit":false,"status":200,"body":{"data":{"id":1,"postings":[{"source":"world","destination":"users:1","amount":100,"asset":"USD/2"}],"metadata":{},"timestamp":"2024-01-01T00:00:00Z","insertedAt":"2024-01-01T00:00:00Z","reverted":false,"preCommitVolumes":{"users:1":{"USD/2":{"input":0,"output":0,"balance":0}},"world":{"USD/2":{"input":0,"output":0,"balance":0}}},"postCommitVolumes":{"users:1":{"USD/2":{"input":100,"output":0,"balance":100}},"world":{"USD/2":{"input":0,"output":100,"balance":-100}}},"preCommitEffectiveVolumes":{"users:1":{"USD/2":{"input":0,"output":0,"balance":0}},"world":{"USD/2":{"input":0,"output":0,"balance":0}}},"postCommitEffectiveVolumes":{"users:1":{"USD/2":{"input":100,"output":0,"balance":100}},"world":{"USD/2":{"input":0,"output":100,"balance":-100}}}}}}
{"line":2,"front":2,"events":0,"hit":false,"status":400,"body":{"errorCode":"INSUFFICIENT_FUND","errorMessage":"posting 0: users:1 has 100 USD/2, needs 101"}}
{"line":3,"front":2,"events":1,"hit":false,"status":200,"body":{"data":{"id":2,"postings":[{"source":"users:1","destination":"users:2","amount":100,"asset":"USD/2"}],"metadata":{},"timestamp":"2024-01-02T00:00:00Z","insertedAt":"2024-01-02T00:00:00Z","reverted":false,"preCommitVolumes":{"users:1":{"USD/2":{"input":100,"output":0,"balance":100}},"users:2":{"USD/2":{"input":0,"output":0,"balance":0}}},"postCommitVolumes":{"users:1":{"USD/2":{"input":100,"output":100,"balance":0}},"users:2":{"USD/2":{"input":100,"output":0,"balance":100}}},"preCommitEffectiveVolumes":{"users:1":{"USD/2":{"input":100,"output":0,"balance":100}},"users:2":{"USD/2":{"input":0,"output":0,"balance":0}}},"postCommitEffectiveVolumes":{"users:1":{"USD/2":{"input":100,"output":100,"balance":0}},"users:2":{"USD/2":{"input":100,"output":0,"balance":100}}}}}}
{"line":4,"front":3,"events":1,"hit":false,"status":200,"body":{"data":{"id":3,"postings":[{"source":"world","destination":"users:1","amount":7,"asset":"USD/2"}],"metadata":{},"timestamp":"2023-12-31T00:00:00Z","insertedAt":"2024-01-03T00:00:00Z","reverted":false,"preCommitVolumes":{"users:1":{"USD/2":{"input":100,"output":100,"balance":0}},"world":{"USD/2":{"input":0,"output":100,"balance":-100}}},"postCommitVolumes":{"users:1":{"USD/2":{"input":107,"output":100,"balance":7}},"world":{"USD/2":{"input":0,"output":107,"balance":-107}}},"preCommitEffectiveVolumes":{"users:1":{"USD/2":{"input":0,"output":0,"balance":0}},"world":{"USD/2":{"input":0,"output":0,"balance":0}}},"postCommitEffectiveVolumes":{"users:1":{"USD/2":{"input":7,"output":0,"balance":7}},"world":{"USD/2":{"input":0,"output":7,"balance":-7}}}}}}
{"event":0,"made":{"name":"default","addedAt":"1970-01-01T00:00:00Z","bucket":"_default","metadata":{}}}
{"event":1,"ledger":"default","entry":{"type":"NEW_TRANSACTION","data":{"transaction":{"id":1,"postings":[{"source":"world","destination":"users:1","amount":100,"asset":"USD/2"}],"metadata":{},"timestamp":"2024-01-01T00:00:00Z"},"accountMetadata":{}},"date":"2024-01-01T00:00:00Z","form":2,"id":1,"hash":"KYPhpXUWT2k0VAy5oXGx3lGIycWcBOQO+PJBn7qLsq8="}}
{"event":2,"ledger":"default","entry":{"type":"NEW_TRANSACTION","data":{"transaction":{"id":2,"postings":[{"source":"users:1","destination":"users:2","amount":100,"asset":"USD/2"}],"metadata":{},"timestamp":"2024-01-02T00:00:00Z"},"accountMetadata":{}},"date":"2024-01-02T00:00:00Z","form":2,"id":2,"hash":"0TQWVrA0dbZTs6j9YzLqtEAYhYL8yBFSb/VHFgEBc6g="}}
{"event":3,"ledger":"default","entry":{"type":"NEW_TRANSACTION","data":{"transaction":{"id":3,"postings":[{"source":"world","destination":"users:1","amount":7,"asset":"USD/2"}],"metadata":{},"timestamp":"2023-12-31T00:00:00Z"},"accountMetadata":{}},"date":"2024-01-03T00:00:00Z","form":2,"id":3,"hash":"nlk711fEg+DRwE3TCVkhMLXSxlpOlaeejVibuZo31C0="}}
"#,
    },
    Row {
        name: "one effective date",
        script: br#"{"now":"2024-01-01T00:00:00Z","method":"POST","path":"/v2/default/transactions","body":{"postings":[{"source":"world","destination":"a","amount":10,"asset":"EUR"}],"timestamp":"2024-01-01T00:00:00Z"}}
{"now":"2024-01-02T00:00:00Z","method":"POST","path":"/v2/default/transactions","body":{"postings":[{"source":"world","destination":"a","amount":5,"asset":"EUR"}],"timestamp":"2024-01-01T00:00:00Z"}}
{"now":"2024-01-03T00:00:00Z","method":"POST","path":"/v2/default/transactions","body":{"postings":[{"source":"world","destination":"a","amount":1,"asset":"EUR"}],"timestamp":"2024-01-01T00:00:00Z"}}
"#,
        output: br#"{"line":1,"front":1,"events":1,"hit":false,"status":200,"body":{"data":{"id":1,"postings":[{"source":"world","destination":"a","amount":10,"asset":"EUR"}],"metadata":{},"timestamp":"2024-01-01T00:00:00Z","insertedAt":"2024-01-01T00:00:00Z","reverted":false,"preCommitVolumes":{"a":{"EUR":{"input":0,"output":0,"balance":0}},"world":{"EUR":{"input":0,"output":0,"balance":0}}},"postCommitVolumes":{"a":{"EUR":{"input":10,"output":0,"balance":10}},"world":{"EUR":{"input":0,"output":10,"balance":-10}}},"preCommitEffectiveVolumes":{"a":{"EUR":{"input":0,"output":0,"balance":0}},"world":{"EUR":{"input":0,"output":0,"balance":0}}},"postCommitEffectiveVolumes":{"a":{"EUR":{"input":10,"output":0,"balance":10}},"world":{"EUR":{"input":0,"output":10,"balance":-10}}}}}}
{"line":2,"front":2,"events":1,"hit":false,"status":200,"body":{"data":{"id":2,"postings":[{"source":"world","destination":"a","amount":5,"asset":"EUR"}],"metadata":{},"timestamp":"2024-01-01T00:00:00Z","insertedAt":"2024-01-02T00:00:00Z","reverted":false,"preCommitVolumes":{"a":{"EUR":{"input":10,"output":0,"balance":10}},"world":{"EUR":{"input":0,"output":10,"balance":-10}}},"postCommitVolumes":{"a":{"EUR":{"input":15,"output":0,"balance":15}},"world":{"EUR":{"input":0,"output":15,"balance":-15}}},"preCommitEffectiveVolumes":{"a":{"EUR":{"input":10,"output":0,"balance":10}},"world":{"EUR":{"input":0,"output":10,"balance":-10}}},"postCommitEffectiveVolumes":{"a":{"EUR":{"input":15,"output":0,"balance":15}},"world":{"EUR":{"input":0,"output":15,"balance":-15}}}}}}
{"line":3,"front":3,"events":1,"hit":false,"status":200,"body":{"data":{"id":3,"postings":[{"source":"world","destination":"a","amount":1,"asset":"EUR"}],"metadata":{},"timestamp":"2024-01-01T00:00:00Z","insertedAt":"2024-01-03T00:00:00Z","reverted":false,"preCommitVolumes":{"a":{"EUR":{"input":15,"output":0,"balance":15}},"world":{"EUR":{"input":0,"output":15,"balance":-15}}},"postCommitVolumes":{"a":{"EUR":{"input":16,"output":0,"balance":16}},"world":{"EUR":{"input":0,"output":16,"balance":-16}}},"preCommitEffectiveVolumes":{"a":{"EUR":{"input":15,"output":0,"balance":15}},"world":{"EUR":{"input":0,"output":15,"balance":-15}}},"postCommitEffectiveVolumes":{"a":{"EUR":{"input":16,"output":0,"balance":16}},"world":{"EUR":{"input":0,"output":16,"balance":-16}}}}}}
{"event":0,"made":{"name":"default","addedAt":"1970-01-01T00:00:00Z","bucket":"_default","metadata":{}}}
{"event":1,"ledger":"default","entry":{"type":"NEW_TRANSACTION","data":{"transaction":{"id":1,"postings":[{"source":"world","destination":"a","amount":10,"asset":"EUR"}],"metadata":{},"timestamp":"2024-01-01T00:00:00Z"},"accountMetadata":{}},"date":"2024-01-01T00:00:00Z","form":2,"id":1,"hash":"tLh0ShtjGUJsjQIodONP1Zq0TgkeW/iPCF7I62BFPxo="}}
{"event":2,"ledger":"default","entry":{"type":"NEW_TRANSACTION","data":{"transaction":{"id":2,"postings":[{"source":"world","destination":"a","amount":5,"asset":"EUR"}],"metadata":{},"timestamp":"2024-01-01T00:00:00Z"},"accountMetadata":{}},"date":"2024-01-02T00:00:00Z","form":2,"id":2,"hash":"BhUa0urDwM7QjBIKWVOhQbFeq01ZxD7mrC6h7/DNVVA="}}
{"event":3,"ledger":"default","entry":{"type":"NEW_TRANSACTION","data":{"transaction":{"id":3,"postings":[{"source":"world","destination":"a","amount":1,"asset":"EUR"}],"metadata":{},"timestamp":"2024-01-01T00:00:00Z"},"accountMetadata":{}},"date":"2024-01-03T00:00:00Z","form":2,"id":3,"hash":"pN1WS0WjA/wPwBZELS5KYqnbNyivR5Rld0n1VtnCdm4="}}
"#,
    },
    Row {
        name: "a moment that falls back",
        script: br#"{"now":"2024-01-05T00:00:00Z","method":"POST","path":"/v2/default/transactions","body":{"postings":[{"source":"world","destination":"a","amount":1,"asset":"EUR"}]}}
{"now":"2024-01-04T00:00:00Z","method":"POST","path":"/v2/default/transactions","body":{"postings":[{"source":"world","destination":"a","amount":1,"asset":"EUR"}]}}
"#,
        output: br#"{"line":1,"front":1,"events":1,"hit":false,"status":200,"body":{"data":{"id":1,"postings":[{"source":"world","destination":"a","amount":1,"asset":"EUR"}],"metadata":{},"timestamp":"2024-01-05T00:00:00Z","insertedAt":"2024-01-05T00:00:00Z","reverted":false,"preCommitVolumes":{"a":{"EUR":{"input":0,"output":0,"balance":0}},"world":{"EUR":{"input":0,"output":0,"balance":0}}},"postCommitVolumes":{"a":{"EUR":{"input":1,"output":0,"balance":1}},"world":{"EUR":{"input":0,"output":1,"balance":-1}}},"preCommitEffectiveVolumes":{"a":{"EUR":{"input":0,"output":0,"balance":0}},"world":{"EUR":{"input":0,"output":0,"balance":0}}},"postCommitEffectiveVolumes":{"a":{"EUR":{"input":1,"output":0,"balance":1}},"world":{"EUR":{"input":0,"output":1,"balance":-1}}}}}}
{"line":2,"front":2,"events":1,"hit":false,"status":200,"body":{"data":{"id":2,"postings":[{"source":"world","destination":"a","amount":1,"asset":"EUR"}],"metadata":{},"timestamp":"2024-01-05T00:00:00Z","insertedAt":"2024-01-05T00:00:00Z","reverted":false,"preCommitVolumes":{"a":{"EUR":{"input":1,"output":0,"balance":1}},"world":{"EUR":{"input":0,"output":1,"balance":-1}}},"postCommitVolumes":{"a":{"EUR":{"input":2,"output":0,"balance":2}},"world":{"EUR":{"input":0,"output":2,"balance":-2}}},"preCommitEffectiveVolumes":{"a":{"EUR":{"input":1,"output":0,"balance":1}},"world":{"EUR":{"input":0,"output":1,"balance":-1}}},"postCommitEffectiveVolumes":{"a":{"EUR":{"input":2,"output":0,"balance":2}},"world":{"EUR":{"input":0,"output":2,"balance":-2}}}}}}
{"event":0,"made":{"name":"default","addedAt":"1970-01-01T00:00:00Z","bucket":"_default","metadata":{}}}
{"event":1,"ledger":"default","entry":{"type":"NEW_TRANSACTION","data":{"transaction":{"id":1,"postings":[{"source":"world","destination":"a","amount":1,"asset":"EUR"}],"metadata":{},"timestamp":"2024-01-05T00:00:00Z"},"accountMetadata":{}},"date":"2024-01-05T00:00:00Z","form":2,"id":1,"hash":"cOo9NlwVSGxxrQywssDjKadBgR+nrsMKTzC4P+gN7ko="}}
{"event":2,"ledger":"default","entry":{"type":"NEW_TRANSACTION","data":{"transaction":{"id":2,"postings":[{"source":"world","destination":"a","amount":1,"asset":"EUR"}],"metadata":{},"timestamp":"2024-01-05T00:00:00Z"},"accountMetadata":{}},"date":"2024-01-05T00:00:00Z","form":2,"id":2,"hash":"ZKZO/7ZR6WQkf10OoHPXGtMo4+C7HoYXHvGo1xmDcF4="}}
"#,
    },
    Row {
        name: "the limit of a volume",
        script: br#"{"now":"2024-01-01T00:00:00Z","method":"POST","path":"/v2/default/transactions","body":{"postings":[{"source":"world","destination":"a","amount":170141183460469231731687303715884105727,"asset":"X"}]}}
{"now":"2024-01-01T00:00:00Z","method":"POST","path":"/v2/default/transactions","body":{"postings":[{"source":"world","destination":"a","amount":1,"asset":"X"}]}}
{"now":"2024-01-01T00:00:00Z","method":"POST","path":"/v2/default/transactions","body":{"postings":[{"amount":170141183460469231731687303715884105728}]}}
{"now":"2024-01-01T00:00:00Z","method":"POST","path":"/v2/default/transactions","body":{"postings":[{"source":"a","destination":"b","amount":1,"asset":"X"}]}}
"#,
        output: br#"{"line":1,"front":1,"events":1,"hit":false,"status":200,"body":{"data":{"id":1,"postings":[{"source":"world","destination":"a","amount":170141183460469231731687303715884105727,"asset":"X"}],"metadata":{},"timestamp":"2024-01-01T00:00:00Z","insertedAt":"2024-01-01T00:00:00Z","reverted":false,"preCommitVolumes":{"a":{"X":{"input":0,"output":0,"balance":0}},"world":{"X":{"input":0,"output":0,"balance":0}}},"postCommitVolumes":{"a":{"X":{"input":170141183460469231731687303715884105727,"output":0,"balance":170141183460469231731687303715884105727}},"world":{"X":{"input":0,"output":170141183460469231731687303715884105727,"balance":-170141183460469231731687303715884105727}}},"preCommitEffectiveVolumes":{"a":{"X":{"input":0,"output":0,"balance":0}},"world":{"X":{"input":0,"output":0,"balance":0}}},"postCommitEffectiveVolumes":{"a":{"X":{"input":170141183460469231731687303715884105727,"output":0,"balance":170141183460469231731687303715884105727}},"world":{"X":{"input":0,"output":170141183460469231731687303715884105727,"balance":-170141183460469231731687303715884105727}}}}}}
{"line":2,"front":2,"events":0,"hit":false,"status":400,"body":{"errorCode":"AMOUNT_LIMIT","errorMessage":"posting 0 passes the limit"}}
{"line":3,"front":2,"events":0,"hit":false,"status":400,"body":{"errorCode":"VALIDATION","errorMessage":"line: too wide at byte 110"}}
{"line":4,"front":2,"events":1,"hit":false,"status":200,"body":{"data":{"id":2,"postings":[{"source":"a","destination":"b","amount":1,"asset":"X"}],"metadata":{},"timestamp":"2024-01-01T00:00:00Z","insertedAt":"2024-01-01T00:00:00Z","reverted":false,"preCommitVolumes":{"a":{"X":{"input":170141183460469231731687303715884105727,"output":0,"balance":170141183460469231731687303715884105727}},"b":{"X":{"input":0,"output":0,"balance":0}}},"postCommitVolumes":{"a":{"X":{"input":170141183460469231731687303715884105727,"output":1,"balance":170141183460469231731687303715884105726}},"b":{"X":{"input":1,"output":0,"balance":1}}},"preCommitEffectiveVolumes":{"a":{"X":{"input":170141183460469231731687303715884105727,"output":0,"balance":170141183460469231731687303715884105727}},"b":{"X":{"input":0,"output":0,"balance":0}}},"postCommitEffectiveVolumes":{"a":{"X":{"input":170141183460469231731687303715884105727,"output":1,"balance":170141183460469231731687303715884105726}},"b":{"X":{"input":1,"output":0,"balance":1}}}}}}
{"event":0,"made":{"name":"default","addedAt":"1970-01-01T00:00:00Z","bucket":"_default","metadata":{}}}
{"event":1,"ledger":"default","entry":{"type":"NEW_TRANSACTION","data":{"transaction":{"id":1,"postings":[{"source":"world","destination":"a","amount":170141183460469231731687303715884105727,"asset":"X"}],"metadata":{},"timestamp":"2024-01-01T00:00:00Z"},"accountMetadata":{}},"date":"2024-01-01T00:00:00Z","form":2,"id":1,"hash":"95/iTtfG1p1sHf+VyIQuP8u9vNxIGqNpusXDv89MIoU="}}
{"event":2,"ledger":"default","entry":{"type":"NEW_TRANSACTION","data":{"transaction":{"id":2,"postings":[{"source":"a","destination":"b","amount":1,"asset":"X"}],"metadata":{},"timestamp":"2024-01-01T00:00:00Z"},"accountMetadata":{}},"date":"2024-01-01T00:00:00Z","form":2,"id":2,"hash":"rA0/XVlNRSFP6B7rGmJMq4JpD3UHzv0ChIuFA+Qa53A="}}
"#,
    },
    Row {
        name: "a key that was used",
        script: br#"{"now":"2024-01-01T00:00:00Z","method":"POST","path":"/v2/default/transactions","body":{"postings":[{"source":"world","destination":"users:1","amount":100,"asset":"USD/2"}]},"key":"k1"}
{"now":"2024-01-02T00:00:00Z","method":"POST","path":"/v2/default/transactions","body":{"postings":[{"source":"world","destination":"users:1","amount":7,"asset":"USD/2"}],"timestamp":"2023-12-31T00:00:00Z"}}
{"key":"k1","now":"2024-01-03T00:00:00Z","method":"POST","path":"/v2/default/transactions","body":{"postings":[{"source":"world","destination":"users:1","amount":100,"asset":"USD/2"}]}}
{"key":"k1","now":"2024-01-03T00:00:00Z","method":"POST","path":"/v2/default/transactions","body":{"postings":[{"source":"world","destination":"users:1","amount":101,"asset":"USD/2"}]}}
{"key":"k2","now":"2024-01-03T00:00:00Z","method":"POST","path":"/v2/default/transactions","body":{"postings":[{"source":"users:9","destination":"users:1","amount":1,"asset":"USD/2"}]}}
{"key":"k2","now":"2024-01-03T00:00:00Z","method":"POST","path":"/v2/default/transactions","body":{"postings":[{"source":"world","destination":"users:1","amount":100,"asset":"USD/2"}]}}
"#,
        output: br#"{"line":1,"front":1,"events":1,"hit":false,"status":200,"body":{"data":{"id":1,"postings":[{"source":"world","destination":"users:1","amount":100,"asset":"USD/2"}],"metadata":{},"timestamp":"2024-01-01T00:00:00Z","insertedAt":"2024-01-01T00:00:00Z","reverted":false,"preCommitVolumes":{"users:1":{"USD/2":{"input":0,"output":0,"balance":0}},"world":{"USD/2":{"input":0,"output":0,"balance":0}}},"postCommitVolumes":{"users:1":{"USD/2":{"input":100,"output":0,"balance":100}},"world":{"USD/2":{"input":0,"output":100,"balance":-100}}},"preCommitEffectiveVolumes":{"users:1":{"USD/2":{"input":0,"output":0,"balance":0}},"world":{"USD/2":{"input":0,"output":0,"balance":0}}},"postCommitEffectiveVolumes":{"users:1":{"USD/2":{"input":100,"output":0,"balance":100}},"world":{"USD/2":{"input":0,"output":100,"balance":-100}}}}}}
{"line":2,"front":2,"events":1,"hit":false,"status":200,"body":{"data":{"id":2,"postings":[{"source":"world","destination":"users:1","amount":7,"asset":"USD/2"}],"metadata":{},"timestamp":"2023-12-31T00:00:00Z","insertedAt":"2024-01-02T00:00:00Z","reverted":false,"preCommitVolumes":{"users:1":{"USD/2":{"input":100,"output":0,"balance":100}},"world":{"USD/2":{"input":0,"output":100,"balance":-100}}},"postCommitVolumes":{"users:1":{"USD/2":{"input":107,"output":0,"balance":107}},"world":{"USD/2":{"input":0,"output":107,"balance":-107}}},"preCommitEffectiveVolumes":{"users:1":{"USD/2":{"input":0,"output":0,"balance":0}},"world":{"USD/2":{"input":0,"output":0,"balance":0}}},"postCommitEffectiveVolumes":{"users:1":{"USD/2":{"input":7,"output":0,"balance":7}},"world":{"USD/2":{"input":0,"output":7,"balance":-7}}}}}}
{"line":3,"front":3,"events":0,"hit":true,"status":200,"body":{"data":{"id":1,"postings":[{"source":"world","destination":"users:1","amount":100,"asset":"USD/2"}],"metadata":{},"timestamp":"2024-01-01T00:00:00Z","insertedAt":"2024-01-01T00:00:00Z","reverted":false,"preCommitVolumes":{"users:1":{"USD/2":{"input":0,"output":0,"balance":0}},"world":{"USD/2":{"input":0,"output":0,"balance":0}}},"postCommitVolumes":{"users:1":{"USD/2":{"input":100,"output":0,"balance":100}},"world":{"USD/2":{"input":0,"output":100,"balance":-100}}},"preCommitEffectiveVolumes":{"users:1":{"USD/2":{"input":0,"output":0,"balance":0}},"world":{"USD/2":{"input":0,"output":0,"balance":0}}},"postCommitEffectiveVolumes":{"users:1":{"USD/2":{"input":100,"output":0,"balance":100}},"world":{"USD/2":{"input":0,"output":100,"balance":-100}}}}}}
{"line":4,"front":3,"events":0,"hit":false,"status":400,"body":{"errorCode":"VALIDATION","errorMessage":"key k1: kept 06695a21f8a9d6f9e5fbfbb1c168104d4a8f1595419c984b585da8ac44b9b5f2, given 5ad359f2a3b0d16f93519104f8c31d4654c46cf10ee60042f6141fc03921ba67"}}
{"line":5,"front":3,"events":0,"hit":false,"status":400,"body":{"errorCode":"INSUFFICIENT_FUND","errorMessage":"posting 0: users:9 has 0 USD/2, needs 1"}}
{"line":6,"front":3,"events":1,"hit":false,"status":200,"body":{"data":{"id":3,"postings":[{"source":"world","destination":"users:1","amount":100,"asset":"USD/2"}],"metadata":{},"timestamp":"2024-01-03T00:00:00Z","insertedAt":"2024-01-03T00:00:00Z","reverted":false,"preCommitVolumes":{"users:1":{"USD/2":{"input":107,"output":0,"balance":107}},"world":{"USD/2":{"input":0,"output":107,"balance":-107}}},"postCommitVolumes":{"users:1":{"USD/2":{"input":207,"output":0,"balance":207}},"world":{"USD/2":{"input":0,"output":207,"balance":-207}}},"preCommitEffectiveVolumes":{"users:1":{"USD/2":{"input":107,"output":0,"balance":107}},"world":{"USD/2":{"input":0,"output":107,"balance":-107}}},"postCommitEffectiveVolumes":{"users:1":{"USD/2":{"input":207,"output":0,"balance":207}},"world":{"USD/2":{"input":0,"output":207,"balance":-207}}}}}}
{"event":0,"made":{"name":"default","addedAt":"1970-01-01T00:00:00Z","bucket":"_default","metadata":{}}}
{"event":1,"ledger":"default","entry":{"type":"NEW_TRANSACTION","data":{"transaction":{"id":1,"postings":[{"source":"world","destination":"users:1","amount":100,"asset":"USD/2"}],"metadata":{},"timestamp":"2024-01-01T00:00:00Z"},"accountMetadata":{}},"date":"2024-01-01T00:00:00Z","idempotencyKey":"k1","idempotencyHash":"BmlaIfip1vnl+/uxwWgQTUqPFZVBnJhLWF2orES5tfI=","form":2,"id":1,"hash":"I5WtfKB4Gt21cBelaQ0xj15gEVxmMFTuDn+tH7SBl2k="}}
{"event":2,"ledger":"default","entry":{"type":"NEW_TRANSACTION","data":{"transaction":{"id":2,"postings":[{"source":"world","destination":"users:1","amount":7,"asset":"USD/2"}],"metadata":{},"timestamp":"2023-12-31T00:00:00Z"},"accountMetadata":{}},"date":"2024-01-02T00:00:00Z","form":2,"id":2,"hash":"pRDvnaMCcmFQ3szUMS3hJYj1/tn+2Cqxj7FrOde/V9w="}}
{"event":3,"ledger":"default","entry":{"type":"NEW_TRANSACTION","data":{"transaction":{"id":3,"postings":[{"source":"world","destination":"users:1","amount":100,"asset":"USD/2"}],"metadata":{},"timestamp":"2024-01-03T00:00:00Z"},"accountMetadata":{}},"date":"2024-01-03T00:00:00Z","idempotencyKey":"k2","idempotencyHash":"BmlaIfip1vnl+/uxwWgQTUqPFZVBnJhLWF2orES5tfI=","form":2,"id":3,"hash":"zancs/ove+gEzFLHQ9fWlMtH3NG5vb981z91iZTLkYI="}}
"#,
    },
    Row {
        name: "a reference that was used",
        script: br#"{"now":"2024-01-01T00:00:00Z","method":"POST","path":"/v2/default/transactions","body":{"postings":[{"source":"world","destination":"a","amount":5,"asset":"EUR"}],"reference":"r"}}
{"now":"2024-01-01T00:00:00Z","method":"POST","path":"/v2/default/transactions","body":{"postings":[{"source":"a","destination":"b","amount":6,"asset":"EUR"}],"reference":"r"}}
{"now":"2024-01-01T00:00:00Z","method":"POST","path":"/v2/default/transactions","body":{"postings":[{"source":"a","destination":"b","amount":5,"asset":"EUR"}],"reference":"r"}}
"#,
        output: br#"{"line":1,"front":1,"events":1,"hit":false,"status":200,"body":{"data":{"id":1,"postings":[{"source":"world","destination":"a","amount":5,"asset":"EUR"}],"metadata":{},"reference":"r","timestamp":"2024-01-01T00:00:00Z","insertedAt":"2024-01-01T00:00:00Z","reverted":false,"preCommitVolumes":{"a":{"EUR":{"input":0,"output":0,"balance":0}},"world":{"EUR":{"input":0,"output":0,"balance":0}}},"postCommitVolumes":{"a":{"EUR":{"input":5,"output":0,"balance":5}},"world":{"EUR":{"input":0,"output":5,"balance":-5}}},"preCommitEffectiveVolumes":{"a":{"EUR":{"input":0,"output":0,"balance":0}},"world":{"EUR":{"input":0,"output":0,"balance":0}}},"postCommitEffectiveVolumes":{"a":{"EUR":{"input":5,"output":0,"balance":5}},"world":{"EUR":{"input":0,"output":5,"balance":-5}}}}}}
{"line":2,"front":2,"events":0,"hit":false,"status":400,"body":{"errorCode":"INSUFFICIENT_FUND","errorMessage":"posting 0: a has 5 EUR, needs 6"}}
{"line":3,"front":2,"events":0,"hit":false,"status":409,"body":{"errorCode":"CONFLICT","errorMessage":"reference r is used by transaction 1"}}
{"event":0,"made":{"name":"default","addedAt":"1970-01-01T00:00:00Z","bucket":"_default","metadata":{}}}
{"event":1,"ledger":"default","entry":{"type":"NEW_TRANSACTION","data":{"transaction":{"id":1,"postings":[{"source":"world","destination":"a","amount":5,"asset":"EUR"}],"metadata":{},"reference":"r","timestamp":"2024-01-01T00:00:00Z"},"accountMetadata":{}},"date":"2024-01-01T00:00:00Z","form":2,"id":1,"hash":"IEQJEXWyRMKkwkuKYn1tg35LKTpqXa4rP/RU3aWIKV8="}}
"#,
    },
    Row {
        name: "reverts",
        script: br#"{"now":"2024-01-01T00:00:00Z","method":"POST","path":"/v2/default/transactions","body":{"postings":[{"source":"world","destination":"a","amount":10,"asset":"EUR"}]}}
{"now":"2024-01-01T00:00:00Z","method":"POST","path":"/v2/default/transactions","body":{"postings":[{"source":"a","destination":"b","amount":8,"asset":"EUR"}]}}
{"now":"2024-01-01T00:00:00Z","method":"POST","path":"/v2/default/transactions/1/revert"}
{"now":"2024-01-01T00:00:00Z","method":"POST","path":"/v2/default/transactions/1/revert?force=true"}
{"now":"2024-01-01T00:00:00Z","method":"POST","path":"/v2/default/transactions/1/revert?force=true"}
{"now":"2024-01-01T00:00:00Z","method":"POST","path":"/v2/default/transactions/9/revert"}
"#,
        output: br#"{"line":1,"front":1,"events":1,"hit":false,"status":200,"body":{"data":{"id":1,"postings":[{"source":"world","destination":"a","amount":10,"asset":"EUR"}],"metadata":{},"timestamp":"2024-01-01T00:00:00Z","insertedAt":"2024-01-01T00:00:00Z","reverted":false,"preCommitVolumes":{"a":{"EUR":{"input":0,"output":0,"balance":0}},"world":{"EUR":{"input":0,"output":0,"balance":0}}},"postCommitVolumes":{"a":{"EUR":{"input":10,"output":0,"balance":10}},"world":{"EUR":{"input":0,"output":10,"balance":-10}}},"preCommitEffectiveVolumes":{"a":{"EUR":{"input":0,"output":0,"balance":0}},"world":{"EUR":{"input":0,"output":0,"balance":0}}},"postCommitEffectiveVolumes":{"a":{"EUR":{"input":10,"output":0,"balance":10}},"world":{"EUR":{"input":0,"output":10,"balance":-10}}}}}}
{"line":2,"front":2,"events":1,"hit":false,"status":200,"body":{"data":{"id":2,"postings":[{"source":"a","destination":"b","amount":8,"asset":"EUR"}],"metadata":{},"timestamp":"2024-01-01T00:00:00Z","insertedAt":"2024-01-01T00:00:00Z","reverted":false,"preCommitVolumes":{"a":{"EUR":{"input":10,"output":0,"balance":10}},"b":{"EUR":{"input":0,"output":0,"balance":0}}},"postCommitVolumes":{"a":{"EUR":{"input":10,"output":8,"balance":2}},"b":{"EUR":{"input":8,"output":0,"balance":8}}},"preCommitEffectiveVolumes":{"a":{"EUR":{"input":10,"output":0,"balance":10}},"b":{"EUR":{"input":0,"output":0,"balance":0}}},"postCommitEffectiveVolumes":{"a":{"EUR":{"input":10,"output":8,"balance":2}},"b":{"EUR":{"input":8,"output":0,"balance":8}}}}}}
{"line":3,"front":3,"events":0,"hit":false,"status":400,"body":{"errorCode":"INSUFFICIENT_FUND","errorMessage":"revert: a would have -8 EUR"}}
{"line":4,"front":3,"events":1,"hit":false,"status":201,"body":{"data":{"id":3,"postings":[{"source":"a","destination":"world","amount":10,"asset":"EUR"}],"metadata":{"com.formance.spec/state/reverts":"1"},"timestamp":"2024-01-01T00:00:00Z","insertedAt":"2024-01-01T00:00:00Z","reverted":false,"preCommitVolumes":{"a":{"EUR":{"input":10,"output":8,"balance":2}},"world":{"EUR":{"input":0,"output":10,"balance":-10}}},"postCommitVolumes":{"a":{"EUR":{"input":10,"output":18,"balance":-8}},"world":{"EUR":{"input":10,"output":10,"balance":0}}},"preCommitEffectiveVolumes":{"a":{"EUR":{"input":10,"output":8,"balance":2}},"world":{"EUR":{"input":0,"output":10,"balance":-10}}},"postCommitEffectiveVolumes":{"a":{"EUR":{"input":10,"output":18,"balance":-8}},"world":{"EUR":{"input":10,"output":10,"balance":0}}}}}}
{"line":5,"front":4,"events":0,"hit":false,"status":400,"body":{"errorCode":"ALREADY_REVERT","errorMessage":"transaction 1 is reverted by 3"}}
{"line":6,"front":4,"events":0,"hit":false,"status":404,"body":{"errorCode":"NOT_FOUND","errorMessage":"transaction 9"}}
{"event":0,"made":{"name":"default","addedAt":"1970-01-01T00:00:00Z","bucket":"_default","metadata":{}}}
{"event":1,"ledger":"default","entry":{"type":"NEW_TRANSACTION","data":{"transaction":{"id":1,"postings":[{"source":"world","destination":"a","amount":10,"asset":"EUR"}],"metadata":{},"timestamp":"2024-01-01T00:00:00Z"},"accountMetadata":{}},"date":"2024-01-01T00:00:00Z","form":2,"id":1,"hash":"tLh0ShtjGUJsjQIodONP1Zq0TgkeW/iPCF7I62BFPxo="}}
{"event":2,"ledger":"default","entry":{"type":"NEW_TRANSACTION","data":{"transaction":{"id":2,"postings":[{"source":"a","destination":"b","amount":8,"asset":"EUR"}],"metadata":{},"timestamp":"2024-01-01T00:00:00Z"},"accountMetadata":{}},"date":"2024-01-01T00:00:00Z","form":2,"id":2,"hash":"VNQTPo/R9S6GPYC/3SOTNk+c2Aja6tIssAN5BkjgBa8="}}
{"event":3,"ledger":"default","entry":{"type":"REVERTED_TRANSACTION","data":{"revertedTransactionID":1,"transaction":{"id":3,"postings":[{"source":"a","destination":"world","amount":10,"asset":"EUR"}],"metadata":{"com.formance.spec/state/reverts":"1"},"timestamp":"2024-01-01T00:00:00Z"}},"date":"2024-01-01T00:00:00Z","form":2,"id":3,"hash":"0BGs36ZB40awCyot8HLHDZ9/hLHY9uTuBlDlWKwyftY="}}
"#,
    },
    Row {
        name: "a revert at the effective date",
        script: br#"{"now":"2024-01-02T00:00:00Z","method":"POST","path":"/v2/default/transactions","body":{"postings":[{"source":"world","destination":"a","amount":10,"asset":"EUR"}],"timestamp":"2024-01-01T00:00:00Z"}}
{"now":"2024-01-03T00:00:00Z","method":"POST","path":"/v2/default/transactions/1/revert?atEffectiveDate=true"}
"#,
        output: br#"{"line":1,"front":1,"events":1,"hit":false,"status":200,"body":{"data":{"id":1,"postings":[{"source":"world","destination":"a","amount":10,"asset":"EUR"}],"metadata":{},"timestamp":"2024-01-01T00:00:00Z","insertedAt":"2024-01-02T00:00:00Z","reverted":false,"preCommitVolumes":{"a":{"EUR":{"input":0,"output":0,"balance":0}},"world":{"EUR":{"input":0,"output":0,"balance":0}}},"postCommitVolumes":{"a":{"EUR":{"input":10,"output":0,"balance":10}},"world":{"EUR":{"input":0,"output":10,"balance":-10}}},"preCommitEffectiveVolumes":{"a":{"EUR":{"input":0,"output":0,"balance":0}},"world":{"EUR":{"input":0,"output":0,"balance":0}}},"postCommitEffectiveVolumes":{"a":{"EUR":{"input":10,"output":0,"balance":10}},"world":{"EUR":{"input":0,"output":10,"balance":-10}}}}}}
{"line":2,"front":2,"events":1,"hit":false,"status":201,"body":{"data":{"id":2,"postings":[{"source":"a","destination":"world","amount":10,"asset":"EUR"}],"metadata":{"com.formance.spec/state/reverts":"1"},"timestamp":"2024-01-01T00:00:00Z","insertedAt":"2024-01-03T00:00:00Z","reverted":false,"preCommitVolumes":{"a":{"EUR":{"input":10,"output":0,"balance":10}},"world":{"EUR":{"input":0,"output":10,"balance":-10}}},"postCommitVolumes":{"a":{"EUR":{"input":10,"output":10,"balance":0}},"world":{"EUR":{"input":10,"output":10,"balance":0}}},"preCommitEffectiveVolumes":{"a":{"EUR":{"input":10,"output":0,"balance":10}},"world":{"EUR":{"input":0,"output":10,"balance":-10}}},"postCommitEffectiveVolumes":{"a":{"EUR":{"input":10,"output":10,"balance":0}},"world":{"EUR":{"input":10,"output":10,"balance":0}}}}}}
{"event":0,"made":{"name":"default","addedAt":"1970-01-01T00:00:00Z","bucket":"_default","metadata":{}}}
{"event":1,"ledger":"default","entry":{"type":"NEW_TRANSACTION","data":{"transaction":{"id":1,"postings":[{"source":"world","destination":"a","amount":10,"asset":"EUR"}],"metadata":{},"timestamp":"2024-01-01T00:00:00Z"},"accountMetadata":{}},"date":"2024-01-02T00:00:00Z","form":2,"id":1,"hash":"f47jonnCBnoMwnTtGtZnVwBKryfsKfW7N6zXA0e3lzw="}}
{"event":2,"ledger":"default","entry":{"type":"REVERTED_TRANSACTION","data":{"revertedTransactionID":1,"transaction":{"id":2,"postings":[{"source":"a","destination":"world","amount":10,"asset":"EUR"}],"metadata":{"com.formance.spec/state/reverts":"1"},"timestamp":"2024-01-01T00:00:00Z"}},"date":"2024-01-03T00:00:00Z","form":2,"id":2,"hash":"we5Qa1cFXXb8eNHqWSShq4hKVdwbGfS4wu8EvYGPPig="}}
"#,
    },
    Row {
        name: "metadata of an account",
        script: br#"{"now":"2024-01-01T00:00:00Z","method":"POST","path":"/v2/default/accounts/a/metadata","body":{"tier":"gold"}}
{"now":"2024-01-02T00:00:00Z","method":"POST","path":"/v2/default/accounts/a/metadata","body":{"tier":"silver","x":"1"}}
{"now":"2024-01-03T00:00:00Z","method":"DELETE","path":"/v2/default/accounts/a/metadata/tier"}
"#,
        output: br#"{"line":1,"front":1,"events":1,"hit":false,"status":204,"body":null}
{"line":2,"front":2,"events":1,"hit":false,"status":204,"body":null}
{"line":3,"front":3,"events":1,"hit":false,"status":204,"body":null}
{"event":0,"made":{"name":"default","addedAt":"1970-01-01T00:00:00Z","bucket":"_default","metadata":{}}}
{"event":1,"ledger":"default","entry":{"type":"SET_METADATA","data":{"targetType":"ACCOUNT","targetId":"a","metadata":{"tier":"gold"}},"date":"2024-01-01T00:00:00Z","form":2,"id":1,"hash":"ZjeHiHxc3jMHNA/t2By8B61WDhASpA26NUbhekONhjk="}}
{"event":2,"ledger":"default","entry":{"type":"SET_METADATA","data":{"targetType":"ACCOUNT","targetId":"a","metadata":{"tier":"silver","x":"1"}},"date":"2024-01-02T00:00:00Z","form":2,"id":2,"hash":"7UD2UrP7pBNfigfySSCfu5VzHqnn3akdRNEIZ38K3xg="}}
{"event":3,"ledger":"default","entry":{"type":"DELETE_METADATA","data":{"targetType":"ACCOUNT","targetId":"a","key":"tier"},"date":"2024-01-03T00:00:00Z","form":2,"id":3,"hash":"dksh9+Hq3R0ceLmhWntMQHW/ap0qQ++HpLPwTMMRLiQ="}}
"#,
    },
    Row {
        name: "an amount of 0",
        script: br#"{"now":"2024-01-01T00:00:00Z","method":"POST","path":"/v2/default/transactions","body":{"postings":[{"source":"a","destination":"b","amount":0,"asset":"EUR"}]}}
"#,
        output: br#"{"line":1,"front":1,"events":1,"hit":false,"status":200,"body":{"data":{"id":1,"postings":[{"source":"a","destination":"b","amount":0,"asset":"EUR"}],"metadata":{},"timestamp":"2024-01-01T00:00:00Z","insertedAt":"2024-01-01T00:00:00Z","reverted":false,"preCommitVolumes":{"a":{"EUR":{"input":0,"output":0,"balance":0}},"b":{"EUR":{"input":0,"output":0,"balance":0}}},"postCommitVolumes":{"a":{"EUR":{"input":0,"output":0,"balance":0}},"b":{"EUR":{"input":0,"output":0,"balance":0}}},"preCommitEffectiveVolumes":{"a":{"EUR":{"input":0,"output":0,"balance":0}},"b":{"EUR":{"input":0,"output":0,"balance":0}}},"postCommitEffectiveVolumes":{"a":{"EUR":{"input":0,"output":0,"balance":0}},"b":{"EUR":{"input":0,"output":0,"balance":0}}}}}}
{"event":0,"made":{"name":"default","addedAt":"1970-01-01T00:00:00Z","bucket":"_default","metadata":{}}}
{"event":1,"ledger":"default","entry":{"type":"NEW_TRANSACTION","data":{"transaction":{"id":1,"postings":[{"source":"a","destination":"b","amount":0,"asset":"EUR"}],"metadata":{},"timestamp":"2024-01-01T00:00:00Z"},"accountMetadata":{}},"date":"2024-01-01T00:00:00Z","form":2,"id":1,"hash":"trFTETHE0Yh/oStW0xXLJTdhbhqmrKP8j5E1XTFEw+k="}}
"#,
    },
    Row {
        name: "requests that are refused",
        script: br#"{"now":"2024-01-01T00:00:00Z","method":"POST","path":"/v2/default/transactions","body":{"postings":[]}}
{"now":"2024-01-01T00:00:00Z","method":"POST","path":"/v2/default/transactions","body":{"script":{"plain":"send"}}}
{"now":"2024-01-01T00:00:00Z","method":"POST","path":"/v2/nope/transactions","body":{"postings":[{"source":"world","destination":"a","amount":1,"asset":"EUR"}]}}
{"now":"2024-01-01T00:00:00Z","method":"POST","path":"/v2/default"}
{"now":"2024-01-01T00:00:00Z","method":"GET","path":"/v3"}
{"now":"2024-01-01T00:00:00Z","method":"PUT","path":"/v2/default"}
{"now":"2024-01-01T00:00:00Z","method":"POST","path":"/v2/default/transactions","body":{"postings":[{"source":"world","destination":"a:","amount":1,"asset":"EUR"}]}}
"#,
        output: br#"{"line":1,"front":1,"events":0,"hit":false,"status":400,"body":{"errorCode":"NO_POSTINGS","errorMessage":"no postings"}}
{"line":2,"front":1,"events":0,"hit":false,"status":400,"body":{"errorCode":"COMPILATION_FAILED","errorMessage":"script"}}
{"line":3,"front":1,"events":0,"hit":false,"status":404,"body":{"errorCode":"LEDGER_NOT_FOUND","errorMessage":"ledger nope"}}
{"line":4,"front":1,"events":0,"hit":false,"status":400,"body":{"errorCode":"LEDGER_ALREADY_EXISTS","errorMessage":"ledger default"}}
{"line":5,"front":1,"events":0,"hit":false,"status":404,"body":{"errorCode":"NO_ROUTE","errorMessage":"no route"}}
{"line":6,"front":1,"events":0,"hit":false,"status":405,"body":{"errorCode":"METHOD_NOT_ALLOWED","errorMessage":"method"}}
{"line":7,"front":1,"events":0,"hit":false,"status":400,"body":{"errorCode":"VALIDATION","errorMessage":"postings[0].destination: form"}}
{"event":0,"made":{"name":"default","addedAt":"1970-01-01T00:00:00Z","bucket":"_default","metadata":{}}}
"#,
    },
    Row {
        name: "lines that can't be read",
        script: br#"[]

{"now":"2024
{"now":"2024-01-01","method":"POST","path":"/v2/default"}
{"now":"2024-01-01T00:00:00Z","caller":64,"method":"POST","path":"/v2/default"}
{"now":"2024-01-01T00:00:00Z","caller":63,"phase":2,"method":"POST","path":"/v2/l2"}
{"now":"2024-01-01T00:00:00Z","phase":1,"method":"POST","path":"/v2/l3"}
{"now":"2024-01-01T00:00:00Z","phase":2,"path":"/v2/l3"}
{"now":"2024-01-01T00:00:00Z","phase":2,"method":"POST"}
{"now":"2024-01-01T00:00:00Z","phase":2,"method":"POST","path":"/v2/l3","key":1}
{"body":null,"phase":2,"path":"\/v2\/l3","method":"POS\u0054","\u006eow":"2024-01-02T00:00:00Z"}"#,
        output: br#"{"line":1,"front":1,"events":0,"hit":false,"status":400,"body":{"errorCode":"VALIDATION","errorMessage":"line: type"}}
{"line":3,"front":1,"events":0,"hit":false,"status":400,"body":{"errorCode":"VALIDATION","errorMessage":"line: syntax at byte 12"}}
{"line":4,"front":1,"events":0,"hit":false,"status":400,"body":{"errorCode":"VALIDATION","errorMessage":"line: now: form"}}
{"line":5,"front":1,"events":0,"hit":false,"status":400,"body":{"errorCode":"VALIDATION","errorMessage":"line: caller: form"}}
{"line":6,"front":1,"events":1,"hit":false,"status":204,"body":null}
{"line":7,"front":2,"events":0,"hit":false,"status":400,"body":{"errorCode":"VALIDATION","errorMessage":"line: phase: form"}}
{"line":8,"front":2,"events":0,"hit":false,"status":400,"body":{"errorCode":"VALIDATION","errorMessage":"line: method: missing"}}
{"line":9,"front":2,"events":0,"hit":false,"status":400,"body":{"errorCode":"VALIDATION","errorMessage":"line: path: missing"}}
{"line":10,"front":2,"events":0,"hit":false,"status":400,"body":{"errorCode":"VALIDATION","errorMessage":"line: key: type"}}
{"line":11,"front":2,"events":1,"hit":false,"status":204,"body":null}
{"event":0,"made":{"name":"default","addedAt":"1970-01-01T00:00:00Z","bucket":"_default","metadata":{}}}
{"event":1,"made":{"name":"l2","addedAt":"2024-01-01T00:00:00Z","bucket":"_default","metadata":{}}}
{"event":2,"made":{"name":"l3","addedAt":"2024-01-02T00:00:00Z","bucket":"_default","metadata":{}}}
"#,
    },
    Row {
        name: "a first payment",
        script: br#"{"now":"2024-01-01T00:00:00Z","method":"POST","path":"/v2/default/transactions","body":{"postings":[{"source":"world","destination":"users:1","amount":100,"asset":"USD/2"}]}}
"#,
        output: br#"{"line":1,"front":1,"events":1,"hit":false,"status":200,"body":{"data":{"id":1,"postings":[{"source":"world","destination":"users:1","amount":100,"asset":"USD/2"}],"metadata":{},"timestamp":"2024-01-01T00:00:00Z","insertedAt":"2024-01-01T00:00:00Z","reverted":false,"preCommitVolumes":{"users:1":{"USD/2":{"input":0,"output":0,"balance":0}},"world":{"USD/2":{"input":0,"output":0,"balance":0}}},"postCommitVolumes":{"users:1":{"USD/2":{"input":100,"output":0,"balance":100}},"world":{"USD/2":{"input":0,"output":100,"balance":-100}}},"preCommitEffectiveVolumes":{"users:1":{"USD/2":{"input":0,"output":0,"balance":0}},"world":{"USD/2":{"input":0,"output":0,"balance":0}}},"postCommitEffectiveVolumes":{"users:1":{"USD/2":{"input":100,"output":0,"balance":100}},"world":{"USD/2":{"input":0,"output":100,"balance":-100}}}}}}
{"event":0,"made":{"name":"default","addedAt":"1970-01-01T00:00:00Z","bucket":"_default","metadata":{}}}
{"event":1,"ledger":"default","entry":{"type":"NEW_TRANSACTION","data":{"transaction":{"id":1,"postings":[{"source":"world","destination":"users:1","amount":100,"asset":"USD/2"}],"metadata":{},"timestamp":"2024-01-01T00:00:00Z"},"accountMetadata":{}},"date":"2024-01-01T00:00:00Z","form":2,"id":1,"hash":"KYPhpXUWT2k0VAy5oXGx3lGIycWcBOQO+PJBn7qLsq8="}}
"#,
    },
    Row {
        name: "a payment without funds",
        script: br#"{"now":"2024-01-01T00:00:00Z","method":"POST","path":"/v2/default/transactions","body":{"postings":[{"source":"world","destination":"users:1","amount":100,"asset":"USD/2"}]}}
{"now":"2024-01-02T00:00:00Z","method":"POST","path":"/v2/default/transactions","body":{"postings":[{"source":"users:1","destination":"users:2","amount":101,"asset":"USD/2"}]}}
{"now":"2024-01-02T00:00:00Z","method":"POST","path":"/v2/default/transactions","body":{"postings":[{"source":"users:1","destination":"users:2","amount":100,"asset":"USD/2"}]}}
"#,
        output: br#"{"line":1,"front":1,"events":1,"hit":false,"status":200,"body":{"data":{"id":1,"postings":[{"source":"world","destination":"users:1","amount":100,"asset":"USD/2"}],"metadata":{},"timestamp":"2024-01-01T00:00:00Z","insertedAt":"2024-01-01T00:00:00Z","reverted":false,"preCommitVolumes":{"users:1":{"USD/2":{"input":0,"output":0,"balance":0}},"world":{"USD/2":{"input":0,"output":0,"balance":0}}},"postCommitVolumes":{"users:1":{"USD/2":{"input":100,"output":0,"balance":100}},"world":{"USD/2":{"input":0,"output":100,"balance":-100}}},"preCommitEffectiveVolumes":{"users:1":{"USD/2":{"input":0,"output":0,"balance":0}},"world":{"USD/2":{"input":0,"output":0,"balance":0}}},"postCommitEffectiveVolumes":{"users:1":{"USD/2":{"input":100,"output":0,"balance":100}},"world":{"USD/2":{"input":0,"output":100,"balance":-100}}}}}}
{"line":2,"front":2,"events":0,"hit":false,"status":400,"body":{"errorCode":"INSUFFICIENT_FUND","errorMessage":"posting 0: users:1 has 100 USD/2, needs 101"}}
{"line":3,"front":2,"events":1,"hit":false,"status":200,"body":{"data":{"id":2,"postings":[{"source":"users:1","destination":"users:2","amount":100,"asset":"USD/2"}],"metadata":{},"timestamp":"2024-01-02T00:00:00Z","insertedAt":"2024-01-02T00:00:00Z","reverted":false,"preCommitVolumes":{"users:1":{"USD/2":{"input":100,"output":0,"balance":100}},"users:2":{"USD/2":{"input":0,"output":0,"balance":0}}},"postCommitVolumes":{"users:1":{"USD/2":{"input":100,"output":100,"balance":0}},"users:2":{"USD/2":{"input":100,"output":0,"balance":100}}},"preCommitEffectiveVolumes":{"users:1":{"USD/2":{"input":100,"output":0,"balance":100}},"users:2":{"USD/2":{"input":0,"output":0,"balance":0}}},"postCommitEffectiveVolumes":{"users:1":{"USD/2":{"input":100,"output":100,"balance":0}},"users:2":{"USD/2":{"input":100,"output":0,"balance":100}}}}}}
{"event":0,"made":{"name":"default","addedAt":"1970-01-01T00:00:00Z","bucket":"_default","metadata":{}}}
{"event":1,"ledger":"default","entry":{"type":"NEW_TRANSACTION","data":{"transaction":{"id":1,"postings":[{"source":"world","destination":"users:1","amount":100,"asset":"USD/2"}],"metadata":{},"timestamp":"2024-01-01T00:00:00Z"},"accountMetadata":{}},"date":"2024-01-01T00:00:00Z","form":2,"id":1,"hash":"KYPhpXUWT2k0VAy5oXGx3lGIycWcBOQO+PJBn7qLsq8="}}
{"event":2,"ledger":"default","entry":{"type":"NEW_TRANSACTION","data":{"transaction":{"id":2,"postings":[{"source":"users:1","destination":"users:2","amount":100,"asset":"USD/2"}],"metadata":{},"timestamp":"2024-01-02T00:00:00Z"},"accountMetadata":{}},"date":"2024-01-02T00:00:00Z","form":2,"id":2,"hash":"0TQWVrA0dbZTs6j9YzLqtEAYhYL8yBFSb/VHFgEBc6g="}}
"#,
    },
    Row {
        name: "a repeated key after an earlier effective date",
        script: br#"{"now":"2024-01-01T00:00:00Z","method":"POST","path":"/v2/default/transactions","body":{"postings":[{"source":"world","destination":"users:1","amount":100,"asset":"USD/2"}]},"key":"k1"}
{"now":"2024-01-02T00:00:00Z","method":"POST","path":"/v2/default/transactions","body":{"postings":[{"source":"world","destination":"users:1","amount":7,"asset":"USD/2"}],"timestamp":"2023-12-31T00:00:00Z"}}
{"key":"k1","now":"2024-01-03T00:00:00Z","method":"POST","path":"/v2/default/transactions","body":{"postings":[{"source":"world","destination":"users:1","amount":100,"asset":"USD/2"}]}}
"#,
        output: br#"{"line":1,"front":1,"events":1,"hit":false,"status":200,"body":{"data":{"id":1,"postings":[{"source":"world","destination":"users:1","amount":100,"asset":"USD/2"}],"metadata":{},"timestamp":"2024-01-01T00:00:00Z","insertedAt":"2024-01-01T00:00:00Z","reverted":false,"preCommitVolumes":{"users:1":{"USD/2":{"input":0,"output":0,"balance":0}},"world":{"USD/2":{"input":0,"output":0,"balance":0}}},"postCommitVolumes":{"users:1":{"USD/2":{"input":100,"output":0,"balance":100}},"world":{"USD/2":{"input":0,"output":100,"balance":-100}}},"preCommitEffectiveVolumes":{"users:1":{"USD/2":{"input":0,"output":0,"balance":0}},"world":{"USD/2":{"input":0,"output":0,"balance":0}}},"postCommitEffectiveVolumes":{"users:1":{"USD/2":{"input":100,"output":0,"balance":100}},"world":{"USD/2":{"input":0,"output":100,"balance":-100}}}}}}
{"line":2,"front":2,"events":1,"hit":false,"status":200,"body":{"data":{"id":2,"postings":[{"source":"world","destination":"users:1","amount":7,"asset":"USD/2"}],"metadata":{},"timestamp":"2023-12-31T00:00:00Z","insertedAt":"2024-01-02T00:00:00Z","reverted":false,"preCommitVolumes":{"users:1":{"USD/2":{"input":100,"output":0,"balance":100}},"world":{"USD/2":{"input":0,"output":100,"balance":-100}}},"postCommitVolumes":{"users:1":{"USD/2":{"input":107,"output":0,"balance":107}},"world":{"USD/2":{"input":0,"output":107,"balance":-107}}},"preCommitEffectiveVolumes":{"users:1":{"USD/2":{"input":0,"output":0,"balance":0}},"world":{"USD/2":{"input":0,"output":0,"balance":0}}},"postCommitEffectiveVolumes":{"users:1":{"USD/2":{"input":7,"output":0,"balance":7}},"world":{"USD/2":{"input":0,"output":7,"balance":-7}}}}}}
{"line":3,"front":3,"events":0,"hit":true,"status":200,"body":{"data":{"id":1,"postings":[{"source":"world","destination":"users:1","amount":100,"asset":"USD/2"}],"metadata":{},"timestamp":"2024-01-01T00:00:00Z","insertedAt":"2024-01-01T00:00:00Z","reverted":false,"preCommitVolumes":{"users:1":{"USD/2":{"input":0,"output":0,"balance":0}},"world":{"USD/2":{"input":0,"output":0,"balance":0}}},"postCommitVolumes":{"users:1":{"USD/2":{"input":100,"output":0,"balance":100}},"world":{"USD/2":{"input":0,"output":100,"balance":-100}}},"preCommitEffectiveVolumes":{"users:1":{"USD/2":{"input":0,"output":0,"balance":0}},"world":{"USD/2":{"input":0,"output":0,"balance":0}}},"postCommitEffectiveVolumes":{"users:1":{"USD/2":{"input":100,"output":0,"balance":100}},"world":{"USD/2":{"input":0,"output":100,"balance":-100}}}}}}
{"event":0,"made":{"name":"default","addedAt":"1970-01-01T00:00:00Z","bucket":"_default","metadata":{}}}
{"event":1,"ledger":"default","entry":{"type":"NEW_TRANSACTION","data":{"transaction":{"id":1,"postings":[{"source":"world","destination":"users:1","amount":100,"asset":"USD/2"}],"metadata":{},"timestamp":"2024-01-01T00:00:00Z"},"accountMetadata":{}},"date":"2024-01-01T00:00:00Z","idempotencyKey":"k1","idempotencyHash":"BmlaIfip1vnl+/uxwWgQTUqPFZVBnJhLWF2orES5tfI=","form":2,"id":1,"hash":"I5WtfKB4Gt21cBelaQ0xj15gEVxmMFTuDn+tH7SBl2k="}}
{"event":2,"ledger":"default","entry":{"type":"NEW_TRANSACTION","data":{"transaction":{"id":2,"postings":[{"source":"world","destination":"users:1","amount":7,"asset":"USD/2"}],"metadata":{},"timestamp":"2023-12-31T00:00:00Z"},"accountMetadata":{}},"date":"2024-01-02T00:00:00Z","form":2,"id":2,"hash":"pRDvnaMCcmFQ3szUMS3hJYj1/tn+2Cqxj7FrOde/V9w="}}
"#,
    },
    Row {
        name: "a list that is tried whole, and one that goes on",
        script: br#"{"now":"2024-01-01T00:00:00Z","method":"POST","path":"/v2/default/transactions","body":{"postings":[{"source":"world","destination":"a","amount":10,"asset":"EUR"}]}}
{"now":"2024-01-01T00:00:00Z","method":"POST","path":"/v2/default/_bulk?atomic=true","body":[{"action":"CREATE_TRANSACTION","data":{"postings":[{"source":"a","destination":"b","amount":4,"asset":"EUR"}]}},{"action":"CREATE_TRANSACTION","data":{"postings":[{"source":"a","destination":"c","amount":4,"asset":"EUR"}]}},{"action":"CREATE_TRANSACTION","data":{"postings":[{"source":"a","destination":"d","amount":4,"asset":"EUR"}]}}]}
{"now":"2024-01-01T00:00:00Z","method":"POST","path":"/v2/default/_bulk?continueOnFailure=true","body":[{"action":"CREATE_TRANSACTION","data":{"postings":[{"source":"a","destination":"b","amount":4,"asset":"EUR"}]}},{"action":"CREATE_TRANSACTION","data":{"postings":[{"source":"a","destination":"c","amount":4,"asset":"EUR"}]}},{"action":"CREATE_TRANSACTION","data":{"postings":[{"source":"a","destination":"d","amount":4,"asset":"EUR"}]}},{"action":"CREATE_TRANSACTION","data":{"postings":[{"source":"a","destination":"e","amount":2,"asset":"EUR"}]}}]}
"#,
        output: br#"{"line":1,"front":1,"events":1,"hit":false,"status":200,"body":{"data":{"id":1,"postings":[{"source":"world","destination":"a","amount":10,"asset":"EUR"}],"metadata":{},"timestamp":"2024-01-01T00:00:00Z","insertedAt":"2024-01-01T00:00:00Z","reverted":false,"preCommitVolumes":{"a":{"EUR":{"input":0,"output":0,"balance":0}},"world":{"EUR":{"input":0,"output":0,"balance":0}}},"postCommitVolumes":{"a":{"EUR":{"input":10,"output":0,"balance":10}},"world":{"EUR":{"input":0,"output":10,"balance":-10}}},"preCommitEffectiveVolumes":{"a":{"EUR":{"input":0,"output":0,"balance":0}},"world":{"EUR":{"input":0,"output":0,"balance":0}}},"postCommitEffectiveVolumes":{"a":{"EUR":{"input":10,"output":0,"balance":10}},"world":{"EUR":{"input":0,"output":10,"balance":-10}}}}}}
{"line":2,"front":2,"events":0,"hit":false,"status":400,"body":{"data":[{"responseType":"ERROR","errorCode":"INSUFFICIENT_FUND","errorDescription":"element 2: posting 0: a has 2 EUR, needs 4"}]}}
{"line":3,"front":2,"events":3,"hit":false,"status":400,"body":{"data":[{"responseType":"CREATE_TRANSACTION","logID":2,"data":{"id":2,"postings":[{"source":"a","destination":"b","amount":4,"asset":"EUR"}],"metadata":{},"timestamp":"2024-01-01T00:00:00Z","insertedAt":"2024-01-01T00:00:00Z","reverted":false,"preCommitVolumes":{"a":{"EUR":{"input":10,"output":0,"balance":10}},"b":{"EUR":{"input":0,"output":0,"balance":0}}},"postCommitVolumes":{"a":{"EUR":{"input":10,"output":4,"balance":6}},"b":{"EUR":{"input":4,"output":0,"balance":4}}},"preCommitEffectiveVolumes":{"a":{"EUR":{"input":10,"output":0,"balance":10}},"b":{"EUR":{"input":0,"output":0,"balance":0}}},"postCommitEffectiveVolumes":{"a":{"EUR":{"input":10,"output":4,"balance":6}},"b":{"EUR":{"input":4,"output":0,"balance":4}}}}},{"responseType":"CREATE_TRANSACTION","logID":3,"data":{"id":3,"postings":[{"source":"a","destination":"c","amount":4,"asset":"EUR"}],"metadata":{},"timestamp":"2024-01-01T00:00:00Z","insertedAt":"2024-01-01T00:00:00Z","reverted":false,"preCommitVolumes":{"a":{"EUR":{"input":10,"output":4,"balance":6}},"c":{"EUR":{"input":0,"output":0,"balance":0}}},"postCommitVolumes":{"a":{"EUR":{"input":10,"output":8,"balance":2}},"c":{"EUR":{"input":4,"output":0,"balance":4}}},"preCommitEffectiveVolumes":{"a":{"EUR":{"input":10,"output":4,"balance":6}},"c":{"EUR":{"input":0,"output":0,"balance":0}}},"postCommitEffectiveVolumes":{"a":{"EUR":{"input":10,"output":8,"balance":2}},"c":{"EUR":{"input":4,"output":0,"balance":4}}}}},{"responseType":"ERROR","errorCode":"INSUFFICIENT_FUND","errorDescription":"element 2: posting 0: a has 2 EUR, needs 4"},{"responseType":"CREATE_TRANSACTION","logID":4,"data":{"id":4,"postings":[{"source":"a","destination":"e","amount":2,"asset":"EUR"}],"metadata":{},"timestamp":"2024-01-01T00:00:00Z","insertedAt":"2024-01-01T00:00:00Z","reverted":false,"preCommitVolumes":{"a":{"EUR":{"input":10,"output":8,"balance":2}},"e":{"EUR":{"input":0,"output":0,"balance":0}}},"postCommitVolumes":{"a":{"EUR":{"input":10,"output":10,"balance":0}},"e":{"EUR":{"input":2,"output":0,"balance":2}}},"preCommitEffectiveVolumes":{"a":{"EUR":{"input":10,"output":8,"balance":2}},"e":{"EUR":{"input":0,"output":0,"balance":0}}},"postCommitEffectiveVolumes":{"a":{"EUR":{"input":10,"output":10,"balance":0}},"e":{"EUR":{"input":2,"output":0,"balance":2}}}}}]}}
{"event":0,"made":{"name":"default","addedAt":"1970-01-01T00:00:00Z","bucket":"_default","metadata":{}}}
{"event":1,"ledger":"default","entry":{"type":"NEW_TRANSACTION","data":{"transaction":{"id":1,"postings":[{"source":"world","destination":"a","amount":10,"asset":"EUR"}],"metadata":{},"timestamp":"2024-01-01T00:00:00Z"},"accountMetadata":{}},"date":"2024-01-01T00:00:00Z","form":2,"id":1,"hash":"tLh0ShtjGUJsjQIodONP1Zq0TgkeW/iPCF7I62BFPxo="}}
{"event":2,"ledger":"default","entry":{"type":"NEW_TRANSACTION","data":{"transaction":{"id":2,"postings":[{"source":"a","destination":"b","amount":4,"asset":"EUR"}],"metadata":{},"timestamp":"2024-01-01T00:00:00Z"},"accountMetadata":{}},"date":"2024-01-01T00:00:00Z","form":2,"id":2,"hash":"MEtHvoig2LcVzE/lqDtPFFcQvS5/WVamAqBbqrbDGK4="}}
{"event":3,"ledger":"default","entry":{"type":"NEW_TRANSACTION","data":{"transaction":{"id":3,"postings":[{"source":"a","destination":"c","amount":4,"asset":"EUR"}],"metadata":{},"timestamp":"2024-01-01T00:00:00Z"},"accountMetadata":{}},"date":"2024-01-01T00:00:00Z","form":2,"id":3,"hash":"N4XhO5g/gMfi3ajw4d0wiHUxiCReFSkfPzOMxkwa4vw="}}
{"event":4,"ledger":"default","entry":{"type":"NEW_TRANSACTION","data":{"transaction":{"id":4,"postings":[{"source":"a","destination":"e","amount":2,"asset":"EUR"}],"metadata":{},"timestamp":"2024-01-01T00:00:00Z"},"accountMetadata":{}},"date":"2024-01-01T00:00:00Z","form":2,"id":4,"hash":"0FLOsdBsrbPHa0rdgxX9XC9vFlLaY8QTAt/v5LgW5K8="}}
"#,
    },
    Row {
        name: "a line that was cut",
        script: br#"{"now":"2024-01-01T00:00:00Z","method":"POST","path":"/v2/default/transactions","body":{"postings":[{"source":"world","destination":"users:1","amount":100,"asset":"USD/2"}]}}
{"now":"2024"#,
        output: br#"{"line":1,"front":1,"events":1,"hit":false,"status":200,"body":{"data":{"id":1,"postings":[{"source":"world","destination":"users:1","amount":100,"asset":"USD/2"}],"metadata":{},"timestamp":"2024-01-01T00:00:00Z","insertedAt":"2024-01-01T00:00:00Z","reverted":false,"preCommitVolumes":{"users:1":{"USD/2":{"input":0,"output":0,"balance":0}},"world":{"USD/2":{"input":0,"output":0,"balance":0}}},"postCommitVolumes":{"users:1":{"USD/2":{"input":100,"output":0,"balance":100}},"world":{"USD/2":{"input":0,"output":100,"balance":-100}}},"preCommitEffectiveVolumes":{"users:1":{"USD/2":{"input":0,"output":0,"balance":0}},"world":{"USD/2":{"input":0,"output":0,"balance":0}}},"postCommitEffectiveVolumes":{"users:1":{"USD/2":{"input":100,"output":0,"balance":100}},"world":{"USD/2":{"input":0,"output":100,"balance":-100}}}}}}
{"line":2,"front":2,"events":0,"hit":false,"status":400,"body":{"errorCode":"VALIDATION","errorMessage":"line: syntax at byte 12"}}
{"event":0,"made":{"name":"default","addedAt":"1970-01-01T00:00:00Z","bucket":"_default","metadata":{}}}
{"event":1,"ledger":"default","entry":{"type":"NEW_TRANSACTION","data":{"transaction":{"id":1,"postings":[{"source":"world","destination":"users:1","amount":100,"asset":"USD/2"}],"metadata":{},"timestamp":"2024-01-01T00:00:00Z"},"accountMetadata":{}},"date":"2024-01-01T00:00:00Z","form":2,"id":1,"hash":"KYPhpXUWT2k0VAy5oXGx3lGIycWcBOQO+PJBn7qLsq8="}}
"#,
    },
    Row {
        name: "a key of an earlier element",
        script: br#"{"now":"2024-01-01T00:00:00Z","method":"POST","path":"/v2/default/_bulk","body":[{"action":"ADD_METADATA","ik":"q","data":{"targetType":"ACCOUNT","targetId":"a","metadata":{"t":"1"}}},{"action":"ADD_METADATA","ik":"q","data":{"targetType":"ACCOUNT","targetId":"a","metadata":{"t":"1"}}}]}
"#,
        output: br#"{"line":1,"front":1,"events":1,"hit":false,"status":200,"body":{"data":[{"responseType":"ADD_METADATA","logID":1},{"responseType":"ADD_METADATA","logID":1}]}}
{"event":0,"made":{"name":"default","addedAt":"1970-01-01T00:00:00Z","bucket":"_default","metadata":{}}}
{"event":1,"ledger":"default","entry":{"type":"SET_METADATA","data":{"targetType":"ACCOUNT","targetId":"a","metadata":{"t":"1"}},"date":"2024-01-01T00:00:00Z","idempotencyKey":"q","idempotencyHash":"ZBccE/0rJuklWvSuzIX2CXOYUAfrFd4BVHydEtLdlOs=","form":2,"id":1,"hash":"bDYDPV6E1mGOly0pArKHJISyNYnBOkWS+C8OtemjsxM="}}
"#,
    },
    Row {
        name: "an empty list",
        script: br#"{"now":"2024-01-01T00:00:00Z","method":"POST","path":"/v2/default/_bulk","body":[]}
"#,
        output: br#"{"line":1,"front":1,"events":0,"hit":false,"status":200,"body":{"data":[]}}
{"event":0,"made":{"name":"default","addedAt":"1970-01-01T00:00:00Z","bucket":"_default","metadata":{}}}
"#,
    },
    Row {
        name: "a forced payment",
        script: br#"{"now":"2024-01-01T00:00:00Z","method":"POST","path":"/v2/default/transactions","body":{"postings":[{"source":"a","destination":"b","amount":5,"asset":"EUR"}],"force":true}}
{"now":"2024-01-01T00:00:00Z","method":"POST","path":"/v2/default/transactions","body":{"postings":[{"source":"a","destination":"b","amount":1,"asset":"EUR"}]}}
{"now":"2024-01-01T00:00:00Z","method":"POST","path":"/v2/default/transactions","body":{"postings":[{"source":"a","destination":"b","amount":0,"asset":"EUR"}]}}
{"now":"2024-01-01T00:00:00Z","method":"POST","path":"/v2/copy"}
"#,
        output: br#"{"line":1,"front":1,"events":1,"hit":false,"status":200,"body":{"data":{"id":1,"postings":[{"source":"a","destination":"b","amount":5,"asset":"EUR"}],"metadata":{},"timestamp":"2024-01-01T00:00:00Z","insertedAt":"2024-01-01T00:00:00Z","reverted":false,"preCommitVolumes":{"a":{"EUR":{"input":0,"output":0,"balance":0}},"b":{"EUR":{"input":0,"output":0,"balance":0}}},"postCommitVolumes":{"a":{"EUR":{"input":0,"output":5,"balance":-5}},"b":{"EUR":{"input":5,"output":0,"balance":5}}},"preCommitEffectiveVolumes":{"a":{"EUR":{"input":0,"output":0,"balance":0}},"b":{"EUR":{"input":0,"output":0,"balance":0}}},"postCommitEffectiveVolumes":{"a":{"EUR":{"input":0,"output":5,"balance":-5}},"b":{"EUR":{"input":5,"output":0,"balance":5}}}}}}
{"line":2,"front":2,"events":0,"hit":false,"status":400,"body":{"errorCode":"INSUFFICIENT_FUND","errorMessage":"posting 0: a has -5 EUR, needs 1"}}
{"line":3,"front":2,"events":1,"hit":false,"status":200,"body":{"data":{"id":2,"postings":[{"source":"a","destination":"b","amount":0,"asset":"EUR"}],"metadata":{},"timestamp":"2024-01-01T00:00:00Z","insertedAt":"2024-01-01T00:00:00Z","reverted":false,"preCommitVolumes":{"a":{"EUR":{"input":0,"output":5,"balance":-5}},"b":{"EUR":{"input":5,"output":0,"balance":5}}},"postCommitVolumes":{"a":{"EUR":{"input":0,"output":5,"balance":-5}},"b":{"EUR":{"input":5,"output":0,"balance":5}}},"preCommitEffectiveVolumes":{"a":{"EUR":{"input":0,"output":5,"balance":-5}},"b":{"EUR":{"input":5,"output":0,"balance":5}}},"postCommitEffectiveVolumes":{"a":{"EUR":{"input":0,"output":5,"balance":-5}},"b":{"EUR":{"input":5,"output":0,"balance":5}}}}}}
{"line":4,"front":3,"events":1,"hit":false,"status":204,"body":null}
{"event":0,"made":{"name":"default","addedAt":"1970-01-01T00:00:00Z","bucket":"_default","metadata":{}}}
{"event":1,"ledger":"default","entry":{"type":"NEW_TRANSACTION","data":{"transaction":{"id":1,"postings":[{"source":"a","destination":"b","amount":5,"asset":"EUR"}],"metadata":{},"timestamp":"2024-01-01T00:00:00Z"},"accountMetadata":{}},"date":"2024-01-01T00:00:00Z","form":2,"id":1,"hash":"mJcxorXlJ1f15dxZwFFaXpEOw4HdgkTFxeH53567LPE="}}
{"event":2,"ledger":"default","entry":{"type":"NEW_TRANSACTION","data":{"transaction":{"id":2,"postings":[{"source":"a","destination":"b","amount":0,"asset":"EUR"}],"metadata":{},"timestamp":"2024-01-01T00:00:00Z"},"accountMetadata":{}},"date":"2024-01-01T00:00:00Z","form":2,"id":2,"hash":"1Gray69BCIv8DQkexSjn60jRW83CUDm5ndL6SqrqYb8="}}
{"event":3,"made":{"name":"copy","addedAt":"2024-01-01T00:00:00Z","bucket":"_default","metadata":{}}}
"#,
    },
    Row {
        name: "a key of a forced payment",
        script: br#"{"now":"2024-01-01T00:00:00Z","method":"POST","path":"/v2/default/transactions","body":{"postings":[{"source":"a","destination":"b","amount":5,"asset":"EUR"}],"force":true}}
{"key":"k3","now":"2024-01-01T00:00:00Z","method":"POST","path":"/v2/default/transactions","body":{"postings":[{"source":"b","destination":"a","amount":5,"asset":"EUR"}],"force":false}}
{"key":"k3","now":"2024-01-01T00:00:00Z","method":"POST","path":"/v2/default/transactions","body":{"postings":[{"source":"b","destination":"a","amount":5,"asset":"EUR"}],"force":true}}
"#,
        output: br#"{"line":1,"front":1,"events":1,"hit":false,"status":200,"body":{"data":{"id":1,"postings":[{"source":"a","destination":"b","amount":5,"asset":"EUR"}],"metadata":{},"timestamp":"2024-01-01T00:00:00Z","insertedAt":"2024-01-01T00:00:00Z","reverted":false,"preCommitVolumes":{"a":{"EUR":{"input":0,"output":0,"balance":0}},"b":{"EUR":{"input":0,"output":0,"balance":0}}},"postCommitVolumes":{"a":{"EUR":{"input":0,"output":5,"balance":-5}},"b":{"EUR":{"input":5,"output":0,"balance":5}}},"preCommitEffectiveVolumes":{"a":{"EUR":{"input":0,"output":0,"balance":0}},"b":{"EUR":{"input":0,"output":0,"balance":0}}},"postCommitEffectiveVolumes":{"a":{"EUR":{"input":0,"output":5,"balance":-5}},"b":{"EUR":{"input":5,"output":0,"balance":5}}}}}}
{"line":2,"front":2,"events":1,"hit":false,"status":200,"body":{"data":{"id":2,"postings":[{"source":"b","destination":"a","amount":5,"asset":"EUR"}],"metadata":{},"timestamp":"2024-01-01T00:00:00Z","insertedAt":"2024-01-01T00:00:00Z","reverted":false,"preCommitVolumes":{"a":{"EUR":{"input":0,"output":5,"balance":-5}},"b":{"EUR":{"input":5,"output":0,"balance":5}}},"postCommitVolumes":{"a":{"EUR":{"input":5,"output":5,"balance":0}},"b":{"EUR":{"input":5,"output":5,"balance":0}}},"preCommitEffectiveVolumes":{"a":{"EUR":{"input":0,"output":5,"balance":-5}},"b":{"EUR":{"input":5,"output":0,"balance":5}}},"postCommitEffectiveVolumes":{"a":{"EUR":{"input":5,"output":5,"balance":0}},"b":{"EUR":{"input":5,"output":5,"balance":0}}}}}}
{"line":3,"front":3,"events":0,"hit":false,"status":400,"body":{"errorCode":"VALIDATION","errorMessage":"key k3: kept e5c41651f1209fcd07876fb82629f4c7cf65e3052f9317c5274d8c042feedc83, given 381f11bebb2fd22082ddbd7fdd4e3a26867aedf39286b25cfdd0e314badf44ed"}}
{"event":0,"made":{"name":"default","addedAt":"1970-01-01T00:00:00Z","bucket":"_default","metadata":{}}}
{"event":1,"ledger":"default","entry":{"type":"NEW_TRANSACTION","data":{"transaction":{"id":1,"postings":[{"source":"a","destination":"b","amount":5,"asset":"EUR"}],"metadata":{},"timestamp":"2024-01-01T00:00:00Z"},"accountMetadata":{}},"date":"2024-01-01T00:00:00Z","form":2,"id":1,"hash":"mJcxorXlJ1f15dxZwFFaXpEOw4HdgkTFxeH53567LPE="}}
{"event":2,"ledger":"default","entry":{"type":"NEW_TRANSACTION","data":{"transaction":{"id":2,"postings":[{"source":"b","destination":"a","amount":5,"asset":"EUR"}],"metadata":{},"timestamp":"2024-01-01T00:00:00Z"},"accountMetadata":{}},"date":"2024-01-01T00:00:00Z","idempotencyKey":"k3","idempotencyHash":"5cQWUfEgn80Hh2+4Jin0x89l4wUvkxfFJ02MBC/u3IM=","form":2,"id":2,"hash":"XRxhAmjVtDuLpxE0iaGF0Ie2ma5wxZp4YSxPOtrZ70M="}}
"#,
    },
    Row {
        name: "a revert of a forced payment",
        script: br#"{"now":"2024-01-01T00:00:00Z","method":"POST","path":"/v2/default/transactions","body":{"postings":[{"source":"a","destination":"b","amount":5,"asset":"EUR"}],"force":true}}
{"now":"2024-01-01T00:00:00Z","method":"POST","path":"/v2/default/transactions/1/revert"}
"#,
        output: br#"{"line":1,"front":1,"events":1,"hit":false,"status":200,"body":{"data":{"id":1,"postings":[{"source":"a","destination":"b","amount":5,"asset":"EUR"}],"metadata":{},"timestamp":"2024-01-01T00:00:00Z","insertedAt":"2024-01-01T00:00:00Z","reverted":false,"preCommitVolumes":{"a":{"EUR":{"input":0,"output":0,"balance":0}},"b":{"EUR":{"input":0,"output":0,"balance":0}}},"postCommitVolumes":{"a":{"EUR":{"input":0,"output":5,"balance":-5}},"b":{"EUR":{"input":5,"output":0,"balance":5}}},"preCommitEffectiveVolumes":{"a":{"EUR":{"input":0,"output":0,"balance":0}},"b":{"EUR":{"input":0,"output":0,"balance":0}}},"postCommitEffectiveVolumes":{"a":{"EUR":{"input":0,"output":5,"balance":-5}},"b":{"EUR":{"input":5,"output":0,"balance":5}}}}}}
{"line":2,"front":2,"events":1,"hit":false,"status":201,"body":{"data":{"id":2,"postings":[{"source":"b","destination":"a","amount":5,"asset":"EUR"}],"metadata":{"com.formance.spec/state/reverts":"1"},"timestamp":"2024-01-01T00:00:00Z","insertedAt":"2024-01-01T00:00:00Z","reverted":false,"preCommitVolumes":{"a":{"EUR":{"input":0,"output":5,"balance":-5}},"b":{"EUR":{"input":5,"output":0,"balance":5}}},"postCommitVolumes":{"a":{"EUR":{"input":5,"output":5,"balance":0}},"b":{"EUR":{"input":5,"output":5,"balance":0}}},"preCommitEffectiveVolumes":{"a":{"EUR":{"input":0,"output":5,"balance":-5}},"b":{"EUR":{"input":5,"output":0,"balance":5}}},"postCommitEffectiveVolumes":{"a":{"EUR":{"input":5,"output":5,"balance":0}},"b":{"EUR":{"input":5,"output":5,"balance":0}}}}}}
{"event":0,"made":{"name":"default","addedAt":"1970-01-01T00:00:00Z","bucket":"_default","metadata":{}}}
{"event":1,"ledger":"default","entry":{"type":"NEW_TRANSACTION","data":{"transaction":{"id":1,"postings":[{"source":"a","destination":"b","amount":5,"asset":"EUR"}],"metadata":{},"timestamp":"2024-01-01T00:00:00Z"},"accountMetadata":{}},"date":"2024-01-01T00:00:00Z","form":2,"id":1,"hash":"mJcxorXlJ1f15dxZwFFaXpEOw4HdgkTFxeH53567LPE="}}
{"event":2,"ledger":"default","entry":{"type":"REVERTED_TRANSACTION","data":{"revertedTransactionID":1,"transaction":{"id":2,"postings":[{"source":"b","destination":"a","amount":5,"asset":"EUR"}],"metadata":{"com.formance.spec/state/reverts":"1"},"timestamp":"2024-01-01T00:00:00Z"}},"date":"2024-01-01T00:00:00Z","form":2,"id":2,"hash":"3/U+IPMWsNtc1uTUlAoHjNQIdGNGpIYE+z8AWMMw5zE="}}
"#,
    },
    Row {
        name: "lines of other kinds",
        script: b"[]\n{}\n{\"now\":\"x\"}\n{\"now\":\"2024-01-01T00:00:00Z\",\"phase\":1000000}\n\xff\n[[[[[[[[[[[[[[[[[[[[[[[[[[[[[[[[[[[[[[[[[[[[[[[[[[[[[[[[[[[[[[[[[\n",
        output: br#"{"line":1,"front":1,"events":0,"hit":false,"status":400,"body":{"errorCode":"VALIDATION","errorMessage":"line: type"}}
{"line":2,"front":1,"events":0,"hit":false,"status":400,"body":{"errorCode":"VALIDATION","errorMessage":"line: now: missing"}}
{"line":3,"front":1,"events":0,"hit":false,"status":400,"body":{"errorCode":"VALIDATION","errorMessage":"line: now: form"}}
{"line":4,"front":1,"events":0,"hit":false,"status":400,"body":{"errorCode":"VALIDATION","errorMessage":"line: phase: form"}}
{"line":5,"front":1,"events":0,"hit":false,"status":400,"body":{"errorCode":"VALIDATION","errorMessage":"line: syntax at byte 0"}}
{"line":6,"front":1,"events":0,"hit":false,"status":400,"body":{"errorCode":"VALIDATION","errorMessage":"line: too deep at byte 64"}}
{"event":0,"made":{"name":"default","addedAt":"1970-01-01T00:00:00Z","bucket":"_default","metadata":{}}}
"#,
    },
    Row {
        name: "what was held at which date",
        script: br#"{"now":"2024-01-01T00:00:00Z","method":"POST","path":"/v2/default/transactions","body":{"postings":[{"source":"world","destination":"users:1","amount":100,"asset":"USD/2"}]}}
{"now":"2024-01-02T00:00:00Z","method":"POST","path":"/v2/default/accounts/users:1/metadata","body":{"tier":"gold"}}
{"now":"2024-01-03T00:00:00Z","method":"POST","path":"/v2/default/transactions","body":{"postings":[{"source":"users:1","destination":"users:2","amount":30,"asset":"USD/2"}],"timestamp":"2024-01-01T06:00:00Z"}}
{"now":"2024-01-04T00:00:00Z","method":"GET","path":"/v2/default/accounts/users:1?expand=volumes&expand=effectiveVolumes"}
{"now":"2024-01-04T00:00:00Z","method":"GET","path":"/v2/default/accounts/users:1?expand=volumes&expand=effectiveVolumes&pit=2024-01-01T12:00:00Z"}
{"now":"2024-01-04T00:00:00Z","method":"GET","path":"/v2/default/accounts/users:2?pit=2024-01-01T06:00:00Z&expand=volumes&expand=effectiveVolumes"}
{"now":"2024-01-04T00:00:00Z","method":"GET","path":"/v2/default/accounts/users:2?pit=2024-01-01T05:59:59Z"}
{"now":"2024-01-04T00:00:00Z","method":"GET","path":"/v2/default/accounts/users:3"}
{"now":"2024-01-04T00:00:00Z","method":"GET","path":"/v2/default/logs?pageSize=2"}
{"now":"2024-01-04T00:00:00Z","method":"GET","path":"/v2/default/logs?cursor=eyJraW5kIjoibG9ncyIsInBhZ2VTaXplIjoyLCJhZnRlciI6Mn0"}
{"now":"2024-01-04T00:00:00Z","method":"GET","path":"/v2/default"}
{"now":"2024-01-04T00:00:00Z","method":"POST","path":"/v2/default/logs/export"}
{"now":"2024-01-04T00:00:00Z","method":"GET","path":"/v2/other/accounts/users:1"}
"#,
        output: br#"{"line":1,"front":1,"events":1,"hit":false,"status":200,"body":{"data":{"id":1,"postings":[{"source":"world","destination":"users:1","amount":100,"asset":"USD/2"}],"metadata":{},"timestamp":"2024-01-01T00:00:00Z","insertedAt":"2024-01-01T00:00:00Z","reverted":false,"preCommitVolumes":{"users:1":{"USD/2":{"input":0,"output":0,"balance":0}},"world":{"USD/2":{"input":0,"output":0,"balance":0}}},"postCommitVolumes":{"users:1":{"USD/2":{"input":100,"output":0,"balance":100}},"world":{"USD/2":{"input":0,"output":100,"balance":-100}}},"preCommitEffectiveVolumes":{"users:1":{"USD/2":{"input":0,"output":0,"balance":0}},"world":{"USD/2":{"input":0,"output":0,"balance":0}}},"postCommitEffectiveVolumes":{"users:1":{"USD/2":{"input":100,"output":0,"balance":100}},"world":{"USD/2":{"input":0,"output":100,"balance":-100}}}}}}
{"line":2,"front":2,"events":1,"hit":false,"status":204,"body":null}
{"line":3,"front":3,"events":1,"hit":false,"status":200,"body":{"data":{"id":2,"postings":[{"source":"users:1","destination":"users:2","amount":30,"asset":"USD/2"}],"metadata":{},"timestamp":"2024-01-01T06:00:00Z","insertedAt":"2024-01-03T00:00:00Z","reverted":false,"preCommitVolumes":{"users:1":{"USD/2":{"input":100,"output":0,"balance":100}},"users:2":{"USD/2":{"input":0,"output":0,"balance":0}}},"postCommitVolumes":{"users:1":{"USD/2":{"input":100,"output":30,"balance":70}},"users:2":{"USD/2":{"input":30,"output":0,"balance":30}}},"preCommitEffectiveVolumes":{"users:1":{"USD/2":{"input":100,"output":0,"balance":100}},"users:2":{"USD/2":{"input":0,"output":0,"balance":0}}},"postCommitEffectiveVolumes":{"users:1":{"USD/2":{"input":100,"output":30,"balance":70}},"users:2":{"USD/2":{"input":30,"output":0,"balance":30}}}}}}
{"line":4,"front":4,"events":0,"hit":false,"status":200,"body":{"data":{"address":"users:1","metadata":{"tier":"gold"},"volumes":{"USD/2":{"input":100,"output":30,"balance":70}},"effectiveVolumes":{"USD/2":{"input":100,"output":30,"balance":70}}}}}
{"line":5,"front":4,"events":0,"hit":false,"status":200,"body":{"data":{"address":"users:1","metadata":{},"volumes":{"USD/2":{"input":100,"output":0,"balance":100}},"effectiveVolumes":{"USD/2":{"input":100,"output":30,"balance":70}}}}}
{"line":6,"front":4,"events":0,"hit":false,"status":200,"body":{"data":{"address":"users:2","metadata":{},"volumes":{},"effectiveVolumes":{"USD/2":{"input":30,"output":0,"balance":30}}}}}
{"line":7,"front":4,"events":0,"hit":false,"status":404,"body":{"errorCode":"NOT_FOUND","errorMessage":"account users:2"}}
{"line":8,"front":4,"events":0,"hit":false,"status":404,"body":{"errorCode":"NOT_FOUND","errorMessage":"account users:3"}}
{"line":9,"front":4,"events":0,"hit":false,"status":200,"body":{"cursor":{"pageSize":2,"hasMore":true,"next":"eyJraW5kIjoibG9ncyIsInBhZ2VTaXplIjoyLCJhZnRlciI6Mn0","data":[{"type":"NEW_TRANSACTION","data":{"transaction":{"id":2,"postings":[{"source":"users:1","destination":"users:2","amount":30,"asset":"USD/2"}],"metadata":{},"timestamp":"2024-01-01T06:00:00Z"},"accountMetadata":{}},"date":"2024-01-03T00:00:00Z","form":2,"id":3,"hash":"72nNHNnlcoGhttAOd4AlmFrK2WUdEV92kOtWK7XabSE="},{"type":"SET_METADATA","data":{"targetType":"ACCOUNT","targetId":"users:1","metadata":{"tier":"gold"}},"date":"2024-01-02T00:00:00Z","form":2,"id":2,"hash":"7Ul8ciQ2dHlHdl4S5PtwwJ2ndra1OohACISsj78QKGk="}]}}}
{"line":10,"front":4,"events":0,"hit":false,"status":200,"body":{"cursor":{"pageSize":2,"hasMore":false,"data":[{"type":"NEW_TRANSACTION","data":{"transaction":{"id":1,"postings":[{"source":"world","destination":"users:1","amount":100,"asset":"USD/2"}],"metadata":{},"timestamp":"2024-01-01T00:00:00Z"},"accountMetadata":{}},"date":"2024-01-01T00:00:00Z","form":2,"id":1,"hash":"KYPhpXUWT2k0VAy5oXGx3lGIycWcBOQO+PJBn7qLsq8="}]}}}
{"line":11,"front":4,"events":0,"hit":false,"status":200,"body":{"data":{"name":"default","addedAt":"1970-01-01T00:00:00Z","bucket":"_default","metadata":{}}}}
{"line":12,"front":4,"events":0,"hit":false,"status":200,"body":"{\"type\":\"NEW_TRANSACTION\",\"data\":{\"transaction\":{\"id\":1,\"postings\":[{\"source\":\"world\",\"destination\":\"users:1\",\"amount\":100,\"asset\":\"USD/2\"}],\"metadata\":{},\"timestamp\":\"2024-01-01T00:00:00Z\"},\"accountMetadata\":{}},\"date\":\"2024-01-01T00:00:00Z\",\"form\":2,\"id\":1,\"hash\":\"KYPhpXUWT2k0VAy5oXGx3lGIycWcBOQO+PJBn7qLsq8=\"}\n{\"type\":\"SET_METADATA\",\"data\":{\"targetType\":\"ACCOUNT\",\"targetId\":\"users:1\",\"metadata\":{\"tier\":\"gold\"}},\"date\":\"2024-01-02T00:00:00Z\",\"form\":2,\"id\":2,\"hash\":\"7Ul8ciQ2dHlHdl4S5PtwwJ2ndra1OohACISsj78QKGk=\"}\n{\"type\":\"NEW_TRANSACTION\",\"data\":{\"transaction\":{\"id\":2,\"postings\":[{\"source\":\"users:1\",\"destination\":\"users:2\",\"amount\":30,\"asset\":\"USD/2\"}],\"metadata\":{},\"timestamp\":\"2024-01-01T06:00:00Z\"},\"accountMetadata\":{}},\"date\":\"2024-01-03T00:00:00Z\",\"form\":2,\"id\":3,\"hash\":\"72nNHNnlcoGhttAOd4AlmFrK2WUdEV92kOtWK7XabSE=\"}\n"}
{"line":13,"front":4,"events":0,"hit":false,"status":404,"body":{"errorCode":"LEDGER_NOT_FOUND","errorMessage":"ledger other"}}
{"event":0,"made":{"name":"default","addedAt":"1970-01-01T00:00:00Z","bucket":"_default","metadata":{}}}
{"event":1,"ledger":"default","entry":{"type":"NEW_TRANSACTION","data":{"transaction":{"id":1,"postings":[{"source":"world","destination":"users:1","amount":100,"asset":"USD/2"}],"metadata":{},"timestamp":"2024-01-01T00:00:00Z"},"accountMetadata":{}},"date":"2024-01-01T00:00:00Z","form":2,"id":1,"hash":"KYPhpXUWT2k0VAy5oXGx3lGIycWcBOQO+PJBn7qLsq8="}}
{"event":2,"ledger":"default","entry":{"type":"SET_METADATA","data":{"targetType":"ACCOUNT","targetId":"users:1","metadata":{"tier":"gold"}},"date":"2024-01-02T00:00:00Z","form":2,"id":2,"hash":"7Ul8ciQ2dHlHdl4S5PtwwJ2ndra1OohACISsj78QKGk="}}
{"event":3,"ledger":"default","entry":{"type":"NEW_TRANSACTION","data":{"transaction":{"id":2,"postings":[{"source":"users:1","destination":"users:2","amount":30,"asset":"USD/2"}],"metadata":{},"timestamp":"2024-01-01T06:00:00Z"},"accountMetadata":{}},"date":"2024-01-03T00:00:00Z","form":2,"id":3,"hash":"72nNHNnlcoGhttAOd4AlmFrK2WUdEV92kOtWK7XabSE="}}
"#,
    },
];
