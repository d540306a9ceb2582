//! Names with a fault.

use lg_containers::{Grammar, Name, NameFault};
use lg_types::{Address, Asset, LedgerName};

/// Whether the bytes are no name, with the fault at the place.
fn is_bad<G: Grammar>(read: &Result<Name<G>, NameFault>, at: usize) -> bool {
    match read {
        Err(NameFault::Bad { place }) => *place == at,
        _ => false,
    }
}

#[test]
fn names_have_faults_at_their_places(rt: HostRuntime) {
    let alloc = rt.alloc();
    assert!(rt; is_bad(&Address::read(alloc, b"a::b"), 2));
    assert!(rt; is_bad(&Address::read(alloc, b"a:"), 2));
    assert!(rt; is_bad(&Asset::read(alloc, b"USD/"), 4));
    assert!(rt; is_bad(&Asset::read(alloc, b"usd"), 0));
    assert!(rt; is_bad(&LedgerName::read(alloc, b"_x"), 0));
}
