//! Which stripe a resource belongs to.

ghost use Rattle.std.specs.Prelude.{◌≡◌, ◌<◌, fold};
ghost use Rattle.lg_types.specs.Stripes.{stripe, fnv_step, class_letter};

use lg_types::{Class, LedgerName};

/// The stripe of a resource of a ledger: the FNV-1a hash of 32 bits of its class, its ledger and its name, modulo 16.
pub fn stripe_of(class: Class, ledger: &LedgerName, name: &[u8]) -> u8
    ensures value { result ≡ stripe class ledger.now name.now }
    ensures bound { result < 16 }
{
    let mut hash = hash_byte(2_166_136_261, letter(class));
    hash = hash_bytes(hash, ledger.bytes());
    hash = hash_byte(hash, b'\n');
    hash = hash_bytes(hash, name);
    (hash % 16) as u8
}

// The letter that the bytes of a resource begin with.
fn letter(class: Class) -> u8
    ensures { result ≡ class_letter class }
{
    match class {
        Class::Account => b'a',
        Class::Key => b'k',
        Class::Reference => b'r',
    }
}

fn hash_byte(hash: u32, byte: u8) -> u32
    ensures { result ≡ fnv_step hash byte }
{
    (hash ^ u32::from(byte)).wrapping_mul(16_777_619)
}

fn hash_bytes(hash: u32, bytes: &[u8]) -> u32
    ensures { result ≡ fold fnv_step hash bytes.now }
{
    let mut all = hash;
    for byte in bytes {
        all = hash_byte(all, *byte);
    }
    all
}
