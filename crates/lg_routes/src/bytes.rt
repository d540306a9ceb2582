//! Bytes that are compared.

ghost use Rattle.std.specs.Prelude.{◌≡◌, bytes_eq};

pub fn same_bytes(a: &[u8], b: &[u8]) -> bool
    ensures { result ≡ bytes_eq a.now b.now }
{
    a == b
}
