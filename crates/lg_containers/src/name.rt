//! Names of any grammar.

ghost use Rattle.std.specs.Prelude.{◌≡◌, IfOk, OnOk, IfErr};
ghost use Rattle.lg_containers.specs.NameFaults.{IsNameFault};
ghost use Rattle.lg_containers.specs.Names.{bytes_seen};

use crate::duplicate::Duplicate;
use crate::fault::{NameFault, NoMemory};
use crate::grammar::Grammar;
use crate::short::{ROOM, ShortBytes};
use std::alloc::Global;
use std::marker::{Model, PhantomData};

/// The bytes of a name: in place where there is room, else on the heap.
#[derive(Drop)]
enum Bytes {
    Short(ShortBytes),
    Long(Vec<u8>),
}

/// A name of the grammar `G`, seen as the list of its bytes. Up to 23 bytes stand in the value itself, so that most names
/// take no memory, and a copy of them is cheap.
#[derive(Drop)]
pub struct Name<G: Grammar> {
    bytes: Bytes,
    grammar: PhantomData<G>,
}

impl Bytes {
    /// A copy of the bytes.
    fn of(alloc: Global, bytes: &[u8]) -> Result<Bytes, NoMemory>
        ensures { IfOk result (λ own. bytes_seen own ≡ bytes.now) }
    {
        if bytes.len() <= ROOM {
            Ok(Bytes::Short(ShortBytes::of(bytes)))
        } else {
            Ok(Bytes::Long(Vec::from_slice(alloc, bytes)?))
        }
    }

    fn of_vec(bytes: Vec<u8>) -> Bytes
        ensures { bytes_seen result ≡ bytes.items }
    {
        if bytes.len() <= ROOM {
            Bytes::Short(ShortBytes::of(bytes.as_slice()))
        } else {
            Bytes::Long(bytes)
        }
    }

    fn copy(&self, alloc: Global) -> Result<Bytes, NoMemory>
        ensures { IfOk result (λ own. bytes_seen own ≡ bytes_seen self.now) }
    {
        match self {
            Bytes::Short(bytes) => Ok(Bytes::Short(*bytes)),
            Bytes::Long(bytes) => Bytes::of(alloc, bytes.as_slice()),
        }
    }

    fn as_slice(&self) -> &[u8]
        ensures { result.now ≡ bytes_seen self.now }
    {
        match self {
            Bytes::Short(bytes) => bytes.as_slice(),
            Bytes::Long(bytes) => bytes.as_slice(),
        }
    }
}

impl<G: Grammar> Model for Name<G> {
    ghost use Rattle.std.specs.Prelude.{ℕ, List};

    ghost Value = { List ℕ };

    ghost use Rattle.lg_containers.specs.Names.{bytes_seen};

    ghost view = { λ n. bytes_seen n.bytes };

    ghost invariant = { λ n. G.Names (bytes_seen n.bytes) };
}

impl<G: Grammar> Name<G> {
    /// The name that the bytes are. Want of memory may come at any time; else the answer is `Bad` exactly where the
    /// bytes are no name of the grammar.
    pub fn read(alloc: Global, bytes: &[u8]) -> Result<Name<G>, NameFault>
        ensures ok { IfOk result (λ name. name ≡ bytes.now) }
        ensures name { OnOk result (G.Names bytes.now) }
        ensures bad { IfErr result (IsNameFault G.Names bytes.now) }
    {
        let mut state = G::start();
        for (place, byte) in bytes.iter().enumerate() {
            match G::next(state, *byte) {
                Some(next) => state = next,
                None => return Err(NameFault::Bad { place }),
            }
        }
        if !G::is_end(state) {
            return Err(NameFault::Bad { place: bytes.len() });
        }
        Ok(Name::copy_of(alloc, bytes)?)
    }

    /// The name that the bytes are, with no test.
    pub fn from_vec(bytes: Vec<u8>) -> Name<G>
        requires { G.Names bytes.items }
        ensures { result ≡ bytes.items }
    {
        Name {
            bytes: Bytes::of_vec(bytes),
            grammar: PhantomData,
        }
    }

    /// The name that a copy of the bytes is, with no test.
    pub fn copy_of(alloc: Global, bytes: &[u8]) -> Result<Name<G>, NoMemory>
        requires { G.Names bytes.now }
        ensures { IfOk result (λ name. name ≡ bytes.now) }
    {
        Ok(Name {
            bytes: Bytes::of(alloc, bytes)?,
            grammar: PhantomData,
        })
    }

    /// The bytes of the name.
    pub fn bytes(&self) -> &[u8]
        ensures value { result.now ≡ self.now }
        ensures name { G.Names self.now }
    {
        self.bytes.as_slice()
    }
}

impl<G: Grammar> Duplicate for Name<G> {
    fn copy(&self, alloc: Global) -> Result<Name<G>, NoMemory> {
        Ok(Name {
            bytes: self.bytes.copy(alloc)?,
            grammar: PhantomData,
        })
    }
}
