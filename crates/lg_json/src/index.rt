//! An index of the names of an object's members, by which a name is found among many.
ghost use Rattle.std.specs.Prelude.{◌≡◌, ◌+◌, [], ◌<◌, ◌≤◌, ◌↔◌, length, drop, slice_index_or, bytes_eq, IfOk, IsTrue};
ghost use Rattle.lg_json.specs.Places as index;
ghost use Rattle.lg_json.specs.Places.{IsIndexed, IsAdded, IsAddedTo, IsCovering, IsFilled, Fills, HaveParts, AreFree, names_view, has};

use crate::json::Member;
use lg_containers::{Duplicate, Text};
use std::alloc::{AllocError, Global};
use std::collections::BTreeSet;

/// Among fewer members a name is looked for one by one.
const FEW: usize = 8;

/// So many members, or more, have no index, since a slot has 32 bits.
const TOO_MANY: usize = 0xFFFF_FFFF;

/// The least number of slots.
const LEAST_SLOTS: usize = 64;

/// How many slots there are for each member when an index is made.
const SLOTS_A_MEMBER: usize = 4;

/// Where the names of an object's members stand. A slot holds the number of members up to the one
/// whose name has it, and 0 where it is free.
#[derive(Drop)]
pub struct NameIndex {
    /// A part of each name's number, by which most other names are told from it without a look at it.
    parts: Vec<u32>,
    first: Vec<u32>,
    /// The slots of the names that found another name in their first.
    second: Vec<u32>,
    /// The names that found another name in both.
    others: BTreeSet<Text>,
}

/// Whether the names of so many members are found by an index.
pub fn is_indexed(members: usize) -> bool
    ensures { IsTrue result ↔ (8 ≤ members) × (members < 0xFFFF_FFFF) }
{
    members >= FEW && members < TOO_MANY
}

/// A number whose upper bits are mostly different for different names.
fn name_number(name: &[u8]) -> u64
    ensures { result ≡ index.name_number name.now }
{
    let mut number = 0u64;
    for byte in name {
        number = number
            .wrapping_add(*byte as u64)
            .wrapping_mul(0x9E37_79B9_7F4A_7C15);
    }
    number
}

/// The part of a name's number that is kept.
fn part_of(number: u64) -> u32
    ensures { result ≡ index.part_of number }
{
    (number % 0x1_0000_0000) as u32
}

/// Another number for the same name, by which names with near numbers are far from one another.
fn other_number(number: u64) -> u64
    ensures { result ≡ index.mixed number }
{
    number.wrapping_mul(0xD6E8_FEB8_6659_FD93)
}

/// The slot of a number among so many, in the order of the numbers: so no division is needed.
#[tactic(auto, using(crate::proofs::Placing::slot_within, crate::proofs::Placing::product_within))]
fn slot_of(number: u64, count: usize) -> usize
    requires { 0 < count }
    ensures value { result ≡ index.slot_of number count }
    ensures within { result < count }
{
    (number as u128 * count as u128 / 0x1_0000_0000_0000_0000) as usize
}

/// The name of the member at the place.
fn name_at(members: &[Member], place: usize) -> &Text
    requires { place < length members.now }
    ensures { result.now ≡ slice_index_or (names_view members.now) place [] }
{
    &members[place].name
}

/// Whether the member at the place has the name, whose number is given.
#[tactic(auto, using(crate::proofs::Placing::other_part))]
fn is_named(members: &[Member], parts: &[u32], place: usize, name: &[u8], number: u64) -> bool
    requires within { place < length members.now }
    requires parts { HaveParts (names_view members.now) parts.now }
    requires number { number ≡ index.name_number name.now }
    ensures { result ≡ bytes_eq (slice_index_or (names_view members.now) place []) name.now }
{
    if parts[place] != part_of(number) {
        return false;
    }
    same_bytes(members[place].name.bytes(), name)
}

fn same_bytes(a: &[u8], b: &[u8]) -> bool
    ensures { result ≡ bytes_eq a.now b.now }
{
    a == b
}

/// Whether a member has the name.
pub fn has_name(name: &[u8], members: &[Member]) -> bool
    ensures { result ≡ has name.now (names_view members.now) }
{
    for member in members {
        if same_bytes(member.name.bytes(), name) {
            return true;
        }
    }
    false
}

#[tactic(auto, using(crate::proofs::Placing::zeros))]
fn free_slots(alloc: Global, count: usize) -> Result<Vec<u32>, AllocError>
    requires { 0 < count }
    ensures some { IfOk result (λ slots. 0 < length slots.items) }
    ensures free { IfOk result (λ slots. AreFree slots.items) }
{
    let mut slots = Vec::new(alloc);
    slots.resize(count, 0)?;
    Ok(slots)
}

/// The number of the members and one more, as a slot holds it.
fn one_more(members: &[Member]) -> u32
    requires { length members.now < 0xFFFF_FFFF }
    ensures { result ≡ length members.now + 1 }
{
    (members.len() + 1) as u32
}

/// Adds the name of the member that comes next, whose first slot is that of another name, and says
/// whether it is new.
fn add_other(
    alloc: Global,
    members: &[Member],
    parts: &[u32],
    slots: &mut Vec<u32>,
    others: &mut BTreeSet<Text>,
    name: &Text,
    number: u64,
) -> Result<bool, AllocError>
    requires filled { IsFilled (names_view members.now) slots.old.items others.old }
    requires parts { HaveParts (names_view members.now) parts.now }
    requires number { number ≡ index.name_number name.now }
    requires room { length members.now < 0xFFFF_FFFF }
    ensures { IfOk result (λ is_new. Fills (names_view members.now) name.now slots.old.items others.old slots.new.items others.new is_new) }
{
    let slot = slot_of(other_number(number), slots.len());
    let taken = slots[slot];
    if taken == 0 {
        slots[slot] = one_more(members);
        return Ok(true);
    }
    if is_named(members, parts, taken as usize - 1, name.bytes(), number) {
        return Ok(false);
    }
    let is_new = others.insert(name.copy(alloc)?)?;
    Ok(is_new)
}

impl NameIndex {
    fn empty(alloc: Global, count: usize) -> Result<NameIndex, AllocError>
        requires { 0 < count }
        ensures { IfOk result (IsIndexed []) }
    {
        let first = free_slots(alloc, count)?;
        let second = free_slots(alloc, count)?;
        Ok(NameIndex {
            parts: Vec::new(alloc),
            first,
            second,
            others: BTreeSet::new(alloc),
        })
    }

    /// Whether there are more first slots than members.
    fn has_room(&self, members: usize) -> bool {
        members < self.first.len()
    }

    /// Adds the name of the member that comes next, and says whether it is new.
    #[tactic(auto, using(crate::proofs::Placing::parts_still))]
    fn add(&mut self, alloc: Global, members: &[Member], name: &Text) -> Result<bool, AllocError>
        requires indexed { IsIndexed (names_view members.now) self.old }
        requires room { length members.now < 0xFFFF_FFFF }
        ensures { IfOk result (λ is_new. IsAdded (names_view members.now) name.now is_new self.new) }
    {
        let number = name_number(name.bytes());
        self.parts.push(part_of(number))?;
        let slot = slot_of(number, self.first.len());
        let taken = self.first[slot];
        if taken == 0 {
            self.first[slot] = one_more(members);
            return Ok(true);
        }
        let parts = self.parts.as_slice();
        if is_named(members, parts, taken as usize - 1, name.bytes(), number) {
            return Ok(false);
        }
        let is_new = add_other(
            alloc,
            members,
            parts,
            &mut self.second,
            &mut self.others,
            name,
            number,
        )?;
        Ok(is_new)
    }
}

/// Adds the name of the member that comes next to the index, which is made anew where there is none
/// with room for it, and says whether the name is new.
pub fn look_up(
    alloc: Global,
    members: &[Member],
    index: &mut Option<NameIndex>,
    name: &Text,
) -> Result<bool, AllocError>
    requires covering { IsCovering (names_view members.now) index.old }
    requires room { length members.now < 0xFFFF_FFFF }
    ensures { IfOk result (λ is_new. IsAddedTo (names_view members.now) name.now is_new index.new) }
{
    if let Some(ready) = index {
        if ready.has_room(members.len()) {
            return ready.add(alloc, members, name);
        }
    }
    let mut made = index_names(alloc, members)?;
    let is_new = made.add(alloc, members, name)?;
    *index = Some(made);
    Ok(is_new)
}

/// An index of the names of the members.
fn index_names(alloc: Global, members: &[Member]) -> Result<NameIndex, AllocError>
    requires { length members.now < 0xFFFF_FFFF }
    ensures { IfOk result (IsIndexed (names_view members.now)) }
{
    let count = members
        .len()
        .saturating_mul(SLOTS_A_MEMBER)
        .max(LEAST_SLOTS);
    let mut index = NameIndex::empty(alloc, count)?;
    for place in 0..members.len() {
        let _ = index.add(alloc, &members[..place], name_at(members, place))?;
    }
    Ok(index)
}
