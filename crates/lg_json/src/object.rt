//! An object that is open.
ghost use Rattle.std.specs.Prelude.{◌≡◌, [], None, IfOk, IsSome, IsTrue, ◌↔◌, ◌<◌, length};
ghost use Rattle.lg_json.specs.View.{IsNamed, IsCompleted};

use crate::index::{NameIndex, has_name, is_indexed, look_up};
use crate::json::{Json, Member};
use lg_containers::Text;
use sqlite_items::Items;
use std::alloc::{AllocError, Global};
use std::marker::Model;

/// An object that is open: its members so far, and the name whose value is to come.
#[derive(Drop)]
pub struct OpenObject {
    members: Items<Member>,
    waiting: Option<Text>,
    /// An index of the names, `waiting` too, where there are more than a few.
    index: Option<NameIndex>,
}

impl Model for OpenObject {
    ghost use Rattle.std.specs.Prelude.{ℕ, List, Option};
    ghost use Rattle.lg_json.specs.declared.json.Member.{Member};
    ghost use Rattle.lg_json.specs.contracts.json.Member as member;
    ghost use Rattle.std.specs.Coded.{coded×, coded_list, coded_option, coded_ℕ};

    ghost Value = { List Member × Option (List ℕ) };

    ghost coded = { coded× (coded_list member.the_row.coded) (coded_option (coded_list coded_ℕ)) };

    ghost use Rattle.lg_json.specs.Places.{all_names, IsCovering};

    ghost view = { λ o. (o.members, o.waiting) };

    ghost invariant = { λ o. IsCovering (all_names o.members o.waiting) o.index };
}

impl OpenObject {
    pub fn new(alloc: Global) -> OpenObject
        ensures { result ≡ ([], None) }
    {
        OpenObject {
            members: Items::new(alloc),
            waiting: None,
            index: None,
        }
    }

    /// Whether the value of a name is to come.
    pub fn is_waiting(&self) -> bool
        ensures { IsTrue result ↔ IsSome self.now.1 }
    {
        self.waiting.is_some()
    }

    /// Takes the name of the next member, and says whether it is new in the object.
    pub fn name_next(&mut self, alloc: Global, name: Text) -> Result<bool, AllocError>
        requires { self.old.1 ≡ None }
        ensures { IfOk result (IsNamed self.old.0 name self.new) }
    {
        if is_indexed(self.members.len()) {
            return self.name_among_many(alloc, name);
        }
        if has_name(name.bytes(), self.members.as_slice()) {
            return Ok(false);
        }
        self.index = None;
        self.waiting = Some(name);
        Ok(true)
    }

    /// The same by an index.
    fn name_among_many(&mut self, alloc: Global, name: Text) -> Result<bool, AllocError>
        requires none { self.old.1 ≡ None }
        requires room { length self.old.0 < 0xFFFF_FFFF }
        ensures { IfOk result (IsNamed self.old.0 name self.new) }
    {
        let looked = look_up(alloc, self.members.as_slice(), &mut self.index, &name);
        let is_new = match looked {
            Ok(is_new) => is_new,
            Err(error) => {
                self.index = None;
                return Err(error);
            }
        };
        if !is_new {
            self.index = None;
            return Ok(false);
        }
        self.waiting = Some(name);
        Ok(true)
    }

    /// Takes the value of the name that waits for one.
    pub fn put_value(&mut self, value: Json) -> Result<(), AllocError>
        ensures { IfOk result (λ _. IsCompleted self.old value self.new) }
    {
        match self.waiting.take() {
            Some(name) => {
                if let Err(error) = self.members.push(Member { name, value }) {
                    self.index = None;
                    return Err(error);
                }
                Ok(())
            }
            None => Ok(()),
        }
    }

    pub fn into_members(self) -> Items<Member>
        ensures { result ≡ self.0 }
    {
        let OpenObject {
            members,
            waiting: _,
            index: _,
        } = self;
        members
    }
}
