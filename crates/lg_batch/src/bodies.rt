//! The body of a line's request, taken out of the line.

ghost use Rattle.std.specs.Prelude.{◌≡◌, ℕ, List, false, bytes_eq, codes, position};
ghost use Rattle.std.specs.Option.{option_map};
ghost use Rattle.lg_codec.specs.Seen.{members_seen};
ghost use Rattle.lg_json.specs.Tree.{tree};
ghost use Rattle.lg_readings.specs.Values as values;

use lg_json::{Json, Member, MemberList};
use lg_routes::same_bytes;

/// The place of the first member that is named `body`.
fn body_place(members: &[Member]) -> Option<usize>
    ensures { result ≡ position (λ m. bytes_eq m.name (codes "body")) members.now }
{
    members
        .iter()
        .position(|member| same_bytes(member.name.bytes(), b"body"))
}

/// The value of a member, where it isn't null.
fn value_in(member: Member) -> Option<Json>
    ensures { option_map tree result ≡ values.present (tree member.value) }
{
    match member.value {
        Json::Null => None,
        value => Some(value),
    }
}

/// Takes out the value under `body`, where there is one that isn't null.
pub fn take_body(members: &mut MemberList) -> Option<Json>
    ensures body { option_map tree result ≡ values.under (codes "body") (members_seen members.old) }
    ensures others { (name : List ℕ) → bytes_eq (codes "body") name ≡ false → values.value_of name (members_seen members.new) ≡ values.value_of name (members_seen members.old) }
{
    match body_place(members.as_slice()) {
        Some(place) => value_in(members.remove(place)),
        None => None,
    }
}
