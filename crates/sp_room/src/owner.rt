//! Who made the edits of a room.
ghost use Rattle.std.specs.Prelude.{◌≡◌, ◌<◌, length, vec_len, vec_capacity, IfSome, IfNone, OnOk, []};
ghost use Rattle.std.specs.VecDeque.{deque_len, deque_capacity};
ghost use Rattle.sp_room.specs.Owners.{IsLast, MovesLast};

use crate::Change;
use std::alloc::AllocError;
use std::collections::VecDeque;
use std::marker::Model;

/// The seat that made an edit, and the range that the desk keeps for that edit.
#[derive(Drop)]
pub struct Owner {
    pub seat: String,
    pub range: Change,
}

impl Model for Owner {
    ghost use Rattle.std.specs.Prelude.{string_bytes};
    ghost use Rattle.sp_room.specs.Changes.{range_of};
    ghost use Rattle.sp_room.specs.Owners.{OwnerOf};

    ghost Value = { OwnerOf };

    ghost view = { λ o. record { seat = string_bytes o.seat; range = range_of o.range } };
}

/// The last owner, or None exactly where there is none.
pub fn last_owner(owners: &[Owner]) -> Option<&Owner>
    ensures some { IfSome result (λ owner. IsLast owners.now owner.now) }
    ensures none { IfNone result (owners.now ≡ []) }
{
    owners.last()
}

/// Makes room for one change and one owner more.
pub fn make_room(changes: &mut VecDeque<Change>, owners: &mut Vec<Owner>) -> Result<(), AllocError>
    ensures changes { changes.new.items ≡ changes.old.items }
    ensures owners { owners.new.items ≡ owners.old.items }
    ensures changes_room { OnOk result (deque_len changes.new < deque_capacity changes.new) }
    ensures owners_room { OnOk result (vec_len owners.new < vec_capacity owners.new) }
{
    changes.reserve(1)?;
    owners.reserve(1)
}

/// The last owner of one list goes behind the other. It takes no memory.
pub fn move_last(from: &mut Vec<Owner>, to: &mut Vec<Owner>)
    requires some { 0 < length from.old.items }
    requires room { vec_len to.old < vec_capacity to.old }
    ensures { MovesLast from.old.items to.old.items from.new.items to.new.items }
{
    if let Some(owner) = from.pop() {
        to.push_reserved(owner);
    }
}
