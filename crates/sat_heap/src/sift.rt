//! Variables that rise and sink in the order, so that the first has the greatest activity.

ghost use Rattle.std.specs.Prelude.{◌≡◌, ℕ, ◌+◌, ◌-◌, ◌*◌, ◌<◌, ◌≤◌, ◌^◌, ◌⊎◌, true, false, length, slice_set, slice_index, IfSome, IfNone};
ghost use Rattle.ja_base.specs.Literals.{bit};
ghost use Rattle.ja_base.specs.Meter.{next_count};
ghost use Rattle.sat_heap.specs.Orders.{IsArranged, IsOrdered, IsRising, IsSinking, IsHeap, IsLessAbove, IsMoreBelow, above, inside_of, key};

use crate::order::{Order, exchange};

fn key_at(order: &Order, activity: &[u64], place: u32) -> u64
    requires inverse { IsArranged (length activity.now) order.now }
    requires place { place < length activity.now }
    ensures { result ≡ key activity.now order.now.vars.items place }
{
    activity[order.vars[place as usize] as usize]
}

/// The place above, where it has less activity.
fn less_above(order: &Order, activity: &[u64], place: u32) -> Option<u32>
    requires inverse { IsArranged (length activity.now) order.now }
    requires place { place < length activity.now }
    ensures some { IfSome result (IsLessAbove (key activity.now order.now.vars.items) place) }
    ensures none { IfNone result (0 < place
        → key activity.now order.now.vars.items place
        ≤ key activity.now order.now.vars.items (above place)) }
{
    if place == 0 {
        return None;
    }
    let upper = (place - 1) / 2;
    if key_at(order, activity, upper) < key_at(order, activity, place) {
        Some(upper)
    } else {
        None
    }
}

/// Until the place above has as much activity.
pub(crate) fn rise(order: &mut Order, activity: &[u64], len: u32, at: u32)
    requires inverse { IsArranged (length activity.now) order.old }
    requires len { len ≤ length activity.now }
    requires at { at < len }
    requires rising { IsRising len (key activity.now order.old.vars.items) at }
    ensures inverse { IsArranged (length activity.now) order.new }
    ensures ordered { IsOrdered len (key activity.now order.new.vars.items) }
    ensures inside { inside_of len order.new.places.items ≡ inside_of len order.old.places.items }
{
    let mut place = at;
    while let Some(upper) = less_above(order, activity, place) {
        exchange(order, place, upper);
        place = upper;
    }
}

/// Of the two places below another the one with more activity. The left one is there.
fn more_of_two(order: &Order, activity: &[u64], len: u32, left: u32) -> u32
    requires inverse { IsArranged (length activity.now) order.now }
    requires len { len ≤ length activity.now }
    requires left { left < len }
    requires small { len ≤ 2 ^ 31 }
    ensures is { (result ≡ left) ⊎ (result ≡ left + 1) }
    ensures within { result < len }
    ensures left { key activity.now order.now.vars.items left
        ≤ key activity.now order.now.vars.items result }
    ensures right { left + 1 < len → key activity.now order.now.vars.items (left + 1)
        ≤ key activity.now order.now.vars.items result }
{
    let right = left + 1;
    if right < len && key_at(order, activity, left) < key_at(order, activity, right) {
        right
    } else {
        left
    }
}

/// The place below with the most activity, where it has more.
fn more_below(order: &Order, activity: &[u64], len: u32, place: u32) -> Option<u32>
    requires inverse { IsArranged (length activity.now) order.now }
    requires len { len ≤ length activity.now }
    requires place { place < length activity.now }
    requires small { length activity.now ≤ 2 ^ 31 }
    ensures some { IfSome result (IsMoreBelow len (key activity.now order.now.vars.items) place) }
    ensures none { IfNone result ((k : ℕ) → 0 < k → k < len → above k ≡ place
        → key activity.now order.now.vars.items k ≤ key activity.now order.now.vars.items place) }
{
    let left = 2 * place + 1;
    if left >= len {
        return None;
    }
    let more = more_of_two(order, activity, len, left);
    if key_at(order, activity, place) < key_at(order, activity, more) {
        Some(more)
    } else {
        None
    }
}

/// Until no place below has more activity.
fn sink(order: &mut Order, activity: &[u64], len: u32)
    requires inverse { IsArranged (length activity.now) order.old }
    requires small { length activity.now ≤ 2 ^ 31 }
    requires len { len < length activity.now }
    requires sinking { IsSinking len (key activity.now order.old.vars.items) 0 }
    ensures inverse { IsArranged (length activity.now) order.new }
    ensures ordered { IsOrdered len (key activity.now order.new.vars.items) }
    ensures inside { inside_of len order.new.places.items ≡ inside_of len order.old.places.items }
{
    let mut place = 0;
    while let Some(lower) = more_below(order, activity, len, place) {
        exchange(order, place, lower);
        place = lower;
    }
}

/// The variable comes into the heap.
pub(crate) fn enter(order: &mut Order, activity: &[u64], len: u32, var: u32)
    requires heap { IsHeap len order.old.vars.items order.old.places.items activity.now }
    requires var { var < length activity.now }
    requires out { bit (inside_of len order.old.places.items) var ≡ false }
    ensures heap { IsHeap (len + 1) order.new.vars.items order.new.places.items activity.now }
    ensures inside { inside_of (len + 1) order.new.places.items
        ≡ slice_set (inside_of len order.old.places.items) var true }
{
    let place = order.places[var as usize];
    exchange(order, place, len);
    rise(order, activity, len + 1, len);
}

/// The first variable leaves the heap.
pub(crate) fn leave(order: &mut Order, activity: &[u64], len: u32) -> u32
    requires heap { IsHeap len order.old.vars.items order.old.places.items activity.now }
    requires some { 0 < len }
    ensures var { result < length activity.now }
    ensures was { bit (inside_of len order.old.places.items) result ≡ true }
    ensures greatest { (u : ℕ) → bit (inside_of len order.old.places.items) u ≡ true
        → slice_index activity.now u ≤ slice_index activity.now result }
    ensures heap { IsHeap (len - 1) order.new.vars.items order.new.places.items activity.now }
    ensures inside { inside_of (len - 1) order.new.places.items
        ≡ slice_set (inside_of len order.old.places.items) result false }
{
    let var = order.vars[0];
    exchange(order, 0, len - 1);
    sink(order, activity, len - 1);
    var
}

/// The variable gets one unit more.
pub(crate) fn raise(order: &mut Order, activity: &mut Vec<u64>, len: u32, var: u32)
    requires heap { IsHeap len order.old.vars.items order.old.places.items activity.old.items }
    requires var { var < length activity.old.items }
    ensures heap { IsHeap len order.new.vars.items order.new.places.items activity.new.items }
    ensures activity { activity.new.items ≡ slice_set activity.old.items var
        (next_count (slice_index activity.old.items var)) }
    ensures inside { inside_of len order.new.places.items ≡ inside_of len order.old.places.items }
{
    let more = activity[var as usize].saturating_add(1);
    activity[var as usize] = more;
    let place = order.places[var as usize];
    if place < len {
        rise(order, activity.as_slice(), len, place);
    }
}
