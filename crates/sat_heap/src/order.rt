//! The order of the variables in a heap.

ghost use Rattle.std.specs.Prelude.{◌≡◌, ◌<◌, ◌∷◌, ◌++◌, [], length, slice_index, OnOk, OnErr};
ghost use Rattle.sat_heap.specs.Orders.{IsArranged, IsExchanged};

use ja_base::Memory;

/// The variable of each place, and the place of each variable.
#[derive(Debug, Drop)]
pub(crate) struct Order {
    pub(crate) vars: Vec<u32>,
    pub(crate) places: Vec<u32>,
}

/// The variables of two places change their places.
pub(crate) fn exchange(order: &mut Order, i: u32, j: u32)
    requires inverse { IsArranged (length order.old.vars.items) order.old }
    requires i { i < length order.old.vars.items }
    requires j { j < length order.old.vars.items }
    ensures vars { IsExchanged order.old.vars.items order.new.vars.items i j }
    ensures inverse { IsArranged (length order.old.vars.items) order.new }
    ensures places { IsExchanged order.old.places.items order.new.places.items
        (slice_index order.old.vars.items i) (slice_index order.old.vars.items j) }
{
    let first = order.vars[i as usize];
    let second = order.vars[j as usize];
    order.vars[i as usize] = second;
    order.vars[j as usize] = first;
    order.places[first as usize] = j;
    order.places[second as usize] = i;
}

/// The variable takes the last place.
pub(crate) fn add(order: &mut Order, var: u32) -> Result<(), Memory>
    ensures vars { OnOk result (order.new.vars.items ≡ order.old.vars.items ++ var ∷ []) }
    ensures places { OnOk result (order.new.places.items ≡ order.old.places.items ++ var ∷ []) }
    ensures err { OnErr result ((order.new.vars.items ≡ order.old.vars.items)
        × (order.new.places.items ≡ order.old.places.items)) }
{
    order.vars.reserve(1)?;
    order.places.reserve(1)?;
    order.vars.push_reserved(var);
    order.places.push_reserved(var);
    Ok(())
}
