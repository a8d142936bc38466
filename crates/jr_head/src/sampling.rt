//! The data units of an MCU (T.81, A.2).

ghost use Rattle.std.specs.Prelude.{◌≡◌, ◌<◌, ◌≤◌, ◌+◌, ◌*◌, ◌++◌, ◌↔◌, ℕ, max, length, replicate, IfOk, IsTrue, All, sum_by, slice_index_or};
ghost use Rattle.std.specs.List.{fold};
ghost use Rattle.jr_head.specs.Geometry.{order_from, IsSampled, greatest_across, greatest_down};

use crate::component::Component;
use std::alloc::{AllocError, Global};

/// Appends a component's number to the order, once for each of its data units.
fn push_units(order: &mut Vec<u8>, component: u8, count: u8) -> Result<(), AllocError>
    ensures { IfOk result (λ _. order.new.items ≡ order.old.items ++ replicate count component) }
{
    for _ in 0..count {
        order.push(component)?;
    }
    Ok(())
}

/// Returns the component of each data unit of an MCU, in order.
pub(crate) fn block_order(alloc: Global, components: &[Component]) -> Result<Vec<u8>, AllocError>
    requires few { length components.now ≤ 3 }
    requires sampled { All IsSampled components.now }
    ensures { IfOk result (λ v. v.items ≡ order_from 0 components.now) }
{
    let mut order = Vec::new(alloc);
    let mut number: u8 = 0;
    for c in components {
        push_units(&mut order, number, c.horizontal * c.vertical)?;
        number += 1;
    }
    Ok(order)
}

pub(crate) fn greatest_horizontal(components: &[Component]) -> u8
    ensures { result ≡ greatest_across components.now }
{
    components.iter().fold(0, |most, c| c.horizontal.max(most))
}

pub(crate) fn greatest_vertical(components: &[Component]) -> u8
    ensures { result ≡ greatest_down components.now }
{
    components.iter().fold(0, |most, c| c.vertical.max(most))
}
