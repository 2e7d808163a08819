//! Generators of a group: what the (s - 1) v with s among them span is the span of all (g - 1) v.

ghost use Rattle.group_table.specs.Tables.{order, product};
ghost use Rattle.group_algebra.specs.Products.{AreGenerators, AreProducts, IsProductOf};
ghost use Rattle.std.specs.Prelude.{◌≡◌, ◌<◌, ℕ, All, IfOk, OnOk, length};

use group_table::{Group, Memory};
use std::alloc::Global;

// Adds the product y, unless it is there.
fn add_product(
    group: &Group,
    generators: &[u16],
    y: u16,
    products: &mut Vec<u16>,
    seen: &mut Vec<bool>,
) -> Result<(), Memory>
    requires below { y < order group.now }
    requires marks { length seen.old.items ≡ order group.now }
    requires product { IsProductOf (product group.now) generators.now y }
    requires products { AreProducts group.now generators.now products.old.items seen.old.items }
    ensures marks { length seen.new.items ≡ length seen.old.items }
    ensures products { OnOk result (AreProducts group.now generators.now products.new.items seen.new.items) }
{
    if !seen[y as usize] {
        products.push(y)?;
        seen[y as usize] = true;
    }
    Ok(())
}

// Adds x s for each generator s.
fn add_multiples(
    group: &Group,
    generators: &[u16],
    x: u16,
    products: &mut Vec<u16>,
    seen: &mut Vec<bool>,
) -> Result<(), Memory>
    requires generators { All (λ g. g < order group.now) generators.now }
    requires below { x < order group.now }
    requires marks { length seen.old.items ≡ order group.now }
    requires product { IsProductOf (product group.now) generators.now x }
    requires products { AreProducts group.now generators.now products.old.items seen.old.items }
    ensures marks { length seen.new.items ≡ length seen.old.items }
    ensures products { OnOk result (AreProducts group.now generators.now products.new.items seen.new.items) }
{
    for s in generators {
        let y = group.mul(x, *s);
        add_product(group, generators, y, products, seen)?;
    }
    Ok(())
}

// Adds all products.
fn add_all(
    group: &Group,
    generators: &[u16],
    products: &mut Vec<u16>,
    seen: &mut Vec<bool>,
) -> Result<(), Memory>
    requires generators { All (λ g. g < order group.now) generators.now }
    requires marks { length seen.old.items ≡ order group.now }
    requires products { AreProducts group.now generators.now products.old.items seen.old.items }
    ensures marks { length seen.new.items ≡ length seen.old.items }
    ensures products { OnOk result (AreProducts group.now generators.now products.new.items seen.new.items) }
{
    for i in 0..group.order() as usize {
        if i < products.len() {
            let x = products[i];
            add_multiples(group, generators, x, products, seen)?;
        }
    }
    Ok(())
}

// Makes g a generator, unless it is a product.
fn add_generator(
    group: &Group,
    g: u16,
    found: &mut Vec<u16>,
    products: &mut Vec<u16>,
    seen: &mut Vec<bool>,
) -> Result<(), Memory>
    requires below { g < order group.now }
    requires generators { All (λ s. s < order group.now) found.old.items }
    requires marks { length seen.old.items ≡ order group.now }
    requires products { AreProducts group.now found.old.items products.old.items seen.old.items }
    ensures generators { OnOk result (All (λ s. s < order group.now) found.new.items) }
    ensures marks { length seen.new.items ≡ length seen.old.items }
    ensures products { OnOk result (AreProducts group.now found.new.items products.new.items seen.new.items) }
    ensures here { OnOk result (IsProductOf (product group.now) found.new.items g) }
    ensures before { OnOk result ((x : ℕ) → IsProductOf (product group.now) found.old.items x
        → IsProductOf (product group.now) found.new.items x) }
{
    prove!(g < group.order());
    if seen[g as usize] {
        return Ok(());
    }
    found.push(g)?;
    add_all(group, found, products, seen)?;
    Ok(())
}

/// Generators of a group, each of which is no product of those before it.
pub fn generators(alloc: Global, group: &Group) -> Result<Vec<u16>, Memory>
    ensures { IfOk result (λ found. AreGenerators group.now found.items) }
{
    let order = group.order();
    let mut found: Vec<u16> = Vec::new(alloc);
    let mut products: Vec<u16> = Vec::new(alloc);
    let mut seen = vec![in alloc; false; order as usize]?;
    add_product(group, &found, 0, &mut products, &mut seen)?;
    for g in 0..order {
        add_generator(group, g, &mut found, &mut products, &mut seen)?;
    }
    Ok(found)
}
