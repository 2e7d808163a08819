//! Polynomials of reports, read back.

use gc_poly::{Gens, write_text};
use group_table::{Memory, Prime};
use polynomial_reader::read_poly;
use std::alloc::Global;
use std::test::Fail;

// The generators of the cohomology ring of the quaternion group.
fn quaternion_generators(alloc: Global) -> Result<Gens, Memory> {
    let mut gens = Gens::new(alloc, Prime::P2);
    gens.push(1)?;
    gens.push(1)?;
    gens.push(4)?;
    Ok(gens)
}

#[test]
fn reads_the_relations_back(rt: HostRuntime) -> Result<(), Fail> {
    let alloc = rt.alloc();
    let gens = quaternion_generators(alloc)?;
    for line in ["x_1_1^2+x_1_1*x_1_2+x_1_2^2", "x_1_2^3"] {
        assert!(rt; line.len() <= 65_536);
        let relation = read_poly(alloc, &gens, line.as_bytes())?;
        let mut text = Vec::new(alloc);
        write_text(&gens, &relation, &mut text)?;
        assert_eq!(rt; text.as_slice(), line.as_bytes());
    }
    Ok(())
}
