//! The candidates for standard monomials: each quotient of a candidate by a generator is standard.

use crate::loads::product_of;
use limits::GREATEST_DEGREE;
use min_res::Resolution;
use ring_present::Ring;
use stage_answers::resolution_of;
use std::alloc::Global;
use std::process::Abort;
use std::test::Fail;

// How many there are in degrees 1 to 4 of the product of two cyclic groups of order 4. Its generators are x
// and y of degree 1, with x^2 = y^2 = 0, and z and w of degree 2; in degree 4 there are z^2, zw, w^2, xyz and
// xyw.
const COUNTS: [usize; 4] = [2, 5, 4, 5];

fn counts_each_degree(rt: &impl Abort, alloc: Global, resolution: &Resolution) {
    let mut ring = Ring::start(alloc, resolution.algebra().group().prime());
    for d in 0..4usize {
        assert!(rt; ring.degree() < GREATEST_DEGREE && ring.degree() < resolution.last());
        assert!(rt; ring.add_degree(resolution).is_ok());
        assert!(rt; ring.candidates().len() == COUNTS[d]);
    }
}

#[test]
fn counts_candidates(rt: HostRuntime) -> Result<(), Fail> {
    let consistent = product_of(&rt, rt.alloc(), 11)?;
    let Ok(resolution) = resolution_of(rt.alloc(), &consistent, 4) else {
        panic!(rt; "no stages");
    };
    counts_each_degree(&rt, rt.alloc(), &resolution);
    Ok(())
}
