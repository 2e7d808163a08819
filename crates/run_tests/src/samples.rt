//! Products of small groups, worked out by hand from the definitions.

use coho_words::GREATEST_SAMPLE;
use pc_text::write_presentation;
use sample_groups::sample_presentation;
use std::test::Fail;

// A number, and the relations of its product: the third digit of 342 would bring the order above 64.
const PRODUCTS: [(u32, &str); 4] = [
    (9, "gens 3\ng1^2 = g3\ng2^2 = g3\n[g2,g1] = g3\n"),
    (17, "gens 5\ng1^2 = g2\ng3^2 = g4\ng4^2 = g5\n"),
    (105, "gens 4\ng1^2 = g2\n"),
    (
        342,
        "gens 6\ng4^2 = g6\ng5^2 = g6\n[g2,g1] = g3\n[g5,g4] = g6\n",
    ),
];

#[test]
fn makes_products(rt: HostRuntime) -> Result<(), Fail> {
    let alloc = rt.alloc();
    for (k, relations) in PRODUCTS {
        assert!(rt; k <= GREATEST_SAMPLE);
        let made = sample_presentation(alloc, k)?;
        let text = format!(in alloc; "pgroup 1\nprime 2\n{relations}")?;
        assert_eq!(rt;
            write_presentation(alloc, &made)?.as_slice(),
            text.as_bytes(),
            "{k}"
        );
    }
    Ok(())
}
