//! Presentations of groups that people know, for the tests.

use group_table::Prime;

/// A presentation: the words of g_i^p and of [g_j, g_i] that are not empty.
pub struct Relations<'a> {
    pub prime: Prime,
    pub gens: u32,
    pub powers: &'a [(u32, &'a [u8])],
    pub commutators: &'a [(u32, u32, &'a [u8])],
}

pub const TRIVIAL: Relations<'static> = Relations {
    prime: Prime::P2,
    gens: 0,
    powers: &[],
    commutators: &[],
};

pub const CYCLIC_4: Relations<'static> = Relations {
    prime: Prime::P2,
    gens: 2,
    powers: &[(1, &[0, 1])],
    commutators: &[],
};

pub const QUATERNION: Relations<'static> = Relations {
    prime: Prime::P2,
    gens: 3,
    powers: &[(1, &[0, 0, 1]), (2, &[0, 0, 1])],
    commutators: &[(2, 1, &[0, 0, 1])],
};

pub const DIHEDRAL_8: Relations<'static> = Relations {
    prime: Prime::P2,
    gens: 3,
    powers: &[],
    commutators: &[(2, 1, &[0, 0, 1])],
};

// Extraspecial of order 27, of exponent 3 and of exponent 9.
pub const HEISENBERG_3: Relations<'static> = Relations {
    prime: Prime::P3,
    gens: 3,
    powers: &[],
    commutators: &[(2, 1, &[0, 0, 1])],
};

pub const EXTRASPECIAL_27: Relations<'static> = Relations {
    prime: Prime::P3,
    gens: 3,
    powers: &[(1, &[0, 0, 1])],
    commutators: &[(2, 1, &[0, 0, 1])],
};

pub const KLEIN_4: Relations<'static> = Relations {
    prime: Prime::P2,
    gens: 2,
    powers: &[],
    commutators: &[],
};

pub const CYCLIC_9: Relations<'static> = Relations {
    prime: Prime::P3,
    gens: 2,
    powers: &[(1, &[0, 1])],
    commutators: &[],
};

pub const ELEMENTARY_9: Relations<'static> = Relations {
    prime: Prime::P3,
    gens: 2,
    powers: &[],
    commutators: &[],
};

pub const DIHEDRAL_16: Relations<'static> = Relations {
    prime: Prime::P2,
    gens: 4,
    powers: &[(2, &[0, 0, 1, 0]), (3, &[0, 0, 0, 1])],
    commutators: &[(2, 1, &[0, 0, 1, 1]), (3, 1, &[0, 0, 0, 1])],
};

pub const SEMIDIHEDRAL_16: Relations<'static> = Relations {
    prime: Prime::P2,
    gens: 4,
    powers: &[(2, &[0, 0, 1, 0]), (3, &[0, 0, 0, 1])],
    commutators: &[(2, 1, &[0, 0, 1, 0]), (3, 1, &[0, 0, 0, 1])],
};

pub const QUATERNION_16: Relations<'static> = Relations {
    prime: Prime::P2,
    gens: 4,
    powers: &[(1, &[0, 0, 0, 1]), (2, &[0, 0, 1, 0]), (3, &[0, 0, 0, 1])],
    commutators: &[(2, 1, &[0, 0, 1, 1]), (3, 1, &[0, 0, 0, 1])],
};

pub const MODULAR_16: Relations<'static> = Relations {
    prime: Prime::P2,
    gens: 4,
    powers: &[(2, &[0, 0, 1, 0]), (3, &[0, 0, 0, 1])],
    commutators: &[(2, 1, &[0, 0, 0, 1])],
};

// C4 x C2 x C2.
pub const PRODUCT_16: Relations<'static> = Relations {
    prime: Prime::P2,
    gens: 4,
    powers: &[(1, &[0, 0, 0, 1])],
    commutators: &[],
};

// The central product of two dihedral groups of order 8, and of three.
pub const EXTRASPECIAL_32: Relations<'static> = Relations {
    prime: Prime::P2,
    gens: 5,
    powers: &[],
    commutators: &[(2, 1, &[0, 0, 0, 0, 1]), (4, 3, &[0, 0, 0, 0, 1])],
};

pub const EXTRASPECIAL_128: Relations<'static> = Relations {
    prime: Prime::P2,
    gens: 7,
    powers: &[],
    commutators: &[
        (2, 1, &[0, 0, 0, 0, 0, 0, 1]),
        (4, 3, &[0, 0, 0, 0, 0, 0, 1]),
        (6, 5, &[0, 0, 0, 0, 0, 0, 1]),
    ],
};

pub const ELEMENTARY_32: Relations<'static> = Relations {
    prime: Prime::P2,
    gens: 5,
    powers: &[],
    commutators: &[],
};

pub const UNITRIANGULAR_64: Relations<'static> = Relations {
    prime: Prime::P2,
    gens: 6,
    powers: &[],
    commutators: &[
        (2, 1, &[0, 0, 0, 1, 0, 0]),
        (3, 2, &[0, 0, 0, 0, 1, 0]),
        (4, 3, &[0, 0, 0, 0, 0, 1]),
        (5, 1, &[0, 0, 0, 0, 0, 1]),
    ],
};

pub const QUATERNION_SQUARE: Relations<'static> = Relations {
    prime: Prime::P2,
    gens: 6,
    powers: &[
        (1, &[0, 0, 1, 0, 0, 0]),
        (2, &[0, 0, 1, 0, 0, 0]),
        (4, &[0, 0, 0, 0, 0, 1]),
        (5, &[0, 0, 0, 0, 0, 1]),
    ],
    commutators: &[(2, 1, &[0, 0, 1, 0, 0, 0]), (5, 4, &[0, 0, 0, 0, 0, 1])],
};

// C3 wr C3.
pub const WREATH_81: Relations<'static> = Relations {
    prime: Prime::P3,
    gens: 4,
    powers: &[],
    commutators: &[(2, 1, &[0, 0, 1, 0]), (3, 1, &[0, 0, 0, 1])],
};

pub const EXTRASPECIAL_125: Relations<'static> = Relations {
    prime: Prime::P5,
    gens: 3,
    powers: &[],
    commutators: &[(2, 1, &[0, 0, 1])],
};

pub const CYCLIC_128: Relations<'static> = Relations {
    prime: Prime::P2,
    gens: 7,
    powers: &[
        (1, &[0, 1, 0, 0, 0, 0, 0]),
        (2, &[0, 0, 1, 0, 0, 0, 0]),
        (3, &[0, 0, 0, 1, 0, 0, 0]),
        (4, &[0, 0, 0, 0, 1, 0, 0]),
        (5, &[0, 0, 0, 0, 0, 1, 0]),
        (6, &[0, 0, 0, 0, 0, 0, 1]),
    ],
    commutators: &[],
};

pub const ELEMENTARY_128: Relations<'static> = Relations {
    prime: Prime::P2,
    gens: 7,
    powers: &[],
    commutators: &[],
};

// g_1^2 = g_2 does not commute with g_1.
pub const UNFIXED: Relations<'static> = Relations {
    prime: Prime::P2,
    gens: 3,
    powers: &[(1, &[0, 1, 0])],
    commutators: &[(2, 1, &[0, 0, 1])],
};

// Conjugation by g_1 has order 4, and g_1^2 = 1.
pub const TWISTED: Relations<'static> = Relations {
    prime: Prime::P2,
    gens: 4,
    powers: &[],
    commutators: &[(2, 1, &[0, 0, 1, 0]), (3, 1, &[0, 0, 0, 1])],
};

/// Groups with their orders, and with how many elements there are of each order.
pub const KNOWN: [(Relations<'static>, u16, &[(u32, usize)]); 23] = [
    (TRIVIAL, 1, &[(1, 1)]),
    (CYCLIC_4, 4, &[(1, 1), (2, 1), (4, 2)]),
    (QUATERNION, 8, &[(1, 1), (2, 1), (4, 6)]),
    (DIHEDRAL_8, 8, &[(1, 1), (2, 5), (4, 2)]),
    (HEISENBERG_3, 27, &[(1, 1), (3, 26)]),
    (EXTRASPECIAL_27, 27, &[(1, 1), (3, 8), (9, 18)]),
    (KLEIN_4, 4, &[(1, 1), (2, 3)]),
    (CYCLIC_9, 9, &[(1, 1), (3, 2), (9, 6)]),
    (ELEMENTARY_9, 9, &[(1, 1), (3, 8)]),
    (DIHEDRAL_16, 16, &[(1, 1), (2, 9), (4, 2), (8, 4)]),
    (SEMIDIHEDRAL_16, 16, &[(1, 1), (2, 5), (4, 6), (8, 4)]),
    (QUATERNION_16, 16, &[(1, 1), (2, 1), (4, 10), (8, 4)]),
    (MODULAR_16, 16, &[(1, 1), (2, 3), (4, 4), (8, 8)]),
    (PRODUCT_16, 16, &[(1, 1), (2, 7), (4, 8)]),
    (EXTRASPECIAL_32, 32, &[(1, 1), (2, 19), (4, 12)]),
    (ELEMENTARY_32, 32, &[(1, 1), (2, 31)]),
    (UNITRIANGULAR_64, 64, &[(1, 1), (2, 27), (4, 36)]),
    (QUATERNION_SQUARE, 64, &[(1, 1), (2, 3), (4, 60)]),
    (WREATH_81, 81, &[(1, 1), (3, 44), (9, 36)]),
    (EXTRASPECIAL_125, 125, &[(1, 1), (5, 124)]),
    (ELEMENTARY_128, 128, &[(1, 1), (2, 127)]),
    (EXTRASPECIAL_128, 128, &[(1, 1), (2, 71), (4, 56)]),
    (
        CYCLIC_128,
        128,
        &[
            (1, 1),
            (2, 1),
            (4, 2),
            (8, 4),
            (16, 8),
            (32, 16),
            (64, 32),
            (128, 64),
        ],
    ),
];
