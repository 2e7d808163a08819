//! A layer by the numbers of its elements.

ghost use Rattle.std.specs.Prelude.{◌≡◌, ◌<◌, ◌≤◌, ◌+◌, ◌-◌, ◌*◌, ◌^◌, suc, IfOk};
ghost use Rattle.limits.specs.declared.TheConstants.{MOST_GENERATORS};
ghost use Rattle.power_commutator.specs.Presentations.{iterate};
ghost use Rattle.pc_group.specs.Tables.{at, AreNumbers};

use crate::layer_lists::{element_list, generator_list, image_list, scaled, small_power};
use crate::presentation::Presentation;
use crate::square::Square;
use crate::word_numbers::WordNumbers;
use group_table::Memory;
use limits::MOST_GENERATORS;
use std::alloc::Global;

/// The layer after g_i, by the numbers of its elements: its product, the map α_i, and the words there of
/// g_j^p and [g_k, g_j].
/// The word of g_j^p stands at j, that of [g_k, g_j] at k (n + 1) + j, and g_j at j.
#[derive(Drop)]
pub(crate) struct Layer {
    pub prime: usize,
    pub index: usize,
    pub gens: usize,
    pub table: Square,
    pub images: Vec<u16>,
    pub powers: Vec<u16>,
    pub commutators: Vec<u16>,
    pub generators: Vec<u16>,
    ghost some: { 0 < prime },
    ghost inside: { index ≤ gens },
    ghost few: { gens ≤ MOST_GENERATORS },
    ghost small: { prime * table.width ≤ 256 },
    ghost images_below: { AreNumbers table.width table.width images.items },
    ghost powers_below: { AreNumbers (gens + 1) table.width powers.items },
    ghost commutators_below: { AreNumbers ((gens + 1) * (gens + 1)) table.width commutators.items },
    ghost generators_below: { AreNumbers (gens + 1) table.width generators.items },
}

impl Layer {
    ghost use Rattle.pc_group.specs.Layers.{IsLayerOf};
    ghost use Rattle.pc_group.specs.Squares.{IsTableOf};
    ghost use Rattle.pc_group.specs.WordNumbers.{AreWordNumbers};

    /// The layer of a presentation after g_i, from its product and from the numbers of all words.
    pub fn new(
        alloc: Global,
        p: &Presentation,
        words: &WordNumbers,
        i: usize,
        table: Square,
    ) -> Result<Layer, Memory>
        requires few { p.now.prime ^ p.now.gens ≤ 256 }
        requires first { 0 < i }
        requires last { i ≤ p.now.gens }
        requires words { AreWordNumbers p.now words.now }
        requires table { IsTableOf p.now (suc i) (p.now.gens - i) table }
        ensures index { IfOk result (λ layer. layer.index ≡ i) }
        ensures layer { IfOk result (IsLayerOf p.now (p.now.gens - i)) }
    {
        let prime = p.prime().value() as usize;
        let n = p.gens() as usize;
        let scale = small_power(prime, i);
        let powers = scaled(alloc, &words.powers, scale)?;
        let commutators = scaled(alloc, &words.commutators, scale)?;
        let generators = generator_list(alloc, prime, i, n)?;
        let elements = element_list(alloc, &table, &generators, &commutators, i, n)?;
        let images = image_list(alloc, prime, &table, &elements, i)?;
        Ok(Layer {
            prime,
            index: i,
            gens: n,
            table,
            images,
            powers,
            commutators,
            generators,
        })
    }

    /// The image of x under α_i.
    pub fn image(&self, x: usize) -> usize
        requires { x < self.now.table.width }
        ensures value { result ≡ at self.now.images.items x }
        ensures inside { result < self.now.table.width }
    {
        self.images[x] as usize
    }

    /// The word of g_j^p in the layer.
    pub fn power_word(&self, j: usize) -> usize
        requires { j ≤ self.now.gens }
        ensures value { result ≡ at self.now.powers.items j }
        ensures inside { result < self.now.table.width }
    {
        self.powers[j] as usize
    }

    /// The word of [g_k, g_j] in the layer.
    pub fn commutator_word(&self, k: usize, j: usize) -> usize
        requires row { k ≤ self.now.gens }
        requires column { j ≤ self.now.gens }
        ensures value { result ≡ at self.now.commutators.items (k * (self.now.gens + 1) + j) }
        ensures inside { result < self.now.table.width }
    {
        self.commutators[k * (self.gens + 1) + j] as usize
    }

    /// The generator g_j in the layer.
    pub fn generator(&self, j: usize) -> usize
        requires { j ≤ self.now.gens }
        ensures value { result ≡ at self.now.generators.items j }
        ensures inside { result < self.now.table.width }
    {
        self.generators[j] as usize
    }

    /// The map α_i, applied `times` times to x.
    pub fn iterated(&self, times: usize, x: usize) -> usize
        requires { x < self.now.table.width }
        ensures value { result ≡ iterate (at self.now.images.items) times x }
        ensures inside { result < self.now.table.width }
    {
        let mut y = x;
        for k in 0..times {
            y = self.image(y);
        }
        y
    }
}
