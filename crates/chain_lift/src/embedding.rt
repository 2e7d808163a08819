//! Maps of resolutions along the embeddings of elementary abelian subgroups, and restrictions of classes.

ghost use Rattle.chain_lift.specs.Embeddings.{elementary, embedding, restrict_row};
ghost use Rattle.chain_lift.specs.EmbeddingStores.{IsEmbedLevel};
ghost use Rattle.elementary_subgroups.specs.Bases.{IsSubgroupOf};
ghost use Rattle.fp_rows.specs.Refs.{entries_of, modulus_of};
ghost use Rattle.group_cocycles.specs.Cocycles.{cocycle_of, IsClassOf};
ghost use Rattle.min_res.specs.Stages.{rank_of};
ghost use Rattle.std.specs.Prelude.{◌≡◌, ◌≤◌, ◌<◌, max, suc, length, map, IfOk, OnErr, OnOk};
ghost use Rattle.p_groups.specs.PGroups.{prime_of};

use crate::embedding_maps::next_rows_along;
use crate::level::Level;
use crate::maps::first_rows;
use crate::products::write_pairings;
use fp_rows::{Row, RowRef};
use group_algebra::PGroup;
use group_table::Memory;
use min_res::Resolution;
use std::alloc::Global;
use std::marker::Model;
use std::rc::Rc;
use subgroup_list::ElemAb;

/// The map of minimal resolutions along the embedding of an elementary abelian subgroup E in a p-group G:
/// maps from the free modules of degree d over kE to those over kG, for d from 0 to the height, linear
/// along the embedding. The first takes 1 to 1, and each other takes a basis element to the section, over
/// G, of what the map before takes its boundary to; they are a chain map. The value of a class at the map
/// of its degree is its restriction to E (Brown, "Cohomology of Groups", III.8).
///
/// It shares the stages that it used, and borrows no resolution: resolutions of the same groups may grow
/// meanwhile.
#[derive(Drop)]
pub struct EmbedMap {
    alloc: Global,
    group: PGroup,
    subgroup: ElemAb,
    levels: Vec<Level>,
}

impl Model for EmbedMap {
    ghost use Rattle.std.specs.Prelude.{◌-◌, length};
    ghost use Rattle.chain_lift.specs.EmbeddingValues.{EmbedValue, coded_embedding};
    ghost use Rattle.chain_lift.specs.EmbeddingStores.{IsEmbedStore};

    ghost Value = { EmbedValue };

    ghost coded = { coded_embedding };

    ghost view = { λ m.
        record { group = m.group; basis = m.subgroup.basis; height = length m.levels.items - 1 } };

    ghost invariant = { λ m. IsEmbedStore
        (record { group = m.group; basis = m.subgroup.basis; height = length m.levels.items - 1 })
        m.subgroup m.levels.items };
}

impl EmbedMap {
    /// The map of degree 0. `e` is a subgroup of the group of `rg`, and `re` a resolution of it in its own
    /// numbering.
    pub fn new(
        alloc: Global,
        e: &ElemAb,
        re: &Resolution,
        rg: &Resolution,
    ) -> Result<EmbedMap, Memory>
        requires subgroup { IsSubgroupOf rg.now.group.table e.now }
        requires own { re.now.group ≡ elementary rg.now.group (length e.now.basis) }
        ensures { IfOk result (λ m. m ≡ record { group = rg.now.group; basis = e.now.basis; height = 0 }) }
    {
        let algebra = rg.algebra();
        let group = algebra.group().try_clone(alloc)?;
        let subgroup = e.try_clone(alloc)?;
        let mut one = Row::zero(alloc, group.prime(), 1)?;
        one.set_unit(0);
        let level = Level {
            source: re.stage_at(0).clone()?,
            target: rg.stage_at(0).clone()?,
            rows: first_rows(alloc, algebra, one.view())?,
        };
        let mut levels = Vec::new(alloc);
        levels.push(level)?;
        Ok(EmbedMap {
            alloc,
            group,
            subgroup,
            levels,
        })
    }

    /// The degree up to which the maps are known.
    pub fn height(&self) -> u32
        ensures { result ≡ self.now.height }
    {
        (self.levels.len() - 1) as u32
    }

    // The last map.
    fn last(&self) -> &Level
        ensures { IsEmbedLevel self.now.group self.now.basis self.now.height result.now }
    {
        &self.levels[self.levels.len() - 1]
    }

    // The map after the last one.
    fn next(&self, re: &Resolution, rg: &Resolution) -> Result<Level, Memory>
        requires source { self.now.height < re.now.last }
        requires target { self.now.height < rg.now.last }
        requires own { re.now.group ≡ elementary self.now.group (length self.now.basis) }
        requires group { rg.now.group ≡ self.now.group }
        ensures { IfOk result (λ l. IsEmbedLevel self.now.group self.now.basis (suc self.now.height) l) }
    {
        let _lasts = (re.last(), rg.last());
        let before = self.last();
        let _width = before.source.kernel().width();
        let d = self.height() + 1;
        let source = re.stage_at(d).clone()?;
        let target = rg.stage_at(d).clone()?;
        let rank = before.target.rank();
        let rows = next_rows_along(
            self.alloc,
            re.algebra(),
            rg.algebra(),
            &self.subgroup,
            rank,
            &before.rows,
            &source,
            &target,
        )?;
        Ok(Level {
            source,
            target,
            rows,
        })
    }

    // Adds the next map.
    fn extend(&mut self, re: &Resolution, rg: &Resolution) -> Result<(), Memory>
        requires source { self.old.height < re.now.last }
        requires target { self.old.height < rg.now.last }
        requires own { re.now.group ≡ elementary self.old.group (length self.old.basis) }
        requires group { rg.now.group ≡ self.old.group }
        ensures grown { OnOk result (self.new ≡ record self.old { height = suc self.old.height }) }
        ensures kept { OnErr result (self.new ≡ self.old) }
    {
        let _last = rg.last();
        let level = self.next(re, rg)?;
        self.levels.push(level)?;
        Ok(())
    }

    // Leaves the maps up to this height, which is at most that of the map.
    fn cut(&mut self, height: u32)
        requires { height ≤ self.old.height }
        ensures { self.new ≡ record self.old { height = height } }
    {
        self.levels.truncate(height as usize + 1);
    }

    /// Makes the maps up to degree d, which is at most the degree of the last stage of either resolution.
    /// Maps that are known stay. After an error the map is as before.
    pub fn extend_to(&mut self, re: &Resolution, rg: &Resolution, d: u32) -> Result<(), Memory>
        requires source { d ≤ re.now.last }
        requires target { d ≤ rg.now.last }
        requires own { re.now.group ≡ elementary self.old.group (length self.old.basis) }
        requires group { rg.now.group ≡ self.old.group }
        ensures reached { OnOk result (self.new ≡ record self.old { height = max self.old.height d }) }
        ensures kept { OnErr result (self.new ≡ self.old) }
    {
        let height = self.height();
        for _d in height..d {
            match self.extend(re, rg) {
                Ok(()) => {}
                Err(memory) => {
                    self.cut(height);
                    return Err(memory);
                }
            }
        }
        Ok(())
    }

    /// Writes the restriction to the subgroup of a class of degree d, which is at most the height: the one
    /// class whose cocycle differs by a coboundary from that of the class at tuples of the subgroup (Brown,
    /// "Cohomology of Groups", III.8).
    pub fn restrict(&self, d: u32, class: RowRef<'_>, out: &mut Row)
        requires degree { d ≤ self.now.height }
        requires prime { modulus_of class ≡ prime_of self.now.group }
        requires length { length (entries_of class) ≡ rank_of self.now.group d }
        requires out_prime { out.old.p ≡ prime_of self.now.group }
        requires out_length { length out.old.entries ≡ rank_of
            (elementary self.now.group (length self.now.basis)) d }
        ensures prime { out.new.p ≡ out.old.p }
        ensures value { out.new.entries ≡ restrict_row self.now.group self.now.basis d
            (entries_of class.entry) }
        ensures cocycle { IsClassOf (elementary self.now.group (length self.now.basis)) d
            (λ xs. cocycle_of self.now.group d (entries_of class.entry)
            (map (embedding self.now.group self.now.basis) xs)) out.new.entries }
    {
        let level = &self.levels[d as usize];
        write_pairings(class, &level.rows, out);
    }
}
