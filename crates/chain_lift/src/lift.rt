//! Lifts of classes.

ghost use Rattle.chain_lift.specs.Products.{product_row};
ghost use Rattle.chain_lift.specs.Stores.{IsLevel};
ghost use Rattle.fp_rows.specs.Refs.{entries_of, modulus_of};
ghost use Rattle.group_cocycles.specs.Cocycles.{cocycle_of, cup, IsClassOf};
ghost use Rattle.min_res.specs.Stages.{rank_of};
ghost use Rattle.std.specs.Prelude.{◌≡◌, ◌≤◌, ◌<◌, ◌+◌, max, suc, length, IfOk, OnErr, OnOk};
ghost use Rattle.p_groups.specs.PGroups.{prime_of};

use crate::level::Level;
use crate::maps::{first_rows, next_rows};
use crate::products::write_pairings;
use fp_rows::{Row, RowRef};
use group_algebra::PGroup;
use group_table::Memory;
use min_res::Resolution;
use std::alloc::Global;
use std::marker::Model;
use std::rc::Rc;

/// The lift of a class of degree q, given by an entry for each basis element of degree q: maps from the free
/// modules of degree q + j to those of degree j over the group algebra, for j from 0 to the height. The first
/// takes basis element i to c_i times 1, and each other takes it to the section of what the map before takes
/// its boundary to; they are a chain map. The value of a class of degree j at the map of degree j is the
/// product of the two (Carlson, Townsley, Valeri-Elizondo and Zhang, "Cohomology Rings of Finite Groups",
/// chapter 4).
///
/// It shares the stages that it used, and borrows no resolution: a resolution of the same group may grow
/// meanwhile.
#[derive(Drop)]
pub struct Lift {
    alloc: Global,
    group: PGroup,
    degree: u32,
    class: Row,
    levels: Vec<Level>,
}

impl Model for Lift {
    ghost use Rattle.std.specs.Prelude.{◌-◌, length};
    ghost use Rattle.chain_lift.specs.Values.{LiftValue, coded_lift};
    ghost use Rattle.chain_lift.specs.Stores.{IsLiftStore};

    ghost Value = { LiftValue };

    ghost coded = { coded_lift };

    ghost view = { λ l. record {
      group = l.group;
      degree = l.degree;
      class = l.class.entries;
      height = length l.levels.items - 1;
    } };

    ghost invariant = { λ l. IsLiftStore
        (record {
          group = l.group;
          degree = l.degree;
          class = l.class.entries;
          height = length l.levels.items - 1;
        })
        l.class.p l.levels.items };
}

impl Lift {
    /// The lift of the class, up to height 0. The class is one of degree q, which is at most the degree of
    /// the last stage.
    pub fn new(alloc: Global, res: &Resolution, q: u32, class: RowRef<'_>) -> Result<Lift, Memory>
        requires degree { q ≤ res.now.last }
        requires prime { modulus_of class ≡ prime_of res.now.group }
        requires length { length (entries_of class) ≡ rank_of res.now.group q }
        ensures { IfOk result (λ l. l ≡ record {
          group = res.now.group;
          degree = q;
          class = entries_of class.entry;
          height = 0;
        }) }
    {
        let algebra = res.algebra();
        let group = algebra.group().try_clone(alloc)?;
        let mut kept = Row::zero(alloc, group.prime(), class.len())?;
        kept.add(1, class);
        let level = Level {
            source: res.stage_at(q).clone()?,
            target: res.stage_at(0).clone()?,
            rows: first_rows(alloc, algebra, class)?,
        };
        let mut levels = Vec::new(alloc);
        levels.push(level)?;
        Ok(Lift {
            alloc,
            group,
            degree: q,
            class: kept,
            levels,
        })
    }

    /// The degree of the class.
    pub fn degree(&self) -> u32
        ensures { result ≡ self.now.degree }
    {
        self.degree
    }

    /// The class, which has an entry for each basis element of its degree.
    pub fn class(&self) -> RowRef<'_>
        ensures entries { entries_of result ≡ self.now.class }
        ensures modulus { modulus_of result ≡ prime_of self.now.group }
        ensures length { length (entries_of result) ≡ rank_of self.now.group self.now.degree }
    {
        self.class.view()
    }

    /// The degree up to which the maps are known.
    pub fn height(&self) -> u32
        ensures { result ≡ self.now.height }
    {
        (self.levels.len() - 1) as u32
    }

    // The last map.
    fn last(&self) -> &Level
        ensures { IsLevel self.now.group self.now.degree self.now.class self.now.height result.now }
    {
        &self.levels[self.levels.len() - 1]
    }

    // The map after the last one.
    fn next(&self, res: &Resolution) -> Result<Level, Memory>
        requires within { self.now.degree + self.now.height < res.now.last }
        requires group { res.now.group ≡ self.now.group }
        ensures { IfOk result
            (λ l. IsLevel self.now.group self.now.degree self.now.class (suc self.now.height) l) }
    {
        let algebra = res.algebra();
        let _last = res.last();
        let before = self.last();
        let _width = before.source.kernel().width();
        let d = self.height() + 1;
        let source = res.stage_at(self.degree() + d).clone()?;
        let target = res.stage_at(d).clone()?;
        let rank = before.target.rank();
        let rows = next_rows(self.alloc, algebra, rank, &before.rows, &source, &target)?;
        Ok(Level {
            source,
            target,
            rows,
        })
    }

    // Adds the next map.
    fn extend(&mut self, res: &Resolution) -> Result<(), Memory>
        requires within { self.old.degree + self.old.height < res.now.last }
        requires group { res.now.group ≡ self.old.group }
        ensures grown { OnOk result (self.new ≡ record self.old { height = suc self.old.height }) }
        ensures kept { OnErr result (self.new ≡ self.old) }
    {
        let _last = res.last();
        let level = self.next(res)?;
        self.levels.push(level)?;
        Ok(())
    }

    // Leaves the maps up to this height, which is at most that of the lift.
    fn cut(&mut self, height: u32)
        requires { height ≤ self.old.height }
        ensures { self.new ≡ record self.old { height = height } }
    {
        self.levels.truncate(height as usize + 1);
    }

    /// Makes the maps up to degree j, which with the degree of the class is at most the degree of the last
    /// stage. Maps that are known stay. After an error the lift is as before.
    pub fn extend_to(&mut self, res: &Resolution, j: u32) -> Result<(), Memory>
        requires within { self.old.degree + j ≤ res.now.last }
        requires group { res.now.group ≡ self.old.group }
        ensures reached { OnOk result (self.new ≡ record self.old { height = max self.old.height j }) }
        ensures kept { OnErr result (self.new ≡ self.old) }
    {
        let height = self.height();
        for _d in height..j {
            match self.extend(res) {
                Ok(()) => {}
                Err(memory) => {
                    self.cut(height);
                    return Err(memory);
                }
            }
        }
        Ok(())
    }

    /// Writes the product of a class a of degree j, which is at most the height, and the class of the lift:
    /// the one class whose cocycle differs by a coboundary from the cup product of theirs (Brown, "Cohomology
    /// of Groups", V.3).
    pub fn product(&self, j: u32, a: RowRef<'_>, out: &mut Row)
        requires degree { j ≤ self.now.height }
        requires prime { modulus_of a ≡ prime_of self.now.group }
        requires length { length (entries_of a) ≡ rank_of self.now.group j }
        requires out_prime { out.old.p ≡ prime_of self.now.group }
        requires out_length { length out.old.entries ≡ rank_of self.now.group (j + self.now.degree) }
        ensures prime { out.new.p ≡ out.old.p }
        ensures value { out.new.entries
            ≡ product_row self.now.group j self.now.degree (entries_of a.entry) self.now.class }
        ensures cup_product { IsClassOf self.now.group (j + self.now.degree)
            (cup self.now.group j (cocycle_of self.now.group j (entries_of a.entry))
            (cocycle_of self.now.group self.now.degree self.now.class)) out.new.entries }
    {
        let level = &self.levels[j as usize];
        write_pairings(a, &level.rows, out);
    }
}
