//! What is known of a ring.

ghost use Rattle.std.specs.Prelude.{◌≡◌, suc, ◌<◌, ◌≤◌, [], ◌∷◌, ◌++◌, length, map, OnOk, OnErr, IfOk};
ghost use Rattle.std.specs.Prelude.{IfSome, Some};
ghost use Rattle.limits.specs.declared.TheConstants.{GREATEST_DEGREE};
ghost use Rattle.cohomology_degree.specs.Degrees.{degrees_of, kept, lifted};
ghost use Rattle.cohomology_degree.specs.KnownTables.{AreCandidatesOf, HasTables};
ghost use Rattle.ring_present.specs.KnownTables.{IsFirst, IsTableStore};
ghost use Rattle.ring_present.specs.Prefixes.{IsPrefix};
ghost use Rattle.ring_present.specs.Stores.{IsRingOf, IsRingStore};

use chain_lift::Lift;
use cohomology_degree::{Degree, Lower, Next, gens_over, raise};
use gc_poly::{Gens, Mono, Monos, Poly};
use group_algebra::PGroup;
use group_table::Memory;
use min_res::Resolution;
use ring_degree::Table;
use std::alloc::Global;

/// Generators with their lifts, relations and degrees from 1 on. The group is known from the first degree on.
#[derive(Drop)]
pub(crate) struct RingParts {
    pub(crate) group: Option<PGroup>,
    pub(crate) gens: Gens,
    pub(crate) lifts: Vec<Lift>,
    pub(crate) relations: Vec<Poly>,
    pub(crate) degrees: Vec<Degree>,
    pub(crate) tables: Vec<Table>,
    pub(crate) candidates: Monos,
}

// The monomial 1.
fn one(alloc: Global) -> Result<Mono, Memory>
    ensures { IfOk result (λ m. m ≡ []) }
{
    let one = Mono::of(alloc, &[])?;
    Ok(one)
}

// The table of degree 0, in which 1 is standard.
fn table_of_one(alloc: Global) -> Result<Table, Memory>
    ensures standard { IfOk result (λ t. t.standard ≡ [] ∷ []) }
    ensures products { IfOk result (λ t. t.products.items ≡ []) }
{
    let one = one(alloc)?;
    let mut standard = Monos::new(alloc);
    standard.push(one)?;
    Ok(Table {
        standard,
        products: Vec::new(alloc),
    })
}

// The table of degree 0, where there is none yet.
fn first_table(alloc: Global, tables: &[Table]) -> Result<Vec<Table>, Memory>
    ensures { IfOk result (λ first. IsFirst tables.now first.items) }
{
    let mut first = Vec::new(alloc);
    if tables.is_empty() {
        let table = table_of_one(alloc)?;
        first.push(table)?;
        return Ok(first);
    }
    Ok(first)
}

// The tables, or the first one where there are none.
fn or_first<'a>(tables: &'a [Table], first: &'a [Table]) -> &'a [Table]
    requires { IsFirst tables.now first.now }
    ensures { result.now ≡ tables.now ++ first.now }
{
    if tables.is_empty() { first } else { tables }
}

impl RingParts {
    // Adds a degree, and before it the first tables.
    fn append(
        &mut self,
        group: PGroup,
        mut next: Next,
        mut tables: Vec<Table>,
    ) -> Result<(), Memory>
        ensures group { OnOk result (self.new.group ≡ Some group) }
        ensures gens { OnOk result (self.new.gens ≡ next.gens) }
        ensures lifts { OnOk result (self.new.lifts.items ≡ self.old.lifts.items ++ next.lifts.items) }
        ensures relations { OnOk result (self.new.relations.items
            ≡ self.old.relations.items ++ next.relations.items) }
        ensures degrees { OnOk result (self.new.degrees.items ≡ self.old.degrees.items ++ next.degree ∷ []) }
        ensures tables { OnOk result (self.new.tables.items ≡ self.old.tables.items
            ++ (tables.items ++ next.table ∷ [])) }
        ensures candidates { OnOk result (self.new.candidates ≡ next.candidates) }
        ensures group_kept { OnErr result (self.new.group ≡ self.old.group) }
        ensures gens_kept { OnErr result (self.new.gens ≡ self.old.gens) }
        ensures lifts_kept { OnErr result (self.new.lifts.items ≡ self.old.lifts.items) }
        ensures relations_kept { OnErr result (self.new.relations.items ≡ self.old.relations.items) }
        ensures degrees_kept { OnErr result (self.new.degrees.items ≡ self.old.degrees.items) }
        ensures tables_kept { OnErr result (self.new.tables.items ≡ self.old.tables.items) }
        ensures candidates_kept { OnErr result (self.new.candidates ≡ self.old.candidates) }
    {
        tables.push(next.table)?;
        self.tables.reserve(tables.len())?;
        self.lifts.reserve(next.lifts.len())?;
        self.relations.reserve(next.relations.len())?;
        self.degrees.reserve(1)?;
        self.lifts.append(&mut next.lifts).unwrap();
        self.relations.append(&mut next.relations).unwrap();
        self.degrees.push(next.degree).unwrap();
        self.tables.append(&mut tables).unwrap();
        self.candidates = next.candidates;
        self.gens = next.gens;
        self.group = Some(group);
        Ok(())
    }

    /// Adds the next degree. After an error some lifts may be extended, and nothing else has changed.
    pub(crate) fn add_degree(&mut self, alloc: Global, res: &Resolution) -> Result<(), Memory>
        requires store { IsRingStore self.old.group self.old.gens self.old.lifts.items
            self.old.relations.items self.old.degrees.items }
        requires tables { IsTableStore self.old.group self.old.lifts.items self.old.degrees.items
            self.old.tables.items }
        requires within { suc (length self.old.degrees.items) ≤ res.now.last }
        requires high { length self.old.degrees.items < GREATEST_DEGREE }
        requires same_group { IfSome self.old.group (λ G. G ≡ res.now.group) }
        ensures group { OnOk result (self.new.group ≡ Some res.now.group) }
        ensures degrees_of_gens { OnOk result (self.new.gens.degrees ≡ degrees_of self.new.lifts.items) }
        ensures ring { OnOk result (IsRingOf res.now.group self.new.gens self.new.lifts.items
            self.new.relations.items self.new.degrees.items) }
        ensures tables { OnOk result (HasTables res.now.group (length self.new.degrees.items)
            self.new.lifts.items self.new.tables.items) }
        ensures candidates { OnOk result (AreCandidatesOf res.now.group (length self.new.degrees.items)
            self.new.lifts.items self.new.candidates) }
        ensures degree { OnOk result (length self.new.degrees.items ≡ suc (length self.old.degrees.items)) }
        ensures lifts_grown { OnOk result
            (IsPrefix (lifted self.old.lifts.items) (lifted self.new.lifts.items)) }
        ensures relations_grown { OnOk result (IsPrefix self.old.relations.items self.new.relations.items) }
        ensures degrees_grown { OnOk result (IsPrefix self.old.degrees.items self.new.degrees.items) }
        ensures group_kept { OnErr result (self.new.group ≡ self.old.group) }
        ensures gens_kept { OnErr result (self.new.gens ≡ self.old.gens) }
        ensures lifts_kept { OnErr result (map kept self.new.lifts.items ≡ map kept self.old.lifts.items) }
        ensures relations_kept { OnErr result (self.new.relations.items ≡ self.old.relations.items) }
        ensures degrees_kept { OnErr result (self.new.degrees.items ≡ self.old.degrees.items) }
        ensures tables_kept { OnErr result (self.new.tables.items ≡ self.old.tables.items) }
        ensures candidates_kept { OnErr result (self.new.candidates ≡ self.old.candidates) }
    {
        let group = res.algebra().group();
        let d = self.degrees.len() as u32 + 1;
        let gens = gens_over(alloc, group.prime(), &self.gens)?;
        let clone = group.try_clone(alloc)?;
        raise(&mut self.lifts, res, d)?;
        let first = first_table(alloc, &self.tables)?;
        let lower = Lower {
            group,
            lifts: &self.lifts,
            relations: &self.relations,
            degrees: &self.degrees,
            tables: or_first(&self.tables, &first),
        };
        let next = lower.next(alloc, res, gens)?;
        self.append(clone, next, first)?;
        Ok(())
    }
}
