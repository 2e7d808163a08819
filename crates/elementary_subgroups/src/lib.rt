//! Elementary abelian subgroups of p-groups: definitions, and the laws that readers can cite.
//! See Quillen, The spectrum of an equivariant cohomology ring, 1971.
#![tactic(auto)]

ghost use Rattle.std.specs.Prelude.{◌≡◌, ◌<◌, ◌⊎◌, ℕ, List, Some, length, slice_get, slice_index};
ghost use Rattle.group_table.specs.Prime.{prime_value};
ghost use Rattle.group_table.specs.Tables.{GroupTable, IsGroupTable};
ghost use Rattle.group_table.specs.declared.Prime.{Prime};
ghost use Rattle.elementary_subgroups.specs.Bases.{embed, size, IsBasis, IsNumbered, IsSubgroupList};
ghost use Rattle.elementary_subgroups.specs.Bases.{IsSubgroupOf, NumberedSubgroup};
ghost use Rattle.elementary_subgroups.specs.OwnGroups.{elementary_group, IsOwnGroup};
ghost use Rattle.elementary_subgroups.specs.Sets.{IsBefore, IsIn};
ghost use Rattle.elementary_subgroups.specs.Subgroups.{IsConjugate, IsMaximalElementary};
ghost use Rattle.elementary_subgroups.specs.Subgroups.{IsMaximalElementaryList, IsOnlyConjugate};

/// Each maximal elementary abelian subgroup is conjugate to exactly one of the list.
pub fn each_class_is_listed_once()
    ensures { (G : GroupTable) (ms : List (List ℕ)) (m : List ℕ) → IsGroupTable G
        → IsMaximalElementaryList G ms → IsMaximalElementary G m → (l : List ℕ) × IsOnlyConjugate G m ms l }
{}

/// A listed subgroup comes before each of its other conjugates.
pub fn listed_are_least()
    ensures { (G : GroupTable) (ms : List (List ℕ)) (m l : List ℕ) → IsMaximalElementaryList G ms
        → IsIn m ms → IsConjugate G m l → (m ≡ l) ⊎ IsBefore m l }
{}

/// There is one list of maximal elementary abelian subgroups.
pub fn list_is_one()
    ensures { (G : GroupTable) (ms ns : List (List ℕ)) → IsMaximalElementaryList G ms
        → IsMaximalElementaryList G ns → ms ≡ ns }
{}

/// There is one list of numbered subgroups: basis, members and numbering.
pub fn numbered_list_is_one()
    ensures { (G : GroupTable) (ss ts : List NumberedSubgroup) → IsSubgroupList G ss
        → IsSubgroupList G ts → ss ≡ ts }
{}

/// What stands at a place of the list is a subgroup with its numbering.
pub fn listed_are_subgroups()
    ensures { (G : GroupTable) (ss : List NumberedSubgroup) (i : ℕ) (s : NumberedSubgroup)
        → IsSubgroupList G ss → slice_get ss i ≡ Some s → IsSubgroupOf G s }
{}

/// A set has one greedy basis.
pub fn basis_is_one()
    ensures { (G : GroupTable) (members basis other : List ℕ) → IsBasis G members basis
        → IsBasis G members other → basis ≡ other }
{}

/// There are p^s numbers, and the element at place e is the product of the basis members with the digits of e
/// as exponents.
pub fn images_are_products()
    ensures { (G : GroupTable) (s : NumberedSubgroup) → IsNumbered G s → (length s.images ≡ size G s.basis)
        × ((e : ℕ) → e < size G s.basis → slice_index s.images e ≡ embed G s.basis e) }
{}

/// The numbers below p^r are a group under the sum of digits.
pub fn elementary_group_is_a_group()
    ensures { (p r : ℕ) → 0 < p → IsGroupTable (elementary_group p r) }
{}

/// The elementary abelian group of the same rank is the subgroup's group in its own numbering: `embed` is a
/// homomorphism from it, one to one onto the members. So subgroups of one rank share one table.
pub fn own_group()
    ensures { (G : GroupTable) (s : NumberedSubgroup) (q : Prime) → IsGroupTable G → G.p ≡ prime_value q
        → IsSubgroupOf G s → IsOwnGroup G s (elementary_group G.p (length s.basis)) }
{}
