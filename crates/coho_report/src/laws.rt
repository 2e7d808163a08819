//! A group has one report through a degree, or a first subgroup over which a stage is too large.

ghost use Rattle.std.specs.Prelude.{◌≡◌, ◌⊎◌, ℕ};
ghost use Rattle.p_groups.specs.PGroups.{PGroup};
ghost use Rattle.coho_report.specs.Cohomology.{IsCohomologyReport};
ghost use Rattle.coho_report.specs.Limits.{AreSmall, IsFirstLargeSubgroup};
ghost use Rattle.coho_report.specs.Values.{ReportValue};
ghost use Rattle.coho_report.specs.Reports.{IsReport};

/// There is one report on the ring of a p-group through a degree.
pub fn one_report()
    ensures { (G : PGroup) (n : ℕ) (r s : ReportValue) → IsReport G n r → IsReport G n s → r ≡ s }
{}

/// Through each degree there is a report. Either no stage over a subgroup is too large, or there is a first
/// subgroup and degree.
pub fn report_exists()
    ensures report { (G : PGroup) (n : ℕ) → (r : ReportValue) × IsReport G n r }
    ensures subgroups { (G : PGroup) (n limit : ℕ)
        → AreSmall G n limit
        ⊎ ((i : ℕ) × (d : ℕ) × (X : ℕ) × IsFirstLargeSubgroup G n limit i d X) }
{}

/// The first subgroup over which a stage is too large is one, and so are its first such degree and the
/// dimension.
pub fn one_refusal()
    ensures { (G : PGroup) (n limit i d X j e Y : ℕ) → IsFirstLargeSubgroup G n limit i d X
        → IsFirstLargeSubgroup G n limit j e Y → (i ≡ j) × (d ≡ e) × (X ≡ Y) }
{}

/// The report on a p-group is that of the cohomology ring of its bar complex, with the restrictions of
/// cocycles to the maximal elementary abelian subgroups.
pub fn cohomology_law()
    ensures { (G : PGroup) (n : ℕ) (r : ReportValue) → IsReport G n r → IsCohomologyReport G n r }
{}
