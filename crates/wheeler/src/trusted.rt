use ddc_base::Name;

/// The programs about which assumptions are listed.
#[derive(Drop)]
pub(crate) enum Trusted<'p> {
    /// The programs of all unchecked stages.
    OfAll,
    /// These programs.
    These(&'p [Name]),
    /// The programs of all unchecked stages, and the compared stages.
    WithCompared,
}
