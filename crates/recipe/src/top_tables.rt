ghost use Rattle.std.specs.Prelude.{◌≤◌, length};

use toml::Table;

/// The tables of the top table, within their limits.
#[derive(Drop)]
pub(crate) struct Top<'a> {
    pub(crate) format: u32,
    pub(crate) inputs: Vec<&'a Table>,
    pub(crate) sources: Vec<&'a Table>,
    pub(crate) stages: Vec<&'a Table>,
    pub(crate) compare: &'a Table,
    ghost few_inputs: { length inputs.items ≤ 256 },
    ghost few_sources: { length sources.items ≤ 256 },
    ghost few_stages: { length stages.items ≤ 256 },
}
