ghost use Rattle.toml.specs.View.{table_view};
ghost use Rattle.recipe.specs.Text.Reading.{Gives, document_of};

use crate::text::refusal::RecipeRefusal;
use std::alloc::Global;
use toml::Table;

/// Parses the bytes as a TOML document and returns its top table.
#[tactic(auto, unfolding(crate::specs::Text::Reading::document_of))]
pub fn document(alloc: Global, bytes: &[u8]) -> Result<Table, RecipeRefusal>
    ensures { Gives (λ t. table_view t) result (document_of bytes.now) }
{
    match std::str::from_utf8(bytes) {
        Ok(text) => match toml::table_from_str(alloc, text) {
            Ok(table) => Ok(table),
            Err(error) => {
                if error.is_memory() {
                    Err(RecipeRefusal::OutOfMemory)
                } else {
                    Err(RecipeRefusal::NotToml)
                }
            }
        },
        Err(_) => Err(RecipeRefusal::NotToml),
    }
}
