//! Laws of the definitions.

ghost use Rattle.std.specs.Prelude.{◌≡◌, ℕ, List, IsSome, take, Ok, Err};
ghost use Rattle.recipe.specs.declared.text.refusal.RecipeRefusal.TheVariants.{OutOfMemory};
ghost use Rattle.recipe.specs.declared.parts.Input.{Input};
ghost use Rattle.recipe.specs.declared.parts.Stage.{Stage};
ghost use Rattle.recipe.specs.declared.contents.RecipeContents.{RecipeContents};
ghost use Rattle.recipe.specs.Kept.{IsRecipe};
ghost use Rattle.recipe.specs.Lookups.{content_named};
ghost use Rattle.recipe.specs.Reading.{recipe_of};

/// Every parsed recipe is well-formed (`IsRecipe`).
pub fn a_recipe_that_reads_keeps_the_rules()
    ensures { (bytes : List ℕ) (parsed : RecipeContents) → recipe_of bytes ≡ Ok parsed → IsRecipe parsed }
{}

/// A name that stands for a content among the inputs and the first stages stands for it among all of them.
pub fn a_name_keeps_its_content()
    ensures { (inputs : List Input) (stages : List Stage) (n : ℕ) (name : List ℕ) → IsSome (content_named inputs (take n stages) name) → content_named inputs stages name ≡ content_named inputs (take n stages) name }
{}

/// `recipe_of` never returns `OutOfMemory`: only a call of the reader does.
pub fn no_bytes_say_want_of_memory()
    ensures { (bytes : List ℕ) → ¬ (recipe_of bytes ≡ Err OutOfMemory) }
{}
