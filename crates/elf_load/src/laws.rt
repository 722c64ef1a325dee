//! The law of every image. It is the contract of a function that does nothing.

ghost use Rattle.elf_load.specs.declared.Image.{Image};
ghost use Rattle.elf_load.specs.Image.{image_of, IsLoadable};
ghost use Rattle.std.specs.Prelude.{◌≡◌, ℕ, List, Ok, length};

/// The image of a file that no rule refuses has 1 to 16 segments within the limits that share no page, its entry in one
/// of them, and its first break above them all.
pub fn images_are_sound()
    ensures { (file : List ℕ) (image : Image) → image_of file ≡ Ok image → IsLoadable (length file) image }
{}
