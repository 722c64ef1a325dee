//! How lists and files correspond: laws about their definitions.

ghost use Rattle.std.specs.Prelude.{◌≡◌};
ghost use Rattle.mem_files.specs.World.{World};
ghost use Rattle.mem_files.specs.Sound.{IsSound};
ghost use Rattle.mem_files.specs.Lists.{FileLists, lists_of, world_of, AreOrdered, AreInRange, AreJoined};

/// Lists that obey the rules of lists represent files that obey the rules of files.
pub fn good_lists_make_sound_files()
    ensures { (lists : FileLists) → AreOrdered lists → AreInRange lists → AreJoined lists → IsSound (world_of lists) }
{}

/// The lists of files that obey their rules obey the rules of lists.
pub fn sound_files_have_good_lists()
    ensures ordered { (w : World) → IsSound w → AreOrdered (lists_of w) }
    ensures within { (w : World) → IsSound w → AreInRange (lists_of w) }
    ensures joined { (w : World) → IsSound w → AreJoined (lists_of w) }
{}

/// The lists of files represent these files.
pub fn lists_say_the_files()
    ensures { (w : World) → IsSound w → world_of (lists_of w) ≡ w }
{}

/// Files made from lists have these lists.
pub fn files_have_their_lists()
    ensures { (lists : FileLists) → AreOrdered lists → AreInRange lists → lists_of (world_of lists) ≡ lists }
{}
