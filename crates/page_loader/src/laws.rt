// What holds of every file.
ghost use Rattle.std.specs.Prelude.{ℕ, ◌≡◌, ◌≤◌, List, Result, length};
ghost use Rattle.page_model.specs.declared.scene.Scene.{Scene};
ghost use Rattle.page_loader.specs.Loading.{IsLoad};
ghost use Rattle.page_loader.specs.declared.load_fault.LoadFault.{LoadFault};

/// A file has one scene or one first fault, and not both.
pub fn one_loading()
    ensures { (text : List ℕ) (outcome other : Result Scene LoadFault) → IsLoad text outcome → IsLoad text other → other ≡ outcome }
{}

/// Each file within the limit has its scene, or its first fault, which is no want of memory: none is left without an
/// answer.
pub fn every_file_is_loaded_or_not()
    ensures { (text : List ℕ) → length text ≤ 1048576 → (outcome : Result Scene LoadFault) × IsLoad text outcome }
{}
