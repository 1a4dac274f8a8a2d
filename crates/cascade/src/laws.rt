// What holds of all sources of a scene.
ghost use Rattle.std.specs.Prelude.{ℕ, ◌≡◌, ◌⊎◌, All, List, length};
ghost use Rattle.page_model.specs.declared.element.Element.{Element};
ghost use Rattle.page_model.specs.declared.rule.Decl.{Decl};
ghost use Rattle.page_model.specs.declared.scene.Scene.{Scene};
ghost use Rattle.page_model.specs.Cascade.{Fault, IsFirstFault, IsScene};
ghost use Rattle.css_reader.specs.ReadySheet.{AreReadyDecls, IsReadySheet};
ghost use Rattle.css_reader.specs.SheetState.{SheetState};
ghost use Rattle.cascade.specs.Sources.{sources_of};

/// Sources of which each declaration has a place of its own make a scene, or have a first fault: none are left without
/// an answer.
pub fn every_source_is_resolved()
    ensures { (sheet : SheetState) (elements : List Element) (inline : List (List Decl))
        → IsReadySheet sheet → All AreReadyDecls inline → length inline ≡ length elements
        → ((scene : Scene) × IsScene (sources_of sheet elements inline) scene)
        ⊎ ((number : ℕ) × (kind : Fault) × IsFirstFault (sources_of sheet elements inline) number kind) }
{}
