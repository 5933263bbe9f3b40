//! Laws on how a line is read. The law on a line's words is re-exported.

ghost use Rattle.std.specs.Prelude.{◌≡◌, ℕ, List, [], ◌∷◌, ◌++◌, Some, Ok, codes, IsTrue};
ghost use Rattle.std.specs.List.{AllByRecursion};
ghost use Rattle.std.specs.Str.Parse.{digits_value};
ghost use Rattle.mvt_meaning.specs.Command.{AtOrdinal, Named, RenameLayer, FeatureAtOrdinal, WithId};
ghost use Rattle.tile_arguments.specs.Arguments.{is_number};
ghost use Rattle.mvt_meaning.specs.Requests.{Edit};
ghost use Rattle.tile_arguments.specs.Request.{OnHistory, Lists, Whole, OneLayer, OneFeature};
ghost use Rattle.tile_script.specs.Line.{requests_alone, requests_by_name, IsReadable, answer_to};
ghost use Rattle.tile_script.specs.Shapes.{AsksAlone, AsksByName};
ghost use Rattle.tile_lines.specs.Spelling.{SpellsWords};
ghost use Rattle.tile_lines.specs.Words.{Bare, Quoted};

pub use tile_lines::laws::words_are_spelled;

/// What some shapes of line ask for, where it is UTF-8 and not too long: each word that takes no
/// argument (`alone`); `mark`, `unmark` and `back` with a quoted name (`by_name`); `rename-layer`
/// with the name of a layer or with `#` and its ordinal, and the new name; `list` alone, with the
/// name of a layer, with the ordinals of a layer and of a feature, and with the name of a layer and
/// the id of a feature.
pub fn words_ask_for_requests()
    ensures alone { AllByRecursion AsksAlone requests_alone }
    ensures by_name { AllByRecursion AsksByName requests_by_name }
    ensures rename_layer { (line old new : List ℕ) → IsReadable line → SpellsWords line (Bare (codes "rename-layer") ∷ Quoted old ∷ Quoted new ∷ []) → answer_to line ≡ Ok (Some (OnHistory (Edit (RenameLayer (Named old) new)))) }
    ensures rename_layer_at { (line digits new : List ℕ) → IsReadable line → IsTrue (is_number digits) → SpellsWords line (Bare (codes "rename-layer") ∷ Bare (codes "#" ++ digits) ∷ Quoted new ∷ []) → answer_to line ≡ Ok (Some (OnHistory (Edit (RenameLayer (AtOrdinal (digits_value 10 digits)) new)))) }
    ensures list { (line : List ℕ) → IsReadable line → SpellsWords line (Bare (codes "list") ∷ []) → answer_to line ≡ Ok (Some (Lists Whole)) }
    ensures list_layer { (line name : List ℕ) → IsReadable line → SpellsWords line (Bare (codes "list") ∷ Quoted name ∷ []) → answer_to line ≡ Ok (Some (Lists (OneLayer (Named name)))) }
    ensures list_feature_at { (line layer feature : List ℕ) → IsReadable line → IsTrue (is_number layer) → IsTrue (is_number feature) → SpellsWords line (Bare (codes "list") ∷ Bare (codes "#" ++ layer) ∷ Bare feature ∷ []) → answer_to line ≡ Ok (Some (Lists (OneFeature (AtOrdinal (digits_value 10 layer)) (FeatureAtOrdinal (digits_value 10 feature))))) }
    ensures list_feature_with_id { (line name id : List ℕ) → IsReadable line → IsTrue (is_number id) → SpellsWords line (Bare (codes "list") ∷ Quoted name ∷ Bare (codes "@" ++ id) ∷ []) → answer_to line ≡ Ok (Some (Lists (OneFeature (Named name) (WithId (digits_value 10 id))))) }
{}
