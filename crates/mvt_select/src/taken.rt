//! A layer that is to get a name, and whether another layer has it.

ghost use Rattle.std.specs.Prelude.{◌≡◌, ℕ, Bool, List, [], ◌∷◌, ◌++◌, Err, IfErr, IfOk, filter, if◌then◌else◌};
ghost use Rattle.std.specs.Result.{result_map_both};
ghost use Rattle.mvt_document.specs.Plain as plain;
ghost use Rattle.mvt_document.specs.Stands.{document_of};
ghost use Rattle.mvt_messages.specs.Found.{found_layers};
ghost use Rattle.mvt_layers.specs.Seen.{found_layer_seen};
ghost use Rattle.mvt_messages.specs.Views.{is_named, the_one};
ghost use Rattle.mvt_layers.specs.declared.found.FoundLayer.{FoundLayer};
ghost use Rattle.mvt_meaning.specs.Command.{Named};
ghost use Rattle.mvt_meaning.specs.CommandStands.{layer_choice_of};
ghost use Rattle.mvt_meaning.specs.Meaning.{is_taken};
ghost use Rattle.mvt_meaning.specs.Selection.{selected};
ghost use Rattle.mvt_meaning.specs.declared.refusal.Refusal.TheVariants.{AmbiguousLayer, NoLayer};
ghost use Rattle.mvt_select.specs.Found.{IsFoundLayer};

use crate::find::{find_layer, find_named};
use mvt_document::Document;
use mvt_layers::{FoundLayer, layers};
use mvt_meaning::{LayerChoice, Refusal};

/// The selected layer, and whether a layer of another ordinal has the name. Each layer's name is
/// looked up once.
pub fn find_and_taken<'a>(
    document: &'a Document,
    choice: &LayerChoice,
    name: &[u8],
) -> Result<(FoundLayer<'a>, bool), Refusal>
    ensures found { IfOk result (λ answer. IsFoundLayer (layer_choice_of choice.now) (document_of document.now) answer.0) }
    ensures taken { IfOk result (λ answer. answer.1 ≡ is_taken name.now answer.0.ordinal (document_of document.now)) }
    ensures refused { IfErr result (λ refusal. selected (layer_choice_of choice.now) (document_of document.now) ≡ Err refusal) }
{
    match choice {
        LayerChoice::Ordinal(_) => {
            with_taken(find_layer(document, choice), find_named(document, name))
        }
        LayerChoice::Name(chosen) => {
            let (chosen, named) = named_twice(document, chosen.as_slice(), name);
            with_taken(chosen, named)
        }
    }
}

/// What was found, and whether a layer of another ordinal is among those that have the name.
fn with_taken<'a>(
    found: Result<FoundLayer<'a>, Refusal>,
    named: Result<FoundLayer<'a>, Refusal>,
) -> Result<(FoundLayer<'a>, bool), Refusal>
    ensures found { result_map_both (λ (answer : FoundLayer × Bool). answer.0) (λ refusal. refusal) result ≡ found.entry }
    ensures taken { (name : List ℕ) (document : plain.Document) → result_map_both (λ (found : FoundLayer). found.ordinal) (λ refusal. refusal) named.entry ≡ selected (Named name) document → IfOk result (λ answer. answer.1 ≡ is_taken name answer.0.ordinal document) }
{
    match found {
        Ok(found) => Ok((found, is_other(named, found.ordinal))),
        Err(refusal) => Err(refusal),
    }
}

/// The one layer of each of two names.
fn named_twice<'a>(
    document: &'a Document,
    one: &[u8],
    other: &[u8],
) -> (
    Result<FoundLayer<'a>, Refusal>,
    Result<FoundLayer<'a>, Refusal>,
)
    ensures one { result_map_both found_layer_seen (λ refusal. refusal) result.0 ≡ the_one NoLayer AmbiguousLayer (filter (λ found. is_named one.now found.1.1) (found_layers (document_of document.now))) }
    ensures other { result_map_both found_layer_seen (λ refusal. refusal) result.1 ≡ the_one NoLayer AmbiguousLayer (filter (λ found. is_named other.now found.1.1) (found_layers (document_of document.now))) }
{
    let mut of_one = Err(Refusal::NoLayer);
    let mut of_other = Err(Refusal::NoLayer);
    for found in layers(document) {
        let name = found.view().name();
        of_one = and_layer(of_one, found, name == Some(one));
        of_other = and_layer(of_other, found, name == Some(other));
    }
    (of_one, of_other)
}

/// The one layer among those before and this one, if this one counts.
fn and_layer<'a>(
    before: Result<FoundLayer<'a>, Refusal>,
    found: FoundLayer<'a>,
    counts: bool,
) -> Result<FoundLayer<'a>, Refusal>
    ensures { (list : List (ℕ × (ℕ × plain.Layer))) → result_map_both found_layer_seen (λ refusal. refusal) before.entry ≡ the_one NoLayer AmbiguousLayer list
        → result_map_both found_layer_seen (λ refusal. refusal) result ≡ the_one NoLayer AmbiguousLayer (list ++ (if counts then found_layer_seen found.entry ∷ [] else [])) }
{
    match before {
        before if !counts => before,
        Err(Refusal::NoLayer) => Ok(found),
        _ => Err(Refusal::AmbiguousLayer),
    }
}

/// A layer of another ordinal is among those that have the name.
fn is_other(named: Result<FoundLayer, Refusal>, ordinal: usize) -> bool
    ensures { (name : List ℕ) (document : plain.Document) → result_map_both (λ (found : FoundLayer). found.ordinal) (λ refusal. refusal) named.entry ≡ selected (Named name) document → result ≡ is_taken name ordinal document }
{
    match named {
        Ok(other) => other.ordinal != ordinal,
        Err(refusal) => matches!(refusal, Refusal::AmbiguousLayer),
    }
}
