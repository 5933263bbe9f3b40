//! How a word selects a layer, or layers, or a feature.

ghost use Rattle.std.specs.Prelude.{◌≡◌, IsSome};
ghost use Rattle.std.specs.Result.{IsErrOf};
ghost use Rattle.mvt_meaning.specs.CommandStands.{layer_choice_of, layers_choice_of, feature_choice_of};
ghost use Rattle.tile_lines.specs.Answers.{Gives, GivesAlways};
ghost use Rattle.tile_lines.specs.WordStands.{word_of};
ghost use Rattle.tile_arguments.specs.Arguments.{text_in, layer_of, is_star, layers_of, feature_of};

use crate::marks::after_mark;
use crate::numbers::number;
use crate::texts::text_argument;
use mvt_meaning::{FeatureChoice, LayerChoice, LayersChoice};
use std::alloc::Global;
use tile_lines::{ParseError, Word};

/// The layer that a word means.
#[tactic(auto, unfolding(crate::specs::Arguments::layer_of))]
pub fn layer_choice(alloc: Global, word: Word<'_>) -> Result<LayerChoice, ParseError>
    ensures answer { Gives layer_choice_of result (layer_of (word_of word.entry)) }
    ensures no_memory { IsErrOf result ParseError.NoMemory → IsSome (text_in (word_of word.entry)) }
{
    match word {
        Word::Bare(bytes) => match after_mark(b"#", bytes) {
            Some(digits) => Ok(LayerChoice::Ordinal(number(digits)?)),
            None => Ok(LayerChoice::Name(text_argument(alloc, word)?)),
        },
        Word::Quoted(_) => Ok(LayerChoice::Name(text_argument(alloc, word)?)),
    }
}

/// The layers that a word means.
#[tactic(auto, unfolding(crate::specs::Arguments::layers_of))]
pub fn layers_choice(alloc: Global, word: Word<'_>) -> Result<LayersChoice, ParseError>
    ensures answer { Gives layers_choice_of result (layers_of (word_of word.entry)) }
    ensures no_memory { IsErrOf result ParseError.NoMemory → IsSome (text_in (word_of word.entry)) }
{
    if is_star(word) {
        return Ok(LayersChoice::All);
    }
    Ok(LayersChoice::One(layer_choice(alloc, word)?))
}

fn is_star(word: Word<'_>) -> bool
    ensures { result ≡ is_star (word_of word.entry) }
{
    match word {
        Word::Bare(bytes) => bytes == b"*".as_slice(),
        Word::Quoted(_) => false,
    }
}

/// The feature of a layer that a word means.
#[tactic(auto, unfolding(crate::specs::Arguments::feature_of))]
pub fn feature_choice(word: Word<'_>) -> Result<FeatureChoice, ParseError>
    ensures { GivesAlways feature_choice_of result (feature_of (word_of word.entry)) }
{
    match word {
        Word::Bare(bytes) => match after_mark(b"@", bytes) {
            Some(digits) => Ok(FeatureChoice::Id(number(digits)?)),
            None => Ok(FeatureChoice::Ordinal(number(bytes)?)),
        },
        Word::Quoted(_) => Err(ParseError::BadNumber),
    }
}
