//! The command that a word and its arguments make.

ghost use Rattle.std.specs.Prelude.{◌≡◌, ◌≤◌, Err, drop, length, map};
ghost use Rattle.std.specs.Result.{IsErrOf};
ghost use Rattle.mvt_meaning.specs.CommandStands.{command_of, layer_choice_of, layers_choice_of, feature_choice_of};
ghost use Rattle.std.specs.Str.{bytes_eq};
ghost use Rattle.tile_script.specs.Commands.{chosen_of, two_texts_of, layers_alone_of, rename_layer_of, move_layer_of, drop_layer_of, keep_layers_of, insert_feature_of, move_feature_of, drop_feature_of, set_id_of, clear_id_of, set_of, unset_of, rename_key_of, exclude_of, exclude_all_of, shift_of, set_geometry_of, compact_keys_of, compact_values_of, compact_of, commands, read_by, command_by};
ghost use Rattle.tile_lines.specs.Answers.{Gives};
ghost use Rattle.tile_lines.specs.declared.parse_error.ParseError.TheVariants.{UnknownCommand};
ghost use Rattle.tile_lines.specs.WordStands.{word_of};

use mvt_document::Items;
use mvt_meaning::{Command, FeatureChoice, LayerChoice, LayersChoice};
use std::alloc::Global;
use tile_arguments::{
    distance, feature_choice, layer_choice, layers_choice, new_geometry, new_value,
    number_argument, text_argument, text_arguments,
};
use tile_lines::{ParseError, Word};

/// Whether the bytes are this word.
pub(crate) fn is(name: &[u8], word: &[u8]) -> bool
    ensures { result ≡ bytes_eq name.now word.now }
{
    name == word
}

/// The command that begins with this word, with its arguments.
#[tactic(auto, unfolding(crate::specs::Commands::command_by))]
pub(crate) fn command(
    alloc: Global,
    name: &[u8],
    arguments: &[Word<'_>],
) -> Result<Command, ParseError>
    ensures answer { Gives command_of result (command_by name.now (map word_of arguments.now)) }
    ensures no_memory { IsErrOf result ParseError.NoMemory → 1 ≤ length arguments.now }
{
    if is(name, b"rename-layer") {
        rename_layer(alloc, arguments)
    } else if is(name, b"move-layer") {
        move_layer(alloc, arguments)
    } else if is(name, b"drop-layer") {
        drop_layer(alloc, arguments)
    } else if is(name, b"keep") {
        keep_layers(alloc, arguments)
    } else {
        feature_command(alloc, name, arguments)
    }
}

/// The same for the commands after those on layers.
fn feature_command(
    alloc: Global,
    name: &[u8],
    arguments: &[Word<'_>],
) -> Result<Command, ParseError>
    ensures answer { Gives command_of result (read_by (drop 4 commands) (Err UnknownCommand) name.now (map word_of arguments.now)) }
    ensures no_memory { IsErrOf result ParseError.NoMemory → 1 ≤ length arguments.now }
{
    if is(name, b"insert") {
        insert_feature(alloc, arguments)
    } else if is(name, b"move-feature") {
        move_feature(alloc, arguments)
    } else if is(name, b"drop-feature") {
        drop_feature(alloc, arguments)
    } else if is(name, b"set-id") {
        set_id(alloc, arguments)
    } else if is(name, b"clear-id") {
        clear_id(alloc, arguments)
    } else {
        attribute_command(alloc, name, arguments)
    }
}

/// The same for the commands after those on features and their ids.
fn attribute_command(
    alloc: Global,
    name: &[u8],
    arguments: &[Word<'_>],
) -> Result<Command, ParseError>
    ensures answer { Gives command_of result (read_by (drop 9 commands) (Err UnknownCommand) name.now (map word_of arguments.now)) }
    ensures no_memory { IsErrOf result ParseError.NoMemory → 1 ≤ length arguments.now }
{
    if is(name, b"set") {
        set(alloc, arguments)
    } else if is(name, b"unset") {
        unset(alloc, arguments)
    } else if is(name, b"rename-key") {
        rename_key(alloc, arguments)
    } else if is(name, b"exclude") {
        exclude(alloc, arguments)
    } else if is(name, b"exclude-all") {
        exclude_all(alloc, arguments)
    } else {
        geometry_or_pool_command(alloc, name, arguments)
    }
}

/// The same for the commands after those on attributes.
fn geometry_or_pool_command(
    alloc: Global,
    name: &[u8],
    arguments: &[Word<'_>],
) -> Result<Command, ParseError>
    ensures answer { Gives command_of result (read_by (drop 14 commands) (Err UnknownCommand) name.now (map word_of arguments.now)) }
    ensures no_memory { IsErrOf result ParseError.NoMemory → 1 ≤ length arguments.now }
{
    if is(name, b"shift") {
        shift(alloc, arguments)
    } else if is(name, b"set-geometry") {
        set_geometry(alloc, arguments)
    } else if is(name, b"compact-keys") {
        compact_keys(alloc, arguments)
    } else if is(name, b"compact-values") {
        compact_values(alloc, arguments)
    } else if is(name, b"compact") {
        compact(alloc, arguments)
    } else {
        Err(ParseError::UnknownCommand)
    }
}

#[tactic(auto, unfolding(crate::specs::Commands::rename_layer_of))]
fn rename_layer(alloc: Global, arguments: &[Word<'_>]) -> Result<Command, ParseError>
    ensures answer { Gives command_of result (rename_layer_of (map word_of arguments.now)) }
    ensures no_memory { IsErrOf result ParseError.NoMemory → 1 ≤ length arguments.now }
{
    let [layer, name] = arguments else {
        return Err(ParseError::BadArguments);
    };
    let layer = layer_choice(alloc, *layer)?;
    let name = text_argument(alloc, *name)?;
    Ok(Command::RenameLayer { layer, name })
}

#[tactic(auto, unfolding(crate::specs::Commands::move_layer_of))]
fn move_layer(alloc: Global, arguments: &[Word<'_>]) -> Result<Command, ParseError>
    ensures answer { Gives command_of result (move_layer_of (map word_of arguments.now)) }
    ensures no_memory { IsErrOf result ParseError.NoMemory → 1 ≤ length arguments.now }
{
    let [layer, index] = arguments else {
        return Err(ParseError::BadArguments);
    };
    let layer = layer_choice(alloc, *layer)?;
    let index = number_argument(*index)?;
    Ok(Command::MoveLayer { layer, index })
}

#[tactic(auto, unfolding(crate::specs::Commands::drop_layer_of))]
fn drop_layer(alloc: Global, arguments: &[Word<'_>]) -> Result<Command, ParseError>
    ensures answer { Gives command_of result (drop_layer_of (map word_of arguments.now)) }
    ensures no_memory { IsErrOf result ParseError.NoMemory → 1 ≤ length arguments.now }
{
    let [layer] = arguments else {
        return Err(ParseError::BadArguments);
    };
    let layer = layer_choice(alloc, *layer)?;
    Ok(Command::DropLayer { layer })
}

#[tactic(auto, unfolding(crate::specs::Commands::keep_layers_of))]
fn keep_layers(alloc: Global, arguments: &[Word<'_>]) -> Result<Command, ParseError>
    ensures answer { Gives command_of result (keep_layers_of (map word_of arguments.now)) }
    ensures no_memory { IsErrOf result ParseError.NoMemory → 1 ≤ length arguments.now }
{
    if arguments.is_empty() {
        return Err(ParseError::BadArguments);
    }
    let names = text_arguments(alloc, arguments)?;
    Ok(Command::KeepLayers { names })
}

#[tactic(auto, unfolding(crate::specs::Commands::insert_feature_of))]
fn insert_feature(alloc: Global, arguments: &[Word<'_>]) -> Result<Command, ParseError>
    ensures answer { Gives command_of result (insert_feature_of (map word_of arguments.now)) }
    ensures no_memory { IsErrOf result ParseError.NoMemory → 1 ≤ length arguments.now }
{
    let [layer, index, geometry @ ..] = arguments else {
        return Err(ParseError::BadArguments);
    };
    if geometry.is_empty() {
        return Err(ParseError::BadArguments);
    }
    let layer = layer_choice(alloc, *layer)?;
    let index = number_argument(*index)?;
    let geometry = new_geometry(alloc, geometry)?;
    Ok(Command::InsertFeature {
        layer,
        index,
        geometry,
    })
}

#[tactic(auto, unfolding(crate::specs::Commands::move_feature_of))]
fn move_feature(alloc: Global, arguments: &[Word<'_>]) -> Result<Command, ParseError>
    ensures answer { Gives command_of result (move_feature_of (map word_of arguments.now)) }
    ensures no_memory { IsErrOf result ParseError.NoMemory → 1 ≤ length arguments.now }
{
    let [layer, feature, index] = arguments else {
        return Err(ParseError::BadArguments);
    };
    let (layer, feature) = chosen(alloc, *layer, *feature)?;
    let index = number_argument(*index)?;
    Ok(Command::MoveFeature {
        layer,
        feature,
        index,
    })
}

#[tactic(auto, unfolding(crate::specs::Commands::drop_feature_of))]
fn drop_feature(alloc: Global, arguments: &[Word<'_>]) -> Result<Command, ParseError>
    ensures answer { Gives command_of result (drop_feature_of (map word_of arguments.now)) }
    ensures no_memory { IsErrOf result ParseError.NoMemory → 1 ≤ length arguments.now }
{
    let [layer, feature] = arguments else {
        return Err(ParseError::BadArguments);
    };
    let (layer, feature) = chosen(alloc, *layer, *feature)?;
    Ok(Command::DropFeature { layer, feature })
}

#[tactic(auto, unfolding(crate::specs::Commands::set_id_of))]
fn set_id(alloc: Global, arguments: &[Word<'_>]) -> Result<Command, ParseError>
    ensures answer { Gives command_of result (set_id_of (map word_of arguments.now)) }
    ensures no_memory { IsErrOf result ParseError.NoMemory → 1 ≤ length arguments.now }
{
    let [layer, feature, id] = arguments else {
        return Err(ParseError::BadArguments);
    };
    let (layer, feature) = chosen(alloc, *layer, *feature)?;
    let id = number_argument(*id)?;
    Ok(Command::SetId { layer, feature, id })
}

#[tactic(auto, unfolding(crate::specs::Commands::clear_id_of))]
fn clear_id(alloc: Global, arguments: &[Word<'_>]) -> Result<Command, ParseError>
    ensures answer { Gives command_of result (clear_id_of (map word_of arguments.now)) }
    ensures no_memory { IsErrOf result ParseError.NoMemory → 1 ≤ length arguments.now }
{
    let [layer, feature] = arguments else {
        return Err(ParseError::BadArguments);
    };
    let (layer, feature) = chosen(alloc, *layer, *feature)?;
    Ok(Command::ClearId { layer, feature })
}

#[tactic(auto, unfolding(crate::specs::Commands::set_of))]
fn set(alloc: Global, arguments: &[Word<'_>]) -> Result<Command, ParseError>
    ensures answer { Gives command_of result (set_of (map word_of arguments.now)) }
    ensures no_memory { IsErrOf result ParseError.NoMemory → 1 ≤ length arguments.now }
{
    let [layer, feature, key, name, value] = arguments else {
        return Err(ParseError::BadArguments);
    };
    let (layer, feature) = chosen(alloc, *layer, *feature)?;
    let key = text_argument(alloc, *key)?;
    let value = new_value(alloc, *name, *value)?;
    Ok(Command::SetAttribute {
        layer,
        feature,
        key,
        value,
    })
}

#[tactic(auto, unfolding(crate::specs::Commands::unset_of))]
fn unset(alloc: Global, arguments: &[Word<'_>]) -> Result<Command, ParseError>
    ensures answer { Gives command_of result (unset_of (map word_of arguments.now)) }
    ensures no_memory { IsErrOf result ParseError.NoMemory → 1 ≤ length arguments.now }
{
    let [layer, feature, key] = arguments else {
        return Err(ParseError::BadArguments);
    };
    let (layer, feature) = chosen(alloc, *layer, *feature)?;
    let key = text_argument(alloc, *key)?;
    Ok(Command::UnsetAttribute {
        layer,
        feature,
        key,
    })
}

#[tactic(auto, unfolding(crate::specs::Commands::rename_key_of))]
fn rename_key(alloc: Global, arguments: &[Word<'_>]) -> Result<Command, ParseError>
    ensures answer { Gives command_of result (rename_key_of (map word_of arguments.now)) }
    ensures no_memory { IsErrOf result ParseError.NoMemory → 1 ≤ length arguments.now }
{
    let [layer, old, new] = arguments else {
        return Err(ParseError::BadArguments);
    };
    let layer = layer_choice(alloc, *layer)?;
    let (old, new) = two_texts(alloc, *old, *new)?;
    Ok(Command::RenameKey { layer, old, new })
}

#[tactic(auto, unfolding(crate::specs::Commands::exclude_of))]
fn exclude(alloc: Global, arguments: &[Word<'_>]) -> Result<Command, ParseError>
    ensures answer { Gives command_of result (exclude_of (map word_of arguments.now)) }
    ensures no_memory { IsErrOf result ParseError.NoMemory → 1 ≤ length arguments.now }
{
    let [layers, key] = arguments else {
        return Err(ParseError::BadArguments);
    };
    let layers = layers_choice(alloc, *layers)?;
    let key = text_argument(alloc, *key)?;
    Ok(Command::Exclude { layers, key })
}

#[tactic(auto, unfolding(crate::specs::Commands::exclude_all_of))]
fn exclude_all(alloc: Global, arguments: &[Word<'_>]) -> Result<Command, ParseError>
    ensures answer { Gives command_of result (exclude_all_of (map word_of arguments.now)) }
    ensures no_memory { IsErrOf result ParseError.NoMemory → 1 ≤ length arguments.now }
{
    let layers = layers_alone(alloc, arguments)?;
    Ok(Command::ExcludeAll { layers })
}

#[tactic(auto, unfolding(crate::specs::Commands::shift_of))]
fn shift(alloc: Global, arguments: &[Word<'_>]) -> Result<Command, ParseError>
    ensures answer { Gives command_of result (shift_of (map word_of arguments.now)) }
    ensures no_memory { IsErrOf result ParseError.NoMemory → 1 ≤ length arguments.now }
{
    let [layer, feature, dx, dy] = arguments else {
        return Err(ParseError::BadArguments);
    };
    let (layer, feature) = chosen(alloc, *layer, *feature)?;
    let dx = distance(*dx)?;
    let dy = distance(*dy)?;
    Ok(Command::Shift {
        layer,
        feature,
        dx,
        dy,
    })
}

#[tactic(auto, unfolding(crate::specs::Commands::set_geometry_of))]
fn set_geometry(alloc: Global, arguments: &[Word<'_>]) -> Result<Command, ParseError>
    ensures answer { Gives command_of result (set_geometry_of (map word_of arguments.now)) }
    ensures no_memory { IsErrOf result ParseError.NoMemory → 1 ≤ length arguments.now }
{
    let [layer, feature, geometry @ ..] = arguments else {
        return Err(ParseError::BadArguments);
    };
    if geometry.is_empty() {
        return Err(ParseError::BadArguments);
    }
    let (layer, feature) = chosen(alloc, *layer, *feature)?;
    let geometry = new_geometry(alloc, geometry)?;
    Ok(Command::SetGeometry {
        layer,
        feature,
        geometry,
    })
}

#[tactic(auto, unfolding(crate::specs::Commands::compact_keys_of))]
fn compact_keys(alloc: Global, arguments: &[Word<'_>]) -> Result<Command, ParseError>
    ensures answer { Gives command_of result (compact_keys_of (map word_of arguments.now)) }
    ensures no_memory { IsErrOf result ParseError.NoMemory → 1 ≤ length arguments.now }
{
    let layers = layers_alone(alloc, arguments)?;
    Ok(Command::CompactKeys { layers })
}

#[tactic(auto, unfolding(crate::specs::Commands::compact_values_of))]
fn compact_values(alloc: Global, arguments: &[Word<'_>]) -> Result<Command, ParseError>
    ensures answer { Gives command_of result (compact_values_of (map word_of arguments.now)) }
    ensures no_memory { IsErrOf result ParseError.NoMemory → 1 ≤ length arguments.now }
{
    let layers = layers_alone(alloc, arguments)?;
    Ok(Command::CompactValues { layers })
}

#[tactic(auto, unfolding(crate::specs::Commands::compact_of))]
fn compact(alloc: Global, arguments: &[Word<'_>]) -> Result<Command, ParseError>
    ensures answer { Gives command_of result (compact_of (map word_of arguments.now)) }
    ensures no_memory { IsErrOf result ParseError.NoMemory → 1 ≤ length arguments.now }
{
    let layers = layers_alone(alloc, arguments)?;
    Ok(Command::Compact { layers })
}

/// A layer, and one of its features.
#[tactic(auto, unfolding(crate::specs::Commands::chosen_of))]
pub(crate) fn chosen(
    alloc: Global,
    layer: Word<'_>,
    feature: Word<'_>,
) -> Result<(LayerChoice, FeatureChoice), ParseError>
    ensures { Gives (λ chosen. (layer_choice_of chosen.0, feature_choice_of chosen.1)) result (chosen_of (word_of layer.entry) (word_of feature.entry)) }
{
    let layer = layer_choice(alloc, layer)?;
    let feature = feature_choice(feature)?;
    Ok((layer, feature))
}

/// The layers of arguments that are one word: one layer or all.
#[tactic(auto, unfolding(crate::specs::Commands::layers_alone_of))]
fn layers_alone(alloc: Global, arguments: &[Word<'_>]) -> Result<LayersChoice, ParseError>
    ensures answer { Gives layers_choice_of result (layers_alone_of (map word_of arguments.now)) }
    ensures no_memory { IsErrOf result ParseError.NoMemory → 1 ≤ length arguments.now }
{
    let [layers] = arguments else {
        return Err(ParseError::BadArguments);
    };
    layers_choice(alloc, *layers)
}

/// A text, and another.
#[tactic(auto, unfolding(crate::specs::Commands::two_texts_of))]
fn two_texts(
    alloc: Global,
    first: Word<'_>,
    second: Word<'_>,
) -> Result<(Items<u8>, Items<u8>), ParseError>
    ensures { Gives (λ texts. (texts.0.items, texts.1.items)) result (two_texts_of (word_of first.entry) (word_of second.entry)) }
{
    let first = text_argument(alloc, first)?;
    let second = text_argument(alloc, second)?;
    Ok((first, second))
}
