//! Laws of the commands that remove the keys and the values that no feature uses. Each function
//! does nothing: its contract is the law.

ghost use Rattle.mvt_meaning.specs.Command.{Compact, CompactKeys, CompactValues, LayersChoice};
ghost use Rattle.command_laws.specs.CompactionLaws.{AgainChangesNothing, CompactCompacts, CompactIsBoth, CompactKeysCompacts, CompactValuesCompacts};

/// Where removing the unused keys is accepted, each key of the selected layers is used by a
/// feature, and each that was used has stayed, in its order and to the byte. Each feature has its
/// attributes and its fields other than tags. The features, all other fields of these layers and
/// the other layers stand as they did. By this law a tag might be in another of the tags fields of
/// its feature or be spelled otherwise; `applied` says how it is.
pub fn compact_keys_compacts()
    ensures { CompactKeysCompacts }
{}

/// Where removing the unused values is accepted, the same holds of values in place of keys.
pub fn compact_values_compacts()
    ensures { CompactValuesCompacts }
{}

/// Where removing the unused keys and values is accepted, the same holds of both.
pub fn compact_compacts()
    ensures { CompactCompacts }
{}

/// Where removing unused keys, or values, or both is accepted, the same command is accepted again,
/// and changes nothing.
pub fn compact_again_changes_nothing()
    ensures keys { (choice : LayersChoice) → AgainChangesNothing (CompactKeys choice) }
    ensures values { (choice : LayersChoice) → AgainChangesNothing (CompactValues choice) }
    ensures both { (choice : LayersChoice) → AgainChangesNothing (Compact choice) }
{}

/// Removing unused keys and values is removing unused keys, and then unused values: it makes the
/// same tile, or is refused with the same refusal.
pub fn compact_is_both()
    ensures { CompactIsBoth }
{}
