//! Laws of the commands on attributes. Each function does nothing: its contract is the law.

ghost use Rattle.command_laws.specs.AttributeLaws.{ExcludeAgainChangesNothing, ExcludeAllExcludes, ExcludeExcludes, RenameKeyRenames, SetSets, SetThenUnset, UnsetAgainChangesNothing, UnsetUnsets};

/// Where a value for a key is accepted, at most one attribute of the selected feature had the key.
/// The feature has the value in place of the old one, or the key and the value after its
/// attributes. Its fields other than tags, the other features and their attributes, and the other
/// layers are as they were; the keys and the values are as they were, with the key and the value
/// added at the end where they were missing.
pub fn set_sets()
    ensures { SetSets }
{}

/// Where a value for a key is accepted, unsetting the key is then accepted, and the selected
/// feature has, of the attributes that it had before both, those of other keys: what unset alone
/// leaves.
pub fn set_then_unset()
    ensures { SetThenUnset }
{}

/// Where unsetting a key is accepted, the selected feature has its attributes of other keys, in
/// their order, and all its fields other than tags. The keys, the values, the other features and
/// the other layers are as they were. By this law the tags that stay might be in other tags fields
/// or be spelled otherwise; `applied` says how they are.
pub fn unset_unsets()
    ensures { UnsetUnsets }
{}

/// Where unsetting a key is accepted, the same command is accepted again, and changes nothing.
pub fn unset_again_changes_nothing()
    ensures { UnsetAgainChangesNothing }
{}

/// An accepted rename of a key renames it in the selected layer wherever it is a key, and so in the
/// attributes of every feature of that layer. The values, the features and all other fields of the
/// layer are as they were, and so are the other layers. By this law the fields of the key might
/// stand elsewhere among the other items or be spelled otherwise; `applied` says how they are.
pub fn rename_key_renames()
    ensures { RenameKeyRenames }
{}

/// Where excluding a key is accepted, each feature of the selected layers has its attributes of
/// other keys, in their order, and all its fields other than tags. The keys, the values and the
/// other layers are as they were. By this law the tags that stay might be in other tags fields or
/// be spelled otherwise; `applied` says how they are.
pub fn exclude_excludes()
    ensures { ExcludeExcludes }
{}

/// Where excluding a key is accepted, the same command is accepted again, and changes nothing.
pub fn exclude_again_changes_nothing()
    ensures { ExcludeAgainChangesNothing }
{}

/// Where excluding all attributes is accepted, no feature of the selected layers has an attribute;
/// all fields other than tags, the keys, the values and the other layers are as they were.
pub fn exclude_all_excludes()
    ensures { ExcludeAllExcludes }
{}
