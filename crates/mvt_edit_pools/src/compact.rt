//! Keys and values that no feature uses are removed.

ghost use Rattle.std.specs.Prelude.{◌≡◌, ◌⊎◌, ◌++◌, [], ◌∷◌, Err, IfErr, IfOk, length, map};
ghost use Rattle.mvt_document.specs.Stands.{document_of, layer_of};
ghost use Rattle.mvt_change.specs.ChangeStands.{step_of};
ghost use Rattle.mvt_meaning.specs.CommandStands.{layers_choice_of};
ghost use Rattle.mvt_meaning.specs.Compaction.{all_pairs};
ghost use Rattle.mvt_meaning.specs.Meaning.{refuse_first};
ghost use Rattle.mvt_meaning.specs.Tagging.{unreadable};
ghost use Rattle.mvt_meaning.specs.declared.refusal.Refusal.TheVariants.{NoMemory};
ghost use Rattle.mvt_messages.specs.Found.{found_features};
ghost use Rattle.mvt_layers.specs.Seen.{found_layer_seen, pair_seen};
ghost use Rattle.mvt_messages.specs.Views.{keys, values};
ghost use Rattle.mvt_edit_steps.specs.EachFeature.{layer_steps};
ghost use Rattle.mvt_edit_steps.specs.Prepared.{Prepares};
ghost use Rattle.mvt_edit_pools.specs.Pools.{all_keys, all_values, compaction, compacting, keys_stay, values_stay};
ghost use Rattle.mvt_edit_pools.specs.Marks.{entry_steps, gone_by, ordinals_by, pair_counts, pairs_repointed, stays_from};

use crate::entries::take_entries;
use crate::repoint::repoint;
use crate::used::{Marks, mark_used, nameable, number, same_marks};
use mvt_change::{Change, Step};
use mvt_document::Document;
use mvt_select::{FoundLayer, LayersChoice, Refusal, find_layers};
use std::alloc::{AllocError, Global};

/// Which entries of a layer go if no feature uses them.
#[derive(Clone, Copy)]
pub enum Pools {
    /// Only keys.
    Keys,
    /// Only values.
    Values,
    /// Keys and values.
    Both,
}

impl Pools {
    /// All keys stay, whether they are used or not.
    fn all_keys(self) -> bool
        ensures { result ≡ all_keys self }
    {
        matches!(self, Pools::Values)
    }

    /// All values stay, whether they are used or not.
    fn all_values(self) -> bool
        ensures { result ≡ all_values self }
    {
        matches!(self, Pools::Keys)
    }
}

/// Each selected layer loses the keys and values of `pools` that none of its features uses. Each
/// number of tags becomes the new ordinal of what it named.
pub fn compact(
    alloc: Global,
    document: &Document,
    choice: &LayersChoice,
    pools: Pools,
) -> Result<Change, Refusal>
    ensures { Prepares (compaction pools (layers_choice_of choice.now)) (document_of document.now) result }
{
    let layers = find_layers(document, choice)?;
    let mut decisions = Vec::new(alloc);
    let mut steps = Vec::new(alloc);
    for found in layers {
        compact_layer(alloc, found, pools, &mut decisions, &mut steps)?;
    }
    Ok(Change::new(steps))
}

/// Appends the steps by which the layer loses what it does not use: first those of its features,
/// which move no item of the layer, and then those that take the entries out. The first feature
/// whose tags make no pairs is refused.
fn compact_layer(
    alloc: Global,
    found: FoundLayer<'_>,
    pools: Pools,
    decisions: &mut Vec<Option<u64>>,
    steps: &mut Vec<Step>,
) -> Result<(), Refusal>
    ensures steps { IfOk result (λ done. map step_of steps.new.items ≡ map step_of steps.old.items ++ compacting (keys_stay pools) (values_stay pools) (found_layer_seen found.entry)) }
    ensures readable { IfOk result (λ done. unreadable (found_layer_seen found.entry ∷ []) ≡ []) }
    ensures refused { IfErr result (λ refusal. (refusal ≡ NoMemory) ⊎ (refuse_first (unreadable (found_layer_seen found.entry ∷ [])) ≡ Err refusal)) }
{
    let marks = marks_of(alloc, found, pools)?;
    Ok(keep_marked(alloc, found, &marks, decisions, steps)?)
}

/// Appends the steps by which the layer keeps only the entries that are marked.
fn keep_marked(
    alloc: Global,
    found: FoundLayer<'_>,
    marks: &Marks,
    decisions: &mut Vec<Option<u64>>,
    steps: &mut Vec<Step>,
) -> Result<(), AllocError>
    requires pairs { map pair_seen marks.now.pairs.items ≡ all_pairs (layer_of found.layer.now).items }
    requires counts { marks.now.counts.items ≡ pair_counts (layer_of found.layer.now).items (found_features (layer_of found.layer.now).items) }
    ensures { IfOk result (λ done. map step_of steps.new.items ≡ map step_of steps.old.items
        ++ (layer_steps (pairs_repointed (ordinals_by marks.now.keys.items) (ordinals_by marks.now.values.items)) (found_layer_seen found.entry)
        ++ entry_steps found.entry.position (gone_by marks.now.keys.items marks.now.values.items (layer_of found.entry.layer.now).items))) }
{
    let (key_ordinals, value_ordinals) = new_ordinals(alloc, marks)?;
    repoint(
        alloc,
        found,
        marks,
        key_ordinals.as_slice(),
        value_ordinals.as_slice(),
        decisions,
        steps,
    )?;
    take_entries(
        alloc,
        found,
        marks.keys.as_slice(),
        marks.values.as_slice(),
        steps,
    )?;
    Ok(())
}

/// The new ordinals of the keys and of the values, by the marks of those that stay.
fn new_ordinals(alloc: Global, marks: &Marks) -> Result<(Vec<u32>, Vec<u32>), AllocError>
    ensures keys { IfOk result (λ ordinals. ordinals.0.items ≡ ordinals_by marks.now.keys.items) }
    ensures values { IfOk result (λ ordinals. ordinals.1.items ≡ ordinals_by marks.now.values.items) }
{
    let keys = number(alloc, nameable(marks.keys.as_slice()))?;
    let values = number(alloc, nameable(marks.values.as_slice()))?;
    Ok((keys, values))
}

/// For each key and each value of the layer, in order, whether it stays; and its pairs.
fn marks_of(alloc: Global, found: FoundLayer<'_>, pools: Pools) -> Result<Marks, Refusal>
    ensures keys { IfOk result (λ marks. marks.keys.items ≡ stays_from (keys_stay pools (layer_of found.entry.layer.now).items) 0 (length (keys (layer_of found.entry.layer.now)))) }
    ensures values { IfOk result (λ marks. marks.values.items ≡ stays_from (values_stay pools (layer_of found.entry.layer.now).items) 0 (length (values (layer_of found.entry.layer.now)))) }
    ensures pairs { IfOk result (λ marks. map pair_seen marks.pairs.items ≡ all_pairs (layer_of found.entry.layer.now).items) }
    ensures counts { IfOk result (λ marks. marks.counts.items ≡ pair_counts (layer_of found.entry.layer.now).items (found_features (layer_of found.entry.layer.now).items)) }
    ensures readable { IfOk result (λ marks. unreadable (found_layer_seen found.entry ∷ []) ≡ []) }
    ensures refused { IfErr result (λ refusal. (refusal ≡ NoMemory) ⊎ (refuse_first (unreadable (found_layer_seen found.entry ∷ [])) ≡ Err refusal)) }
{
    let sizes = found.view().pool_sizes();
    let keys = same_marks(alloc, sizes.keys, pools.all_keys())?;
    let values = same_marks(alloc, sizes.values, pools.all_values())?;
    let mut marks = Marks {
        keys,
        values,
        pairs: Vec::new(alloc),
        counts: Vec::new(alloc),
    };
    mark_used(found, sizes, &mut marks)?;
    Ok(marks)
}
