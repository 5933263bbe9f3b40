//! What becomes of the items of a list, carried out in steps: neighbours that change are one step,
//! and each step is on what the steps before it made.

ghost use Rattle.std.specs.Prelude.{◌≡◌, ℕ, ◌+◌, ◌≤◌, ◌<◌, ◌^◌, ◌↔◌, Bool, List, [], ◌∷◌, ◌++◌, Option, Some, None, Ok, IsOk, IfOk, IfSome, OnOk, map, option_map, length, if◌then◌else◌};
ghost use Rattle.std.specs.Fn.{FnReturns, FnReturnsAt};
ghost use Rattle.std.specs.List.{AllZip, cons_option, flat_map};
ghost use Rattle.std.specs.Option.{option_map_or};
ghost use Rattle.mvt_document.specs.Plain as document;
ghost use Rattle.mvt_document.specs.Stands.{field_of, layer_item_of, tile_item_of};
ghost use Rattle.mvt_document.specs.Wire.{field_bytes};
ghost use Rattle.mvt_renumber.specs.Fates.{changes, left_of_fate};
ghost use Rattle.mvt_renumber.specs.Renumbering.{renumber};
ghost use Rattle.mvt_change.specs.Changes as plain;
ghost use Rattle.mvt_change.specs.ChangeStands.{step_of};
ghost use Rattle.mvt_edit_steps.specs.Decided.{IsSizeBeside, field_fates};
ghost use Rattle.mvt_edit_steps.specs.Once.{at_end, once_fate, once_splices};
ghost use Rattle.mvt_edit_steps.specs.Fates.{IsCarriedOut, MakesSteps, Splice, and_last, goes_if, seen, splice_of, splices_from, splices_of, steps_then};

use mvt_change::Step;
use mvt_document::{Field, LayerItem, MAX_FILE, Measured, Put, TileItem, sum_within};
use mvt_renumber::{Fate, renumber_field};
use std::alloc::{AllocError, Global};

/// An item goes if it is picked, and stays otherwise.
pub fn goes_if<T>(picked: bool) -> Fate<T>
    ensures { result ≡ goes_if picked }
{
    if picked { Fate::Goes } else { Fate::Stays }
}

/// `take` items from `index` of a list are taken out, and those of `put` go there.
#[derive(Drop)]
pub struct Run<T> {
    pub index: usize,
    pub take: usize,
    pub put: Vec<T>,
}

impl Run<Field> {
    /// The step that carries the run out on the fields of a feature: of the item at this position of
    /// the layer at that position of the tile.
    pub fn in_feature(self, layer: usize, item: usize) -> Step
        ensures { step_of result ≡ plain.FeatureStep layer item self.index self.take (map field_of self.put.items) }
    {
        Step::InFeature {
            layer,
            item,
            index: self.index,
            take: self.take,
            put: Put::from_vec(self.put),
        }
    }
}

impl Run<LayerItem> {
    /// The step that carries the run out on the items of the layer at this position of the tile.
    pub fn in_layer(self, layer: usize) -> Step
        ensures { step_of result ≡ plain.LayerStep layer self.index self.take (map layer_item_of self.put.items) }
    {
        Step::InLayer {
            layer,
            index: self.index,
            take: self.take,
            put: Put::from_vec(self.put),
        }
    }
}

impl Run<TileItem> {
    /// The step that carries the run out on the items of the tile. An index of more than half a
    /// word is answered as out of memory; no tile of `MAX_FILE` bytes has one.
    pub fn in_tile(self) -> Result<Step, AllocError>
        ensures step { IfOk result (λ step. step_of step ≡ plain.TileStep self.index self.take (map tile_item_of self.put.items)) }
        ensures made { IsOk result ↔ (self.index < 2 ^ 32) }
    {
        let index = u32::try_from(self.index).map_err(|_| AllocError)?;
        Ok(Step::InTile {
            index,
            take: self.take,
            put: Put::from_vec(self.put),
        })
    }
}

/// Carries out what becomes of each item, in steps added after the given ones. Returns how many
/// items change.
pub fn carry_out<
    T: Drop,
    F: Fn(&T) -> Result<Fate<T>, AllocError>,
    S: Fn(Run<T>) -> Result<Step, AllocError>,
>(
    alloc: Global,
    items: &[T],
    fate_of: F,
    step: S,
    steps: &mut Vec<Step>,
) -> Result<usize, AllocError>
    requires fates { F.IsAlwaysCallable fate_of }
    requires steps { S.IsAlwaysCallable step }
    ensures { (step_with : Splice T → plain.Step) → MakesSteps (λ run made. FnReturns S.Fn step (run, tt) (Ok made)) step_with →
        IfOk result (λ changed. (fates : List (Fate T)) × AllZip (λ item fate. FnReturnsAt F.Fn fate_of item (Ok fate)) items.now fates × IsCarriedOut step_with fates (map step_of steps.old.items) (map step_of steps.new.items) changed) }
{
    let mut walk = Walk::first();
    for index in 0..items.len() {
        let fate = fate_of(&items[index])?;
        walk = walk.pass(alloc, fate, &step, steps)?;
    }
    walk.end(&step, steps)
}

/// Takes out the items that are picked, by a mark for each item of a list, in steps added after the
/// given ones. Returns how many go.
pub fn take_out<T: Drop, S: Fn(Run<T>) -> Result<Step, AllocError>>(
    alloc: Global,
    picked: &[bool],
    step: S,
    steps: &mut Vec<Step>,
) -> Result<usize, AllocError>
    requires { S.IsAlwaysCallable step }
    ensures { (step_with : Splice T → plain.Step) → MakesSteps (λ run made. FnReturns S.Fn step (run, tt) (Ok made)) step_with →
        IfOk result (λ changed. IsCarriedOut step_with (map (λ is. goes_if is) picked.now) (map step_of steps.old.items) (map step_of steps.new.items) changed) }
{
    let mut walk = Walk::first();
    for index in 0..picked.len() {
        walk = walk.pass(alloc, goes_if(picked[index]), &step, steps)?;
    }
    walk.end(&step, steps)
}

/// Carries out what becomes of the fields of a message, by a decision for each number in the fields
/// of this number, in order, in steps added after the given ones. Returns the sum of `beside` and
/// of how many bytes the fields take then, if that is within the limit of a file; none where
/// `beside` is none.
pub fn renumber_fields<S: Fn(Run<Field>) -> Result<Step, AllocError>>(
    alloc: Global,
    fields: &[Field],
    number: u64,
    decisions: &[Option<u64>],
    step: S,
    steps: &mut Vec<Step>,
    beside: Option<usize>,
) -> Result<Option<usize>, AllocError>
    requires { S.IsAlwaysCallable step }
    ensures steps { (step_with : Splice document.Field → plain.Step) → MakesSteps (λ run made. FnReturns S.Fn step (run, tt) (Ok made)) (λ s. step_with (seen field_of s)) →
        IfOk result (λ size. map step_of steps.new.items ≡ map step_of steps.old.items ++ map step_with (splices_of (field_fates number decisions.now (map field_of fields.now)))) }
    ensures size { IfOk result (IsSizeBeside beside (length (flat_map field_bytes (renumber number decisions.now (map field_of fields.now))))) }
{
    let mut walk = Walk::first();
    let mut left = decisions;
    let mut size = beside;
    for index in 0..fields.len() {
        let field = &fields[index];
        let (fate, following) = renumber_field(alloc, field, number, left)?;
        size = and_left(size, field, &fate);
        walk = walk.pass(alloc, fate, &step, steps)?;
        left = following;
    }
    walk.end(&step, steps)?;
    Ok(size)
}

/// The sum of `size` and of how many bytes what is left of a field of this fate takes, if that is
/// within the limit of a file; none where `size` is none.
fn and_left(size: Option<usize>, field: &Field, fate: &Fate<Field>) -> Option<usize>
    ensures { IsSizeBeside size (length (flat_map field_bytes (left_of_fate field_of (field_of field.now) fate.now))) result }
{
    let before = size?;
    let left = match fate {
        Fate::Stays => field.size()?,
        Fate::Goes => 0,
        Fate::Becomes(other) => other.size()?,
    };
    sum_within(before, left, MAX_FILE)
}

/// Makes a new item take the place of the first that passes, and the others that pass go, in steps
/// added after the given ones. If none passes, the new one is put at `end`, in a step of its own.
pub fn put_once<T: Drop, P: Fn(&T) -> bool, S: Fn(Run<T>) -> Result<Step, AllocError>>(
    alloc: Global,
    items: &[T],
    passes: P,
    new: T,
    end: usize,
    step: S,
    steps: &mut Vec<Step>,
) -> Result<(), AllocError>
    requires passes { P.IsAlwaysCallable passes }
    requires steps { S.IsAlwaysCallable step }
    ensures { (step_with : Splice T → plain.Step) → MakesSteps (λ run made. FnReturns S.Fn step (run, tt) (Ok made)) step_with →
        IfOk result (λ done. (picked : List Bool) × AllZip (λ item is. FnReturnsAt P.Fn passes item is) items.now picked × (map step_of steps.new.items ≡ map step_of steps.old.items ++ map step_with (once_splices picked new end))) }
{
    let mut walk = Walk::first();
    let mut left = Some(new);
    for index in 0..items.len() {
        let (fate, rest) = once(passes(&items[index]), left);
        walk = walk.pass(alloc, fate, &step, steps)?;
        left = rest;
    }
    walk.end_with(alloc, left, end, &step, steps)
}

/// What becomes of an item that is picked or not, where a new one takes the place of the first that
/// is, and this is left of it; and what is left of it then.
fn once<T>(picked: bool, new: Option<T>) -> (Fate<T>, Option<T>)
    ensures fate { result.0 ≡ once_fate picked new }
    ensures left { result.1 ≡ if picked then None else new }
{
    if !picked {
        return (Fate::Stays, new);
    }
    match new {
        Some(item) => (Fate::Becomes(item), None),
        None => (Fate::Goes, None),
    }
}

/// The run that puts what is left, if anything is, at the end.
fn end_run<T: Drop>(
    alloc: Global,
    left: Option<T>,
    end: usize,
) -> Result<Option<Run<T>>, AllocError>
    ensures { IfOk result (λ run. map splice_of (cons_option run []) ≡ at_end left end) }
{
    let Some(item) = left else {
        return Ok(None);
    };
    let mut put = Vec::new(alloc);
    put_after(&mut put, item)?;
    Ok(Some(Run {
        index: end,
        take: 0,
        put,
    }))
}

/// How far a walk over the items of a list has come: the run that is open, the index of the next
/// item in the list that is made, and how many items change.
#[derive(Drop)]
struct Walk<T> {
    last: Option<Run<T>>,
    at: usize,
    changed: usize,
}

impl<T: Drop> Walk<T> {
    /// Before the first item.
    fn first() -> Walk<T>
        ensures { result ≡ record { last = None; at = 0; changed = 0 } }
    {
        Walk {
            last: None,
            at: 0,
            changed: 0,
        }
    }

    /// After one more item, of this fate. A run that is now complete becomes a step after the
    /// others.
    fn pass<S: Fn(Run<T>) -> Result<Step, AllocError>>(
        self,
        alloc: Global,
        fate: Fate<T>,
        step: &S,
        steps: &mut Vec<Step>,
    ) -> Result<Walk<T>, AllocError>
        requires step { S.IsAlwaysCallable step.now }
        requires ends { IfSome self.last (λ run. (run.index + length run.put.items ≡ self.at) × (run.take + 1 < 2 ^ 64)) }
        requires short { self.at + 1 < 2 ^ 64 }
        requires few { self.changed + 1 < 2 ^ 64 }
        ensures steps { (step_with : Splice T → plain.Step) → MakesSteps (λ run made. FnReturns S.Fn step.now (run, tt) (Ok made)) step_with →
            IfOk result (λ walk. (rest : List (Fate T)) → steps_then step_with (map step_of steps.old.items) self (fate ∷ rest) ≡ steps_then step_with (map step_of steps.new.items) walk rest) }
        ensures ends { IfOk result (λ walk. IfSome walk.last (λ run. run.index + length run.put.items ≡ walk.at)) }
        ensures take { IfOk result (λ walk. (most : ℕ) → IfSome self.last (λ run. run.take ≤ most) → IfSome walk.last (λ run. run.take ≤ most + 1)) }
        ensures next { IfOk result (λ walk. walk.at ≤ self.at + 1) }
        ensures changed { IfOk result (λ walk. walk.changed ≡ self.changed + (if changes fate then 1 else 0)) }
    {
        let Walk { last, at, changed } = self;
        let more = changes(&fate);
        let (whole, open, next) = joined(alloc, last, at, fate)?;
        put_step(whole, step, steps)?;
        Ok(Walk {
            last: open,
            at: next,
            changed: changed + more,
        })
    }

    /// After the last item: the run that is open becomes a step after the others. Returns how many
    /// items change.
    fn end<S: Fn(Run<T>) -> Result<Step, AllocError>>(
        self,
        step: &S,
        steps: &mut Vec<Step>,
    ) -> Result<usize, AllocError>
        requires { S.IsAlwaysCallable step.now }
        ensures { (step_with : Splice T → plain.Step) → MakesSteps (λ run made. FnReturns S.Fn step.now (run, tt) (Ok made)) step_with →
            IfOk result (λ changed. (map step_of steps.new.items ≡ steps_then step_with (map step_of steps.old.items) self []) × (changed ≡ self.changed)) }
    {
        let Walk { last, changed, .. } = self;
        put_step(last, step, steps)?;
        Ok(changed)
    }

    /// The same, and what is left of a new item, if anything is, is put at the end of the list, in a
    /// step of its own.
    fn end_with<S: Fn(Run<T>) -> Result<Step, AllocError>>(
        self,
        alloc: Global,
        left: Option<T>,
        end: usize,
        step: &S,
        steps: &mut Vec<Step>,
    ) -> Result<(), AllocError>
        requires { S.IsAlwaysCallable step.now }
        ensures { (step_with : Splice T → plain.Step) → MakesSteps (λ run made. FnReturns S.Fn step.now (run, tt) (Ok made)) step_with →
            IfOk result (λ done. map step_of steps.new.items ≡ steps_then step_with (map step_of steps.old.items) self [] ++ map step_with (at_end left end)) }
    {
        self.end(step, steps)?;
        put_step(end_run(alloc, left, end)?, step, steps)
    }
}

/// 1 if an item of this fate changes, else 0.
fn changes<T>(fate: &Fate<T>) -> usize
    ensures { result ≡ if changes fate.now then 1 else 0 }
{
    match fate {
        Fate::Stays => 0,
        _ => 1,
    }
}

/// With one more item of this fate, which gets this index, after the run that is open: the run that
/// is now complete, the one that is then open, and the index after the item.
fn joined<T: Drop>(
    alloc: Global,
    last: Option<Run<T>>,
    at: usize,
    fate: Fate<T>,
) -> Result<(Option<Run<T>>, Option<Run<T>>, usize), AllocError>
    requires ends { IfSome last (λ run. (run.index + length run.put.items ≡ at) × (run.take + 1 < 2 ^ 64)) }
    requires short { at + 1 < 2 ^ 64 }
    ensures runs { IfOk result (λ made. (rest : List (Fate T)) → and_last (option_map splice_of last) (splices_from at (fate ∷ rest))
        ≡ map splice_of (cons_option made.0 []) ++ and_last (option_map splice_of made.1) (splices_from made.2 rest)) }
    ensures ends { IfOk result (λ made. IfSome made.1 (λ run. run.index + length run.put.items ≡ made.2)) }
    ensures take { IfOk result (λ made. (most : ℕ) → IfSome last (λ run. run.take ≤ most) → IfSome made.1 (λ run. run.take ≤ most + 1)) }
    ensures next { IfOk result (λ made. made.2 ≤ at + 1) }
{
    match fate {
        Fate::Stays => Ok((last, None, at + 1)),
        Fate::Goes => Ok((None, Some(one_more(alloc, last, at)), at)),
        Fate::Becomes(item) => {
            let mut run = one_more(alloc, last, at);
            put_after(&mut run.put, item)?;
            Ok((None, Some(run), at + 1))
        }
    }
}

/// The last run with one more item that it takes out, or a run of that item alone.
fn one_more<T>(alloc: Global, last: Option<Run<T>>, at: usize) -> Run<T>
    requires { IfSome last (λ run. run.take + 1 < 2 ^ 64) }
    ensures index { result.index ≡ option_map_or (λ run. run.index) last at }
    ensures take { result.take ≡ option_map_or (λ run. run.take + 1) last 1 }
    ensures put { result.put.items ≡ option_map_or (λ run. run.put.items) last [] }
{
    match last {
        Some(Run { index, take, put }) => Run {
            index,
            take: take + 1,
            put,
        },
        None => Run {
            index: at,
            take: 1,
            put: Vec::new(alloc),
        },
    }
}

/// Puts the item after the others of a run. Most runs put one item, so the first takes no more room
/// than it needs.
fn put_after<T: Drop>(put: &mut Vec<T>, item: T) -> Result<(), AllocError>
    ensures { OnOk result (put.new.items ≡ put.old.items ++ item ∷ []) }
{
    if put.is_empty() {
        put.reserve_exact(1)?;
    }
    put.push(item)?;
    Ok(())
}

/// Puts the step of the run, if there is one, after the others.
fn put_step<T: Drop, S: Fn(Run<T>) -> Result<Step, AllocError>>(
    run: Option<Run<T>>,
    step: &S,
    steps: &mut Vec<Step>,
) -> Result<(), AllocError>
    requires { S.IsAlwaysCallable step.now }
    ensures { (step_with : Splice T → plain.Step) → MakesSteps (λ run made. FnReturns S.Fn step.now (run, tt) (Ok made)) step_with →
        IfOk result (λ done. map step_of steps.new.items ≡ map step_of steps.old.items ++ map step_with (map splice_of (cons_option run []))) }
{
    if let Some(run) = run {
        steps.push(step(run)?)?;
    }
    Ok(())
}
