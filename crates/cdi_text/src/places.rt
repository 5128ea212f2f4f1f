//! Where the first condition holds in a table.
ghost use Rattle.std.specs.Prelude.{◌≡◌, ◌∷◌, ◌||◌, true, IfOk, IfSome, Some, option_map};
ghost use Rattle.toml.specs.Data.{array};
ghost use Rattle.toml.specs.Text.{are_tables};
ghost use Rattle.toml.specs.View.{view, array_view, table_view};
ghost use Rattle.cdi_text.specs.declared.schema.Item.TheVariants.{Table};
ghost use Rattle.cdi_text.specs.declared.schema.Shape.TheVariants.{Many};
ghost use Rattle.cdi_text.specs.Conditions.{table_has, value_has, inside_has, items_have, holds, first_of, first_condition};
ghost use Rattle.cdi_text.specs.Places.{Finds, FindsFrom, IsBadEntry, IsByKey, IsToParams, LeadsFrom, LeadsTo, first_missing};
ghost use Rattle.cdi_text.specs.Params.{has_param_named_as_point};
ghost use Rattle.cdi_text.specs.Schema.{rows};

use crate::conditions::{CONDITIONS, Condition, value_has};
use crate::fields::value_at;
use crate::params::first_such_method;
use crate::schema::{Item, Schema, Shape};
use crate::shapes::are_tables;
use crate::steps::Step;
use std::alloc::{AllocError, Global};
use toml::value::Array;
use toml::{Table, Value};

/// A condition, and the way to a place of which it holds.
#[derive(Drop)]
pub(crate) struct Place {
    pub(crate) condition: Condition,
    pub(crate) way: Vec<Step>,
}

/// The first condition that holds of a table, and the way to the first place of which it does.
pub(crate) fn first_place(
    alloc: Global,
    schema: Schema,
    table: &Table,
) -> Result<Option<Place>, AllocError>
    ensures condition { IfOk result (λ place.
        option_map (λ p. p.condition) place ≡ first_condition schema (table_view table.now)) }
    ensures way { IfOk result (λ place. IfSome place (λ p.
        LeadsFrom p.condition schema (table_view table.now) p.way.items)) }
{
    place_of_first(alloc, &CONDITIONS, schema, table)
}

fn place_of_first(
    alloc: Global,
    conditions: &[Condition],
    schema: Schema,
    table: &Table,
) -> Result<Option<Place>, AllocError>
    ensures condition { IfOk result (λ place.
        option_map (λ p. p.condition) place ≡ first_of conditions.now schema (table_view table.now)) }
    ensures way { IfOk result (λ place. IfSome place (λ p.
        LeadsFrom p.condition schema (table_view table.now) p.way.items)) }
{
    for condition in conditions {
        if let Some(way) = way_in_table(alloc, *condition, schema, table)? {
            return Ok(Some(Place {
                condition: *condition,
                way,
            }));
        }
    }
    Ok(None)
}

// The way to the first place in a table of which the condition holds.
#[cycle(ways)]
fn way_in_table(
    alloc: Global,
    condition: Condition,
    schema: Schema,
    table: &Table,
) -> Result<Option<Vec<Step>>, AllocError>
    ensures { let ms = table_view table.now in
        IfOk result (FindsFrom condition schema ms (holds condition schema ms)) }
{
    if let Some(way) = way_in_itself(alloc, condition, schema, table)? {
        return Ok(Some(way));
    }
    for (key, value) in table.iter() {
        let shape = schema.shape_of(key.as_str());
        if let Some(way) = way_in_value(alloc, condition, shape, value)? {
            return Ok(Some(to_key(alloc, key.as_str(), way)?));
        }
    }
    Ok(None)
}

// The way from the value at a key to the first place of which the condition holds: the value, or one inside it.
#[cycle(ways)]
fn way_in_value(
    alloc: Global,
    condition: Condition,
    shape: Option<Shape>,
    value: &Value,
) -> Result<Option<Vec<Step>>, AllocError>
    ensures { let d = view value.now in
        IfOk result (Finds condition shape d (value_has condition shape d || inside_has condition shape d)) }
{
    if value_has(alloc, condition, shape, value)? {
        return Ok(Some(way_to_value(alloc, condition, shape, value)?));
    }
    way_inside(alloc, condition, shape, value)
}

// The way from a value of which the condition holds to its first entry of which it does, or to itself.
fn way_to_value(
    alloc: Global,
    condition: Condition,
    shape: Option<Shape>,
    value: &Value,
) -> Result<Vec<Step>, AllocError>
    ensures { let d = view value.now in value_has condition shape d ≡ true
        → IfOk result (λ way. LeadsTo condition shape d way.items) }
{
    match shape {
        Some(Shape::Many(item)) => match value {
            Value::Array(items) => way_to_entry(alloc, condition, item, items),
            _ => Ok(Vec::new(alloc)),
        },
        _ => Ok(Vec::new(alloc)),
    }
}

// The way from a list of which the condition holds to its first entry of which it does, or to itself.
fn way_to_entry(
    alloc: Global,
    condition: Condition,
    item: Item,
    items: &Array,
) -> Result<Vec<Step>, AllocError>
    ensures { let d = array (array_view items.now) in value_has condition (Some (Many item)) d ≡ true
        → IfOk result (λ way. LeadsTo condition (Some (Many item)) d way.items) }
{
    match first_bad_entry(alloc, condition, item, items)? {
        Some(index) => after(Step::Entry(index), Vec::new(alloc)),
        None => Ok(Vec::new(alloc)),
    }
}

// The first entry of a list of which the condition holds.
fn first_bad_entry(
    alloc: Global,
    condition: Condition,
    item: Item,
    items: &Array,
) -> Result<Option<usize>, AllocError>
    ensures { IfOk result (λ index. IfSome index (IsBadEntry condition item (array_view items.now))) }
{
    for (index, value) in items.iter().enumerate() {
        if value_has(alloc, condition, Some(Shape::One(item)), value)? {
            return Ok(Some(index));
        }
    }
    Ok(None)
}

// The way from the value at a key to the first place inside it of which the condition holds.
#[cycle(ways)]
fn way_inside(
    alloc: Global,
    condition: Condition,
    shape: Option<Shape>,
    value: &Value,
) -> Result<Option<Vec<Step>>, AllocError>
    ensures { let d = view value.now in IfOk result (Finds condition shape d (inside_has condition shape d)) }
{
    match shape {
        Some(Shape::One(Item::Table(schema))) => match value {
            Value::Table(table) => way_in_table(alloc, condition, schema, table),
            _ => Ok(None),
        },
        Some(Shape::Many(Item::Table(schema))) => match value {
            Value::Array(items) => {
                if !are_tables(items) {
                    return Ok(None);
                }
                way_in_items(alloc, condition, schema, items)
            }
            _ => Ok(None),
        },
        _ => Ok(None),
    }
}

// The way from a list of tables to the first place in one of which the condition holds.
#[cycle(ways)]
fn way_in_items(
    alloc: Global,
    condition: Condition,
    schema: Schema,
    items: &Array,
) -> Result<Option<Vec<Step>>, AllocError>
    ensures { let ds = array_view items.now in are_tables ds ≡ true
        → IfOk result (Finds condition (Some (Many (Table schema))) (array ds) (items_have condition schema ds)) }
{
    for (index, value) in items.iter().enumerate() {
        let shape = Some(Shape::One(Item::Table(schema)));
        if let Some(way) = way_inside(alloc, condition, shape, value)? {
            return Ok(Some(after(Step::Entry(index), way)?));
        }
    }
    Ok(None)
}

// The way in a table of which the condition holds by itself: to the first key that is missing, or to the first params with
// the name of a point.
fn way_in_itself(
    alloc: Global,
    condition: Condition,
    schema: Schema,
    table: &Table,
) -> Result<Option<Vec<Step>>, AllocError>
    ensures { let ms = table_view table.now in
        IfOk result (FindsFrom condition schema ms (table_has condition schema ms)) }
{
    match condition {
        Condition::MissingKey => match first_missing(schema, table) {
            Some(key) => Ok(Some(to_key(alloc, key, Vec::new(alloc))?)),
            None => Ok(None),
        },
        Condition::Twice => match schema {
            Schema::Bean => way_to_params(alloc, table),
            _ => Ok(None),
        },
        _ => Ok(None),
    }
}

// The way to the first params of a bean of which one has the name of a point.
fn way_to_params(alloc: Global, bean: &Table) -> Result<Option<Vec<Step>>, AllocError>
    ensures { let ms = table_view bean.now in
        IfOk result (FindsFrom Condition.Twice Schema.Bean ms (has_param_named_as_point ms)) }
{
    if let Some(index) = first_such_method(alloc, bean, "producers")? {
        return Ok(Some(to_params(alloc, "producers", index)?));
    }
    match first_such_method(alloc, bean, "observers")? {
        Some(index) => Ok(Some(to_params(alloc, "observers", index)?)),
        None => Ok(None),
    }
}

// The way to the params of the method at a number in the list at a key.
fn to_params(alloc: Global, key: &str, index: usize) -> Result<Vec<Step>, AllocError>
    ensures { IfOk result (λ way. IsToParams key.now index way.items) }
{
    let params = to_key(alloc, "params", Vec::new(alloc))?;
    to_key(alloc, key, after(Step::Entry(index), params)?)
}

// The first key that a table must have and lacks.
fn first_missing(schema: Schema, table: &Table) -> Option<&'static str>
    ensures { option_map (λ k. k.now) result ≡ first_missing (rows schema) (table_view table.now) }
{
    for row in schema.rows() {
        if row.is_required && value_at(table, row.key).is_none() {
            return Some(row.key);
        }
    }
    None
}

/// The way with a step to a key before it.
pub(crate) fn to_key(alloc: Global, key: &str, way: Vec<Step>) -> Result<Vec<Step>, AllocError>
    ensures { IfOk result (λ longer. IsByKey key.now way.items longer.items) }
{
    after(Step::Key(String::from_str(alloc, key)?), way)
}

// The way with one step before it. A way has at most six steps.
fn after(step: Step, mut way: Vec<Step>) -> Result<Vec<Step>, AllocError>
    ensures { IfOk result (λ longer. longer.items ≡ step ∷ way.items) }
{
    way.insert(0, step)?;
    Ok(way)
}
