ghost use Rattle.std.specs.Prelude.{◌≡◌, ◌++◌, IfOk, OnOk, Ok, Some, map, option_copied};
ghost use Rattle.std.specs.List.{list_any};
ghost use Rattle.std.specs.Str.{bytes_eq};
ghost use Rattle.msb_laws.specs.Results.{map_ok};
ghost use Rattle.msb_elements.specs.Nodes.{attributes_of};
ghost use Rattle.msb_elements.specs.View.{view};
ghost use Rattle.msb_values.specs.Caused.{GivesCause};
ghost use Rattle.msb_expand.specs.Scenes.{scene_of};
ghost use Rattle.msb_batching.specs.Buckets.{buckets_value};
ghost use Rattle.build_world.specs.Answers.{GivesFault};
ghost use Rattle.build_world.specs.Elements.{children_of, or_fault, seen_element};
ghost use Rattle.msb_items.specs.Answers.{GivesCauseAs};
ghost use Rattle.msb_items.specs.Batched.{
  attribute_read,
  buckets_by,
  child_read,
  condition_read,
  element_buckets,
  inner_read,
  joined_ok,
  or_batch_cause,
  own_buckets,
  own_read,
  text_read,
  texts_read,
};
ghost use Rattle.msb_items.specs.ReadTexts.{exprs_in, exprs_of};

use build_world::{EvalFault, PlacedElement};
use msb_batching::buckets;
use msb_condition::Cond;
use msb_expand::{Bucket, Lens, expression_cause};
use msb_expression::Expr;
use msb_values::{Cause, List, Name, NoMemory, Text};
use std::alloc::Global;

/// A text of an element, as it is read.
#[derive(Drop)]
pub(crate) enum ReadText {
    Text(Expr),
    Condition(Cond),
}

/// The buckets of an element in a target, and of an item element by its own type as well, as the
/// lens sees it. The texts are the attributes in byte order of their names, but for the ignored
/// ones, then the element's own text, and then each child's Condition and text. All are read first.
/// (MSBuild batching.)
pub fn element_buckets(
    alloc: Global,
    lens: &Lens<'_>,
    ignored: &[&str],
    element: &PlacedElement<'_>,
    own: Option<&Name>,
) -> Result<List<Bucket>, EvalFault>
    ensures { GivesFault (λ buckets. buckets) result
        (element_buckets (scene_of lens.now) (map (λ name. name.now) ignored.now)
        (seen_element element.now) (option_copied own.entry)) }
{
    let read = read_texts(alloc, ignored, element)?;
    buckets_by(alloc, lens, element, own, &read)
}

/// The buckets of an element in a target by its own texts alone, without those of its children, as
/// the lens sees it. (MSBuild batching.)
pub fn own_buckets(
    alloc: Global,
    lens: &Lens<'_>,
    ignored: &[&str],
    element: &PlacedElement<'_>,
) -> Result<List<Bucket>, EvalFault>
    ensures { GivesFault (λ buckets. buckets) result
        (own_buckets (scene_of lens.now) (map (λ name. name.now) ignored.now)
        (seen_element element.now)) }
{
    let read = read_own(alloc, ignored, element)?;
    buckets_by(alloc, lens, element, None, &read)
}

/// The buckets of an element by these texts of it.
fn buckets_by(
    alloc: Global,
    lens: &Lens<'_>,
    element: &PlacedElement<'_>,
    own: Option<&Name>,
    read: &[ReadText],
) -> Result<List<Bucket>, EvalFault>
    ensures { GivesFault (λ buckets. buckets) result
        (buckets_by (scene_of lens.now) (seen_element element.now) (option_copied own.entry)
        (exprs_in read.now)) }
{
    match read_buckets(alloc, lens, read, own) {
        Ok(buckets) => Ok(buckets),
        Err(cause) => Err(element.fault(alloc, cause)),
    }
}

/// The buckets by these texts.
fn read_buckets(
    alloc: Global,
    lens: &Lens<'_>,
    read: &[ReadText],
    own: Option<&Name>,
) -> Result<List<Bucket>, Cause>
    ensures { GivesCause result
        (or_batch_cause
        (buckets_value (scene_of lens.now) (exprs_in read.now) (option_copied own.entry))) }
{
    let texts = expressions(alloc, read)?;
    Ok(buckets(alloc, lens, &texts, own)?)
}

fn expressions(alloc: Global, read: &[ReadText]) -> Result<Vec<&Expr>, NoMemory>
    ensures { IfOk result (λ texts. map (λ text. text.now) texts.items ≡ exprs_in read.now) }
{
    let mut texts = Vec::new(alloc);
    for text in read {
        push_expressions(&mut texts, text)?;
    }
    Ok(texts)
}

fn push_expressions<'r>(texts: &mut Vec<&'r Expr>, read: &'r ReadText) -> Result<(), NoMemory>
    ensures { OnOk result (map (λ text. text.now) texts.new.items
        ≡ map (λ text. text.now) texts.old.items ++ exprs_of read.now) }
{
    match read {
        ReadText::Text(expr) => Ok(texts.push(expr)?),
        ReadText::Condition(condition) => condition.push_texts(texts),
    }
}

/// Reads the texts of an element and of its children.
fn read_texts(
    alloc: Global,
    ignored: &[&str],
    element: &PlacedElement<'_>,
) -> Result<Vec<ReadText>, EvalFault>
    ensures { GivesFault (λ read. exprs_in read.items) result
        (texts_read (map (λ name. name.now) ignored.now) (seen_element element.now)) }
{
    let mut read = read_own(alloc, ignored, element)?;
    push_children(alloc, &mut read, element)?;
    Ok(read)
}

/// Reads the attributes and the text of an element.
fn read_own(
    alloc: Global,
    ignored: &[&str],
    element: &PlacedElement<'_>,
) -> Result<Vec<ReadText>, EvalFault>
    ensures { GivesFault (λ read. exprs_in read.items) result
        (or_fault (seen_element element.now)
        (own_read (map (λ name. name.now) ignored.now) (seen_element element.now))) }
{
    let mut read = Vec::new(alloc);
    match push_own(alloc, &mut read, ignored, element) {
        Ok(()) => Ok(read),
        Err(cause) => Err(element.fault(alloc, cause)),
    }
}

fn push_own(
    alloc: Global,
    read: &mut Vec<ReadText>,
    ignored: &[&str],
    element: &PlacedElement<'_>,
) -> Result<(), Cause>
    ensures { GivesCauseAs (λ _. exprs_in read.new.items) result
        (map_ok (λ more. exprs_in read.old.items ++ more)
        (own_read (map (λ name. name.now) ignored.now) (seen_element element.now))) }
{
    push_attributes(alloc, read, ignored, element)?;
    push_text(alloc, read, element.element.text())
}

fn push_attributes(
    alloc: Global,
    read: &mut Vec<ReadText>,
    ignored: &[&str],
    element: &PlacedElement<'_>,
) -> Result<(), Cause>
    ensures { GivesCauseAs (λ _. exprs_in read.new.items) result
        (map_ok (λ more. exprs_in read.old.items ++ more)
        (joined_ok (attribute_read (map (λ name. name.now) ignored.now))
        (attributes_of (view element.now.element.now)))) }
{
    for attribute in element.element.attributes() {
        push_attribute(alloc, read, ignored, attribute)?;
    }
    Ok(())
}

fn push_attribute(
    alloc: Global,
    read: &mut Vec<ReadText>,
    ignored: &[&str],
    attribute: &(Text, Text),
) -> Result<(), Cause>
    ensures { GivesCauseAs (λ _. exprs_in read.new.items) result
        (map_ok (λ more. exprs_in read.old.items ++ more)
        (attribute_read (map (λ name. name.now) ignored.now) attribute.now)) }
{
    let (name, text) = attribute;
    if is_ignored(ignored, name.as_str()) {
        return Ok(());
    }
    if name.as_str() == "Condition" {
        return push_condition(alloc, read, Some(text.as_str()));
    }
    push_text(alloc, read, text.as_str())
}

fn is_ignored(ignored: &[&str], name: &str) -> bool
    ensures { result ≡ list_any (bytes_eq name.now) (map (λ name. name.now) ignored.now) }
{
    is_any(ignored, name)
}

fn is_any(names: &[&str], name: &str) -> bool
    ensures { result ≡ list_any (λ other. bytes_eq name.now other.now) names.now }
{
    names.iter().any(|other| name == *other)
}

fn push_children(
    alloc: Global,
    read: &mut Vec<ReadText>,
    element: &PlacedElement<'_>,
) -> Result<(), EvalFault>
    ensures { GivesFault (λ _. exprs_in read.new.items) result
        (map_ok (λ more. exprs_in read.old.items ++ more)
        (joined_ok child_read (children_of (seen_element element.now)))) }
{
    for child in element.element.children() {
        push_child(alloc, read, &element.child(child))?;
    }
    Ok(())
}

/// Reads the Condition and the text of a child.
fn push_child(
    alloc: Global,
    read: &mut Vec<ReadText>,
    child: &PlacedElement<'_>,
) -> Result<(), EvalFault>
    ensures { GivesFault (λ _. exprs_in read.new.items) result
        (map_ok (λ more. exprs_in read.old.items ++ more) (child_read (seen_element child.now))) }
{
    match push_inner(alloc, read, child) {
        Ok(()) => Ok(()),
        Err(cause) => Err(child.fault(alloc, cause)),
    }
}

fn push_inner(
    alloc: Global,
    read: &mut Vec<ReadText>,
    child: &PlacedElement<'_>,
) -> Result<(), Cause>
    ensures { GivesCauseAs (λ _. exprs_in read.new.items) result
        (map_ok (λ more. exprs_in read.old.items ++ more) (inner_read (seen_element child.now))) }
{
    push_condition(alloc, read, child.element.attribute("Condition"))?;
    push_text(alloc, read, child.element.text())
}

fn push_condition(
    alloc: Global,
    read: &mut Vec<ReadText>,
    written: Option<&str>,
) -> Result<(), Cause>
    ensures { GivesCauseAs (λ _. exprs_in read.new.items) result
        (map_ok (λ more. exprs_in read.old.items ++ more)
        (condition_read (option_copied written.entry))) }
{
    match written {
        Some(written) => push_written_condition(alloc, read, written),
        None => Ok(()),
    }
}

fn push_written_condition(
    alloc: Global,
    read: &mut Vec<ReadText>,
    written: &str,
) -> Result<(), Cause>
    ensures { GivesCauseAs (λ _. exprs_in read.new.items) result
        (map_ok (λ more. exprs_in read.old.items ++ more) (condition_read (Some written.now))) }
{
    let condition = msb_condition::parse(alloc, written)?;
    push(read, ReadText::Condition(condition))
}

fn push_text(alloc: Global, read: &mut Vec<ReadText>, written: &str) -> Result<(), Cause>
    ensures { GivesCauseAs (λ _. exprs_in read.new.items) result
        (map_ok (λ more. exprs_in read.old.items ++ more) (text_read written.now)) }
{
    match msb_expression::parse(alloc, written) {
        Ok(expr) => push(read, ReadText::Text(expr)),
        Err(fault) => Err(expression_cause(fault)),
    }
}

fn push(read: &mut Vec<ReadText>, text: ReadText) -> Result<(), Cause>
    ensures { GivesCauseAs (λ _. exprs_in read.new.items) result
        (Ok (exprs_in read.old.items ++ exprs_of text)) }
{
    Ok(read.push(text)?)
}
