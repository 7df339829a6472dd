ghost use Rattle.std.specs.Prelude.{◌≡◌, ℕ, List, ◌++◌, IfOk, OnOk, codes};
ghost use Rattle.std.specs.List.{flat_map};
ghost use Rattle.msb_expression.specs.Grammar.{IsReading};
ghost use Rattle.msb_expression.specs.Written.{
  piece_text,
  quoted_text,
  listed_text,
  args_text,
  parenthesized_text,
  call_text,
  dotted_text,
  build_calls_text,
  function_text,
  step_text,
  separator_text,
  part_text,
  text_of,
};

use crate::{Args, Call, Expr, NoRoom, Part, Piece, Pieces, Step, Word};
use std::alloc::Global;

impl Expr {
    /// The text without the spaces that the grammar allows.
    pub fn text(&self, alloc: Global) -> Result<Word, NoRoom>
        ensures text { IfOk result (λ word. word ≡ text_of self.now.parts) }

        // What was read from a text is read again from this one.
        ensures again { IfOk result (λ word. (text : List ℕ) → IsReading text self.now.parts
            → IsReading word self.now.parts) }
    {
        let mut word = Word::of(alloc, "")?;
        push_parts(&mut word, self.parts.as_slice())?;
        Ok(word)
    }
}

impl Part {
    /// The part's text without the spaces that the grammar allows.
    pub fn text(&self, alloc: Global) -> Result<Word, NoRoom>
        ensures { IfOk result (λ word. word ≡ part_text self.now) }
    {
        let mut word = Word::of(alloc, "")?;
        push_part(&mut word, self)?;
        Ok(word)
    }
}

fn push_parts(word: &mut Word, parts: &[Part]) -> Result<(), NoRoom>
    ensures { OnOk result (word.new ≡ word.old ++ flat_map part_text parts.now) }
{
    for part in parts {
        push_part(word, part)?;
    }
    Ok(())
}

fn push_part(word: &mut Word, part: &Part) -> Result<(), NoRoom>
    ensures { OnOk result (word.new ≡ word.old ++ part_text part.now) }
{
    match part {
        Part::Plain(plain) => word.push_str(plain.as_str()),
        Part::Prop(name) => push_reference(word, "$(", name),
        Part::Func(subject, calls) => push_function(word, subject, calls.as_slice()),
        Part::Meta(None, name) => push_reference(word, "%(", name),
        Part::Meta(Some(kind), name) => {
            word.push_str("%(")?;
            word.push_str(kind.as_str())?;
            push_reference(word, ".", name)
        }
        Part::Items(kind, steps, separator) => {
            word.push_str("@(")?;
            word.push_str(kind.as_str())?;
            push_steps(word, steps.as_slice())?;
            push_separator(word, separator)?;
            word.push_str(")")
        }
    }
}

fn push_function(word: &mut Word, subject: &Option<Word>, calls: &[Call]) -> Result<(), NoRoom>
    ensures { OnOk result (word.new ≡ word.old ++ function_text subject.now calls.now) }
{
    match subject {
        Some(name) => {
            word.push_str("$(")?;
            word.push_str(name.as_str())?;
            push_calls(word, calls)?;
            word.push_str(")")
        }
        None => {
            word.push_str("$([MSBuild]::")?;
            push_build_calls(word, calls)?;
            word.push_str(")")
        }
    }
}

/// The calls behind `::`, of which the first has no `.` before it.
fn push_build_calls(word: &mut Word, calls: &[Call]) -> Result<(), NoRoom>
    ensures { OnOk result (word.new ≡ word.old ++ build_calls_text calls.now) }
{
    match calls {
        [] => Ok(()),
        [first, others @ ..] => {
            push_call(word, first)?;
            push_calls(word, others)
        }
    }
}

fn push_calls(word: &mut Word, calls: &[Call]) -> Result<(), NoRoom>
    ensures { OnOk result (word.new ≡ word.old ++ flat_map dotted_text calls.now) }
{
    for call in calls {
        push_dotted(word, call)?;
    }
    Ok(())
}

fn push_dotted(word: &mut Word, call: &Call) -> Result<(), NoRoom>
    ensures { OnOk result (word.new ≡ word.old ++ dotted_text call.now) }
{
    word.push_str(".")?;
    push_call(word, call)
}

fn push_call(word: &mut Word, call: &Call) -> Result<(), NoRoom>
    ensures { OnOk result (word.new ≡ word.old ++ call_text call.now) }
{
    word.push_str(call.name.as_str())?;
    push_parenthesized(word, &call.args)
}

fn push_parenthesized(word: &mut Word, args: &Option<Args>) -> Result<(), NoRoom>
    ensures { OnOk result (word.new ≡ word.old ++ parenthesized_text args.now) }
{
    match args {
        None => Ok(()),
        Some(args) => push_in_parentheses(word, args.as_slice()),
    }
}

fn push_in_parentheses(word: &mut Word, args: &[Pieces]) -> Result<(), NoRoom>
    ensures { OnOk result (word.new ≡ word.old ++ (codes "(" ++ args_text args.now ++ codes ")")) }
{
    word.push_str("(")?;
    push_args(word, args)?;
    word.push_str(")")
}

/// The name behind what begins its reference, with a `)`.
fn push_reference(word: &mut Word, head: &str, name: &Word) -> Result<(), NoRoom>
    ensures { OnOk result (word.new ≡ word.old ++ (head.now ++ name.now ++ codes ")")) }
{
    word.push_str(head)?;
    word.push_str(name.as_str())?;
    word.push_str(")")
}

fn push_steps(word: &mut Word, steps: &[Step]) -> Result<(), NoRoom>
    ensures { OnOk result (word.new ≡ word.old ++ flat_map step_text steps.now) }
{
    for step in steps {
        push_step(word, step)?;
    }
    Ok(())
}

fn push_step(word: &mut Word, step: &Step) -> Result<(), NoRoom>
    ensures { OnOk result (word.new ≡ word.old ++ step_text step.now) }
{
    word.push_str("->")?;
    match step {
        Step::Transform(pieces) => push_quoted(word, pieces),
        Step::Call(function, args) => {
            word.push_str(function.as_str())?;
            word.push_str("(")?;
            push_args(word, args.as_slice())?;
            word.push_str(")")
        }
    }
}

fn push_separator(word: &mut Word, separator: &Option<Pieces>) -> Result<(), NoRoom>
    ensures { OnOk result (word.new ≡ word.old ++ separator_text separator.now) }
{
    match separator {
        None => Ok(()),
        Some(pieces) => push_listed(word, pieces),
    }
}

fn push_args(word: &mut Word, args: &[Pieces]) -> Result<(), NoRoom>
    ensures { OnOk result (word.new ≡ word.old ++ args_text args.now) }
{
    match args {
        [] => Ok(()),
        [first, others @ ..] => {
            push_quoted(word, first)?;
            push_others(word, others)
        }
    }
}

fn push_others(word: &mut Word, args: &[Pieces]) -> Result<(), NoRoom>
    ensures { OnOk result (word.new ≡ word.old ++ flat_map listed_text args.now) }
{
    for arg in args {
        push_listed(word, arg)?;
    }
    Ok(())
}

fn push_listed(word: &mut Word, pieces: &Pieces) -> Result<(), NoRoom>
    ensures { OnOk result (word.new ≡ word.old ++ listed_text pieces.now) }
{
    word.push_str(",")?;
    push_quoted(word, pieces)
}

fn push_quoted(word: &mut Word, pieces: &Pieces) -> Result<(), NoRoom>
    ensures { OnOk result (word.new ≡ word.old ++ quoted_text pieces.now) }
{
    word.push_str("'")?;
    push_pieces(word, pieces.as_slice())?;
    word.push_str("'")
}

fn push_pieces(word: &mut Word, pieces: &[Piece]) -> Result<(), NoRoom>
    ensures { OnOk result (word.new ≡ word.old ++ flat_map piece_text pieces.now) }
{
    for piece in pieces {
        push_piece(word, piece)?;
    }
    Ok(())
}

fn push_piece(word: &mut Word, piece: &Piece) -> Result<(), NoRoom>
    ensures { OnOk result (word.new ≡ word.old ++ piece_text piece.now) }
{
    match piece {
        Piece::Plain(plain) => word.push_str(plain.as_str()),
        Piece::Prop(name) => push_reference(word, "$(", name),
        Piece::Meta(name) => push_reference(word, "%(", name),
    }
}
